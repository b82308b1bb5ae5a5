//! The steps on a deque and on its tally.
ghost use Rattle.std.specs.Prelude.{◌≡◌, ℕ, ◌+◌, ◌-◌, ◌^◌, ◌<◌, ◌≤◌, true, List, [], ◌∷◌, length, IfOk, IfSome, IfNone};
ghost use Rattle.std.specs.Prelude.{MatchBool};
ghost use Rattle.steal_pool.specs.declared.piece.Piece.{Piece};
ghost use Rattle.steal_pool.specs.Steps.{IsWhole, IsSettled};
ghost use Rattle.steal_pool.specs.Hands.{home_with, left_home, fresh_port, put_home, looked_port, took_port, joined};

use crate::piece::Piece;
use crate::port::{Deque, Home, Owner, Port, Room};
use crate::rules::{Announce, Cut, Halve, Look, Pushed, Report, Settle, Taken, Total};
use crossbeam_deque::Steal;
use std::alloc::{AllocError, Global};
use std::sync::Wait;
use std::thread;

/// How many pieces there is room for on a deque.
pub const MOST_PIECES: usize = 4096;

/// The only word of a tally.
const LEFT: usize = 0;

/// A deque with room for 4,096 pieces, and what its owner has of it.
pub fn open(alloc: Global) -> Result<(Deque, Home), AllocError>
    ensures { IfOk result (λ r. r.1 ≡ home_with 1024 r.0) }
{
    let worker = Owner::fifo_as(alloc, MOST_PIECES)?;
    let thief = worker.stealer()?;
    let (tally, seat) = Room::of_words(alloc, &[0], &())?;
    Ok((Deque { thief, tally }, Home { worker, seat }))
}

impl Deque {
    /// A port for a hand, with a part of what the owner has.
    pub fn port(&self, home: &mut Home) -> Port
        requires deque { home.old.deque ≡ self.now }
        requires parts { (1 < home.old.log.parts) × (1 < home.old.tally.parts) }
        ensures home { home.new ≡ left_home home.old }
        ensures port { result ≡ fresh_port self.now }
    {
        let pass = home.worker.another::<Cut>();
        let seat = self.tally.shared.split_seat::<Halve>(&mut home.seat);
        Port { pass, seat }
    }

    /// Ends a port: the owner has then what it took and reported.
    pub fn join(&self, home: &mut Home, port: Port)
        requires { (home.old.deque ≡ self.now) × (port.deque ≡ self.now) }
        ensures home { home.new ≡ joined home.old port }
        ensures gone { port.tally.gone ≡ length port.log.got }
    {
        let Port { pass, seat } = port;
        home.worker.absorb::<Cut>(pass);
        self.tally.shared.join_seat::<Halve>(&mut home.seat, seat);
    }

    /// Puts a piece. There is room for it.
    pub fn put(&self, home: &mut Home, piece: Piece)
        requires deque { home.old.deque ≡ self.now }
        requires boss { (home.old.tally.boss ≡ true) × (home.old.tally.put ≡ length home.old.log.own) }
        requires parts { (0 < home.old.log.parts) × (0 < home.old.tally.parts) }
        requires room { length home.old.log.own < 4096 }
        ensures { home.new ≡ put_home home.old piece }
    {
        self.tally
            .shared
            .fetch_add::<Announce>(&mut home.seat, LEFT, 1);
        match home.worker.push_as::<Pushed>(piece) {
            Ok(()) => {}
            Err(_) => unreachable!(),
        }
    }

    /// Whether all pieces that were put are taken: the owner's look.
    pub fn is_done(&self, home: &mut Home) -> bool
        requires { home.old.deque ≡ self.now }
        ensures { MatchBool result (home.new ≡ looked_port home.old) (home.new ≡ home.old) }
    {
        self.tally.shared.load::<Look>(&mut home.seat, LEFT) == 0
    }

    /// Whether all pieces that were put are taken.
    pub fn is_empty(&self, port: &mut Port) -> bool
        requires { port.old.deque ≡ self.now }
        ensures { MatchBool result (port.new ≡ looked_port port.old) (port.new ≡ port.old) }
    {
        self.tally.shared.load::<Look>(&mut port.seat, LEFT) == 0
    }

    /// Takes the first piece, where no other hand's step wins.
    pub fn try_take(&self, port: &mut Port) -> Option<Piece>
        requires port { (port.old.deque ≡ self.now) × (0 < port.old.log.parts) × (0 < port.old.tally.parts) }
        ensures some { IfSome result (λ x. port.new ≡ took_port x port.old) }
        ensures none { IfNone result (port.new ≡ port.old) }
    {
        match self.thief.steal_as::<Taken>(&mut port.pass) {
            Steal::Success(piece) => {
                self.tally
                    .shared
                    .fetch_sub::<Report>(&mut port.seat, LEFT, 1);
                Some(piece)
            }
            Steal::Empty => None,
            Steal::Retry => None,
        }
    }

    /// Takes the first piece for the owner. None says that at a moment of this call all that were put were taken: the
    /// mark is set then. While another hand's step wins it tries again.
    pub fn take_own<R: Wait>(&self, rt: &R, home: &mut Home, port: &mut Port) -> Option<Piece>
        requires home { home.old.deque ≡ self.now }
        requires port { (port.old.deque ≡ self.now) × (0 < port.old.log.parts) × (0 < port.old.tally.parts) }
        ensures some { IfSome result (λ x. (home.new ≡ home.old) × (port.new ≡ took_port x port.old)) }
        ensures none { IfNone result ((home.new ≡ looked_port home.old) × (port.new ≡ port.old)) }
    {
        for _ in rt.forever() {
            if self.is_done(home) {
                return None;
            }
            match self.try_take(port) {
                Some(piece) => return Some(piece),
                None => thread::yield_now(),
            }
        }
        unreachable!()
    }

    /// Takes the first piece. None says that at a moment of this call all that were put were taken; while another
    /// hand's step wins it tries again.
    pub fn take<R: Wait>(&self, rt: &R, port: &mut Port) -> Option<Piece>
        requires port { (port.old.deque ≡ self.now) × (0 < port.old.log.parts) × (0 < port.old.tally.parts) }
        ensures some { IfSome result (λ x. port.new ≡ took_port x port.old) }
        ensures none { IfNone result (port.new ≡ looked_port port.old) }
    {
        for _ in rt.forever() {
            if self.is_empty(port) {
                return None;
            }
            match self.try_take(port) {
                Some(piece) => return Some(piece),
                None => thread::yield_now(),
            }
        }
        unreachable!()
    }

    /// How many pieces are left, once all ports are joined.
    pub fn left(&self, home: &mut Home) -> u64
        requires deque { home.old.deque ≡ self.now }
        requires parts { (home.old.log.parts ≡ 1024) × (home.old.tally.parts ≡ 1024) }
        ensures same { home.new ≡ home.old }
        ensures left { (items : List Piece) × (length items ≡ result) × IsWhole home.old.log items }
        ensures mark { home.old.tally.mark ≡ true → home.old.tally.put ≤ home.old.tally.gone }
    {
        self.tally.shared.load::<Settle>(&mut home.seat, LEFT);
        home.worker.len_as::<Total>() as u64
    }
}
