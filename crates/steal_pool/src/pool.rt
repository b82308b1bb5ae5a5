//! Putting and taking pieces.
ghost use Rattle.std.specs.Prelude.{◌≡◌, ◌<◌, map, length, slice_get, Some, IfSome, IfNone};
ghost use Rattle.steal_pool.specs.Hands.{IsHandOf, took_port, looked_port, standing, at_deque};
ghost use Rattle.steal_pool.specs.Calls.{Puts, Takes, Lists, took_from, looked_before, found_at, change};

use crate::deque::MOST_PIECES;
use crate::hand::Hand;
use crate::piece::Piece;
use crate::port::{Deque, Home, Port};
use line_instance::TaskSet;
use std::marker::Model;
use std::sync::Wait;

/// A pool of pieces of work. Contracts see which deques it has, in the order of the hands that own them.
#[derive(Drop)]
pub struct Pool {
    pub(crate) deques: Vec<Deque>,
}

impl Model for Pool {
    ghost use Rattle.std.specs.Prelude.{List};
    ghost use Rattle.steal_pool.specs.Hands.{DequeId};

    ghost Value = { List DequeId };

    ghost view = { λ p. p.deques.items };
}

/// What becomes of a piece that is put.
#[derive(Clone, Copy, Debug, PartialEq, Eq)]
pub enum PutBack {
    /// It is in the pool, with this number.
    Done(u64),
    /// The hand was dealt and has put 4,096 pieces together.
    Room,
}

/// What a hand takes.
#[derive(Drop)]
pub enum Took {
    Got(Piece),
    /// Each deque was empty at a moment of its own in the call.
    Empty,
}

impl Pool {
    /// Puts a piece on the hand's own deque. It takes no memory.
    pub fn put(&self, hand: &mut Hand, depth: u32, most: u32, set: &TaskSet) -> PutBack
        requires { IsHandOf self.now hand.old }
        ensures hand { IsHandOf self.now hand.new × (hand.new.name ≡ hand.old.name) }
        ensures puts { Puts hand.old depth most set.now result hand.new }
    {
        if hand.dealt + hand.put >= MOST_PIECES as u32 {
            return PutBack::Room;
        }
        let number = (u64::from(hand.name) + 1) * (1 << 32) + u64::from(hand.put);
        let piece = Piece {
            number,
            depth,
            most,
            set: *set,
        };
        self.deques[hand.name as usize].put(&mut hand.home, piece);
        hand.put += 1;
        PutBack::Done(number)
    }

    // Takes a piece from the deque that the hand owns.
    fn take_home<R: Wait>(
        &self,
        rt: &R,
        home: &mut Home,
        ports: &mut Vec<Port>,
        k: usize,
    ) -> Option<Piece>
        requires below { k < length self.now }
        requires home { slice_get self.now k ≡ Some home.old.deque }
        requires ports { map standing ports.old.items ≡ map at_deque self.now }
        ensures some { IfSome result (λ x. (home.new ≡ home.old)
            × (ports.new.items ≡ change (took_port x) k ports.old.items)) }
        ensures none { IfNone result ((home.new ≡ looked_port home.old) × (ports.new.items ≡ ports.old.items)) }
    {
        let port = &mut ports[k];
        self.deques[k].take_own(rt, home, port)
    }

    // Takes a piece from the hand's own deque.
    fn take_own<R: Wait>(&self, rt: &R, hand: &mut Hand) -> Option<Piece>
        requires { IsHandOf self.now hand.old }
        ensures some { IfSome result (λ x. hand.new ≡ took_from hand.old.name x hand.old) }
        ensures none { IfNone result (hand.new ≡ looked_before 0 hand.old) }
    {
        let own = hand.name as usize;
        self.take_home(rt, &mut hand.home, &mut hand.ports, own)
    }

    // Takes a piece from a deque.
    fn take_at<R: Wait>(&self, rt: &R, ports: &mut Vec<Port>, k: usize) -> Option<Piece>
        requires below { k < length self.now }
        requires ports { map standing ports.old.items ≡ map at_deque self.now }
        ensures some { IfSome result (λ x. ports.new.items ≡ change (took_port x) k ports.old.items) }
        ensures none { IfNone result (ports.new.items ≡ change looked_port k ports.old.items) }
    {
        let port = &mut ports[k];
        self.deques[k].take(rt, port)
    }

    // Takes a piece from a deque, where those before it were found empty.
    fn take_from<R: Wait>(&self, rt: &R, hand: &mut Hand, k: usize) -> Option<Piece>
        requires below { k < length self.now }
        requires hand { IsHandOf self.now hand.old }
        ensures some { IfSome result (λ x. hand.new ≡ took_from k x hand.old) }
        ensures none { IfNone result (hand.new ≡ found_at k hand.old) }
    {
        self.take_at(rt, &mut hand.ports, k)
    }

    /// Takes a piece from the hand's own deque, else from the first of all deques that has one. It may wait, trying
    /// again while another hand's step wins.
    pub fn take<R: Wait>(&self, rt: &R, hand: &mut Hand) -> Took
        requires { IsHandOf self.now hand.old }
        ensures hand { IsHandOf self.now hand.new × (hand.new.name ≡ hand.old.name) }
        ensures takes { Takes hand.old result hand.new }
        ensures lists { Lists hand.old result hand.new }
    {
        if let Some(piece) = self.take_own(rt, hand) {
            return Took::Got(piece);
        }
        for k in 0..self.deques.len() {
            match self.take_from(rt, hand, k) {
                Some(piece) => return Took::Got(piece),
                None => {}
            }
        }
        Took::Empty
    }
}
