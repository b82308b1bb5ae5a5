//! Opening a pool: a deque for each hand, a port for each hand at each deque, and the pieces dealt in turn.
ghost use Rattle.std.specs.Prelude.{◌≡◌, ◌<◌, ◌≤◌, ◌+◌, [], length, map, IfOk};
ghost use Rattle.steal_pool.specs.Hands.{AreNumbered, AreHandsOf, new_hands, fresh_port};
ghost use Rattle.steal_pool.specs.Opening.{Opens, bare_hands, seated_hands, CanLeave, left_hand, CanDeal, dealt_one};

use crate::deque;
use crate::hand::{Hand, Hands};
use crate::piece::Piece;
use crate::pool::Pool;
use crate::port::{Deque, Port};
use std::alloc::{AllocError, Global};

/// What comes of opening a pool.
#[derive(Drop)]
pub enum Opened {
    Good(Pool, Hands),
    NoMemory,
}

// So many deques, and their owners, who have no ports yet.
fn open_deques(alloc: Global, count: u32) -> Result<(Vec<Deque>, Vec<Hand>), AllocError>
    ensures { IfOk result (λ r. (length r.0.items ≡ count) × (r.1.items ≡ bare_hands r.0.items)) }
{
    let mut deques = Vec::with_capacity(alloc, count as usize)?;
    let mut hands = Vec::with_capacity(alloc, count as usize)?;
    for name in 0..count {
        let (deque, home) = deque::open(alloc)?;
        deques.push_reserved(deque);
        hands.push_reserved(Hand {
            name,
            dealt: 0,
            put: 0,
            home,
            ports: Vec::new(alloc),
        });
    }
    Ok((deques, hands))
}

// A port at each deque.
fn ports_of(
    alloc: Global,
    deques: &Vec<Deque>,
    hands: &mut Vec<Hand>,
) -> Result<Vec<Port>, AllocError>
    requires { CanLeave deques.now.items hands.old.items }
    ensures { IfOk result (λ r. (r.items ≡ map fresh_port deques.now.items)
        × (hands.new.items ≡ map left_hand hands.old.items)) }
{
    let mut ports = Vec::with_capacity(alloc, deques.len())?;
    for k in 0..deques.len() {
        let hand = &mut hands[k];
        ports.push_reserved(deques[k].port(&mut hand.home));
    }
    Ok(ports)
}

// Gives each hand its ports.
fn seat_hands(alloc: Global, deques: &Vec<Deque>, hands: &mut Vec<Hand>) -> Result<(), AllocError>
    requires few { length deques.now.items ≤ 64 }
    requires bare { hands.old.items ≡ bare_hands deques.now.items }
    ensures { IfOk result (λ _. hands.new.items ≡ seated_hands deques.now.items) }
{
    for j in 0..deques.len() {
        let ports = ports_of(alloc, deques, hands)?;
        let hand = &mut hands[j];
        hand.ports = ports;
    }
    Ok(())
}

// Deals a piece to a hand.
fn deal_one(deque: &Deque, hand: &mut Hand, piece: Piece)
    requires { CanDeal deque.now hand.old }
    ensures { hand.new ≡ dealt_one piece hand.old }
{
    deque.put(&mut hand.home, piece);
    hand.dealt += 1;
}

// Deals the pieces, each to the hand whose number is the remainder of its own.
fn deal(deques: &Vec<Deque>, hands: &mut Vec<Hand>, pieces: Vec<Piece>)
    requires hands { (0 < length deques.now.items) × (length deques.now.items ≤ 64) }
    requires few { length pieces.items ≤ 4096 }
    requires seated { hands.old.items ≡ seated_hands deques.now.items }
    ensures { hands.new.items ≡ new_hands deques.now.items pieces.items }
{
    for piece in pieces {
        let k = (piece.number % deques.len() as u64) as usize;
        let hand = &mut hands[k];
        deal_one(&deques[k], hand, piece);
    }
}

fn open_all(alloc: Global, pieces: Vec<Piece>, count: u32) -> Result<(Pool, Hands), AllocError>
    requires hands { (0 < count) × (count ≤ 64) }
    requires few { length pieces.items ≤ 4096 }
    ensures { IfOk result (λ r. (length r.0 ≡ count) × (r.1 ≡ new_hands r.0 pieces.items)) }
{
    let (deques, mut hands) = open_deques(alloc, count)?;
    seat_hands(alloc, &deques, &mut hands)?;
    deal(&deques, &mut hands, pieces);
    Ok((Pool { deques }, Hands { hands, alloc }))
}

/// Opens a pool of so many hands, 1 to 64, with pieces that are numbered by their places, of which there are 4,096 at
/// most. Room for 4,096 pieces a hand is taken.
pub fn open_pool(alloc: Global, pieces: Vec<Piece>, hands: u32) -> Opened
    requires hands { (0 < hands) × (hands ≤ 64) }
    requires few { length pieces.items ≤ 4096 }
    requires numbered { AreNumbered pieces.items }
    ensures { Opens pieces.items hands result }
{
    match open_all(alloc, pieces, hands) {
        Ok((pool, hands)) => Opened::Good(pool, hands),
        Err(_) => Opened::NoMemory,
    }
}
