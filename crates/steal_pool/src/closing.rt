//! Closing a pool: each deque's owner is given what all hands know of it, and what is left is counted.
ghost use Rattle.std.specs.Prelude.{◌≡◌, List, [], ◌≤◌, length, map};
ghost use Rattle.steal_pool.specs.declared.piece.Piece.{Piece};
ghost use Rattle.steal_pool.specs.Hands.{AreHandsOf, HandView, own_of, standing, at_deque};
ghost use Rattle.steal_pool.specs.Closing.{IsClosed, joined_one, joined_hands, HasReported, HaveReported, AreGathered};
ghost use Rattle.steal_pool.specs.Closing.{IsLeft, AreWhole, AreCounted};

use crate::hand::{Hand, Hands};
use crate::pool::Pool;
use crate::port::{Deque, Port};
use std::alloc::Global;
use std::mem;

/// How many pieces were dealt and put, how many of them were taken, and how many were left.
#[derive(Clone, Copy, Debug, PartialEq, Eq)]
pub struct Closed {
    pub put: u64,
    pub taken: u64,
    pub left: u64,
}

// Joins a port into the owner of its deque.
fn join_one(deque: &Deque, hand: &mut Hand, port: Port)
    requires { (hand.old.home.deque ≡ deque.now) × (port.deque ≡ deque.now) }
    ensures hand { hand.new ≡ joined_one port hand.old }
    ensures reported { HasReported port }
{
    deque.join(&mut hand.home, port);
}

// Joins the ports of a hand, each into the owner of its deque.
fn join_ports(deques: &Vec<Deque>, hands: &mut Vec<Hand>, ports: Vec<Port>)
    requires hands { map (λ (v : HandView). v.home.deque) hands.old.items ≡ deques.now.items }
    requires ports { map standing ports.items ≡ map at_deque deques.now.items }
    ensures hands { hands.new.items ≡ joined_hands hands.old.items ports.items }
    ensures reported { HaveReported ports.items }
{
    let mut k = 0;
    for port in ports {
        let hand = &mut hands[k];
        join_one(&deques[k], hand, port);
        k += 1;
    }
}

// Takes the ports of a hand.
fn take_ports(alloc: Global, hand: &mut Hand) -> Vec<Port>
    ensures ports { result.items ≡ hand.old.ports }
    ensures hand { hand.new ≡ record hand.old { ports = [] } }
{
    mem::replace(&mut hand.ports, Vec::new(alloc))
}

// Joins the ports of all hands.
fn join_all(alloc: Global, deques: &Vec<Deque>, hands: &mut Vec<Hand>)
    requires { AreHandsOf deques.now.items hands.old.items }
    ensures { AreGathered deques.now.items hands.old.items (length hands.old.items) hands.new.items }
{
    for j in 0..deques.len() {
        let hand = &mut hands[j];
        let ports = take_ports(alloc, hand);
        join_ports(deques, hands, ports);
    }
}

// How many pieces were put on an owner's deque, and how many are left there.
fn count_one(deque: &Deque, hand: &mut Hand) -> (u64, u64)
    requires deque { hand.old.home.deque ≡ deque.now }
    requires parts { (hand.old.home.log.parts ≡ 1024) × (hand.old.home.tally.parts ≡ 1024) }
    ensures same { hand.new ≡ hand.old }
    ensures put { result.0 ≡ length (own_of hand.old) }
    ensures left { (xs : List Piece) × (length xs ≡ result.1) × IsLeft hand.old xs }
{
    let put = u64::from(hand.dealt) + u64::from(hand.put);
    (put, deque.left(&mut hand.home))
}

// How many pieces were put on all deques, and how many are left.
fn count_all(deques: &Vec<Deque>, hands: &mut Vec<Hand>) -> (u64, u64)
    requires { AreWhole deques.now.items hands.old.items }
    ensures { AreCounted hands.old.items (length hands.old.items) result.0 result.1 }
{
    let mut put = 0;
    let mut left = 0;
    for k in 0..deques.len() {
        let hand = &mut hands[k];
        let (own, rest) = count_one(&deques[k], hand);
        put += own;
        left += rest;
    }
    (put, left)
}

impl Pool {
    /// Ends the pool, and counts: what was dealt and put is what was taken and what is left.
    pub fn close(self, hands: Hands) -> Closed
        requires { AreHandsOf self hands }
        ensures { IsClosed hands result }
    {
        let Pool { deques } = self;
        let Hands { mut hands, alloc } = hands;
        join_all(alloc, &deques, &mut hands);
        let (put, left) = count_all(&deques, &mut hands);
        Closed {
            put,
            taken: put - left,
            left,
        }
    }
}
