//! What all hands share of a deque; what its owner has of it, a worker and a seat at its tally; and what each hand has
//! of it, a pass and a seat.
use crate::piece::Piece;
use crate::rules::{Counting, Dealing};
use crate::views::{LogView, TallyView};
use atomic_table::{Seat, Table};
use crossbeam_deque::{Pass, Stealer, Worker};
use std::alloc::Global;
use std::marker::Model;

/// The end of a deque at which its owner puts pieces.
pub type Owner = Worker<Piece, Global, LogView, Dealing>;

type Thief = Stealer<Piece, Global, LogView, Dealing>;

/// A tally: one word, how many pieces were put and not yet taken.
pub type Room = Table<(), TallyView, (), Counting, Global>;

pub type Sitter = Seat<(), TallyView>;

/// A deque as hands share it. Contracts see which deque it is.
#[derive(Drop)]
pub struct Deque {
    pub thief: Thief,
    pub tally: Room,
}

impl Model for Deque {
    ghost use Rattle.std.specs.Prelude.{◌≡◌};
    ghost use Rattle.crossbeam_deque.specs.Handles.{stealer_deque, stealer_flavor};
    ghost use Rattle.steal_pool.specs.Hands.{DequeId};

    ghost Value = { DequeId };

    ghost view = { λ d. record { pieces = stealer_deque d.thief; tally = d.tally.shared.table_id } };

    ghost invariant = { λ d. (stealer_flavor d.thief ≡ 0) × (d.tally.shared.table_id.words ≡ 1) };
}

/// What the owner has of its deque. Contracts see what it knows.
#[derive(Drop)]
pub struct Home {
    pub worker: Owner,
    pub seat: Sitter,
}

impl Model for Home {
    ghost use Rattle.crossbeam_deque.specs.Handles.{worker_deque, worker_view};
    ghost use Rattle.steal_pool.specs.Hands.{DequeId, PortView};
    ghost use Rattle.steal_pool.specs.inner.Inside.{HasRoom};

    ghost Value = { PortView };

    ghost view = { λ h. record {
      deque = record { pieces = worker_deque h.worker; tally = h.seat.table_id };
      log = worker_view h.worker;
      tally = h.seat.me.0;
    } };

    ghost invariant = { λ h. HasRoom h.worker h.seat.me };
}

/// What a hand has of a deque. It has no bytes. Contracts see what it knows.
#[derive(Drop)]
pub struct Port {
    pub pass: Pass<Piece, LogView>,
    pub seat: Sitter,
}

impl Model for Port {
    ghost use Rattle.steal_pool.specs.Hands.{DequeId, PortView};
    ghost use Rattle.steal_pool.specs.inner.Inside.{IsResting};

    ghost Value = { PortView };

    ghost view = { λ p. record {
      deque = record { pieces = (p.pass.rows, p.pass.heap); tally = p.seat.table_id };
      log = p.pass.me.view.client;
      tally = p.seat.me.0;
    } };

    ghost invariant = { λ p. IsResting p.pass p.seat.me };
}
