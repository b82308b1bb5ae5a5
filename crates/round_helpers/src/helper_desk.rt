//! The desk of one helper: a part in the shared book, a place at the board of hints, and a gate before each publish.
//!
//! Its calls are those of the share that wait for the turn; the gate has no effect on what they answer. Most finds end
//! without a turn, at what the pass keeps of what it has seen; what other helpers publish is seen at the next turn. The
//! board says what others claim and whether somebody called the end, and nothing rests on that. The desk keeps numbers
//! by which the helper's pass is known again after a search.
ghost use Rattle.std.specs.Prelude.{◌≡◌};
ghost use Rattle.book_share.specs.Calls.{IsPassOf};
ghost use Rattle.round_helpers.specs.inner.Seats.{helper_desk};

use crate::gates::Gate;
use crate::question_work::Shared;
use book_share::{Glimpsed, Pass, Share};
use claim_board::Board;
use lemma_core::{Desk, Looked, Offered, Published};
use line_instance::TaskSet;
use line_rules::{Balance, Entry};
use station_search::Beside;
use std::sync::Wait;

/// A helper's desk at a shared book: it isn't alone, and its list is what its pass has seen.
#[derive(Drop)]
pub struct HelperDesk<'a, R: Wait, G: Gate> {
    /// The leave to wait for the turn.
    pub rt: &'a R,
    /// The share.
    pub share: &'a Share,
    /// A pass of it.
    pub pass: &'a mut Pass,
    /// Where helpers say what they are at.
    pub board: &'a Board,
    /// What the helper meets before each publish.
    pub gate: &'a G,
    /// The helper's number, from 1.
    pub helper: u32,
    /// How often the helper published.
    pub publishes: u64,
    /// Whether it asks the board for the end.
    pub asks: bool,
    pub ghost fits: { IsPassOf share.now pass.now },
}

impl<'a, R: Wait, G: Gate> Desk for HelperDesk<'a, R, G> {
    ghost desk = { λ d. helper_desk d.pass.ghost_name d.share.now d.pass.now.view };

    fn look(&mut self, set: &TaskSet, most: u32) -> Looked {
        self.share.look(self.rt, self.pass, set, most)
    }

    fn publish(&mut self, step: Entry) -> Published {
        self.gate.pass_gate(self.helper, self.publishes);
        self.publishes = self.publishes.saturating_add(1);
        self.share.publish(self.rt, self.pass, step)
    }

    fn offer(&mut self, balance: Balance) -> Offered {
        self.share.offer(self.rt, self.pass, balance)
    }

    fn least(&mut self) -> u32 {
        self.share.least(self.pass)
    }
}

impl<'a, R: Wait, G: Gate> Beside for HelperDesk<'a, R, G> {
    fn find(&mut self, set: &TaskSet, most: u32) -> Option<u64> {
        match self.share.glimpse(self.pass, set, most) {
            Glimpsed::Found(id) => return Some(id),
            Glimpsed::Absent => return None,
            Glimpsed::Unknown => {}
        }
        match self.share.look(self.rt, self.pass, set, most) {
            Looked::Found { id, .. } => Some(id),
            Looked::Absent => None,
        }
    }

    fn is_claimed(&mut self, set: &TaskSet, most: u32) -> bool {
        self.board.is_claimed(self.helper, set, most)
    }

    fn claim(&mut self, set: &TaskSet, most: u32) {
        self.board.claim(self.helper, set, most);
    }

    fn is_ended(&mut self) -> bool {
        self.asks && self.board.is_ended()
    }
}

impl<'a, R: Wait, G: Gate> Shared for HelperDesk<'a, R, G> {
    fn call_end(&mut self) {
        self.board.call_end();
    }

    fn stop_asking(&mut self) {
        self.asks = false;
    }
}
