//! A share as a desk, by the calls that wait for the turn: a search over any desk works on it, beside others.
ghost use Rattle.std.specs.Prelude.{◌≡◌};
ghost use Rattle.lemma_core.specs.Desks.{HasOwn, Tells};
ghost use Rattle.book_share.specs.Passes.{desk_by};
ghost use Rattle.book_share.specs.Steps.{loaded, IsLeastCount};
ghost use Rattle.book_share.specs.Calls.{IsPassOf};

use crate::pass::{Pass, Share};
use lemma_core::{Desk, Looked, Offered, Published};
use line_instance::TaskSet;
use line_rules::{Balance, Entry};
use std::sync::Wait;

/// A desk at a shared book: it isn't alone, and its list is what the pass has seen.
#[derive(Drop)]
pub struct Desked<'a, R: Wait> {
    /// The leave to wait for the turn.
    pub rt: &'a R,
    /// The share.
    pub share: &'a Share,
    /// A pass of it.
    pub pass: &'a mut Pass,
    pub ghost fits: { IsPassOf share.now pass.now },
}

impl<'a, R: Wait> Desk for Desked<'a, R> {
    ghost desk = { λ d. desk_by d.pass.now.view };

    fn look(&mut self, set: &TaskSet, most: u32) -> Looked {
        self.share.look(self.rt, self.pass, set, most)
    }

    fn publish(&mut self, step: Entry) -> Published {
        self.share.publish(self.rt, self.pass, step)
    }

    fn offer(&mut self, balance: Balance) -> Offered {
        self.share.offer(self.rt, self.pass, balance)
    }

    /// As of each desk; and the count was loaded from the share in this call.
    fn least(&mut self) -> u32
        ensures tells { Tells (desk_by self.old.pass.now.view) (desk_by self.new.pass.now.view) result }
        ensures own { HasOwn (desk_by self.new.pass.now.view) }
        ensures loaded { self.new.pass.now.view ≡ loaded self.old.pass.now.view result }
        ensures least { IsLeastCount self.old.pass.now.view result }
    {
        self.share.least(self.pass)
    }
}
