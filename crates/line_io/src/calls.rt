//! Calls that are counted, and that fail where this was asked for.
//!
//! Tests choose which calls fail, by number, and how many bytes a failed call keeps. A call costs a look through the
//! list of those chosen, which is short. Counts stay at 2^64 - 1, so that a count never overflows and a clause can
//! still say that it rose.
ghost use Rattle.std.specs.Prelude.{◌≡◌, ◌≤◌, IsNone, IfSome, OnOk, OnErr};
ghost use Rattle.line_io.specs.Outside.{up};
ghost use Rattle.line_io.specs.Kept.{IsToFail, unused, counted, keep_of, next_keep, torn};

use std::alloc::{AllocError, Global};
use std::marker::Model;

/// A call that fails after the first `keep` bytes of its piece are kept.
#[derive(Clone, Copy, Debug, PartialEq, Eq)]
pub struct Tear {
    /// The number of the call, from 0.
    pub call: u64,
    /// How many bytes of its piece are kept, where it has as many.
    pub keep: u64,
}

/// The calls so far, those that fail, and the faults.
#[derive(Drop)]
pub struct Calls {
    made: u64,
    fails: Vec<u64>,
    tears: Vec<Tear>,
    faults: u64,
}

impl Model for Calls {
    ghost use Rattle.line_io.specs.Kept.{Tally};

    ghost Value = { Tally };

    ghost view = { λ c. record { made = c.made; fails = c.fails.items; tears = c.tears.items; faults = c.faults } };
}

impl Calls {
    /// No call yet. The calls of these numbers, from 0, fail.
    pub fn new(alloc: Global, fails: Vec<u64>) -> Calls
        ensures { result ≡ unused fails.items }
    {
        Calls {
            made: 0,
            fails,
            tears: Vec::new(alloc),
            faults: 0,
        }
    }

    /// One more fault.
    pub fn fail(&mut self)
        ensures up { self.new ≡ record self.old { faults = up self.old.faults } }
        ensures count { self.old.faults ≤ self.new.faults }
    {
        self.faults = self.faults.saturating_add(1);
    }

    /// One more call. Where it is one that fails: how many bytes of its piece it keeps.
    pub fn begin(&mut self) -> Option<u64>
        ensures made { self.new ≡ counted self.old }
        ensures works { IsNone result → ¬ IsToFail self.old }
        ensures fails { IfSome result (λ keep. IsToFail self.old × (keep ≡ next_keep self.old)) }
    {
        let call = self.made;
        self.made = call.saturating_add(1);
        if !self.fails.contains(&call) {
            return None;
        }
        Some(kept_of(&self.tears, call))
    }

    /// Lets the call of a number fail after a prefix of its piece is kept.
    pub fn tear(&mut self, call: u64, keep: u64) -> Result<(), AllocError>
        ensures ok { OnOk result (self.new ≡ torn self.old call keep) }
        ensures err { OnErr result (self.new ≡ self.old) }
    {
        self.tears.push(Tear { call, keep })?;
        match self.fails.push(call) {
            Ok(()) => Ok(()),
            Err(error) => {
                let _ = self.tears.pop();
                Err(error.into())
            }
        }
    }
}

/// How many bytes of its piece a call keeps.
fn kept_of(tears: &[Tear], call: u64) -> u64
    ensures { result ≡ keep_of tears.now call }
{
    for tear in tears {
        if tear.call == call {
            return tear.keep;
        }
    }
    0
}
