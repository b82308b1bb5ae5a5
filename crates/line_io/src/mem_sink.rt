//! An output in memory, which tells what was put, and fails at chosen calls.
//!
//! A put costs a copy of its bytes. Calls that fail are chosen beforehand, so that a test can try what the program says
//! and leaves at each failure.
ghost use Rattle.std.specs.Prelude.{◌≡◌, ◌≤◌, ◌++◌, take, OnOk, OnErr, [], Some};
ghost use Rattle.line_io.specs.Outside.{up, Grows};
ghost use Rattle.line_io.specs.Kept.{unused, counted, IsToFail, next_keep, torn, after_write, KeepsTorn};
ghost use Rattle.line_io.specs.declared.outside.Stored.TheVariants.{Failed, Done};

use crate::calls::Calls;
use crate::outside::{Sink, Stored};
use std::alloc::{AllocError, Global};
use std::marker::Model;

/// An output in memory. Its calls are those of `put`, numbered from 0 up to 2^64 - 1, where
/// the number stays; those of chosen numbers fail, each with a fault.
#[derive(Drop)]
pub struct MemSink {
    bytes: Vec<u8>,
    calls: Calls,
}

impl Model for MemSink {
    ghost use Rattle.line_io.specs.Kept.{Shown};

    ghost Value = { Shown };

    ghost view = { λ s. record { bytes = s.bytes.items; calls = s.calls } };
}

impl MemSink {
    /// Nothing yet. The calls of these numbers, from 0, fail. It takes no memory itself.
    pub fn new(alloc: Global, fails: Vec<u64>) -> MemSink
        ensures { result ≡ record { bytes = []; calls = unused fails.items } }
    {
        MemSink {
            bytes: Vec::new(alloc),
            calls: Calls::new(alloc, fails),
        }
    }

    /// What was put. It is no call.
    pub fn bytes(&self) -> &[u8]
        ensures { result.now ≡ self.now.bytes }
    {
        self.bytes.as_slice()
    }

    /// Lets the call of a number fail after the first `keep` bytes of its piece are kept, or all where it has fewer.
    /// The first tear of a number counts. It is no call. Out of memory, nothing changes.
    pub fn tear(&mut self, call: u64, keep: u64) -> Result<(), AllocError>
        ensures ok { OnOk result (self.new ≡ record self.old { calls = torn self.old.calls call keep }) }
        ensures err { OnErr result (self.new ≡ self.old) }
    {
        self.calls.tear(call, keep)
    }
}

impl Sink for MemSink {
    ghost tells = { Unit {0} };

    ghost shown = { λ s. s.bytes };

    ghost faults = { λ s. s.calls.faults };

    ghost puts = { λ s. s.calls.made };

    /// Fails where the call is one of those that fail, or there is no memory. A torn call keeps as many bytes as its
    /// tear says; where memory refuses them it keeps none, and a second fault is counted.
    fn put(&mut self, bytes: &[u8]) -> Stored
        ensures puts { self.new.calls.made ≡ up self.old.calls.made }
        ensures count { self.old.calls.faults ≤ self.new.calls.faults }
        ensures fails { IsToFail self.old.calls → result ≡ Failed }
        ensures done { result ≡ Done → self.new.bytes ≡ self.old.bytes ++ bytes.now }
        ensures failed { result ≡ Failed → Grows (Some self.old.bytes) bytes.now (Some self.new.bytes) }
        ensures refused { result ≡ Failed → ¬ IsToFail self.old.calls → self.new.bytes ≡ self.old.bytes }
        ensures torn { IsToFail self.old.calls → KeepsTorn (Some self.old.bytes)
            (take (next_keep self.old.calls) bytes.now) (counted self.old.calls) (Some self.new.bytes) self.new.calls }
        ensures calls { ¬ IsToFail self.old.calls → self.new.calls ≡ after_write self.old.calls result }
    {
        if let Some(keep) = self.calls.begin() {
            self.calls.fail();
            if put_prefix(&mut self.bytes, bytes, keep).is_err() {
                self.calls.fail();
            }
            return Stored::Failed;
        }
        match self.bytes.extend_from_slice(bytes) {
            Ok(()) => Stored::Done,
            Err(_) => {
                self.calls.fail();
                Stored::Failed
            }
        }
    }
}

/// Puts the first `keep` bytes, or all where there are fewer.
fn put_prefix(shown: &mut Vec<u8>, bytes: &[u8], keep: u64) -> Result<(), AllocError>
    ensures done { OnOk result (shown.new.items ≡ shown.old.items ++ take keep bytes.now) }
    ensures same { OnErr result (shown.new.items ≡ shown.old.items) }
    ensures grows { Grows (Some shown.old.items) bytes.now (Some shown.new.items) }
{
    let keep = keep.min(bytes.len() as u64) as usize;
    shown.extend_from_slice(&bytes[..keep])?;
    Ok(())
}
