//! A text in memory.
//!
//! It is the `Output` that grows in one vector: a byte costs one push. After the first push that memory refuses,
//! nothing is kept any more, and `finish` tells it once. There is no outside whose failures could be counted. So its
//! count of faults stands at 2^64 - 1, where a count ends and is taken as risen.
ghost use Rattle.std.specs.Prelude.{◌≡◌, [], ◌∷◌, ◌++◌, not, true, IfOk};
ghost use Rattle.cert_text.specs.Sent.{Puts};

use crate::output::Output;
use std::alloc::{AllocError, Global};

/// A text that is put into memory; it remembers where memory was wanting.
#[derive(Drop)]
pub struct KeptText {
    bytes: Vec<u8>,
    failed: bool,
}

impl KeptText {
    /// No text yet.
    pub fn new(alloc: Global) -> KeptText
        ensures bytes { result.bytes.items ≡ [] }
        ensures good { not result.failed ≡ true }
    {
        KeptText {
            bytes: Vec::new(alloc),
            failed: false,
        }
    }

    /// The text, or an error where memory was wanting.
    pub fn finish(self) -> Result<Vec<u8>, AllocError>
        ensures { IfOk result (λ bytes. (not self.failed ≡ true) × (bytes.items ≡ self.bytes.items)) }
    {
        if self.failed {
            return Err(AllocError);
        }
        Ok(self.bytes)
    }
}

impl Output for KeptText {
    ghost use Rattle.std.specs.Prelude.{not, [], ◌-◌, ◌^◌};

    ghost told = { Unit {0} };

    ghost Base = { Unit {0} };

    // There is no outside; its count stands where it can't rise.
    ghost sent = { λ s. record {
      good = not s.failed;
      shown = s.bytes.items;
      kept = [];
      faults = 2 ^ 64 - 1;
      base = tt;
    } };

    #[inline]
    fn put(&mut self, byte: u8) {
        if self.failed {
            return;
        }
        if self.bytes.push(byte).is_err() {
            self.failed = true;
        }
    }
}
