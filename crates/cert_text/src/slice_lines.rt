//! The lines of bytes in memory.
//!
//! A line is a part of the slice: nothing is copied, and no memory is taken. Each advance looks at the bytes of one
//! line. The reading stops where the number of the line would pass 2^64 - 1. A slice has fewer lines, so only a count
//! that was begun near that end comes to it.
ghost use Rattle.std.specs.Prelude.{◌≡◌, ◌==◌, length};

use cert_lines::words::split_at;
use cert_lines::{Source, Taken};

/// The lines of bytes, one after the other.
#[derive(Drop)]
pub struct SliceLines<'a> {
    left: &'a [u8],
    line: &'a [u8],
    number: u64,
}

impl<'a> SliceLines<'a> {
    /// The lines of these bytes.
    pub fn new(bytes: &'a [u8]) -> SliceLines<'a>
        ensures left { result.left.now ≡ bytes.now }
        ensures number { result.number ≡ 0 }
    {
        SliceLines {
            left: bytes,
            line: bytes,
            number: 0,
        }
    }

    /// The lines of these bytes, which come behind so many lines.
    pub fn behind(bytes: &'a [u8], number: u64) -> SliceLines<'a>
        ensures left { result.left.now ≡ bytes.now }
        ensures number { result.number ≡ number }
    {
        SliceLines {
            left: bytes,
            line: bytes,
            number,
        }
    }

    /// How many bytes are left.
    pub fn left_len(&self) -> usize
        ensures { result ≡ length self.now.left.now }
    {
        self.left.len()
    }

    /// Whether nothing is left.
    pub fn is_done(&self) -> bool
        ensures { result ≡ (length self.now.left.now == 0) }
    {
        self.left.is_empty()
    }
}

impl Source for SliceLines<'_> {
    ghost told = { Unit {0} };

    ghost left = { λ s. s.left.now };

    ghost line = { λ s. s.line.now };

    ghost number = { λ s. s.number };

    ghost Base = { Unit {0} };

    ghost base = { λ _. tt };

    ghost faults = { λ _. 0 };

    ghost least = { λ _. 0 };

    fn advance(&mut self) -> Taken {
        if self.number == u64::MAX {
            return Taken::Stopped;
        }
        match split_at(self.left, b'\n') {
            Some((line, rest)) => {
                self.line = line;
                self.left = rest;
                self.number += 1;
                Taken::Line
            }
            None => {
                self.number += 1;
                Taken::End
            }
        }
    }

    fn line(&self) -> &[u8] {
        self.line
    }

    fn number(&self) -> u64 {
        self.number
    }
}
