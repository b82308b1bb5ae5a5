//! What a certificate of version 1 says.
ghost use Rattle.std.specs.Prelude.{◌≡◌};

use line_rules::{Ask, Balance, Entries, Frames, LineKind};
use std::marker::Model;

/// A part of a certificate of version 1: entries and a trail at one cycle. Cites are numbers of entries of the part.
#[derive(Drop)]
pub struct Part {
    /// The cycle, 1 to 10^18.
    pub cycle: u64,
    /// The entries, at most 10,000,000.
    pub entries: Entries,
    /// The frames of the trail, at most 1,024; none where the part has no trail.
    pub frames: Frames,
}

/// The parts of a certificate of version 1, which contracts see as a list.
#[derive(Drop)]
pub struct Parts {
    items: Vec<Part>,
}

impl Model for Parts {
    ghost use Rattle.std.specs.Prelude.{List};
    ghost use Rattle.entry_lists.specs.declared.version_one.Part.{Part};

    ghost Value = { List Part };

    ghost view = { λ s. s.items.items };
}

impl Parts {
    /// The list of these parts.
    pub fn from_vec(items: Vec<Part>) -> Parts
        ensures { result ≡ items.items }
    {
        Parts { items }
    }

    /// The parts, in order.
    pub fn into_vec(self) -> Vec<Part>
        ensures { result.items ≡ self }
    {
        self.items
    }
}

/// What a certificate of version 1 claims.
#[derive(Drop)]
pub enum OldClaim {
    /// There is no balance, since this task, from 0, is longer than the cycle.
    TooLong {
        task: u32,
    },
    /// The answer lies within bounds.
    Bounds {
        /// The lower bound, from 1.
        lower: u64,
        /// The upper bound.
        upper: u64,
        /// A balance of all tasks.
        balance: Balance,
        /// The parts, 2 at most; one of two has no trail.
        parts: Parts,
    },
}

/// A certificate of version 1.
#[derive(Drop)]
pub struct OldCertificate {
    /// The kind of line.
    pub kind: LineKind,
    /// The number of tasks, 1 to 1,024.
    pub tasks: u32,
    /// What is asked.
    pub ask: Ask,
    /// What is answered.
    pub claim: OldClaim,
}
