//! The lines of a balance, and those of entries and a trail, as parts of a text.
use cert_lines::{ReadError, Source};
use cert_text::{EntryList, read_entries, read_seating};
use line_rules::{Balance, LineKind};
use std::alloc::Global;
use text_grammar::Part;

/// The lines of a balance.
#[derive(Clone, Copy)]
pub(crate) struct SeatLines {
    /// The kind of line.
    pub kind: LineKind,
    /// The number of tasks.
    pub tasks: u32,
}

impl Part for SeatLines {
    ghost use Rattle.std.specs.Prelude.{◌≤◌};
    ghost use Rattle.cert_text.specs.Parts.{seatings};

    type Value = Balance;

    ghost rows = { λ p. (seatings p.kind p.tasks).rows };

    ghost may_say = { λ p. (seatings p.kind p.tasks).ranged };

    ghost can_read = { λ p. (1 ≤ p.tasks) × (p.tasks ≤ 1024) };

    fn read<S: Source>(&self, alloc: Global, source: &mut S) -> Result<Balance, ReadError> {
        read_seating(alloc, source, self.kind, self.tasks)
    }
}

/// The lines of entries and a trail, of a text with entries by pairs or without.
#[derive(Clone, Copy)]
pub(crate) struct EntryLines {
    /// The number of tasks.
    pub tasks: u32,
    /// Whether entries by pairs may stand there.
    pub pairs: bool,
}

impl Part for EntryLines {
    ghost use Rattle.std.specs.Prelude.{◌≤◌};
    ghost use Rattle.cert_text.specs.Parts.{lists};

    type Value = EntryList;

    ghost rows = { λ p. (lists p.tasks p.pairs).rows };

    ghost may_say = { λ p. (lists p.tasks p.pairs).ranged };

    ghost can_read = { λ p. (1 ≤ p.tasks) × (p.tasks ≤ 1024) };

    fn read<S: Source>(&self, alloc: Global, source: &mut S) -> Result<EntryList, ReadError> {
        read_entries(alloc, source, self.tasks, self.pairs)
    }
}
