//! A share and its passes, and what they answer. What a pass knows stands in contracts alone; at run time
//! it has a memo of the entries that it has seen, where its caller wants one.
ghost use Rattle.std.specs.Prelude.{◌≡◌, Some};
ghost use Rattle.book_share.specs.Calls.{found_by, published_by};

use crate::memo::Memo;
use crate::turns::{Room, Sitter};
use lemma_core::{Book, Looked, Published};
use line_rules::Entry;
use std::alloc::Global;
use std::marker::Model;

/// A book that several threads share, by turns. Contracts see which share it is.
#[derive(Drop)]
pub struct Share {
    pub(crate) table: Room,
}

impl Model for Share {
    ghost use Rattle.std.specs.Prelude.{◌≡◌};
    ghost use Rattle.atomic_table.specs.Seated.{TableId, table_id_coded};

    ghost Value = { TableId };

    ghost coded = { table_id_coded };

    ghost view = { λ s. s.table.shared.table_id };

    ghost invariant = { λ s. (s.table.shared.table_id.words ≡ 3) × (s.table.shared.table_id.slots ≡ 1) };
}

/// With a pass a caller works on a share. Contracts see what it has seen of the one history, which places in it are its
/// own, and its tries and loads (specs/Passes.antt).
#[derive(Drop)]
pub struct Pass {
    pub(crate) seat: Sitter,
    pub(crate) memo: Option<Memo>,
}

impl Model for Pass {
    ghost use Rattle.book_share.specs.Passes.{PassOf, desk_by};
    ghost use Rattle.book_share.specs.inner.Memo.{IsMemoBy};

    ghost Value = { PassOf };

    ghost use Rattle.book_share.specs.inner.Inside.{IsResting};

    ghost view = { λ p. record { share = p.seat.table_id; view = p.seat.me.0 } };

    ghost invariant = { λ p. IsResting p.seat.me × IsMemoBy p.memo (desk_by p.seat.me.0) };
}

impl Pass {
    /// Keeps a memo of the entries that the pass has seen, for `glimpse`: from its next turn on, of all of them. It
    /// takes 3 MB; where there is memory for a part of it alone, it tells less.
    pub fn keep_memo(&mut self, alloc: Global)
        ensures { self.new ≡ self.old }
    {
        self.memo = Some(Memo::new(alloc));
    }
}

/// What comes of sharing a book.
#[derive(Drop)]
pub enum Started {
    /// The share, and its first pass.
    Good(Share, Pass),
    /// Out of memory: the book as it was.
    NoMemory(Book),
}

/// What a look finds that waits for nobody.
#[derive(Clone, Copy, Debug, PartialEq, Eq)]
pub enum TryLooked {
    /// The last entry that answers the question: its number, from 0, and its number of stations.
    Found { id: u64, most: u32 },
    /// No entry answers it.
    Absent,
    /// Another pass had the turn.
    Busy,
}

/// What a glimpse tells, which waits for nobody.
#[derive(Clone, Copy, Debug, PartialEq, Eq)]
pub enum Glimpsed {
    /// The entry of this number, from 0, answers the question. It need not be the last such.
    Found(u64),
    /// No entry that the pass has seen answers it.
    Absent,
    /// Neither is known without a turn.
    Unknown,
}

/// What becomes of an entry whose publishing waits for nobody.
#[derive(Drop)]
pub enum TryPublished {
    /// The last entry that answers it, by its number. Nothing is added.
    Known(u64),
    /// It was added, with this number.
    Added(u64),
    /// Another pass had the turn: the entry comes back.
    Busy(Entry),
    /// Out of memory: nothing is added, and the entry is given up.
    NoMemory,
}

impl TryLooked {
    // What was found in a turn that was had.
    pub(crate) fn of(looked: Looked) -> TryLooked
        ensures { found_by result ≡ Some looked }
    {
        match looked {
            Looked::Found { id, most } => TryLooked::Found { id, most },
            Looked::Absent => TryLooked::Absent,
        }
    }
}

impl TryPublished {
    // What became of an entry in a turn that was had.
    pub(crate) fn of(published: Published) -> TryPublished
        ensures { published_by result ≡ Some published }
    {
        match published {
            Published::Known(id) => TryPublished::Known(id),
            Published::Added(id) => TryPublished::Added(id),
            Published::NoMemory => TryPublished::NoMemory,
        }
    }
}
