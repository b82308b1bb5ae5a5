//! Rows of lemmas: entries that were seen, each in the row that a tag of its set picks.
//!
//! A new entry takes the place of the one that stood in its row, so what was seen last is there longest. A row counts
//! only where it has the asked set itself, so the tag decides nothing. A find and a put touch one row. The rows take
//! 2.5 MB.
ghost use Rattle.std.specs.Prelude.{◌≡◌, ℕ, List, IfSome, IfOk, None, replicate};
ghost use Rattle.line_rules.specs.declared.types.Entry.{Entry};
ghost use Rattle.book_share.specs.inner.Memo.{AreRows, IsRowOf, HasAnswer};

use line_instance::TaskSet;
use std::alloc::{AllocError, Global};

/// How many rows there are.
const ROWS: u32 = 16_384;

/// An entry that was seen: its set, its number of stations, and its number.
#[derive(Clone, Copy)]
pub struct LemmaRow {
    pub(crate) set: TaskSet,
    pub(crate) most: u32,
    pub(crate) id: u64,
}

/// Entries that were seen, by the tags of their sets.
#[derive(Drop)]
pub struct LemmaRows {
    /// The rows. Where there are none, nothing is found.
    pub(crate) rows: Option<Vec<Option<LemmaRow>>>,
}

// The number of the row that a tag picks.
#[inline]
fn place_of(tag: u32) -> usize {
    (tag % ROWS) as usize
}

// So many rows in which nothing stands.
fn blank_rows(alloc: Global, count: usize) -> Result<Vec<Option<LemmaRow>>, AllocError>
    ensures { IfOk result (λ rows. rows.items ≡ replicate count None) }
{
    vec![in alloc; None; count]
}

impl LemmaRows {
    /// Rows in which nothing stands. Out of memory, there are none.
    pub(crate) fn new(alloc: Global) -> LemmaRows
        ensures { (cycle : ℕ) (es : List Entry) → AreRows result cycle es }
    {
        match blank_rows(alloc, ROWS as usize) {
            Ok(rows) => LemmaRows { rows: Some(rows) },
            Err(_) => LemmaRows { rows: None },
        }
    }

    // Writes the row that a tag picks.
    #[inline]
    pub(crate) fn put(&mut self, tag: u32, row: LemmaRow)
        ensures { (cycle : ℕ) (es : List Entry) → AreRows self.old cycle es → IsRowOf row cycle es
            → AreRows self.new cycle es }
    {
        if let Some(rows) = &mut self.rows {
            if let Some(place) = rows.get_mut(place_of(tag)) {
                *place = Some(row);
            }
        }
    }

    // The entry in the row that a tag picks, where it has this set and as many stations or more.
    #[inline]
    pub(crate) fn find(&self, tag: u32, set: &TaskSet, most: u32) -> Option<u64>
        ensures { IfSome result (λ id. (cycle : ℕ) (es : List Entry) → AreRows self.now cycle es
            → HasAnswer es id set.now most cycle) }
    {
        let Some(rows) = &self.rows else {
            return None;
        };
        let Some(Some(row)) = rows.get(place_of(tag)) else {
            return None;
        };
        if row.most < most || row.set != *set {
            return None;
        }
        Some(row.id)
    }
}
