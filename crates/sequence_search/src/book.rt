//! The entries of a search, and an index of them by what is left of each model.
//!
//! A map has the last entry of each key, which is made of the units left, and a list leads from each entry to the one
//! of its key before it. So a look goes over the entries of one key alone, from the last on. It takes no memory.
ghost use Rattle.std.specs.Prelude.{◌≡◌, ◌<◌, ◌∷◌, ◌++◌, [], length, slice_get, Some, IsNone, IfSome, IfOk};
ghost use Rattle.std.specs.Prelude.{OnOk};
ghost use Rattle.sequence_search.specs.Index.{key_of};
ghost use Rattle.sequence_search.specs.Steps.{HasPlainAnswer, IsLastAnswer};

use sequence_rules::answers_plainly;
use sequence_values::{SeqEntries, SeqEntry};
use std::alloc::{AllocError, Global};
use std::collections::HashMap;
use std::marker::Model;

/// A key of what is left: equal units left have equal keys.
#[tactic(auto, unfolding(crate::specs::Index::key_from))]
fn key_of(rem: &[u64]) -> u64
    ensures { result ≡ key_of rem.now }
{
    let mut key = 0u64;
    for units in rem {
        key = key.wrapping_mul(1_000_003).wrapping_add(*units);
    }
    key
}

/// The entries of a search, in order; contracts see the list of them.
#[derive(Drop)]
pub(crate) struct Book {
    entries: Vec<SeqEntry>,
    latest: HashMap<u64, u64>,
    before: Vec<Option<u64>>,
}

impl Model for Book {
    ghost use Rattle.std.specs.Prelude.{List};
    ghost use Rattle.sequence_values.specs.declared.types.SeqEntry.{SeqEntry as Step};
    ghost use Rattle.sequence_search.specs.Index.{IsIndexed};

    ghost Value = { List Step };

    ghost view = { λ b. b.entries.items };

    ghost invariant = { λ b. IsIndexed b.latest b.before.items b.entries.items };
}

impl Book {
    /// A book without entries.
    pub(crate) fn new(alloc: Global) -> Book
        ensures { result ≡ [] }
    {
        Book {
            entries: Vec::new(alloc),
            latest: HashMap::new(alloc),
            before: Vec::new(alloc),
        }
    }

    /// A book of these entries.
    pub(crate) fn of(alloc: Global, entries: &SeqEntries) -> Result<Book, AllocError>
        ensures { IfOk result (λ b. b ≡ entries.now) }
    {
        let mut book = Book::new(alloc);
        for k in 0..entries.len() {
            book.push(entries.at(k).copy()?)?;
        }
        Ok(book)
    }

    /// How many entries there are.
    pub(crate) fn len(&self) -> usize
        ensures { result ≡ length self.now }
    {
        self.entries.len()
    }

    /// The entry of this number.
    pub(crate) fn at(&self, k: usize) -> &SeqEntry
        requires { k < length self.now }
        ensures { slice_get self.now k ≡ Some result.now }
    {
        &self.entries[k]
    }

    /// Puts an entry at the end.
    pub(crate) fn push(&mut self, entry: SeqEntry) -> Result<(), AllocError>
        ensures ok { OnOk result (self.new ≡ self.old ++ entry ∷ []) }
    {
        self.entries.reserve(1)?;
        self.before.reserve(1)?;
        let number = self.entries.len() as u64;
        let last = self.latest.insert(key_of(entry.rem.as_slice()), number)?;
        self.before.push_reserved(last);
        self.entries.push_reserved(entry);
        Ok(())
    }

    /// The number of the last entry by Bound or Branch that answers a state and a need.
    pub(crate) fn last_answer(&self, rem: &[u64], starts: &[u64], need: u64) -> Option<u64>
        ensures none { IsNone result → HasPlainAnswer self.now rem.now starts.now need → ⊥ }
        ensures some { IfSome result (IsLastAnswer self.now rem.now starts.now need) }
    {
        let mut next = self.latest.get(&key_of(rem)).copied();
        while let Some(number) = next {
            let k = number as usize;
            if answers_plainly(&self.entries[k], rem, starts, need) {
                return Some(number);
            }
            next = self.before[k];
        }
        None
    }

    /// The entries, in order.
    pub(crate) fn into_entries(self) -> SeqEntries
        ensures { result ≡ self }
    {
        let Book { entries, .. } = self;
        SeqEntries::from_vec(entries)
    }
}
