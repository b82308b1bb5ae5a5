//! The starts of the nodes, and an index of them by a number that is made of them.
//!
//! A map has the last node of each such number, and a list leads from each node to the one of its number before it. So
//! a look compares the starts of few nodes alone, mostly of one. It takes no memory.
ghost use Rattle.std.specs.Prelude.{◌≡◌, ◌<◌, ◌∷◌, ◌++◌, [], length, slice_get, Some, IsNone, IfSome, OnOk, OnErr};
ghost use Rattle.sequence_table.specs.Index.{key_of, IsLastPlace, IsMissing};

use sequence_rules::is_same;
use sequence_values::Numbers;
use std::alloc::{AllocError, Global};
use std::collections::HashMap;
use std::marker::Model;

/// A number that is made of starts: equal ones have equal numbers.
#[tactic(auto, unfolding(crate::specs::Index::key_from))]
fn key_of(starts: &[u64]) -> u64
    ensures { result ≡ key_of starts.now }
{
    let mut key = 0u64;
    for start in starts {
        key = key.wrapping_mul(1_000_003).wrapping_add(*start);
    }
    key
}

/// The starts of each node, in the order of the nodes; contracts see the list of them.
#[derive(Drop)]
pub(crate) struct KnownStarts {
    all: Vec<Numbers>,
    latest: HashMap<u64, u64>,
    before: Vec<Option<u64>>,
}

impl Model for KnownStarts {
    ghost use Rattle.std.specs.Prelude.{List, ℕ};
    ghost use Rattle.sequence_table.specs.Index.{IsIndexed};

    ghost Value = { List (List ℕ) };

    ghost view = { λ b. b.all.items };

    ghost invariant = { λ b. IsIndexed b.latest b.before.items b.all.items };
}

impl KnownStarts {
    /// No starts.
    pub(crate) fn new(alloc: Global) -> KnownStarts
        ensures { result ≡ [] }
    {
        KnownStarts {
            all: Vec::new(alloc),
            latest: HashMap::new(alloc),
            before: Vec::new(alloc),
        }
    }

    /// Of how many nodes there are starts.
    pub(crate) fn len(&self) -> usize
        ensures { result ≡ length self.now }
    {
        self.all.len()
    }

    /// The starts of the node of this number.
    pub(crate) fn at(&self, k: usize) -> &Numbers
        requires { k < length self.now }
        ensures { slice_get self.now k ≡ Some result.now }
    {
        &self.all[k]
    }

    /// Puts the starts of a node at the end.
    pub(crate) fn push(&mut self, starts: Numbers) -> Result<(), AllocError>
        ensures ok { OnOk result (self.new ≡ self.old ++ starts ∷ []) }
        ensures err { OnErr result (self.new ≡ self.old) }
    {
        self.all.reserve(1)?;
        self.before.reserve(1)?;
        let number = self.all.len() as u64;
        let last = self.latest.insert(key_of(starts.as_slice()), number)?;
        self.before.push_reserved(last);
        self.all.push_reserved(starts);
        Ok(())
    }

    /// The last node that has these starts.
    pub(crate) fn number_of(&self, starts: &[u64]) -> Option<u64>
        ensures none { IsNone result → IsMissing self.now starts.now }
        ensures some { IfSome result (IsLastPlace self.now starts.now) }
    {
        let mut next = self.latest.get(&key_of(starts)).copied();
        while let Some(number) = next {
            let k = number as usize;
            if is_same(self.all[k].as_slice(), starts) {
                return Some(number);
            }
            next = self.before[k];
        }
        None
    }
}
