//! The sets, and the operations on them by words and lanes.
//!
//! A set is 16 words of 64 bits, since a line has at most 1,024 tasks. Union, meet and difference go over all lanes at
//! once, without a branch, so they cost the same for a small set as for a large one. In return a set is a plain value
//! of 128 bytes, and no call has to allocate.

ghost use Rattle.std.specs.Prelude.{◌≡◌, ℕ, ◌+◌, ◌*◌, ◌^◌, ◌<◌, ◌≤◌, ◌↔◌, true, false, not, eqb, ltb, [], length};
ghost use Rattle.std.specs.Prelude.{slice_index, slice_index_or, slice_set, drop, replicate, IsTrue, IsNone, IfSome};
ghost use Rattle.std.specs.Prelude.{All, Contains};
ghost use Rattle.std.specs.Int.{bit_at};
ghost use Rattle.line_instance.specs.Truths.{In, union, minus, meet, count, full_to, IsSubset, IsEmpty, IsLeast};
ghost use Rattle.line_instance.specs.Truths.{IsGreatestBelow, members_from};
ghost use Rattle.line_instance.specs.Tags.{pairs_of, used, tag_of};
ghost use Rattle.line_instance.specs.inner.Words.{members_left};

use std::hash::{FoldHasher, Hash, Hasher};
use std::marker::Model;
use std::simd::prelude::*;

/// A set of tasks, counted from 0 and below 1,024.
///
/// A contract sees it as the list of 1,024 truths whose truth at `i` says whether task `i` is a member. It is kept as
/// sixteen words of 64 bits, so it is copied like a number: no call takes memory or refuses anything.
#[derive(Clone, Copy)]
pub struct TaskSet {
    words: [u64; 16],
}

impl Model for TaskSet {
    ghost use Rattle.std.specs.Prelude.{List, Bool};
    ghost use Rattle.line_instance.specs.Truths.{truths_of, words_of, AreWords};
    ghost use Rattle.line_instance.specs.inner.Words.{words_of_truths};

    ghost Value = { List Bool };

    ghost view = { λ s. truths_of s.words };

    ghost invariant = { λ s. AreWords s.words };

    ghost inverse = { λ ts. record { words = words_of ts } };

    ghost inverse_ok = { λ s h i. record { words = words_of_truths s.words h i } };
}

impl PartialEq for TaskSet {
    ghost use Rattle.std.specs.Bool.{beq};
    ghost use Rattle.std.specs.Cmp.Rules.{comparing};
    ghost use Rattle.std.proofs.Common.{rules};
    ghost use lib.Pointwise.{pointwise};

    ghost eq = { pointwise beq };

    ghost laws = { Prim.search (comparing, rules) };

    #[inline]
    fn eq(&self, other: &TaskSet) -> bool {
        self.words == other.words
    }
}

impl Eq for TaskSet {
    ghost use Rattle.std.specs.Cmp.Rules.{comparing};
    ghost use Rattle.std.proofs.Common.{rules};

    ghost laws = { Prim.search (comparing, rules) };
}

impl Hash for TaskSet {
    ghost use Rattle.std.specs.Prelude.{List};
    ghost use Rattle.std.specs.Hash as fed;
    ghost use Rattle.line_instance.specs.Truths.{words_of};
    ghost use Rattle.line_instance.specs.inner.Words.{hashed_alike};

    ghost hash_input = { λ s. fed.slice fed.u64 (words_of s) };

    ghost respects_eq = { hashed_alike };

    fn hash<H: Hasher>(&self, state: &mut H) {
        self.words.hash(state);
    }
}

impl TaskSet {
    /// The set without a member.
    #[inline]
    pub fn empty() -> TaskSet
        ensures value { result ≡ replicate 1024 false }
        ensures truths { length result ≡ 1024 }
    {
        TaskSet { words: [0; 16] }
    }

    /// The set of these tasks, each below 1,024; one may be named twice.
    pub fn from_members(members: &[u32]) -> TaskSet
        requires { All (λ i. i < 1024) members.now }
        ensures members { (i : ℕ) → In result i ↔ Contains members.now i }
        ensures truths { length result ≡ 1024 }
    {
        let mut set = TaskSet::empty();
        for i in members {
            set.insert(*i);
        }
        set
    }

    /// The set of the numbers below `n`; `n` is at most 1,024.
    #[inline]
    pub fn full_to(n: u32) -> TaskSet
        requires { n ≤ 1024 }
        ensures value { result ≡ full_to n }
        ensures truths { length result ≡ 1024 }
    {
        let mut words = [0; 16];
        for k in 0..16 {
            words[k as usize] = ones_below(n.saturating_sub(64 * k));
        }
        TaskSet { words }
    }

    /// How many tasks a set can have: 1,024.
    #[inline]
    pub fn capacity(&self) -> u32
        ensures value { result ≡ 1024 }
        ensures truths { length self.now ≡ 1024 }
    {
        let words = &self.words;
        64 * words.len() as u32
    }

    /// Whether `i`, below 1,024, is a member.
    #[inline]
    pub fn has(&self, i: u32) -> bool
        requires { i < 1024 }
        ensures { result ≡ slice_index_or self.now i false }
    {
        self.words[(i / 64) as usize] >> (i % 64) & 1 == 1
    }

    /// The set with `i`, below 1,024, as a member; the other members stay.
    #[inline]
    pub fn with(&self, i: u32) -> TaskSet
        requires { i < 1024 }
        ensures value { result ≡ slice_set self.now i true }
        ensures truths { length result ≡ 1024 }
    {
        let mut set = *self;
        set.insert(i);
        set
    }

    /// The set without `i`, below 1,024; the other members stay.
    #[inline]
    pub fn without(&self, i: u32) -> TaskSet
        requires { i < 1024 }
        ensures value { result ≡ slice_set self.now i false }
        ensures truths { length result ≡ 1024 }
    {
        let mut set = *self;
        set.remove(i);
        set
    }

    /// Makes `i`, below 1,024, a member, and tells whether it was none before.
    #[inline]
    pub fn insert(&mut self, i: u32) -> bool
        requires { i < 1024 }
        ensures added { result ≡ not (slice_index_or self.old i false) }
        ensures value { self.new ≡ slice_set self.old i true }
        ensures truths { length self.new ≡ 1024 }
    {
        let added = !self.has(i);
        self.words[(i / 64) as usize] |= 1 << (i % 64);
        added
    }

    /// Takes `i`, below 1,024, out of the set, and tells whether it was a member before.
    #[inline]
    pub fn remove(&mut self, i: u32) -> bool
        requires { i < 1024 }
        ensures removed { result ≡ slice_index_or self.old i false }
        ensures value { self.new ≡ slice_set self.old i false }
        ensures truths { length self.new ≡ 1024 }
    {
        let removed = self.has(i);
        self.words[(i / 64) as usize] &= !(1 << (i % 64));
        removed
    }

    /// The members of either set.
    #[inline]
    pub fn union(&self, other: &TaskSet) -> TaskSet
        ensures value { result ≡ union self.now other.now }
        ensures truths { length result ≡ 1024 }
    {
        let (a, b) = (Simd::from_array(self.words), Simd::from_array(other.words));
        TaskSet {
            words: (a | b).to_array(),
        }
    }

    /// The members of this set that `other` does not have.
    #[inline]
    pub fn minus(&self, other: &TaskSet) -> TaskSet
        ensures value { result ≡ minus self.now other.now }
        ensures truths { length result ≡ 1024 }
    {
        let (a, b) = (Simd::from_array(self.words), Simd::from_array(other.words));
        TaskSet {
            words: (a & !b).to_array(),
        }
    }

    /// The members that both sets have.
    #[inline]
    pub fn meet(&self, other: &TaskSet) -> TaskSet
        ensures value { result ≡ meet self.now other.now }
        ensures truths { length result ≡ 1024 }
    {
        let (a, b) = (Simd::from_array(self.words), Simd::from_array(other.words));
        TaskSet {
            words: (a & b).to_array(),
        }
    }

    /// Whether nothing is a member.
    #[inline]
    pub fn is_empty(&self) -> bool
        ensures { IsTrue result ↔ IsEmpty self.now }
    {
        Simd::from_array(self.words).reduce_or() == 0
    }

    /// Whether each member is a member of `other`.
    #[inline]
    pub fn is_subset(&self, other: &TaskSet) -> bool
        ensures { IsTrue result ↔ IsSubset self.now other.now }
    {
        self.minus(other).is_empty()
    }

    // Whether a set with no member from 128 on has none.
    #[inline]
    pub(crate) fn is_empty_low(&self) -> bool
        requires { (i : ℕ) → In self.now i → i < 128 }
        ensures { IsTrue result ↔ IsEmpty self.now }
    {
        self.words[0] | self.words[1] == 0
    }

    // Whether a set with no member from 128 on has none in common with another.
    #[inline]
    pub(crate) fn is_disjoint_low(&self, other: &TaskSet) -> bool
        requires { (i : ℕ) → In self.now i → i < 128 }
        ensures { IsTrue result ↔ IsEmpty (meet self.now other.now) }
    {
        self.words[0] & other.words[0] | self.words[1] & other.words[1] == 0
    }

    // The members that a set with none from 128 on has in common with another.
    #[inline]
    pub(crate) fn meet_low(&self, other: &TaskSet) -> TaskSet
        requires { (i : ℕ) → In self.now i → i < 128 }
        ensures value { result ≡ meet self.now other.now }
        ensures truths { length result ≡ 1024 }
    {
        let mut words = [0; 16];
        words[0] = self.words[0] & other.words[0];
        words[1] = self.words[1] & other.words[1];
        TaskSet { words }
    }

    // Takes the members of another set out of one with none from 128 on.
    #[inline]
    pub(crate) fn take_out_low(&mut self, other: &TaskSet)
        requires { (i : ℕ) → In self.old i → i < 128 }
        ensures value { self.new ≡ minus self.old other.now }
        ensures truths { length self.new ≡ 1024 }
    {
        let low = self.words[0] & !other.words[0];
        let high = self.words[1] & !other.words[1];
        self.words[0] = low;
        self.words[1] = high;
    }

    // How many members a set with none from 128 on has.
    #[inline]
    pub(crate) fn count_low(&self) -> u32
        requires { (i : ℕ) → In self.now i → i < 128 }
        ensures value { result ≡ count self.now }
        ensures most { result ≤ 128 }
    {
        self.words[0].count_ones() + self.words[1].count_ones()
    }

    // The least member of a set with none from 128 on; `None` for the empty set.
    #[inline]
    pub(crate) fn least_low(&self) -> Option<u32>
        requires { (i : ℕ) → In self.now i → i < 128 }
        ensures none { IsNone result ↔ IsEmpty self.now }
        ensures some { IfSome result (IsLeast self.now) }
    {
        if self.words[0] != 0 {
            return Some(self.words[0].trailing_zeros());
        }
        if self.words[1] != 0 {
            return Some(64 + self.words[1].trailing_zeros());
        }
        None
    }

    /// How many members there are, at most 1,024.
    #[inline]
    pub fn count(&self) -> u32
        ensures value { result ≡ count self.now }
        ensures most { result ≤ 1024 }
    {
        let mut members = 0;
        for i in 0..16 {
            members += self.words[i].count_ones();
        }
        members
    }

    /// The least member; `None` for the empty set.
    #[inline]
    pub fn least(&self) -> Option<u32>
        ensures none { IsNone result ↔ IsEmpty self.now }
        ensures some { IfSome result (IsLeast self.now) }
        ensures below { IfSome result (λ i. i < 1024) }
    {
        for i in 0..16 {
            let word = self.words[i as usize];
            if word != 0 {
                return Some(64 * i + word.trailing_zeros());
            }
        }
        None
    }

    // The first word from `first` on that has a member, with its place.
    #[inline]
    pub(crate) fn word_from(&self, first: u32) -> Option<(u32, u64)>
        requires { first ≤ 16 }
        ensures none { IsNone result → members_from (64 * first) (drop (64 * first) self.now) ≡ [] }
        ensures some { IfSome result (λ found. members_from (64 * first) (drop (64 * first) self.now)
            ≡ members_left found.1 (64 * found.0) (found.0 + 1) self.now) }
        ensures within { IfSome result (λ found. found.0 < 16) }
        ensures one { IfSome result (λ found. 0 < found.1) }
        ensures fits { IfSome result (λ found. found.1 < 2 ^ 64) }
    {
        for k in first..16 {
            let word = self.words[k as usize];
            if word != 0 {
                return Some((k, word));
            }
        }
        None
    }

    /// The greatest member below `i`, which is at most 1,024; `None` where each member is `i` or above.
    #[inline]
    pub fn greatest_below(&self, i: u32) -> Option<u32>
        requires { i ≤ 1024 }
        ensures none { IsNone result ↔ ((j : ℕ) → In self.now j → i ≤ j) }
        ensures some { IfSome result (IsGreatestBelow self.now i) }
        ensures below { IfSome result (λ j. j < 1024) }
    {
        let at = i / 64;
        if at < 16 {
            let word = low_bits(self.words[at as usize], i % 64);
            if word != 0 {
                return Some(64 * at + (63 - word.leading_zeros()));
            }
        }
        for k in (0..at).rev() {
            let word = self.words[k as usize];
            if word != 0 {
                return Some(64 * k + (63 - word.leading_zeros()));
            }
        }
        None
    }

    // The words at 2 k and 2 k + 1 as one number.
    #[inline]
    fn pair(&self, k: usize) -> u128
        requires { k < 8 }
        ensures { result ≡ slice_index (pairs_of self.now) k }
    {
        u128::from(self.words[2 * k + 1]) << 64 | u128::from(self.words[2 * k])
    }

    // How many pairs of words there are up to the last that isn't 0.
    #[inline]
    fn used_pairs(&self) -> usize
        ensures value { result ≡ used (pairs_of self.now) }
        ensures most { result ≤ 8 }
    {
        for k in (0..8).rev() {
            if self.pair(k) != 0 {
                return k + 1;
            }
        }
        0
    }

    /// A tag of the set: 32 bits of a hash of its words, two by two up to the last that isn't 0. Equal sets have equal
    /// tags, and few of those that differ have.
    #[inline]
    pub fn tag(&self) -> u32
        ensures { result ≡ tag_of self.now }
    {
        let mut state = FoldHasher::default();
        for k in 0..self.used_pairs() {
            state.write_u128(self.pair(k));
        }
        (state.finish() % 4_294_967_296) as u32
    }
}

// The bits of a word below `n`.
#[inline]
fn low_bits(word: u64, n: u32) -> u64
    requires { n < 64 }
    ensures fits { result < 2 ^ 64 }
    ensures below { (i : ℕ) → i < n → bit_at result i ≡ bit_at word i }
    ensures above { (i : ℕ) → n ≤ i → bit_at result i ≡ 0 }
{
    word & ((1 << n) - 1)
}

// The word whose bits below `n` are set; all of them from 64 on.
#[inline]
fn ones_below(n: u32) -> u64
    ensures fits { result < 2 ^ 64 }
    ensures bits { (i : ℕ) → i < 64 → eqb (bit_at result i) 1 ≡ ltb i n }
{
    if n < 64 { (1 << n) - 1 } else { u64::MAX }
}
