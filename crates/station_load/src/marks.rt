//! The places of a side that are marked, gone over from the last one down.
//!
//! Marks are kept by words of 64, as the members of a set of tasks are. What is left of the word in hand is a number of
//! its own, from which each place is taken: so a place costs a few operations, and a word without marks one.
ghost use Rattle.std.specs.Prelude.{◌≡◌, ℕ, ◌+◌, ◌*◌, ◌/◌, ◌^◌, ◌<◌, ◌≤◌, ◌↔◌, true, false, IsTrue, length, slice_set, replicate};
ghost use Rattle.std.specs.Int.{bit_at};
ghost use Rattle.line_instance.specs.Truths.{In, IsGreatestBelow};
ghost use Rattle.station_load.specs.inner.Marked.{IsLeft};

use std::marker::Model;

/// Marked places, counted from 0 and below 1,024. A contract sees the list of 1,024 truths whose truth at `p` says
/// whether place `p` is marked.
#[derive(Clone, Copy)]
pub struct Marks {
    words: [u64; 16],
}

impl Model for Marks {
    ghost use Rattle.std.specs.Prelude.{List, Bool};
    ghost use Rattle.line_instance.specs.Truths.{truths_of, words_of, AreWords};
    ghost use Rattle.line_instance.specs.inner.Words.{words_of_truths};

    ghost Value = { List Bool };

    ghost view = { λ s. truths_of s.words };

    ghost invariant = { λ s. AreWords s.words };

    ghost inverse = { λ ts. record { words = words_of ts } };

    ghost inverse_ok = { λ s h i. record { words = words_of_truths s.words h i } };
}

/// The marked places below `below` that are still to be gone over: the bits of `word` are those from `base` on.
#[derive(Clone, Copy)]
pub struct Left {
    pub below: u32,
    pub base: u32,
    pub word: u64,
}

impl Marks {
    /// No mark.
    #[inline]
    pub(crate) fn none() -> Marks
        ensures value { result ≡ replicate 1024 false }
        ensures truths { length result ≡ 1024 }
    {
        Marks { words: [0; 16] }
    }

    /// Marks a place.
    #[inline]
    pub(crate) fn mark(&mut self, place: u32)
        requires { place < 1024 }
        ensures value { self.new ≡ slice_set self.old place true }
        ensures truths { length self.new ≡ 1024 }
    {
        self.words[(place / 64) as usize] |= 1 << (place % 64);
    }

    /// Takes a mark away.
    #[inline]
    pub(crate) fn unmark(&mut self, place: u32)
        requires { place < 1024 }
        ensures value { self.new ≡ slice_set self.old place false }
        ensures truths { length self.new ≡ 1024 }
    {
        self.words[(place / 64) as usize] &= !(1 << (place % 64));
    }

    /// All marks below `below`, which is at most 1,024.
    #[inline(always)]
    pub(crate) fn all_below(&self, below: u32) -> Left
        requires { below ≤ 1024 }
        ensures below { result.below ≡ below }
        ensures left { IsLeft self.now result.below result.base result.word }
    {
        Left {
            below,
            base: 64 * (below / 64),
            word: self.word_below(below),
        }
    }

    // The marks below `below` of the word that it falls into.
    #[inline(always)]
    fn word_below(&self, below: u32) -> u64
        requires { below ≤ 1024 }
        ensures fits { result < 2 ^ 64 }
        ensures bits { (i : ℕ) → i < 64
            → bit_at result i ≡ 1 ↔ In self.now (64 * (below / 64) + i) × (64 * (below / 64) + i < below) }
    {
        let at = below / 64;
        if at < 16 {
            return self.words[at as usize] & ((1 << (below % 64)) - 1);
        }
        0
    }

    /// Goes down to the last mark that is left, which is `left.below` then. Whether there is one.
    #[inline(always)]
    pub(crate) fn go_down(&self, left: &mut Left) -> bool
        requires { IsLeft self.now left.old.below left.old.base left.old.word }
        ensures none { result ≡ false → (p : ℕ) → In self.now p → left.old.below ≤ p }
        ensures some { IsTrue result → IsGreatestBelow self.now left.old.below left.new.below }
        ensures left { IsTrue result → IsLeft self.now left.new.below left.new.base left.new.word }
    {
        if left.word != 0 {
            self.take_last(left);
            return true;
        }
        for at in (0..left.base / 64).rev() {
            let word = self.words[at as usize];
            if word != 0 {
                left.base = 64 * at;
                left.word = word;
                self.take_last(left);
                return true;
            }
        }
        false
    }

    // Takes the last mark of the word in hand.
    #[inline(always)]
    fn take_last(&self, left: &mut Left)
        requires left { IsLeft self.now left.old.below left.old.base left.old.word }
        requires some { 0 < left.old.word }
        ensures last { IsGreatestBelow self.now left.old.below left.new.below }
        ensures left { IsLeft self.now left.new.below left.new.base left.new.word }
    {
        let bit = 63 - left.word.leading_zeros();
        left.word &= !(1 << bit);
        left.below = left.base + bit;
    }
}
