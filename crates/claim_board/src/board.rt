//! The words of the board, and the calls on them.
//!
//! A claim is one word, so a reader never sees half of one. It has a tag of the set in its upper 32 bits, below it the
//! number of stations in 16 bits and the helper's number in the last 16. A word of 0 is no claim, since helpers are
//! counted from 1.
use crossbeam_utils::atomic::AtomicCell;
use line_instance::TaskSet;
use std::alloc::{AllocError, Global};

/// How many words the board has: a power of two, far above the questions that 64 helpers are at together.
const WORDS: u64 = 16_384;

/// What helpers of one round say of the questions that they are at: hints, on which nothing may rest.
#[derive(Drop)]
pub struct Board {
    words: Vec<AtomicCell<u64>>,
    end: AtomicCell<bool>,
}

/// An empty board. `Err` is only for want of memory, of which it takes 128 KiB.
pub fn open_board(alloc: Global) -> Result<Board, AllocError> {
    let mut words = Vec::with_capacity(alloc, WORDS as usize)?;
    for _ in 0..WORDS {
        words.push(AtomicCell::new(0))?;
    }
    Ok(Board {
        words,
        end: AtomicCell::new(false),
    })
}

/// A claim as a word: the tag of the set, the stations and the helper.
#[inline]
fn claim_word(tag: u32, most: u32, helper: u32) -> u64 {
    u64::from(tag) * 4_294_967_296 + u64::from(most % 65_536) * 65_536 + u64::from(helper % 65_536)
}

impl Board {
    /// The word that a question falls on.
    #[inline]
    fn word_of(&self, tag: u32, most: u32) -> Option<&AtomicCell<u64>> {
        let mixed = (u64::from(tag) + u64::from(most) * 40_503) % WORDS;
        self.words.get(mixed as usize)
    }

    /// Claims a question for a helper: the tasks of a set in at most so many stations. Helpers are counted from 1.
    #[inline]
    pub fn claim(&self, helper: u32, set: &TaskSet, most: u32) {
        let tag = set.tag();
        if let Some(word) = self.word_of(tag, most) {
            word.store(claim_word(tag, most, helper));
        }
    }

    /// Whether another helper was the last to claim a question on its word, as far as a tag of the set tells.
    #[inline]
    pub fn is_claimed(&self, helper: u32, set: &TaskSet, most: u32) -> bool {
        let tag = set.tag();
        let Some(word) = self.word_of(tag, most) else {
            return false
        };
        let claim = word.load();
        let by = claim % 65_536;
        by != 0 && by != u64::from(helper) && claim - by == claim_word(tag, most, 0)
    }

    /// Says that the question of the round is answered.
    #[inline]
    pub fn call_end(&self) {
        self.end.store(true);
    }

    /// Whether somebody said so.
    #[inline]
    pub fn is_ended(&self) -> bool {
        self.end.load()
    }
}
