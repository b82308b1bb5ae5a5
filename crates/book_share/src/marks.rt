//! Marks of tags: a sieve in which each tag has two bits.
//!
//! The tag of a set is a part of a hash of it. Where one of the two bits of a tag isn't there, no set that was marked
//! has the tag. A look and a put touch two words. The marks take 512 KiB; with many more than a million of them they
//! tell less, but never anything wrong.
ghost use Rattle.std.specs.Prelude.{◌≡◌, ℕ, ◌∷◌, [], List, ◌++◌, IsTrue};
ghost use Rattle.book_share.specs.inner.Memo.{second_of, AreMarks, Lacks};

use lemma_core::sieve::{has_mark, put_mark};
use std::alloc::Global;

/// How many words of 64 marks there are: 65,536, so some four million marks in 512 KiB.
const MARK_WORDS: usize = 65_536;

/// The marks of tags.
#[derive(Drop)]
pub struct Marks {
    /// The words of the marks. Where there are none, each tag may be there.
    pub(crate) words: Option<Vec<u64>>,
}

// The tag that picks the second mark. The first mark is picked by the low 22 bits of a tag, the second by the high 22.
#[inline]
fn second(tag: u32) -> u32
    ensures { result ≡ second_of tag }
{
    tag / 1024
}

impl Marks {
    /// Marks of no tag. Out of memory, there are none.
    pub(crate) fn new(alloc: Global) -> Marks
        ensures { AreMarks result [] }
    {
        Marks {
            words: vec![in alloc; 0; MARK_WORDS].ok(),
        }
    }

    // Marks a tag.
    #[inline]
    pub(crate) fn put(&mut self, tag: u32)
        requires { (tags : List ℕ) × AreMarks self.old tags }
        ensures { (tags : List ℕ) → AreMarks self.old tags → AreMarks self.new (tags ++ tag ∷ []) }
    {
        if let Some(words) = &mut self.words {
            let words = words.as_mut_slice();
            put_mark(words, tag);
            put_mark(words, second(tag));
        }
    }

    // Whether the marks show that a tag wasn't marked.
    #[inline]
    pub(crate) fn lack(&self, tag: u32) -> bool
        requires { (tags : List ℕ) × AreMarks self.now tags }
        ensures { IsTrue result → (tags : List ℕ) → AreMarks self.now tags → Lacks tags tag }
    {
        match &self.words {
            Some(words) => {
                !has_mark(words.as_slice(), tag) || !has_mark(words.as_slice(), second(tag))
            }
            None => false,
        }
    }
}
