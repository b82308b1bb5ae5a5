//! The members of a set, one by one, and their text.
//!
//! The members are taken out of one word after the other: the lowest bit of the word is the next member, and is then
//! cleared. A member costs a few operations, and a word without members one comparison. The iterator borrows the set
//! and copies one word of it at a time.

ghost use Rattle.std.specs.Prelude.{◌≡◌};
ghost use Rattle.line_instance.specs.Truths.{members_of};

use crate::sets::TaskSet;
use std::fmt::{self, Debug, Display, Formatter};
use std::iter::FusedIterator;
use std::marker::Model;

/// The members of a set that are still to come, ascending: what [`TaskSet::iter`] gives.
///
/// A contract sees it as the list of these members.
#[derive(Drop)]
pub struct Tasks<'a> {
    set: &'a TaskSet,
    // The members that are left of the word that is gone over, whose lowest bit stands for task `base`.
    word: u64,
    base: u32,
    // The word that comes next.
    next: u32,
}

impl<'a> Model for Tasks<'a> {
    ghost use Rattle.std.specs.Prelude.{ℕ, ◌≤◌, List};
    ghost use Rattle.line_instance.specs.inner.Words.{members_left};

    ghost Value = { List ℕ };

    ghost view = { λ t. members_left t.word t.base t.next t.set.now };

    ghost invariant = { λ t. (t.base ≤ 960) × (t.next ≤ 16) };
}

impl<'a> Iterator for Tasks<'a> {
    ghost use Rattle.std.specs.Iterator.{YieldsFirst, item_count};

    type Item = u32;

    ghost next_gives = { YieldsFirst (λ t. t) };

    ghost remaining = { item_count (λ t. t) };

    #[inline]
    fn next(&mut self) -> Option<u32> {
        if self.word == 0 {
            let (k, word) = self.set.word_from(self.next)?;
            self.word = word;
            self.base = 64 * k;
            self.next = k + 1;
        }
        let i = self.base + self.word.trailing_zeros();
        self.word &= self.word - 1;
        Some(i)
    }
}

impl<'a> FusedIterator for Tasks<'a> {}

impl TaskSet {
    /// The members, ascending.
    #[inline]
    pub fn iter(&self) -> Tasks<'_>
        ensures { result ≡ members_of self.now }
    {
        Tasks {
            set: self,
            word: 0,
            base: 0,
            next: 0,
        }
    }
}

impl<'a> IntoIterator for &'a TaskSet {
    type Item = u32;

    type IntoIter = Tasks<'a>;

    ghost into_iter_gives = { λ set it. it ≡ members_of set.now };

    #[inline]
    fn into_iter(self) -> Tasks<'a> {
        self.iter()
    }
}

impl Debug for TaskSet {
    ghost use Rattle.std.specs.Prelude.{Some};
    ghost use Rattle.line_instance.specs.Text.{set_text};

    ghost debug_output = { λ set. Some (set_text set) };

    fn fmt<W: fmt::Write>(&self, f: &mut Formatter<W>) -> fmt::Result {
        Display::fmt(self, f)
    }
}

/// Prints the members in braces, as `{0, 3, 17}`.
impl Display for TaskSet {
    ghost use Rattle.std.specs.Prelude.{Some};
    ghost use Rattle.line_instance.specs.Text.{set_text};

    ghost output = { λ set. Some (set_text set) };

    fn fmt<W: fmt::Write>(&self, f: &mut Formatter<W>) -> fmt::Result {
        f.write_str("{")?;
        let mut mark = "";
        for i in self {
            write!(f, "{mark}{i}")?;
            mark = ", ";
        }
        f.write_str("}")
    }
}
