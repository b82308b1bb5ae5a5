//! The search through all entries from the end, which finds the last one that answers a question.
//!
//! It reads each entry, at about 184 bytes an entry. The index is measured by it, and shares its test of one entry.
ghost use Rattle.std.specs.Prelude.{◌≡◌, ◌<◌, length};
ghost use Rattle.std.specs.Option.{ForSome};
ghost use Rattle.lemma_core.specs.Machine.{answers, last_answer, found};

use crate::types::Looked;
use line_rules::{Entries, Entry, TaskSet};

// Whether the entry answers the question.
#[inline]
pub(crate) fn is_answer(entry: &Entry, set: &TaskSet, most: u32, cycle: u64) -> bool
    ensures { result ≡ answers entry.now set.now most cycle }
{
    entry.set == *set && most <= entry.most && cycle <= entry.cycle
}

// The number of the last entry that answers the question, by a search through all of them from the end.
pub(crate) fn find_plain(entries: &Entries, set: &TaskSet, most: u32, cycle: u64) -> Option<u64>
    ensures { result ≡ last_answer entries.now set.now most cycle }
{
    let mut k = entries.len();
    while k > 0 {
        k -= 1;
        if is_answer(entries.at(k), set, most, cycle) {
            return Some(k as u64);
        }
    }
    None
}

// What a look that found this entry, or none, tells.
pub(crate) fn looked(entries: &Entries, id: Option<u64>) -> Looked
    requires { ForSome id (λ k. k < length entries.now) }
    ensures { result ≡ found entries.now id }
{
    match id {
        Some(id) => Looked::Found {
            id,
            most: entries.at(id as usize).most,
        },
        None => Looked::Absent,
    }
}
