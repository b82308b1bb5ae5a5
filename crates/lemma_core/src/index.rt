//! Where entries with a set are: a hashed index.
//!
//! Each set has a tag, 32 bits of a hash. A look for a set that no entry has mostly ends at the sieve, which has a
//! bit for each tag and eight bits and more for an entry. Else the low bits of the tag lead to a chain of entries,
//! the last one first, and only an entry with the same tag is read. So a look that finds nothing touches one line of
//! memory, and one that finds an entry about four. An entry takes 13 bytes, or up to twice that right after the
//! tables grew; they grow by two, from the tags alone.
ghost use Rattle.std.specs.Prelude.{◌≡◌, ℕ, ◌+◌, ◌-◌, ◌<◌, ◌≤◌, ◌^◌, ◌/◌, ◌%◌, true, false, List, [], ◌∷◌, ◌++◌};
ghost use Rattle.std.specs.Prelude.{length, slice_get, slice_index, slice_set, replicate, bit_or, vec_len};
ghost use Rattle.std.specs.Prelude.{vec_capacity, Some, OnOk};
ghost use Rattle.lemma_core.specs.Machine.{last_answer};
ghost use Rattle.lemma_core.specs.Sieves.{word_in, mark_of};
ghost use Rattle.lemma_core.specs.inner.Chains.{tags, bucket_in, IsIndex, IsIndexOf};

use crate::plain_lookup::is_answer;
use crate::sieve::{has_mark, put_mark};
use line_rules::{Entries, TaskSet};
use std::alloc::{AllocError, Global};

// What the index keeps of an entry: the tag of its set, and one more than the place before it in its chain, or 0.
#[derive(Clone, Copy)]
pub(crate) struct Link {
    pub(crate) tag: u32,
    pub(crate) before: u32,
}

// For each bucket one more than the last place in its chain, or 0; what is kept of each entry; and the words of the
// sieve.
#[derive(Drop)]
pub(crate) struct Index {
    pub(crate) heads: Vec<u32>,
    pub(crate) links: Vec<Link>,
    pub(crate) sieve: Vec<u64>,
}

// The bucket of a tag.
#[inline]
fn bucket(tag: u32, count: usize) -> usize
    requires { 0 < count }
    ensures value { result ≡ bucket_in count tag }
    ensures within { result < count }
{
    tag as usize & (count - 1)
}

// Puts the tag of an entry into the sieve and at the head of its bucket, and returns what headed that.
#[inline]
fn hang(heads: &mut [u32], sieve: &mut [u64], tag: u32, place: u32) -> u32
    requires heads { 0 < length heads.old }
    requires sieve { 0 < length sieve.old }
    ensures before { result ≡ slice_index heads.old (bucket_in (length heads.old) tag) }
    ensures heads { heads.new ≡ slice_set heads.old (bucket_in (length heads.old) tag) place }
    ensures sieve { let word = word_in (length sieve.old) tag in
        sieve.new ≡ slice_set sieve.old word (bit_or (slice_index sieve.old word) (mark_of tag)) }
{
    put_mark(sieve, tag);
    let bucket = bucket(tag, heads.len());
    let before = heads[bucket];
    heads[bucket] = place;
    before
}

// Puts all tags into tables that are empty.
fn hang_all(links: &mut [Link], heads: &mut [u32], sieve: &mut [u64])
    requires heads { 0 < length heads.old }
    requires sieve { 0 < length sieve.old }
    requires few { length links.old + 1 < 2 ^ 32 }
    requires empty { heads.old ≡ replicate (length heads.old) 0 }
    ensures tags { tags links.new ≡ tags links.old }
    ensures index { IsIndex heads.new links.new sieve.new }
{
    for k in 0..links.len() {
        let tag = links[k].tag;
        let before = hang(heads, sieve, tag, k as u32 + 1);
        links[k] = Link { tag, before };
    }
}

impl Index {
    pub(crate) fn new(alloc: Global) -> Index
        ensures { IsIndexOf [] result.heads.items result.links.items result.sieve.items }
    {
        Index {
            heads: Vec::new(alloc),
            links: Vec::new(alloc),
            sieve: Vec::new(alloc),
        }
    }

    // Whether an entry may have the tag.
    #[inline]
    fn may_have(&self, tag: u32) -> bool
        requires { IsIndex self.now.heads.items self.now.links.items self.now.sieve.items }
        ensures absent { result ≡ false → (k : ℕ) → slice_get (tags self.now.links.items) k ≡ Some tag → ⊥ }
        ensures heads { result ≡ true → 0 < vec_len self.now.heads }
    {
        !self.sieve.is_empty() && has_mark(self.sieve.as_slice(), tag)
    }

    // The number of the last entry that answers the question: from the last entry in the bucket of the set back.
    #[inline]
    pub(crate) fn find(
        &self,
        entries: &Entries,
        set: &TaskSet,
        most: u32,
        cycle: u64,
    ) -> Option<u64>
        requires { IsIndexOf entries.now self.now.heads.items self.now.links.items self.now.sieve.items }
        ensures { result ≡ last_answer entries.now set.now most cycle }
    {
        let tag = set.tag();
        if !self.may_have(tag) {
            return None;
        }
        let mut at = self.heads[bucket(tag, self.heads.len())];
        'chain: while at > 0 {
            let place = at as usize - 1;
            let link = self.links[place];
            if link.tag == tag {
                if is_answer(entries.at(place), set, most, cycle) {
                    return Some(place as u64);
                }
            }
            at = link.before;
        }
        None
    }

    // Makes tables for twice as many entries. On an error nothing changes.
    fn grow(&mut self) -> Result<(), AllocError>
        requires few { vec_len self.old.links + 1 < 2 ^ 32 }
        requires index { IsIndex self.old.heads.items self.old.links.items self.old.sieve.items }
        ensures index { IsIndex self.new.heads.items self.new.links.items self.new.sieve.items }
        ensures tags { tags self.new.links.items ≡ tags self.old.links.items }
        ensures links { vec_len self.new.links ≡ vec_len self.old.links }
        ensures room { vec_capacity self.new.links ≡ vec_capacity self.old.links }
        ensures ok { OnOk result (0 < vec_len self.new.heads) }
    {
        let alloc = *self.links.allocator();
        let count = self.heads.len().saturating_mul(2).max(64);
        let mut heads = vec![in alloc; 0; count]?;
        let mut sieve = vec![in alloc; 0; count / 8]?;
        hang_all(
            self.links.as_mut_slice(),
            heads.as_mut_slice(),
            sieve.as_mut_slice(),
        );
        self.heads = heads;
        self.sieve = sieve;
        Ok(())
    }

    // Takes room for one entry more. On an error nothing changes but where the chains stand.
    pub(crate) fn reserve(&mut self) -> Result<(), AllocError>
        requires { IsIndex self.old.heads.items self.old.links.items self.old.sieve.items }
        ensures index { IsIndex self.new.heads.items self.new.links.items self.new.sieve.items }
        ensures tags { tags self.new.links.items ≡ tags self.old.links.items }
        ensures few { OnOk result (vec_len self.new.links + 1 < 2 ^ 32) }
        ensures room { OnOk result (vec_len self.new.links < vec_capacity self.new.links) }
        ensures heads { OnOk result (0 < vec_len self.new.heads) }
    {
        if self.links.len() >= u32::MAX as usize {
            return Err(AllocError);
        }
        self.links.reserve(1)?;
        if self.links.len() < self.heads.len() {
            return Ok(());
        }
        self.grow()
    }

    // Puts the next entry, whose set has this tag, at the head of its chain. There is room for it.
    pub(crate) fn add(&mut self, tag: u32)
        requires few { vec_len self.old.links + 1 < 2 ^ 32 }
        requires room { vec_len self.old.links < vec_capacity self.old.links }
        requires heads { 0 < vec_len self.old.heads }
        requires index { IsIndex self.old.heads.items self.old.links.items self.old.sieve.items }
        ensures index { IsIndex self.new.heads.items self.new.links.items self.new.sieve.items }
        ensures tags { tags self.new.links.items ≡ tags self.old.links.items ++ tag ∷ [] }
    {
        let place = self.links.len() as u32 + 1;
        let before = hang(
            self.heads.as_mut_slice(),
            self.sieve.as_mut_slice(),
            tag,
            place,
        );
        self.links.push_reserved(Link { tag, before });
    }
}
