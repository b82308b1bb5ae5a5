//! The tasks of each slot, each slot's in a list, with the place of each task in it.
//!
//! A task that leaves gives its place to the last one of its list, and one that enters stands at the end. Each slot has
//! a row of its own in one table, so a change takes a few writes and no memory.
ghost use Rattle.std.specs.Prelude.{◌<◌, ◌≤◌};

use std::alloc::{AllocError, Global};

/// How many places a row has. There is one for each task of the longest line, and some more, so that the beginnings of
/// the rows spread over the processor's cache.
const ROW: usize = 1056;

/// The tasks of at most 2,048 slots. Numbers beyond stand for their rest, so no call refuses anything.
#[derive(Drop)]
pub(crate) struct Slots {
    /// The rows, one behind the other.
    rows: Vec<u16>,
    /// How many tasks each slot has.
    counts: [u16; 2048],
    /// The slot of each task.
    slots: [u16; 1024],
    /// The place of each task in its slot's list.
    places: [u16; 1024],
}

/// Where a place of a slot is in the table.
#[inline]
fn index(slot: u32, place: u32) -> usize {
    (slot % 2048) as usize * ROW + (place % 1024) as usize
}

impl Slots {
    /// So many slots without a task.
    pub(crate) fn new(alloc: Global, slots: u32) -> Result<Slots, AllocError>
        requires { slots ≤ 2048 }
    {
        Ok(Slots {
            rows: vec![in alloc; 0u16; slots as usize * ROW]?,
            counts: [0; 2048],
            slots: [0; 1024],
            places: [0; 1024],
        })
    }

    /// How many tasks a slot has.
    #[inline]
    pub(crate) fn count(&self, slot: u32) -> u32
        ensures { result < 65536 }
    {
        u32::from(self.counts[(slot % 2048) as usize])
    }

    /// The task at a place of a slot's list, from 0.
    #[inline]
    pub(crate) fn at(&self, slot: u32, place: u32) -> u32 {
        match self.rows.get(index(slot, place)) {
            Some(task) => u32::from(*task),
            None => 0,
        }
    }

    /// The slot of a task.
    #[inline]
    pub(crate) fn slot(&self, task: u32) -> u32
        ensures { result < 65536 }
    {
        u32::from(self.slots[(task % 1024) as usize])
    }

    /// Puts a task at a place of a slot's list.
    #[inline]
    fn put(&mut self, slot: u32, place: u32, task: u32) {
        let at = index(slot, place);
        if at < self.rows.len() {
            self.rows[at] = (task % 1024) as u16;
        }
        self.slots[(task % 1024) as usize] = (slot % 2048) as u16;
        self.places[(task % 1024) as usize] = (place % 1024) as u16;
    }

    /// A task enters a slot: it stands at the end of its list.
    #[inline]
    pub(crate) fn enter(&mut self, task: u32, slot: u32) {
        let count = self.counts[(slot % 2048) as usize];
        self.put(slot, u32::from(count), task);
        self.counts[(slot % 2048) as usize] = count.saturating_add(1);
    }

    /// A task leaves its slot: the last one of its list takes its place.
    #[inline]
    pub(crate) fn leave(&mut self, task: u32) {
        let slot = self.slot(task);
        let place = u32::from(self.places[(task % 1024) as usize]);
        let left = self.counts[(slot % 2048) as usize].saturating_sub(1);
        let last = self.at(slot, u32::from(left));
        self.put(slot, place, last);
        self.counts[(slot % 2048) as usize] = left;
    }

    /// All tasks of two slots change places, and the lists stay as they are.
    pub(crate) fn exchange(&mut self, first: u32, second: u32) {
        let ahead = self.count(first);
        let behind = self.count(second);
        for place in 0..ahead.max(behind) {
            let there = self.at(first, place);
            let here = self.at(second, place);
            if place < ahead {
                self.put(second, place, there);
            }
            if place < behind {
                self.put(first, place, here);
            }
        }
        self.counts[(first % 2048) as usize] = behind as u16;
        self.counts[(second % 2048) as usize] = ahead as u16;
    }
}
