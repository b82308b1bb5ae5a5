//! The task of a name.
//!
//! A table of slots tells where a name may stand: a name's slot is given by a sum over its bytes, and the name stands
//! at the task of that slot or of one of the next, up to the first free one. What it tells is compared with the name
//! itself, so nothing has to be known of it. A name that isn't found so is sought among all names, which happens once
//! at most, since a table with an unknown name is at fault.
ghost use Rattle.std.specs.Prelude.{◌≡◌, ◌≤◌, ◌<◌, length, IfOk, IfSome};
ghost use Rattle.task_names.specs.TaskNames.{AreDistinct, AreNames, name_at, task_named};

use std::alloc::{AllocError, Global};
use std::marker::Model;
use task_names::Names;

/// How many slots there are: four times as many as tasks at most.
const SLOTS: u64 = 4096;

/// How many slots are looked at.
const LOOKS: u64 = 64;

/// Names with slots. Contracts see the list of the names.
#[derive(Drop)]
pub struct Lookup {
    names: Names,
    slots: Vec<u16>,
}

impl Model for Lookup {
    ghost use Rattle.std.specs.Prelude.{◌≤◌, length, List, ℕ};
    ghost use Rattle.task_names.specs.TaskNames.{AreDistinct};

    ghost Value = { List (List ℕ) };

    ghost view = { λ s. s.names };

    ghost invariant = { λ s. AreDistinct s.names × (length s.names ≤ 1024) };
}

/// The first slot of a name, by the hash of Fowler, Noll and Vo.
fn first_slot(name: &[u8]) -> u64
    ensures { result < 4096 }
{
    let mut hash: u64 = 0xcbf2_9ce4_8422_2325;
    for byte in name {
        hash = (hash ^ u64::from(*byte)).wrapping_mul(0x0000_0100_0000_01b3);
    }
    hash % SLOTS
}

/// Puts a task, as one more than its number, into the first free slot for its name, where one is free.
fn fill_slot(slots: &mut [u16], name: &[u8], task: u16)
    requires { task < 1024 }
{
    let first = first_slot(name);
    for look in 0..LOOKS {
        let place = ((first + look) % SLOTS) as usize;
        if let Some(slot) = slots.get_mut(place) {
            if *slot == 0 {
                *slot = task + 1;
                return;
            }
        }
    }
}

impl Lookup {
    /// Names with slots.
    pub fn new(alloc: Global, names: Names) -> Result<Lookup, AllocError>
        requires distinct { AreDistinct names }
        requires few { length names ≤ 1024 }
        ensures { IfOk result (λ lookup. lookup ≡ names) }
    {
        let mut slots = vec![in alloc; 0; SLOTS as usize]?;
        for task in 0..names.len() {
            fill_slot(&mut slots, names.at(task).as_bytes(), task as u16);
        }
        Ok(Lookup { names, slots })
    }

    /// The names.
    pub fn into_names(self) -> Names
        ensures { result ≡ self }
    {
        let Lookup { names, slots: _ } = self;
        names
    }

    /// The task of a slot, where it has this name.
    fn task_at(&self, place: usize, name: &[u8]) -> Option<usize>
        ensures task { IfSome result (λ task. task < length self.now) }
        ensures named { IfSome result (λ task. name_at self.now task ≡ name.now) }
    {
        let task = usize::from(*self.slots.get(place)?).checked_sub(1)?;
        if task < self.names.len() && self.names.at(task).as_bytes() == name {
            return Some(task);
        }
        None
    }

    /// The task of this name, where a slot tells it.
    fn by_slots(&self, name: &[u8]) -> Option<usize>
        ensures task { IfSome result (λ task. task < length self.now) }
        ensures named { IfSome result (λ task. name_at self.now task ≡ name.now) }
    {
        let first = first_slot(name);
        for look in 0..LOOKS {
            let place = ((first + look) % SLOTS) as usize;
            if let Some(task) = self.task_at(place, name) {
                return Some(task);
            }
        }
        None
    }

    /// The task of this name.
    pub fn place_of(&self, name: &[u8]) -> Option<u32>
        ensures place { result ≡ task_named self.now name.now }
        ensures within { IfSome result (λ task. task < length self.now) }
        ensures names { AreNames self.now }
    {
        let _many = self.names.len();
        if let Some(task) = self.by_slots(name) {
            return Some(task as u32);
        }
        match self.names.place_of(name) {
            Some(task) => Some(task as u32),
            None => None,
        }
    }
}
