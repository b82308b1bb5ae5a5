//! The arcs and the pairs that the lists of tasks say, taken member by member.
ghost use Rattle.std.specs.Prelude.{◌≡◌, ◌≤◌, length, IfOk, OnOk};
ghost use Rattle.task_table.specs.Lists.{members_of};
ghost use Rattle.task_table.specs.inner.Reading.{Makes, Tells, no_links, count_of, with_link, known_said, unknown_kind};
ghost use Rattle.task_table.specs.inner.Reading.{link_said, links_said, task_links_said, lists_said};

use crate::fault::TableKind;
use crate::lists::{is_blank, semicolon, unblanked};
use crate::lookup::Lookup;
use crate::stop::{Stop, at_record};
use crate::tasks::TaskLists;
use line_instance::Prec;
use std::alloc::{AllocError, Global};
use std::marker::Model;
use task_names::{Name, is_task_name};

/// The most members of all lists of a column.
const MAX_MEMBERS: usize = 524_288;

/// Whose list a list is: the number of the record, the task in it, and whether the list is of tasks apart from it, or
/// else of tasks before it.
#[derive(Clone, Copy)]
pub struct Owner {
    pub row: u64,
    pub task: u32,
    pub apart: bool,
}

/// The arcs and the pairs so far, and the number of the first record with a pair.
#[derive(Drop)]
pub struct Links {
    pub arcs: Vec<Prec>,
    pub pairs: Vec<Prec>,
    pub pairs_at: Option<u64>,
}

impl Model for Links {
    ghost use Rattle.task_table.specs.inner.Reading.{LinksSaid};

    ghost Value = { LinksSaid };

    ghost view = { λ s. record { arcs = s.arcs.items; pairs = s.pairs.items; pairs_at = s.pairs_at } };
}

impl Links {
    /// None yet.
    fn new(alloc: Global) -> Links
        ensures { result ≡ no_links }
    {
        Links {
            arcs: Vec::new(alloc),
            pairs: Vec::new(alloc),
            pairs_at: None,
        }
    }

    /// How many members the lists of a column had so far.
    fn count(&self, apart: bool) -> usize
        ensures { result ≡ count_of apart self.now }
    {
        if apart {
            self.pairs.len()
        } else {
            self.arcs.len()
        }
    }

    /// One more arc or pair, with the task that the member names.
    fn push(&mut self, owner: Owner, place: u32) -> Result<(), AllocError>
        ensures { OnOk result (self.new ≡ with_link self.old owner place) }
    {
        if !owner.apart {
            self.arcs.push(Prec {
                first: place,
                then: owner.task,
            })?;
            return Ok(());
        }
        self.pairs.push(Prec {
            first: owner.task,
            then: place,
        })?;
        if self.pairs_at.is_none() {
            self.pairs_at = Some(owner.row);
        }
        Ok(())
    }

    /// Takes a member that is the name of a task.
    fn take_known(&mut self, owner: Owner, place: u32) -> Result<(), Stop>
        ensures { Makes result self.new (known_said owner place self.old) }
    {
        if self.count(owner.apart) >= MAX_MEMBERS {
            return Err(at_record(owner.row, TableKind::TooManyArcs));
        }
        if owner.apart && place == owner.task {
            return Err(at_record(owner.row, TableKind::Itself));
        }
        self.push(owner, place)?;
        Ok(())
    }

    /// What is wrong with a member that is the name of no task.
    fn unknown(&self, alloc: Global, owner: Owner, name: &[u8]) -> Result<TableKind, AllocError>
        ensures { IfOk result (λ kind. kind ≡ unknown_kind (count_of owner.apart self.now) name.now) }
    {
        if !is_task_name(name) {
            return Ok(TableKind::BadName);
        }
        if self.count(owner.apart) >= MAX_MEMBERS {
            return Ok(TableKind::TooManyArcs);
        }
        Ok(TableKind::UnknownTask(Name::new(alloc, name)?))
    }

    /// Takes a member of a list.
    fn take(
        &mut self,
        alloc: Global,
        lookup: &Lookup,
        owner: Owner,
        name: &[u8],
    ) -> Result<(), Stop>
        ensures { Makes result self.new (link_said lookup.now owner name.now self.old) }
    {
        match lookup.place_of(name) {
            Some(place) => self.take_known(owner, place),
            None => Err(at_record(owner.row, self.unknown(alloc, owner, name)?)),
        }
    }

    /// Takes the members of a list.
    fn take_list(
        &mut self,
        alloc: Global,
        lookup: &Lookup,
        owner: Owner,
        list: &[u8],
    ) -> Result<(), Stop>
        ensures { Makes result self.new (links_said lookup.now owner (members_of list.now) self.old) }
    {
        if is_blank(list) {
            return Ok(());
        }
        let mut left = list;
        'parts: loop {
            let Some(end) = semicolon(left) else {
                return self.take(alloc, lookup, owner, unblanked(left));
            };
            self.take(alloc, lookup, owner, unblanked(&left[..end]))?;
            left = &left[end + 1..];
        }
    }

    /// Takes both lists of a task.
    fn take_lists(
        &mut self,
        alloc: Global,
        lookup: &Lookup,
        task: u32,
        lists: &TaskLists,
    ) -> Result<(), Stop>
        ensures { Makes result self.new (task_links_said lookup.now task lists.now self.old) }
    {
        let row = lists.row;
        self.take_list(
            alloc,
            lookup,
            Owner {
                row,
                task,
                apart: false,
            },
            &lists.after,
        )?;
        self.take_list(
            alloc,
            lookup,
            Owner {
                row,
                task,
                apart: true,
            },
            &lists.apart,
        )
    }
}

/// The arcs and the pairs of the lists of all tasks.
pub fn links_of(alloc: Global, lookup: &Lookup, lists: &[TaskLists]) -> Result<Links, Stop>
    requires { length lists.now ≤ 1024 }
    ensures { Tells result (lists_said lookup.now 0 lists.now no_links) }
{
    let mut links = Links::new(alloc);
    for task in 0..lists.len() {
        links.take_lists(alloc, lookup, task as u32, &lists[task])?;
    }
    Ok(links)
}
