//! A mix that is being read: what the records so far make of it.
//!
//! Each kind of record has a function that reads its fields in the order in which faults are told, and one that adds
//! what was read. Where memory ends, what was added before stays, and the reading ends.
ghost use Rattle.std.specs.Prelude.{◌≡◌, ◌≤◌, ◌<◌, length, true, IfSome};
ghost use Rattle.csv.specs.Records.{fields_of};
ghost use Rattle.combined_graph.specs.MixText.{Makes};
ghost use Rattle.combined_graph.specs.Mixes.{model_named, is_name as is_name_of};
ghost use Rattle.combined_graph.specs.MixRecords.{model_for, time_for, arc_for, model_said, time_said, arc_said};
ghost use Rattle.combined_graph.specs.MixRecords.{first_said, record_said, empty_mix};
ghost use Rattle.combined_graph.specs.declared.draft.Stop.TheVariants as stop;

use crate::fault::MixKind;
use crate::field::{bounded, is_name, positive, task_in};
use crate::model::MixModel;
use crate::records::four_of;
use csv::ByteRecord;
use line_instance::Prec;
use std::alloc::{AllocError, AllocFailed, Global};
use std::marker::Model;

// The most models of a mix.
const MAX_MODELS: usize = 16;

// The most tasks.
const MAX_TASKS: u64 = 1024;

// The greatest demand of a model.
const MAX_DEMAND: u64 = 10_000;

// The greatest time of a task of a model. In a combined instance a task then takes at most 16 * 10,000 times as much,
// 1.6 * 10^14, which is within the limit of an instance.
const MAX_TIME: u64 = 1_000_000_000;

// The most arcs of all models together: as many as a file of an instance may have.
const MAX_ARCS: usize = 524_288;

/// Why a record isn't taken.
#[derive(Drop)]
pub enum Stop {
    /// Out of memory.
    Memory,
    /// The record has a fault.
    Fault(MixKind),
}

impl From<AllocError> for Stop {
    ghost from_gives = { λ _ e. e ≡ stop.Memory };

    fn from(_e: AllocError) -> Stop {
        Stop::Memory
    }
}

impl<T: Drop> From<AllocFailed<T>> for Stop {
    ghost from_gives = { λ _ e. e ≡ stop.Memory };

    fn from(_e: AllocFailed<T>) -> Stop {
        Stop::Memory
    }
}

impl From<MixKind> for Stop {
    ghost from_gives = { λ kind e. e ≡ stop.Fault kind };

    fn from(kind: MixKind) -> Stop {
        Stop::Fault(kind)
    }
}

/// What the records so far say: tasks, and models with what was said of them.
#[derive(Drop)]
pub struct Draft {
    pub tasks: u32,
    pub models: Vec<MixModel>,
    pub arcs: usize,
}

impl Model for Draft {
    ghost use Rattle.std.specs.Prelude.{◌≡◌};
    ghost use Rattle.combined_graph.specs.Mixes.{MixedLine, IsDraft, arc_count};

    ghost Value = { MixedLine };

    ghost view = { λ s. record { tasks = s.tasks; models = s.models.items } };

    ghost invariant = { λ s.
        IsDraft (record { tasks = s.tasks; models = s.models.items })
        × (s.arcs ≡ arc_count s.models.items) };
}

/// The place of the first model of a name.
pub fn place_of(models: &[MixModel], name: &[u8]) -> Option<usize>
    ensures place { result ≡ model_named models.now name.now }
    ensures within { IfSome result (λ m. m < length models.now) }
{
    models.iter().position(|m| m.name() == name)
}

impl Draft {
    /// So many tasks, 1 to 1,024, and no model yet.
    pub fn new(alloc: Global, tasks: u32) -> Draft
        requires some { 0 < tasks }
        requires few { tasks ≤ 1024 }
        ensures { result ≡ empty_mix tasks }
    {
        Draft {
            tasks,
            models: Vec::new(alloc),
            arcs: 0,
        }
    }

    // One more model, where its name stands at no place and there is room.
    fn add_model(
        &mut self,
        alloc: Global,
        place: Option<usize>,
        name: &[u8],
        demand: u64,
    ) -> Result<(), Stop>
        requires name { is_name_of name.now ≡ true }
        requires some { 0 < demand }
        requires demand { demand ≤ 10000 }
        ensures { Makes result self.new (model_for self.old place name.now demand) }
    {
        if place.is_some() {
            return Err(Stop::Fault(MixKind::RepeatedModel));
        }
        if self.models.len() >= MAX_MODELS {
            return Err(Stop::Fault(MixKind::TooManyModels));
        }
        let model = MixModel::new(alloc, name, demand, self.tasks)?;
        self.models.push(model)?;
        Ok(())
    }

    // The time of a task of the model at a place.
    fn add_time(&mut self, place: Option<usize>, task: Option<u32>, time: u64) -> Result<(), Stop>
        requires place { IfSome place (λ m. m < length self.old.models) }
        requires task { IfSome task (λ t. t < self.old.tasks) }
        requires time { time ≤ 1000000000 }
        ensures { Makes result self.new (time_for self.old place task time) }
    {
        let Some(m) = place else {
            return Err(Stop::Fault(MixKind::UnknownModel));
        };
        let Some(t) = task else {
            return Err(Stop::Fault(MixKind::BadTask));
        };
        if self.models[m].is_given(t) {
            return Err(Stop::Fault(MixKind::RepeatedTime));
        }
        self.models[m].set_time(t, time);
        Ok(())
    }

    // One more arc of the model at a place.
    fn add_arc(
        &mut self,
        place: Option<usize>,
        first: Option<u32>,
        then: Option<u32>,
    ) -> Result<(), Stop>
        requires place { IfSome place (λ m. m < length self.old.models) }
        requires first { IfSome first (λ t. t < self.old.tasks) }
        requires then { IfSome «then» (λ t. t < self.old.tasks) }
        ensures { Makes result self.new (arc_for self.old place first «then») }
    {
        let Some(m) = place else {
            return Err(Stop::Fault(MixKind::UnknownModel));
        };
        let Some(first) = first else {
            return Err(Stop::Fault(MixKind::BadTask));
        };
        let Some(then) = then else {
            return Err(Stop::Fault(MixKind::BadTask));
        };
        if self.arcs >= MAX_ARCS {
            return Err(Stop::Fault(MixKind::TooManyArcs));
        }
        self.models[m].push_arc(Prec { first, then })?;
        self.arcs += 1;
        Ok(())
    }

    // The place of the first model of a name.
    fn place_of(&self, name: &[u8]) -> Option<usize>
        ensures place { result ≡ model_named self.now.models name.now }
        ensures within { IfSome result (λ m. m < length self.now.models) }
    {
        place_of(&self.models, name)
    }

    // Takes the record of a model.
    fn take_model(
        &mut self,
        alloc: Global,
        name: &[u8],
        demand: &[u8],
        fourth: &[u8],
    ) -> Result<(), Stop>
        ensures { Makes result self.new (model_said self.old name.now demand.now fourth.now) }
    {
        if !is_name(name) || !fourth.is_empty() {
            return Err(Stop::Fault(MixKind::Form));
        }
        let demand = positive(demand, MAX_DEMAND)?;
        let place = self.place_of(name);
        self.add_model(alloc, place, name, demand)
    }

    // Takes the record of a time.
    fn take_time(&mut self, name: &[u8], task: &[u8], time: &[u8]) -> Result<(), Stop>
        ensures { Makes result self.new (time_said self.old name.now task.now time.now) }
    {
        if !is_name(name) {
            return Err(Stop::Fault(MixKind::Form));
        }
        let task = task_in(self.tasks, task)?;
        let time = bounded(time, MAX_TIME)?;
        let place = self.place_of(name);
        self.add_time(place, task, time)
    }

    // Takes the record of an arc.
    fn take_arc(&mut self, name: &[u8], first: &[u8], then: &[u8]) -> Result<(), Stop>
        ensures { Makes result self.new (arc_said self.old name.now first.now «then».now) }
    {
        if !is_name(name) {
            return Err(Stop::Fault(MixKind::Form));
        }
        let first = task_in(self.tasks, first)?;
        let then = task_in(self.tasks, then)?;
        let place = self.place_of(name);
        self.add_arc(place, first, then)
    }

    /// Takes a record behind the first one. After an error the draft isn't used again.
    pub fn take(&mut self, alloc: Global, row: &ByteRecord) -> Result<(), Stop>
        ensures { Makes result self.new (record_said self.old (fields_of row.now)) }
    {
        let Some(four) = four_of(row) else {
            return Err(Stop::Fault(MixKind::Form));
        };
        if four.word == b"model".as_slice() {
            return self.take_model(alloc, four.second, four.third, four.fourth);
        }
        if four.word == b"time".as_slice() {
            return self.take_time(four.second, four.third, four.fourth);
        }
        if four.word == b"arc".as_slice() {
            return self.take_arc(four.second, four.third, four.fourth);
        }
        Err(Stop::Fault(MixKind::Form))
    }
}

/// The draft of the first record.
pub fn first_of(alloc: Global, row: &ByteRecord) -> Result<Draft, MixKind>
    ensures { result ≡ first_said (fields_of row.now) }
{
    let Some(four) = four_of(row) else {
        return Err(MixKind::Form);
    };
    if four.word != b"tasks".as_slice() || !four.third.is_empty() || !four.fourth.is_empty() {
        return Err(MixKind::Form);
    }
    let tasks = positive(four.second, MAX_TASKS)?;
    Ok(Draft::new(alloc, tasks as u32))
}
