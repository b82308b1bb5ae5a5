//! One model of a mix.
ghost use Rattle.std.specs.Prelude.{◌≡◌, ◌≤◌, ◌<◌, ◌*◌, ◌∷◌, ◌++◌, [], Some, length, slice_set, true, IfOk, OnOk};
ghost use Rattle.std.specs.Prelude.{OnErr, is_some};
ghost use Rattle.combined_graph.specs.Mixes.{IsModel, is_name, given_time, time_of, new_model};
ghost use Rattle.line_instance.specs.Walks.{Names};

use line_instance::Prec;
use std::alloc::{AllocError, Global};
use std::marker::Model;

/// A model: its name, how many are wanted, for each task the time where one is given, and its arcs.
#[derive(Drop)]
pub struct MixModel {
    name: Vec<u8>,
    demand: u64,
    times: Vec<Option<u64>>,
    arcs: Vec<Prec>,
}

impl Model for MixModel {
    ghost use Rattle.std.specs.Prelude.{length};
    ghost use Rattle.combined_graph.specs.Mixes.{LineModel, IsModel};

    ghost Value = { LineModel };

    ghost view = { λ s. record { name = s.name.items; demand = s.demand; times = s.times.items; arcs = s.arcs.items } };

    ghost invariant = { λ s.
        IsModel (length s.times.items)
        (record { name = s.name.items; demand = s.demand; times = s.times.items; arcs = s.arcs.items }) };
}

impl MixModel {
    /// A model of so many tasks, of which no time and no arc is given yet.
    pub fn new(alloc: Global, name: &[u8], demand: u64, tasks: u32) -> Result<MixModel, AllocError>
        requires name { is_name name.now ≡ true }
        requires some { 0 < demand }
        requires demand { demand ≤ 10000 }
        ensures value { IfOk result (λ m. m ≡ new_model tasks name.now demand) }
        ensures right { IfOk result (λ m. IsModel tasks m) }
    {
        Ok(MixModel {
            name: Vec::from_slice(alloc, name)?,
            demand,
            times: vec![in alloc; None; tasks as usize]?,
            arcs: Vec::new(alloc),
        })
    }

    /// The name.
    #[inline]
    pub fn name(&self) -> &[u8]
        ensures { result.now ≡ self.now.name }
    {
        self.name.as_slice()
    }

    /// How many are wanted, 1 to 10,000.
    #[inline]
    pub fn demand(&self) -> u64
        ensures demand { result ≡ self.now.demand }
        ensures limit { result ≤ 10000 }
    {
        self.demand
    }

    /// Whether the time of a task is given.
    #[inline]
    pub fn is_given(&self, task: u32) -> bool
        requires { task < length self.now.times }
        ensures { result ≡ is_some (given_time self.now task) }
    {
        self.times[task as usize].is_some()
    }

    /// The time of a task, at most 1,000,000,000; one that isn't given is 0.
    #[inline]
    pub fn time(&self, task: u32) -> u64
        requires { task < length self.now.times }
        ensures time { result ≡ time_of self.now task }
        ensures limit { result ≤ 1000000000 }
    {
        self.times[task as usize].unwrap_or(0)
    }

    /// The demand times the time of a task, at most 10,000,000,000,000.
    #[inline]
    pub fn work(&self, task: u32) -> u64
        requires { task < length self.now.times }
        ensures work { result ≡ self.now.demand * time_of self.now task }
        ensures limit { result ≤ 10000000000000 }
    {
        self.demand() * self.time(task)
    }

    /// Gives the time of a task.
    pub fn set_time(&mut self, task: u32, time: u64)
        requires task { task < length self.old.times }
        requires limit { time ≤ 1000000000 }
        ensures value { self.new ≡ record self.old { times = slice_set self.old.times task (Some time) } }
        ensures right { IsModel (length self.old.times) self.new }
    {
        self.times[task as usize] = Some(time);
    }

    /// The arcs.
    #[inline]
    pub fn arcs(&self) -> &[Prec]
        ensures arcs { result.now ≡ self.now.arcs }
        ensures right { IsModel (length self.now.times) self.now }
    {
        self.arcs.as_slice()
    }

    /// Puts an arc at the end; without memory the model stays as it was.
    pub fn push_arc(&mut self, arc: Prec) -> Result<(), AllocError>
        requires { Names (length self.old.times) arc }
        ensures ok { OnOk result (self.new ≡ record self.old { arcs = self.old.arcs ++ arc ∷ [] }) }
        ensures right { OnOk result (IsModel (length self.old.times) self.new) }
        ensures err { OnErr result (self.new ≡ self.old) }
    {
        self.arcs.push(arc)?;
        Ok(())
    }
}
