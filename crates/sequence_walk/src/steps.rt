//! A step of a state that a walk or a lemma is about.
ghost use Rattle.std.specs.Prelude.{◌<◌, length};
ghost use Rattle.sequence_rules.specs.Ranges.{IsState};

use sequence_rules::{MAX_MODELS, MAX_STATIONS, launch, state_bound, step};
use sequence_table::Table;

/// What a step leads to.
#[derive(Clone, Copy)]
pub struct Led {
    rem: [u64; MAX_MODELS],
    starts: [u64; MAX_STATIONS],
    models: usize,
    stations: usize,
    /// The utility work of the step.
    pub cost: u64,
    /// The bound of the state that it leads to.
    pub bound: u64,
}

impl Led {
    /// What is left of each model.
    pub fn rem(&self) -> &[u64] {
        &self.rem[..self.models.min(MAX_MODELS)]
    }

    /// Where the next unit is begun at each station.
    pub fn starts(&self) -> &[u64] {
        &self.starts[..self.stations.min(MAX_STATIONS)]
    }
}

/// The step of a state by a model, counted from 0.
pub fn led_by(table: &Table, rem: &[u64], starts: &[u64], model: usize) -> Led
    requires state { IsState (length table.now.times.demands) table.now.times.stations rem.now starts.now }
    requires model { model < length rem.now }
{
    let times = table.times();
    let interval = table.interval();
    let reach = table.reach();
    let mut lefts = [0; MAX_MODELS];
    let mut nexts = [0; MAX_STATIONS];
    let left = &mut lefts[..rem.len()];
    let next = &mut nexts[..starts.len()];
    launch(rem, model, left);
    let cost = step(times, interval, reach, model, starts, next);
    let bound = state_bound(times, interval, reach, left, next);
    Led {
        rem: lefts,
        starts: nexts,
        models: rem.len(),
        stations: starts.len(),
        cost,
        bound,
    }
}
