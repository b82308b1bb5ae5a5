//! A walk over states, layer by layer: a beam search that is told by a table (own).
//!
//! Each step of a state costs a unit, and nothing else does. What a step leads to is dropped where its cost so far, and
//! what it still costs at least, come to the best total. Of the others few are kept, the most promising first, and none
//! for which another one stands. A walk that dropped nothing else has seen all that could be better.
ghost use Rattle.std.specs.Prelude.{◌≡◌, ◌+◌, ◌-◌, ◌≤◌, IfOk, IfSome, IsTrue, IsFalse, MatchOption, vec_len};
ghost use Rattle.sequence_walk.specs.Walks.{units_of, HasSteps, LayerHasSteps, WalkHasSteps};

use crate::layers::{Indexed, Layer, Step};
use crate::passes::Pass;
use crate::ranges::is_state;
use crate::steps::{Led, led_by};
use sequence_table::Table;
use sequence_values::Numbers;
use std::alloc::{AllocError, Global};
use std::cmp::Reverse;

/// A walk that was not given up.
#[derive(Drop)]
pub struct Walk {
    /// The states that were kept: the root, those with a unit less, and so on.
    pub layers: Vec<Indexed>,
    /// Whether no state was dropped for want of width.
    pub whole: bool,
}

/// A sequence that a walk found.
#[derive(Drop)]
pub struct Costed {
    /// The models in the order of their launch, from 0.
    pub sequence: Numbers,
    /// The utility work of the walk's steps.
    pub total: u64,
}

/// What the steps of a layer lead to.
#[derive(Drop)]
struct Candidates {
    /// The total that they have to stay below.
    best: u64,
    /// How many units they have left.
    left: usize,
    states: Layer,
    /// For each, its told total, its cost, and its place among the states.
    order: Vec<(u64, Reverse<u64>, usize)>,
}

/// The states of the next layer, and whether there was width for all of them.
#[derive(Drop)]
struct Kept {
    states: Indexed,
    whole: bool,
}

/// What the utility work of the units that are left comes to at least, as a pass tells it.
fn told_rest(pass: &Pass, left: usize, node: u32, rem: &[u64]) -> u64 {
    pass.value(left, node)
        .saturating_sub(pass.owed(rem))
        .div_ceil(1000)
}

/// The layer of the root alone.
fn root_layer(alloc: Global, table: &Table) -> Result<Indexed, AllocError> {
    let times = table.times();
    let mut root = Indexed::new(alloc, times.demands.len(), times.stations as usize);
    let starts = vec![in alloc; 0; times.stations as usize]?;
    root.push(times.demands.as_slice(), starts.as_slice(), Step::root())?;
    Ok(root)
}

impl Candidates {
    /// Puts at the end what a step leads to, where it may come to less than the best total.
    fn push(&mut self, pass: &Pass, led: &Led, step: Step) -> Result<(), AllocError> {
        let rest = told_rest(pass, self.left, step.node, led.rem());
        let total = step.cost.saturating_add(rest.max(led.bound));
        if total < self.best {
            let place = self.states.len();
            self.order.push((total, Reverse(step.cost), place))?;
            self.states.push(led.rem(), led.starts(), step)?;
        }
        Ok(())
    }

    /// Takes the steps of the state at place `from` of a layer, for a unit each; none of what isn't a state. Whether
    /// the units sufficed: if they did, just the steps were paid, and else no unit is left.
    fn push_steps(
        &mut self,
        table: &Table,
        pass: &Pass,
        layer: &Layer,
        from: usize,
        units: &mut u64,
    ) -> Result<bool, AllocError>
        ensures steps { IfOk result (λ all. IsTrue all
            → HasSteps table.now.times layer.now from (units.old - units.new)) }
        ensures ended { IfOk result (λ all. IsFalse all → units.new ≡ 0) }
        ensures fewer { units.new ≤ units.old }
    {
        let rem = layer.rem(from);
        let starts = layer.starts(from);
        let own = layer.step(from);
        if !is_state(table.times(), rem, starts) {
            return Ok(true);
        }
        for model in 0..rem.len() {
            if rem[model] > 0 {
                if *units == 0 {
                    return Ok(false);
                }
                *units -= 1;
                let led = led_by(table, rem, starts, model);
                let node = pass.next(own.node, model);
                self.push(pass, &led, own.then(led.cost, node, from, model))?;
            }
        }
        Ok(true)
    }

    /// Keeps the first states of the most promising order, as many as there is width for, none of which another one
    /// stands for.
    fn keep(self, alloc: Global, table: &Table, width: usize) -> Result<Kept, AllocError> {
        let Candidates {
            states,
            mut order,
            ..
        } = self;
        order.sort_unstable();
        let times = table.times();
        let mut kept = Indexed::new(alloc, times.demands.len(), times.stations as usize);
        for (_, cost, place) in &order {
            let rem = states.rem(*place);
            let starts = states.starts(*place);
            if kept.first_standing(rem, starts, cost.0).is_none() {
                if kept.layer.len() >= width {
                    return Ok(Kept {
                        states: kept,
                        whole: false,
                    });
                }
                kept.push(rem, starts, states.step(*place))?;
            }
        }
        Ok(Kept {
            states: kept,
            whole: true,
        })
    }
}

/// Takes all steps of all states of a layer, for a unit each. None where the units ended: then no unit is left.
fn next_layer(
    table: &Table,
    pass: &Pass,
    layer: &Layer,
    mut candidates: Candidates,
    units: &mut u64,
) -> Result<Option<Candidates>, AllocError>
    ensures steps { IfOk result (λ taken. MatchOption taken (units.new ≡ 0)
        (λ _. LayerHasSteps table.now.times layer.now (units.old - units.new))) }
    ensures fewer { units.new ≤ units.old }
{
    for from in 0..layer.len() {
        if !candidates.push_steps(table, pass, layer, from, units)? {
            return Ok(None);
        }
    }
    Ok(Some(candidates))
}

/// Walks from the root, with so many states a layer at most, in search of a total below the best one. Takes from
/// `units` just one for each step of each state of the layers that it found, but for the last layer, whose steps it
/// doesn't take. It finds one layer more than units are wanted. None where the units ended: then no unit is left.
pub fn walk_from_root(
    alloc: Global,
    table: &Table,
    pass: &Pass,
    best: u64,
    width: usize,
    units: &mut u64,
) -> Result<Option<Walk>, AllocError>
    ensures steps { IfOk result (λ found. MatchOption found (units.new ≡ 0)
        (λ walk. WalkHasSteps table.now.times walk.layers.items (units.old - units.new))) }
    ensures layers { IfOk result (λ found. IfSome found
        (λ walk. vec_len walk.layers ≡ units_of pass.now + 1)) }
    ensures fewer { units.new ≤ units.old }
{
    let mut layers = Vec::new(alloc);
    let mut whole = true;
    let mut last = root_layer(alloc, table)?;
    for left in (0..pass.units()).rev() {
        let candidates = Candidates {
            best,
            left,
            states: Layer::new(
                alloc,
                table.models() as usize,
                table.times().stations as usize,
            ),
            order: Vec::new(alloc),
        };
        let Some(candidates) = next_layer(table, pass, &last.layer, candidates, units)? else {
            return Ok(None);
        };
        let kept = candidates.keep(alloc, table, width)?;
        whole = whole && kept.whole;
        layers.push(last)?;
        last = kept.states;
    }
    layers.push(last)?;
    Ok(Some(Walk { layers, whole }))
}

impl Walk {
    /// The sequence to the first state that has nothing left, with its utility work, where there is one.
    pub fn found(&self, alloc: Global) -> Result<Option<Costed>, AllocError> {
        let Some(last) = self.layers.last() else {
            return Ok(None);
        };
        if last.layer.len() == 0 {
            return Ok(None);
        }
        let end = last.layer.step(0);
        let mut models = Vec::new(alloc);
        let mut step = end;
        for k in (1..self.layers.len()).rev() {
            models.push(step.model as u64)?;
            step = self.layers[k - 1].layer.step(step.from);
        }
        models.reverse();
        Ok(Some(Costed {
            sequence: Numbers::from_vec(models),
            total: end.cost,
        }))
    }
}
