//! The states of a walk that have as many units left, and an index of them by what is left of each model.
//!
//! The numbers of all states stand one behind the other, so that no state takes memory of its own. A map has the last
//! state of each key, which is made of what is left, and a list leads from each state to the one of its key before it.
//! So whether a state stands for another is looked for among those of one key alone.
ghost use Rattle.std.specs.Prelude.{◌≡◌};
ghost use Rattle.sequence_walk.specs.Rows.{row_at};

use sequence_rules::{is_no_later, is_same};
use std::alloc::{AllocError, Global};
use std::collections::HashMap;

/// How a walk came to a state. Models and nodes are counted from 0.
#[derive(Clone, Copy)]
pub struct Step {
    /// The utility work so far.
    pub cost: u64,
    /// The node that it is bounded by.
    pub node: u32,
    /// The place of the state before it, in the layer before.
    pub from: usize,
    /// The model of the unit that was launched.
    pub model: usize,
}

impl Step {
    /// That to the root.
    pub fn root() -> Step {
        Step {
            cost: 0,
            node: 0,
            from: 0,
            model: 0,
        }
    }

    /// The step behind it, by a model that costs so much and whose next node is this one, from place `from`.
    pub fn then(&self, cost: u64, node: u32, from: usize, model: usize) -> Step {
        Step {
            cost: self.cost.saturating_add(cost),
            node,
            from,
            model,
        }
    }
}

/// States of a walk, in order.
#[derive(Drop)]
pub struct Layer {
    models: usize,
    stations: usize,
    rems: Vec<u64>,
    starts: Vec<u64>,
    steps: Vec<Step>,
}

/// The numbers of place `k`, of so many each; none where there aren't so many.
fn row(all: &[u64], width: usize, k: usize) -> &[u64]
    ensures { result.now ≡ row_at all.now width k }
{
    let from = k.saturating_mul(width);
    let to = from.saturating_add(width);
    if to > all.len() {
        return &all[..0];
    }
    &all[from..to]
}

impl Layer {
    ghost use Rattle.sequence_walk.specs.Walks.{states_of, rem_at, starts_at};

    /// No state, of so many models and stations.
    pub fn new(alloc: Global, models: usize, stations: usize) -> Layer {
        Layer {
            models,
            stations,
            rems: Vec::new(alloc),
            starts: Vec::new(alloc),
            steps: Vec::new(alloc),
        }
    }

    /// How many states there are.
    pub fn len(&self) -> usize
        ensures { result ≡ states_of self.now }
    {
        self.steps.len()
    }

    /// What is left of each model, of the state at place `k`; nothing where there is none.
    pub fn rem(&self, k: usize) -> &[u64]
        ensures { result.now ≡ rem_at self.now k }
    {
        row(self.rems.as_slice(), self.models, k)
    }

    /// Where the next unit is begun at each station, of the state at place `k`; nothing where there is none.
    pub fn starts(&self, k: usize) -> &[u64]
        ensures { result.now ≡ starts_at self.now k }
    {
        row(self.starts.as_slice(), self.stations, k)
    }

    /// How the walk came to the state at place `k`; as to the root where there is none.
    pub fn step(&self, k: usize) -> Step {
        if k >= self.steps.len() {
            return Step::root();
        }
        self.steps[k]
    }

    /// Puts a state at the end.
    pub fn push(&mut self, rem: &[u64], starts: &[u64], step: Step) -> Result<(), AllocError> {
        self.rems.extend_from_slice(rem)?;
        self.starts.extend_from_slice(starts)?;
        self.steps.push(step)?;
        Ok(())
    }

    /// Whether the state at place `k` stands for another.
    fn stands(&self, k: usize, rem: &[u64], starts: &[u64], cost: u64) -> bool {
        self.step(k).cost <= cost
            && is_same(self.rem(k), rem)
            && is_no_later(self.starts(k), starts)
    }
}

/// A key of what is left: equal units left have equal keys.
fn key_of(rem: &[u64]) -> u64 {
    let mut key = 0u64;
    for units in rem {
        key = key.wrapping_mul(1_000_003).wrapping_add(*units);
    }
    key
}

/// States with an index.
#[derive(Drop)]
pub struct Indexed {
    /// The states.
    pub layer: Layer,
    latest: HashMap<u64, usize>,
    before: Vec<Option<usize>>,
}

impl Indexed {
    /// No state, of so many models and stations.
    pub fn new(alloc: Global, models: usize, stations: usize) -> Indexed {
        Indexed {
            layer: Layer::new(alloc, models, stations),
            latest: HashMap::new(alloc),
            before: Vec::new(alloc),
        }
    }

    /// Puts a state at the end.
    pub fn push(&mut self, rem: &[u64], starts: &[u64], step: Step) -> Result<(), AllocError> {
        let last = self.latest.insert(key_of(rem), self.layer.len())?;
        self.before.push(last)?;
        self.layer.push(rem, starts, step)
    }

    /// The first state that stands for another: it has the same units left, starts that are no later at any station,
    /// and a cost that is no greater.
    pub fn first_standing(&self, rem: &[u64], starts: &[u64], cost: u64) -> Option<usize> {
        let mut first = None;
        let mut next = self.latest.get(&key_of(rem)).copied();
        for _ in 0..self.before.len() {
            let Some(k) = next else {
                return first;
            };
            if self.layer.stands(k, rem, starts, cost) {
                first = Some(k);
            }
            next = match self.before.get(k) {
                Some(last) => *last,
                None => None,
            };
        }
        first
    }
}
