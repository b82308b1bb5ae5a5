//! The cited states of a whole walk, and what their steps are answered by.
//!
//! The root is cited. A step of a cited state is answered by a node, where its value is great enough, and else by the
//! first state of the next layer that stands for where it leads, which is cited then. So layer by layer all cites are
//! found, and a node is asked for what it has to show.

use crate::asking::{Asked, Telling};
use sequence_walk::{Indexed, Layer, Led, Step, is_state, led_by};
use std::alloc::{AllocError, Global};

/// What a step of a state is answered by, with a unit less.
#[derive(Clone, Copy)]
pub(crate) enum Cite {
    /// The entry of a node.
    Node(u32),
    /// The entry of a state of the next layer, by its place.
    State(usize),
}

/// A cited state of a walk.
#[derive(Drop)]
pub(crate) struct Branch {
    /// Its place in its layer.
    pub place: usize,
    /// The utility work that every sequence from it has at least.
    pub need: u64,
    /// What its steps are answered by, in the order of the models.
    pub cites: Vec<Cite>,
}

/// What is cited so far, going down from the root.
#[derive(Drop)]
pub(crate) struct Descent {
    /// What was asked of the nodes.
    pub asked: Asked,
    /// Which states of the next layer are cited.
    marks: Vec<bool>,
}

/// The base that shows a need, with the charges of the units that are left.
fn base_of(need: u64, owed: u64) -> u64 {
    let least = need
        .saturating_sub(1)
        .saturating_mul(1000)
        .saturating_add(1);
    least.saturating_add(owed)
}

impl Descent {
    /// Nothing is cited but the root.
    pub(crate) fn new(alloc: Global, telling: &Telling) -> Result<Descent, AllocError> {
        Ok(Descent {
            asked: Asked::new(alloc, &telling.pass)?,
            marks: vec![in alloc; true]?,
        })
    }

    /// Asks node 0 for the base that the best total wants, or for its value where that is less.
    pub(crate) fn ask_root(&mut self, telling: &Telling) {
        let units = telling.pass.units();
        let owed = telling
            .pass
            .owed(telling.grown.table.times().demands.as_slice());
        let wanted = base_of(telling.total, owed);
        let _asked = self.asked.ask(telling, units, 0, wanted.min(telling.pass.value(units, 0)));
    }

    /// What answers the state that a step leads to, of which `need` is left to show, with `left` units left.
    fn cite(
        &mut self,
        telling: &Telling,
        next: &Indexed,
        led: &Led,
        to: Step,
        need: u64,
        left: usize,
    ) -> Option<Cite> {
        let base = base_of(need, telling.pass.owed(led.rem()));
        if telling.pass.value(left, to.node) >= base {
            return Some(Cite::Node(self.asked.ask(telling, left, to.node, base)));
        }
        let place = next.first_standing(led.rem(), led.starts(), to.cost)?;
        if place < self.marks.len() {
            self.marks[place] = true;
        }
        Some(Cite::State(place))
    }

    /// A cited state with what its steps are answered by. `left` is how many units the next layer has left.
    fn branch(
        &mut self,
        alloc: Global,
        telling: &Telling,
        layer: &Layer,
        next: &Indexed,
        place: usize,
        left: usize,
    ) -> Result<Branch, AllocError> {
        let rem = layer.rem(place);
        let starts = layer.starts(place);
        let own = layer.step(place);
        let need = telling.total.saturating_sub(own.cost);
        let mut cites = Vec::new(alloc);
        let table = &telling.grown.table;
        if is_state(table.times(), rem, starts) {
            for model in 0..rem.len() {
                if rem[model] > 0 {
                    let led = led_by(table, rem, starts, model);
                    let rest = need.saturating_sub(led.cost);
                    if led.bound < rest {
                        let node = telling.pass.next(own.node, model);
                        let to = own.then(led.cost, node, place, model);
                        if let Some(cite) = self.cite(telling, next, &led, to, rest, left) {
                            cites.push(cite)?;
                        }
                    }
                }
            }
        }
        Ok(Branch { place, need, cites })
    }

    /// The cited states of a layer; those of the next one are marked.
    fn layer_branches(
        &mut self,
        alloc: Global,
        telling: &Telling,
        layer: &Layer,
        next: &Indexed,
        left: usize,
    ) -> Result<Vec<Branch>, AllocError> {
        let unmarked = vec![in alloc; false; next.layer.len()]?;
        let cited = std::mem::replace(&mut self.marks, unmarked);
        let mut branches = Vec::new(alloc);
        for (place, is_cited) in cited.iter().enumerate() {
            if *is_cited {
                branches.push(self.branch(alloc, telling, layer, next, place, left)?)?;
            }
        }
        Ok(branches)
    }

    /// The cited states of all layers but the last, from the root on.
    pub(crate) fn branches(
        &mut self,
        alloc: Global,
        telling: &Telling,
        layers: &[Indexed],
    ) -> Result<Vec<Vec<Branch>>, AllocError> {
        let mut all = Vec::new(alloc);
        for k in 1..layers.len() {
            let left = telling.pass.units().saturating_sub(k);
            all.push(self.layer_branches(alloc, telling, &layers[k - 1].layer, &layers[k], left)?)?;
        }
        Ok(all)
    }
}
