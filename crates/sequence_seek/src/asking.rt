//! What is asked of the nodes: that a row of so many units from a node has a charged cost of at least a base.
//!
//! A node is like another one that begins no later, and so on to node 0. The one nearest to node 0 that has the value is
//! asked, so that few lemmas serve many nodes.
ghost use Rattle.sequence_rules.specs.Charges.{AreCharges};

use sequence_values::Numbers;
use sequence_walk::{Grown, Pass, charged};
use std::alloc::{AllocError, Global};

/// The most units of the entries of a list; one by Charge has a unit for each model.
pub(crate) const MOST_UNITS: u64 = 999_999;

/// What lemmas are told by.
#[derive(Drop)]
pub(crate) struct Telling {
    /// The table, as it is now.
    pub grown: Grown,
    /// The pass, which may have been made before.
    pub pass: Pass,
    /// Its charges, as a list.
    pub charges: Numbers,
    /// The best total.
    pub total: u64,
}

/// For each node and number of units left, the greatest base that was asked of it.
#[derive(Drop)]
pub(crate) struct Asked {
    nodes: usize,
    bases: Vec<Option<u64>>,
    /// How many bases there are.
    many: u64,
}

impl Telling {
    /// The charged cost of a unit of a model from a node.
    pub(crate) fn charged(&self, node: u32, model: usize) -> u64
        requires { AreCharges self.now.grown.table.times self.now.charges }
    {
        charged(&self.grown.table, self.charges.as_slice(), node, model)
    }

    /// The node that is asked for a base in the place of a node with so many units left, whose value is no less.
    pub(crate) fn asked_node(&self, left: usize, node: u32, base: u64) -> u32 {
        let mut asked = node;
        let mut at = node;
        for _ in 0..self.grown.likes.len() {
            if self.pass.value(left, at) >= base {
                asked = at;
            }
            if at == 0 {
                return asked;
            }
            at = self.grown.like(at);
        }
        asked
    }
}

impl Asked {
    /// Nothing was asked of the nodes of a pass.
    pub(crate) fn new(alloc: Global, pass: &Pass) -> Result<Asked, AllocError> {
        let nodes = pass.nodes() as usize;
        let places = nodes.saturating_mul(pass.units() + 1);
        let bases: Vec<Option<u64>> = vec![in alloc; None; places]?;
        Ok(Asked {
            nodes,
            bases,
            many: 0,
        })
    }

    /// Where a node stands with so many units left.
    fn place(&self, left: usize, node: u32) -> usize {
        left.saturating_mul(self.nodes)
            .saturating_add(node as usize)
    }

    /// The base of a node with so many units left, where one was asked.
    pub(crate) fn base(&self, left: usize, node: u32) -> Option<u64> {
        match self.bases.get(self.place(left, node)) {
            Some(base) => *base,
            None => None,
        }
    }

    /// Asks for a base, and answers the node that is asked.
    pub(crate) fn ask(&mut self, telling: &Telling, left: usize, node: u32, base: u64) -> u32 {
        let asked = telling.asked_node(left, node, base);
        let greatest = match self.base(left, asked) {
            Some(before) => before.max(base),
            None => {
                self.many = self.many.saturating_add(1);
                base
            }
        };
        let place = self.place(left, asked);
        if place < self.bases.len() {
            self.bases[place] = Some(greatest);
        }
        asked
    }

    /// Asks all that the base of a node stands on: of the next nodes, with a unit less.
    fn ask_behind(&mut self, telling: &Telling, left: usize, node: u32)
        requires { AreCharges telling.now.grown.table.times telling.now.charges }
    {
        let Some(base) = self.base(left, node) else {
            return;
        };
        for m in 0..telling.grown.table.models() as usize {
            let cost = telling.charged(node, m);
            if cost < base {
                let next = telling.pass.next(node, m);
                let _asked = self.ask(telling, left.saturating_sub(1), next, base - cost);
            }
        }
    }

    /// Whether the entries of the nodes that are asked have too many units for a list.
    pub(crate) fn is_too_much(&self, telling: &Telling) -> bool {
        let models = u64::from(telling.grown.table.models());
        self.many.saturating_mul(models) > MOST_UNITS
    }

    /// Asks all that is behind what was asked: with all units left first, and then with a unit less and less. Gives up
    /// where that is too much for a list.
    pub(crate) fn ask_all(&mut self, telling: &Telling)
        requires { AreCharges telling.now.grown.table.times telling.now.charges }
    {
        for left in (1..telling.pass.units() + 1).rev() {
            for node in 0..telling.pass.nodes() {
                self.ask_behind(telling, left, node);
            }
            if self.is_too_much(telling) {
                return;
            }
        }
    }
}
