//! A pass over a table, with all that is asked of it later: the charges, the values, and the next nodes as they were.
//!
//! A table goes on when its steps are opened, and lemmas are told by a pass that was made before. So a pass keeps the
//! next nodes beside the values: a word for each node and model, in place of one for each node and number of units.
ghost use Rattle.std.specs.Prelude.{◌≡◌, ◌<◌, ◌≤◌, IfOk};
ghost use Rattle.sequence_rules.specs.Charges.{IsChargesOf, AreCharges};

use sequence_rules::MAX_MODELS;
use sequence_table::{Passed, Table, Told};
use sequence_values::Numbers;
use std::alloc::{AllocError, Global};

/// The greatest charge of a model.
pub const MAX_CHARGE: u64 = 100_000_000_000_000;

/// A charge for each model, and 0 for what is no model.
pub type Charges = [u64; MAX_MODELS];

/// The charges of so many models as a list, each at most 10^14. An error where memory is wanting.
pub fn listed(alloc: Global, charges: &Charges, models: usize) -> Result<Numbers, AllocError>
    requires { models ≤ 16 }
    ensures { IfOk result (λ v. IsChargesOf models v) }
{
    let mut list = Vec::new(alloc);
    for m in 0..models {
        list.push(charges[m].min(MAX_CHARGE))?;
    }
    Ok(Numbers::from_vec(list))
}

/// The charges of a table's models as a list. An error where memory is wanting.
pub fn charges_of(alloc: Global, table: &Table, charges: &Charges) -> Result<Numbers, AllocError>
    ensures { IfOk result (λ v. AreCharges table.now.times v) }
{
    listed(alloc, charges, table.models() as usize)
}

/// The charged cost of a unit of a model from a node, both counted from 0; 0 where there is no such node or model.
pub fn charged(table: &Table, charges: &[u64], node: u32, model: usize) -> u64
    requires { AreCharges table.now.times charges.now }
    ensures { result ≤ 740000000000000 }
{
    if node >= table.len() || model >= table.models() as usize {
        return 0;
    }
    table.unit_cost(charges, node, model as u32)
}

/// What a pass told.
#[derive(Drop)]
pub struct Pass {
    /// The charges that it was made with.
    pub charges: Charges,
    told: Told,
    models: usize,
    nexts: Vec<u32>,
}

/// The next node of each node and model.
fn nexts(alloc: Global, table: &Table) -> Result<Vec<u32>, AllocError> {
    let mut nexts = Vec::new(alloc);
    for node in 0..table.len() {
        for model in 0..table.models() {
            nexts.push(table.next(node, model))?;
        }
    }
    Ok(nexts)
}

/// Makes a pass over a table: it costs as many units as there are nodes. An error where memory is wanting.
pub fn make_pass(alloc: Global, table: &Table, charges: &Charges) -> Result<Pass, AllocError> {
    let list = charges_of(alloc, table, charges)?;
    let Passed::Done(told) = table.pass(alloc, &list) else {
        return Err(AllocError);
    };
    Ok(Pass {
        charges: *charges,
        told,
        models: table.models() as usize,
        nexts: nexts(alloc, table)?,
    })
}

impl Pass {
    ghost use Rattle.sequence_walk.specs.Walks.{units_of};

    /// How many nodes there were.
    pub fn nodes(&self) -> u32 {
        self.told.nodes()
    }

    /// How many units are wanted.
    pub fn units(&self) -> usize
        ensures units { result ≡ units_of self.now }
        ensures few { result < 4294967296 }
    {
        self.told.left() as usize
    }

    /// The value of a node with so many units left; 0 where there is none.
    pub fn value(&self, left: usize, node: u32) -> u64
        ensures { result < 1000000000000000000 }
    {
        if left > self.told.left() as usize || node >= self.told.nodes() {
            return 0;
        }
        self.told.value(left as u32, node)
    }

    /// The next node of a node and a model when the pass was made; node 0 where there is none.
    pub fn next(&self, node: u32, model: usize) -> u32 {
        let place = (node as usize)
            .saturating_mul(self.models)
            .saturating_add(model);
        self.nexts.get(place).copied().unwrap_or(0)
    }

    /// The charges of the units that are left, `rem` of each model: at most 1,600,000,000,000,000,000.
    pub fn owed(&self, rem: &[u64]) -> u64 {
        let mut owed = 0u64;
        for (m, units) in rem.iter().enumerate() {
            if m < MAX_MODELS {
                owed = owed.saturating_add(units.saturating_mul(self.charges[m]));
            }
        }
        owed
    }
}
