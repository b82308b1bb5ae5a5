//! A pass over a table: the values of all nodes, first with none left, then with one left, and so on.
//!
//! The charged cost of each unit from each node is reckoned once. Then a value takes one sum for each model.
ghost use Rattle.std.specs.Prelude.{◌≡◌, ◌+◌, ◌-◌, ◌*◌, ◌<◌, ◌≤◌, length, slice_index_or, All, IfOk};
ghost use Rattle.sequence_rules.specs.Charges.{AreCharges};
ghost use Rattle.sequence_table.specs.Nodes.{next_of};
ghost use Rattle.sequence_table.specs.Values.{least_to};
ghost use Rattle.sequence_table.specs.Calls.{IsPassed};
ghost use Rattle.sequence_table.specs.inner.Levels.{AreCosts};

use crate::table::Table;
use crate::told::Told;
use crate::types::Passed;
use sequence_values::Numbers;
use std::alloc::{AllocError, Global};

/// The charged cost of a unit of each model from each node: those from node 0 first.
fn costs(alloc: Global, table: &Table, charges: &[u64]) -> Result<Vec<u64>, AllocError>
    requires { AreCharges table.now.times charges.now }
    ensures { IfOk result (λ v. AreCosts table.now charges.now v.items) }
{
    let models = table.models();
    let mut costs = Vec::new(alloc);
    for i in 0..table.len() * models {
        costs.push(table.unit_cost(charges, i / models, i % models))?;
    }
    Ok(costs)
}

/// The least, over the models, of the cost of a unit from a node and the value of its next node. These values begin at
/// `from`.
fn least(table: &Table, costs: &[u64], values: &[u64], from: usize, node: u32) -> u64
    requires node { node < length table.now.starts }
    requires costs { length costs.now ≡ length table.now.starts * length table.now.times.demands }
    requires dear { All (λ v. v ≤ 740000000000000) costs.now }
    requires from { from + length table.now.starts ≤ length values.now }
    requires limit { All (λ v. v < 1000000000000000000) values.now }
    ensures { result ≡ least_to (λ m. slice_index_or costs.now (node * length table.now.times.demands + m) 0
        + slice_index_or values.now (from + next_of table.now node m) 0) (length table.now.times.demands - 1) }
{
    let models = table.models();
    let row = node as usize * models as usize;
    let mut least = costs[row] + values[from + table.next(node, 0) as usize];
    for k in 0..models - 1 {
        let cost = costs[row + k as usize + 1];
        least = least.min(cost + values[from + table.next(node, k + 1) as usize]);
    }
    least
}

impl Table {
    /// The values of all nodes.
    fn values(&self, alloc: Global, charges: &[u64]) -> Result<Told, AllocError>
        requires { AreCharges self.now.times charges.now }
        ensures { IfOk result (λ v. IsPassed self.now charges.now (Passed.Done v)) }
    {
        let left = self.units();
        let nodes = self.len() as usize;
        let costs = costs(alloc, self, charges)?;
        let mut all = vec![in alloc; 0; nodes]?;
        for i in nodes..(left as usize + 1) * nodes {
            let node = i % nodes;
            let value = least(
                self,
                costs.as_slice(),
                all.as_slice(),
                i - node - nodes,
                node as u32,
            );
            all.push(value)?;
        }
        Ok(Told {
            left,
            nodes: nodes as u32,
            all,
        })
    }

    /// Tells the value of each node, with up to as many units left as are wanted: the least charged cost of the rows
    /// that keep to the table. So every row from the node's starts has a charged cost of at least that.
    ///
    /// `charges` has the charge of each model, 0 to 10^14. Holds at most 2,000,000 values, and takes time proportional
    /// to nodes times models times stations, and to nodes times models times units.
    pub fn pass(&self, alloc: Global, charges: &Numbers) -> Passed
        requires { AreCharges self.now.times charges.now }
        ensures { IsPassed self.now charges.now result }
    {
        match self.values(alloc, charges.as_slice()) {
            Ok(told) => Passed::Done(told),
            Err(_) => Passed::NoMemory,
        }
    }
}
