//! The charges are moved: Polyak's step (1969) along what the cheapest row has of each model too often or too rarely.
//!
//! The steps of the cheapest row are opened first, so that the next pass is exact about them (Righini and Salani 2008).
//! The length of a step is what the pass's value lacks to the best total, over the squares of what is too much. Its
//! product needs 128 bits. In the end the least of the charges is 0.
ghost use Rattle.std.specs.Prelude.{◌≤◌};
ghost use Rattle.sequence_rules.specs.Charges.{AreCharges};

use crate::passes::{Charges, MAX_CHARGE, Pass, charged, charges_of};
use sequence_rules::{MAX_MODELS, MAX_STATIONS, step};
use sequence_table::{Opened, Table};
use std::alloc::{AllocError, Global};

/// A step of a row: a node of the table, and the model of the unit from there.
#[derive(Clone, Copy)]
struct RowStep {
    node: u32,
    model: usize,
}

/// A table, and for each node the one that it is like: the next node of its step before the step was opened.
#[derive(Drop)]
pub struct Grown {
    /// The table.
    pub table: Table,
    /// For each node, the one that it is like, and node 0 for node 0.
    pub likes: Vec<u32>,
}

/// The first charges: by as much as a unit of each model costs less than the dearest, from the beginning on.
pub fn first_charges(table: &Table) -> Charges {
    let times = table.times();
    let starts = [0; MAX_STATIONS];
    let mut nexts = [0; MAX_STATIONS];
    let stations = times.stations as usize;
    let mut costs = [0; MAX_MODELS];
    let mut dearest = 0;
    for m in 0..table.models() as usize {
        let next = &mut nexts[..stations];
        let cost = step(
            times,
            table.interval(),
            table.reach(),
            m,
            &starts[..stations],
            next,
        );
        costs[m] = cost;
        dearest = dearest.max(cost);
    }
    let mut charges = [0; MAX_MODELS];
    for m in 0..table.models() as usize {
        charges[m] = dearest
            .saturating_sub(costs[m])
            .saturating_mul(1000)
            .min(MAX_CHARGE);
    }
    charges
}

/// The first model whose unit from a node, and the rest behind it, has just the value of the node with `left` units
/// left.
fn cheapest_model(table: &Table, pass: &Pass, charges: &[u64], left: usize, node: u32) -> usize
    requires { AreCharges table.now.times charges.now }
{
    let value = pass.value(left, node);
    let rest = left.saturating_sub(1);
    for m in 0..table.models() as usize {
        let cost = charged(table, charges, node, m);
        if cost + pass.value(rest, pass.next(node, m)) == value {
            return m;
        }
    }
    0
}

/// The steps of the cheapest row: from node 0, with as many units as are wanted.
fn cheapest_row(alloc: Global, table: &Table, pass: &Pass) -> Result<Vec<RowStep>, AllocError> {
    let charges = charges_of(alloc, table, &pass.charges)?;
    let mut row = Vec::new(alloc);
    let mut node = 0;
    for rest in (0..pass.units()).rev() {
        let model = cheapest_model(table, pass, charges.as_slice(), rest + 1, node);
        row.push(RowStep { node, model })?;
        node = pass.next(node, model);
    }
    Ok(row)
}

impl Grown {
    /// A table with node 0 alone.
    pub fn new(alloc: Global, table: Table) -> Result<Grown, AllocError> {
        let likes = vec![in alloc; 0]?;
        Ok(Grown { table, likes })
    }

    /// The node that a node is like.
    pub fn like(&self, node: u32) -> u32 {
        self.likes.get(node as usize).copied().unwrap_or(0)
    }

    /// Opens a step. A node that is added is like the next one before.
    fn open(&mut self, alloc: Global, step: RowStep) -> Result<(), AllocError> {
        if step.node >= self.table.len() || step.model >= self.table.models() as usize {
            return Ok(());
        }
        let model = step.model as u32;
        let like = self.table.next(step.node, model);
        match self.table.open(alloc, step.node, model) {
            Opened::Added(_) => self.likes.push(like)?,
            Opened::Known(_) | Opened::Full => {}
            Opened::NoMemory => return Err(AllocError),
        }
        Ok(())
    }
}

/// How much more often or more rarely each model stands in a row than it is wanted.
#[derive(Clone, Copy)]
struct Excess {
    /// How often it stands there too often.
    over: Charges,
    /// How often it is missing.
    under: Charges,
    /// The sum of the squares.
    squares: u64,
}

/// What a row has of each model more or less than the demands.
fn excess_of(row: &[RowStep], demands: &[u64]) -> Excess {
    let mut counts = [0u64; MAX_MODELS];
    for step in row {
        if step.model < MAX_MODELS {
            counts[step.model] = counts[step.model].saturating_add(1);
        }
    }
    let mut over = [0; MAX_MODELS];
    let mut under = [0; MAX_MODELS];
    let mut squares = 0u64;
    for (m, wanted) in demands.iter().enumerate() {
        if m < MAX_MODELS {
            over[m] = counts[m].saturating_sub(*wanted);
            under[m] = wanted.saturating_sub(counts[m]);
            let off = counts[m].abs_diff(*wanted);
            squares = squares.saturating_add(off.saturating_mul(off));
        }
    }
    Excess {
        over,
        under,
        squares,
    }
}

/// By how much a charge is moved: `gap` times what is too much, over twice the squares, rounded down.
fn shift(gap: u64, off: u64, squares: u64) -> u128
    requires { 1 ≤ squares }
{
    u128::from(gap).saturating_mul(u128::from(off)) / (2 * u128::from(squares))
}

/// The charges after a move. `gap` is what the pass's value lacks to 1000 times the best total.
fn shifted(charges: &Charges, excess: &Excess, gap: u64, models: usize) -> Charges {
    let squares = excess.squares;
    if squares == 0 {
        return *charges;
    }
    let mut deepest = 0u128;
    for m in 0..models.min(MAX_MODELS) {
        deepest = deepest.max(shift(gap, excess.under[m], squares));
    }
    let mut moved = [0u128; MAX_MODELS];
    let mut least = u128::MAX;
    for m in 0..models.min(MAX_MODELS) {
        let up = shift(gap, excess.over[m], squares);
        let down = shift(gap, excess.under[m], squares);
        let raised = u128::from(charges[m])
            .saturating_add(up)
            .saturating_add(deepest);
        moved[m] = raised.saturating_sub(down);
        least = least.min(moved[m]);
    }
    let mut new = [0; MAX_MODELS];
    for m in 0..models.min(MAX_MODELS) {
        new[m] = moved[m].saturating_sub(least).min(u128::from(MAX_CHARGE)) as u64;
    }
    new
}

/// Opens the steps of a pass's cheapest row, and moves the charges. `total` is the best total, and above the pass's
/// value.
pub fn moved(
    alloc: Global,
    grown: &mut Grown,
    pass: &Pass,
    total: u64,
) -> Result<Charges, AllocError> {
    let row = cheapest_row(alloc, &grown.table, pass)?;
    for step in &row {
        grown.open(alloc, *step)?;
    }
    let demands = grown.table.times().demands.as_slice();
    let goal = total
        .saturating_mul(1000)
        .saturating_add(pass.owed(demands));
    let gap = goal.saturating_sub(pass.value(pass.units(), 0));
    let excess = excess_of(row.as_slice(), demands);
    Ok(shifted(&pass.charges, &excess, gap, demands.len()))
}
