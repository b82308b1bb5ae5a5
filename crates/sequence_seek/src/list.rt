//! The list of lemmas that a pass tells, and a whole walk where there was one.
//!
//! What is asked goes down from all units to one, and the entries are written from one unit up, so that each has its
//! cites before it. A state of a walk has an entry by Branch where it is cited; its steps are answered by a node's
//! value, and by a state of the next layer where that is too low. A list whose units are too many is left out whole.
ghost use Rattle.sequence_rules.specs.Charges.{AreCharges};

use crate::asking::{Asked, MOST_UNITS, Telling};
use crate::branches::{Branch, Cite, Descent};
use sequence_values::{Numbers, SeqEntries, SeqEntry, SeqWhy};
use sequence_walk::{Indexed, Layer};
use std::alloc::{AllocError, Global};

/// Entries on their way.
#[derive(Drop)]
struct Listing {
    entries: Vec<SeqEntry>,
    /// Their units.
    units: u64,
}

/// The numbers of the entries with as many units left: of each node, and of each state of the layer.
#[derive(Drop)]
struct Level {
    nodes: Vec<u64>,
    states: Vec<u64>,
}

/// The starts of a node; none where there is none.
fn starts_of(alloc: Global, telling: &Telling, node: u32) -> Result<Numbers, AllocError> {
    let table = &telling.grown.table;
    if node >= table.len() {
        return Ok(Numbers::from_vec(Vec::new(alloc)));
    }
    Ok(Numbers::from_vec(Vec::from_slice(alloc, table.starts(node))?))
}

/// Of how many models a unit is left.
fn models_left(rem: &[u64]) -> u64 {
    let mut models = 0u64;
    for units in rem {
        if *units > 0 {
            models = models.saturating_add(1);
        }
    }
    models
}

/// Sets the number at a place.
fn set(numbers: &mut [u64], place: usize, number: u64) {
    if place < numbers.len() {
        numbers[place] = number;
    }
}

impl Level {
    /// No numbers yet, of so many nodes and states.
    fn new(alloc: Global, nodes: usize, states: usize) -> Result<Level, AllocError> {
        Ok(Level {
            nodes: vec![in alloc; 0; nodes]?,
            states: vec![in alloc; 0; states]?,
        })
    }

    /// The number of the entry that is cited.
    fn number(&self, cite: Cite) -> u64 {
        let number = match cite {
            Cite::Node(node) => self.nodes.get(node as usize),
            Cite::State(place) => self.states.get(place),
        };
        number.copied().unwrap_or(0)
    }
}

impl Listing {
    /// Puts an entry at the end, and answers its number.
    fn push(&mut self, entry: SeqEntry, units: u64) -> Result<u64, AllocError> {
        let number = self.entries.len() as u64;
        self.units = self.units.saturating_add(units);
        self.entries.push(entry)?;
        Ok(number)
    }

    /// Puts the entry of a node at the end: that rows of `left` units have a charged cost of at least the base.
    fn push_charge(
        &mut self,
        alloc: Global,
        telling: &Telling,
        below: &Level,
        left: usize,
        asked: (u32, u64),
    ) -> Result<u64, AllocError>
        requires { AreCharges telling.now.grown.table.times telling.now.charges }
    {
        let (node, base) = asked;
        let models = telling.grown.table.models();
        let mut cites = Vec::new(alloc);
        for m in 0..models as usize {
            let cost = telling.charged(node, m);
            if cost < base {
                let next = telling.pass.next(node, m);
                let cited = telling.asked_node(left.saturating_sub(1), next, base - cost);
                cites.push(below.number(Cite::Node(cited)))?;
            }
        }
        let entry = SeqEntry {
            rem: Numbers::from_vec(vec![in alloc; left as u64]?),
            starts: starts_of(alloc, telling, node)?,
            least: base,
            why: SeqWhy::Charge {
                cites: Numbers::from_vec(cites),
            },
        };
        self.push(entry, u64::from(models))
    }

    /// Puts the entry of a cited state at the end.
    fn push_branch(
        &mut self,
        alloc: Global,
        layer: &Layer,
        below: &Level,
        branch: &Branch,
    ) -> Result<u64, AllocError> {
        let rem = layer.rem(branch.place);
        let mut cites = Vec::new(alloc);
        for cite in &branch.cites {
            cites.push(below.number(*cite))?;
        }
        let entry = SeqEntry {
            rem: Numbers::from_vec(Vec::from_slice(alloc, rem)?),
            starts: Numbers::from_vec(Vec::from_slice(alloc, layer.starts(branch.place))?),
            least: branch.need,
            why: SeqWhy::Branch {
                cites: Numbers::from_vec(cites),
            },
        };
        self.push(entry, models_left(rem))
    }

    /// Puts the entries of all asked nodes with `left` units left at the end, and sets their numbers.
    fn push_charges(
        &mut self,
        alloc: Global,
        telling: &Telling,
        asked: &Asked,
        below: &Level,
        left: usize,
        level: &mut Level,
    ) -> Result<(), AllocError>
        requires { AreCharges telling.now.grown.table.times telling.now.charges }
    {
        for node in 0..telling.pass.nodes() {
            if let Some(base) = asked.base(left, node) {
                let number = self.push_charge(alloc, telling, below, left, (node, base))?;
                set(level.nodes.as_mut_slice(), node as usize, number);
            }
        }
        Ok(())
    }

    /// Puts the entries of the cited states of a layer at the end, and sets their numbers.
    fn push_branches(
        &mut self,
        alloc: Global,
        layer: &Layer,
        branches: &[Branch],
        below: &Level,
        level: &mut Level,
    ) -> Result<(), AllocError> {
        for branch in branches {
            let number = self.push_branch(alloc, layer, below, branch)?;
            set(level.states.as_mut_slice(), branch.place, number);
        }
        Ok(())
    }
}

impl Listing {
    /// Puts the entries with `left` units left at the end, of nodes and of states, and answers their numbers. `below`
    /// has those with a unit less.
    fn push_level(
        &mut self,
        alloc: Global,
        telling: &Telling,
        found: &Found,
        layers: &[Indexed],
        below: &Level,
        left: usize,
    ) -> Result<Level, AllocError>
        requires { AreCharges telling.now.grown.table.times telling.now.charges }
    {
        let k = telling.pass.units().saturating_sub(left);
        let width = match layers.get(k) {
            Some(indexed) => indexed.layer.len(),
            None => 0,
        };
        let mut level = Level::new(alloc, telling.pass.nodes() as usize, width)?;
        self.push_charges(alloc, telling, &found.asked, below, left, &mut level)?;
        if let Some(indexed) = layers.get(k) {
            if let Some(cited) = found.branches.get(k) {
                self.push_branches(alloc, &indexed.layer, cited.as_slice(), below, &mut level)?;
            }
        }
        Ok(level)
    }
}

/// What was asked of the nodes, and the cited states of each layer.
#[derive(Drop)]
struct Found {
    asked: Asked,
    branches: Vec<Vec<Branch>>,
}

/// All that is asked and cited, down from the root.
fn asked_and_cited(
    alloc: Global,
    telling: &Telling,
    layers: &[Indexed],
) -> Result<Found, AllocError>
    requires { AreCharges telling.now.grown.table.times telling.now.charges }
{
    let mut descent = Descent::new(alloc, telling)?;
    if layers.is_empty() {
        descent.ask_root(telling);
    }
    let branches = descent.branches(alloc, telling, layers)?;
    let mut asked = descent.asked;
    asked.ask_all(telling);
    Ok(Found { asked, branches })
}

/// The lemmas that are told: each follows from those before it. `layers` are those of a whole walk, where there was one.
/// None where their units are too many.
pub(crate) fn list(
    alloc: Global,
    telling: &Telling,
    layers: &[Indexed],
) -> Result<SeqEntries, AllocError>
    requires { AreCharges telling.now.grown.table.times telling.now.charges }
{
    let found = asked_and_cited(alloc, telling, layers)?;
    if found.asked.is_too_much(telling) {
        return Ok(SeqEntries::from_vec(Vec::new(alloc)));
    }
    let mut listing = Listing {
        entries: Vec::new(alloc),
        units: 0,
    };
    let mut below = Level::new(alloc, 0, 0)?;
    for left in 1..telling.pass.units() + 1 {
        below = listing.push_level(alloc, telling, &found, layers, &below, left)?;
        if listing.units > MOST_UNITS {
            return Ok(SeqEntries::from_vec(Vec::new(alloc)));
        }
    }
    Ok(SeqEntries::from_vec(listing.entries))
}
