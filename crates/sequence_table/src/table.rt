//! A table of nodes, and the opening of a step.
//!
//! The starts of the nodes have an index, so opening a step mostly compares the starts of one node, or of none.
ghost use Rattle.std.specs.Prelude.{◌≡◌, ◌+◌, ◌<◌, ◌≤◌, ◌∷◌, [], length, replicate, slice_get, Some, IsNone, IfSome};
ghost use Rattle.std.specs.Prelude.{IfOk, OnErr, sum, slice_index_or, vec_len};
ghost use Rattle.std.specs.Vec.{vec_capacity};
ghost use Rattle.sequence_table.specs.inner.Kept.{rows_with};
ghost use Rattle.sequence_rules.specs.Ranges.{AreTimes, IsPlace, AreLight};
ghost use Rattle.sequence_rules.specs.Charges.{AreCharges, unit_cost};
ghost use Rattle.sequence_table.specs.Nodes.{starts_of, next_of};
ghost use Rattle.sequence_table.specs.Tables.{most_nodes, led_to, Leads, AreWithin, IsTable, led_by, HasNone};
ghost use Rattle.sequence_table.specs.Tables.{Opens};
ghost use Rattle.sequence_table.specs.Calls.{IsOpened};

use crate::known::KnownStarts;
use crate::types::{Opened, Tabled};
use sequence_rules::{MAX_MODELS, MAX_STATIONS, step, unit_cost, units_left};
use sequence_values::{Numbers, Times};
use std::alloc::{AllocError, Global};
use std::marker::Model;

/// A table of nodes. Contracts see the works that its steps are of, the launch interval, the length of each station,
/// the starts of each node, and the next node of each node and model.
#[derive(Drop)]
pub struct Table {
    times: Times,
    interval: u64,
    reach: u64,
    starts: KnownStarts,
    nexts: Vec<[u32; MAX_MODELS]>,
}

impl Model for Table {
    ghost use Rattle.sequence_table.specs.Nodes.{Nodes};
    ghost use Rattle.sequence_table.specs.Tables.{IsTable};
    ghost use Rattle.sequence_table.specs.inner.Kept.{nodes_of};

    ghost Value = { Nodes };

    ghost view = { λ s. nodes_of s.times s.interval s.reach s.starts s.nexts.items };

    ghost invariant = { λ s. IsTable (nodes_of s.times s.interval s.reach s.starts s.nexts.items) };
}

/// An equal value of the works.
fn copied(times: &Times) -> Result<Times, AllocError>
    ensures { IfOk result (λ t. t ≡ times.now) }
{
    Ok(Times {
        stations: times.stations,
        demands: times.demands.copy()?,
        work: times.work.copy()?,
    })
}

/// The starts of node 0, as a list of one.
fn root(alloc: Global, stations: u32) -> Result<KnownStarts, AllocError>
    ensures { IfOk result (λ v. v ≡ replicate stations 0 ∷ []) }
{
    let starts = Numbers::from_vec(vec![in alloc; 0; stations as usize]?);
    let mut known = KnownStarts::new(alloc);
    known.push(starts)?;
    Ok(known)
}

/// The next nodes of node 0, as a list of one.
fn back_to_root(alloc: Global) -> Result<Vec<[u32; MAX_MODELS]>, AllocError>
    ensures { IfOk result (λ v. v.items ≡ replicate 16 0 ∷ []) }
{
    let mut all = Vec::new(alloc);
    all.push([0; MAX_MODELS])?;
    Ok(all)
}

/// The table with node 0 alone, which is begun at the beginning of each station, and which each model leads back to.
fn first_table(alloc: Global, times: &Times, interval: u64, reach: u64) -> Result<Table, AllocError>
    requires times { AreTimes times.now }
    requires light { AreLight times.now }
    requires interval { IsPlace interval }
    requires reach { IsPlace reach }
    ensures { IfOk result (λ t. IsOpened times.now interval reach (Tabled.Done t)) }
{
    Ok(Table {
        times: copied(times)?,
        interval,
        reach,
        starts: root(alloc, times.stations)?,
        nexts: back_to_root(alloc)?,
    })
}

/// Opens a table: node 0 alone, which is begun at the beginning of each station, and which each model leads back to.
///
/// `interval` is the launch interval and `reach` the length of each station, in the mix's time unit, 1 to 10^9. No work
/// is above 10^10, so that no charged cost passes 10^18. The table keeps a copy of the works.
pub fn open_table(alloc: Global, times: &Times, interval: u64, reach: u64) -> Tabled
    requires times { AreTimes times.now }
    requires light { AreLight times.now }
    requires interval { IsPlace interval }
    requires reach { IsPlace reach }
    ensures { IsOpened times.now interval reach result }
{
    match first_table(alloc, times, interval, reach) {
        Ok(table) => Tabled::Done(table),
        Err(_) => Tabled::NoMemory,
    }
}

/// The most nodes of a table of these works.
fn most_nodes(times: &Times) -> usize
    requires { AreTimes times.now }
    ensures { result ≡ most_nodes times.now }
{
    2_000_000 / (units_left(times.demands.as_slice()) as usize + 1)
}

/// Lets a model lead from a node to one that is added, and puts at the end what the node leads to that was the next one
/// before.
fn push_like(nexts: &mut Vec<[u32; MAX_MODELS]>, node: usize, model: usize, added: u32)
    requires node { node < length nexts.old.items }
    requires model { model < 16 }
    requires like { slice_index_or (slice_index_or nexts.old.items node []) model 0 < length nexts.old.items }
    requires room { vec_len nexts.old < vec_capacity nexts.old }
    ensures { nexts.new.items ≡ rows_with nexts.old.items node model added }
{
    let mut row = nexts[node];
    let like = row[model] as usize;
    row[model] = added;
    nexts[node] = row;
    let row = nexts[like];
    nexts.push_reserved(row);
}

impl Table {
    /// The works that the steps are of.
    pub fn times(&self) -> &Times
        ensures times { result.now ≡ self.now.times }
        ensures range { AreTimes result.now }
    {
        &self.times
    }

    /// The launch interval.
    pub fn interval(&self) -> u64
        ensures interval { result ≡ self.now.interval }
        ensures range { IsPlace result }
    {
        self.interval
    }

    /// The length of each station.
    pub fn reach(&self) -> u64
        ensures reach { result ≡ self.now.reach }
        ensures range { IsPlace result }
    {
        self.reach
    }

    /// How many nodes there are, 1 to 1,000,000.
    pub fn len(&self) -> u32
        ensures nodes { result ≡ length self.now.starts }
        ensures some { 1 ≤ result }
        ensures table { IsTable self.now }
        ensures limit { result ≤ 1000000 }
    {
        self.starts.len() as u32
    }

    /// Where the next unit is begun at each station, for a node.
    pub fn starts(&self, node: u32) -> &[u64]
        requires { node < length self.now.starts }
        ensures starts { result.now ≡ starts_of self.now node }
        ensures within { AreWithin self.now.times self.now.reach result.now }
    {
        self.starts.at(node as usize).as_slice()
    }

    /// The next node of a node and a model: its starts are no later than those that the step leads to.
    pub fn next(&self, node: u32, model: u32) -> u32
        requires node { node < length self.now.starts }
        requires model { model < length self.now.times.demands }
        ensures next { result ≡ next_of self.now node model }
        ensures leads { Leads self.now node model result }
    {
        self.nexts[node as usize][model as usize]
    }

    /// How many models there are, 1 to 16.
    pub fn models(&self) -> u32
        ensures models { result ≡ length self.now.times.demands }
        ensures some { 1 ≤ result }
        ensures few { result ≤ 16 }
    {
        self.times.demands.len() as u32
    }

    /// How many units are wanted, 1 to 1,000.
    pub fn units(&self) -> u32
        ensures units { result ≡ sum self.now.times.demands }
        ensures some { 1 ≤ result }
        ensures few { result ≤ 1000 }
    {
        units_left(self.times.demands.as_slice()) as u32
    }

    /// The charged cost of a unit of a model from a node, at most 740,000,000,000,000. `charges` has the charge of each
    /// model, 0 to 10^14.
    pub fn unit_cost(&self, charges: &[u64], node: u32, model: u32) -> u64
        requires charges { AreCharges self.now.times charges.now }
        requires node { node < length self.now.starts }
        requires model { model < length self.now.times.demands }
        ensures cost { result ≡ unit_cost self.now.times self.now.reach charges.now (starts_of self.now node) model }
        ensures limit { result ≤ 740000000000000 }
    {
        let mut nexts = [0; MAX_STATIONS];
        let next = &mut nexts[..self.times.stations as usize];
        unit_cost(
            &self.times,
            self.interval,
            self.reach,
            charges,
            model as usize,
            self.starts(node),
            next,
        )
    }

    /// Writes into `led` where the step by a model leads from a node.
    fn lead(&self, node: u32, model: u32, led: &mut [u64])
        requires node { node < length self.now.starts }
        requires model { model < length self.now.times.demands }
        requires led { length led.old ≡ self.now.times.stations }
        ensures led { led.new ≡ led_to self.now node model }
        ensures within { AreWithin self.now.times self.now.reach led.new }
    {
        let _cost = step(
            &self.times,
            self.interval,
            self.reach,
            model as usize,
            self.starts(node),
            led,
        );
    }

    /// The node that has these starts.
    fn find(&self, starts: &[u64]) -> Option<u32>
        ensures none { IsNone result → HasNone self.now starts.now }
        ensures some { IfSome result (λ y. slice_get self.now.starts y ≡ Some starts.now) }
    {
        match self.starts.number_of(starts) {
            Some(node) => Some(node as u32),
            None => None,
        }
    }

    /// Lets a model lead from a node to a node that serves the step.
    fn set_next(&mut self, node: u32, model: u32, next: u32)
        requires node { node < length self.old.starts }
        requires model { model < length self.old.times.demands }
        requires next { Leads self.old node model next }
        ensures led { self.new ≡ led_by self.old node model next }
        ensures table { IsTable self.new }
    {
        let mut row = self.nexts[node as usize];
        row[model as usize] = next;
        self.nexts[node as usize] = row;
    }

    /// Adds a node with the starts that a step leads to, and lets it be the next one.
    fn add(&mut self, alloc: Global, node: u32, model: u32, led: &[u64]) -> Result<u32, AllocError>
        requires node { node < length self.old.starts }
        requires model { model < length self.old.times.demands }
        requires led { led.now ≡ led_to self.old node model }
        requires within { AreWithin self.old.times self.old.reach led.now }
        requires none { HasNone self.old led.now }
        requires room { length self.old.starts < most_nodes self.old.times }
        ensures ok { IfOk result (λ y. Opens self.old node model self.new (Opened.Added y)) }
        ensures err { OnErr result (self.new ≡ self.old) }
        ensures table { IfOk result (λ y. IsTable self.new) }
    {
        let starts = Numbers::from_vec(Vec::from_slice(alloc, led)?);
        self.nexts.reserve(1)?;
        let added = self.starts.len();
        self.starts.push(starts)?;
        push_like(&mut self.nexts, node as usize, model as usize, added as u32);
        Ok(added as u32)
    }

    /// Opens the step by a model from a node, so that its next node has just the starts that the step leads to.
    ///
    /// Where a node has these starts, it becomes the next one. Otherwise one is added, where there is room, that leads
    /// to the same nodes as the one that was the next before. Models and nodes are counted from 0. Mostly takes
    /// time proportional to the stations.
    pub fn open(&mut self, alloc: Global, node: u32, model: u32) -> Opened
        requires node { node < length self.old.starts }
        requires model { model < length self.old.times.demands }
        ensures opens { Opens self.old node model self.new result }
        ensures table { IsTable self.new }
    {
        let mut leds = [0; MAX_STATIONS];
        let led = &mut leds[..self.times.stations as usize];
        self.lead(node, model, led);
        if let Some(next) = self.find(led) {
            self.set_next(node, model, next);
            return Opened::Known(next);
        }
        if self.starts.len() >= most_nodes(&self.times) {
            return Opened::Full;
        }
        match self.add(alloc, node, model, led) {
            Ok(next) => Opened::Added(next),
            Err(_) => Opened::NoMemory,
        }
    }
}
