//! The numbers of a picture that stand for the whole line, and those that its layout follows from.
ghost use Rattle.std.specs.Prelude.{◌≡◌, ◌≤◌, ◌<◌, ◌^◌, ◌+◌, ◌-◌, ◌*◌, ◌/◌, ℕ, cond, nat_eq, IfOk, OnOk, length};
ghost use Rattle.line_instance.specs.Line.{tasks, time};
ghost use Rattle.line_rules.specs.Balance.{IsRight, seat};
ghost use Rattle.line_rules.specs.Ranges.{IsCycle, IsPlacing};
ghost use Rattle.line_drawing.specs.Figures.{AreFigures, column_of, efficiency_of, figures_of, height_of, idle_of};
ghost use Rattle.line_drawing.specs.Figures.{longest_note, longest_of, room_for, sum_at, width_of};

use crate::notes::{digits, note_of};
use crate::segments::segments_at;
use line_instance::Instance;
use line_rules::{Balance, LineKind, Places};
use std::alloc::{AllocError, Global};

/// What a picture needs of the whole line.
#[derive(Clone, Copy, Debug)]
pub struct Figures {
    pub kind: LineKind,
    pub stations: u32,
    /// The cycle time.
    pub cycle: u64,
    /// The time of all tasks.
    pub total: u64,
    /// The greatest sum of a station.
    pub longest: u64,
    /// How wide a column of times is.
    pub column: u64,
    /// The room for notes, in bytes.
    pub notes: u64,
}

impl Figures {
    /// The width of the picture.
    pub fn width(&self) -> u64
        requires { AreFigures self.now }
        ensures { result ≡ width_of self.now }
    {
        944 + 2 * self.column + 8 * self.notes
    }

    /// The height of the picture.
    pub(crate) fn height(&self) -> u64
        ensures { result ≡ height_of self.now }
    {
        112 + 24 * u64::from(self.stations)
    }

    /// The time of all stations together.
    fn room(&self) -> u128
        ensures { result ≡ self.now.stations * self.now.cycle }
    {
        u128::from(self.stations) * u128::from(self.cycle)
    }

    /// The time of all stations that no task uses.
    pub(crate) fn idle(&self) -> u128
        requires { AreFigures self.now }
        ensures { result ≡ idle_of self.now }
    {
        self.room() - u128::from(self.total)
    }

    /// The efficiency in tenths of a percent.
    pub(crate) fn efficiency(&self) -> u64
        requires { AreFigures self.now }
        ensures { result ≡ efficiency_of self.now }
    {
        (1000 * u128::from(self.total) / self.room()) as u64
    }
}

/// The time of a task, where it is at a station.
fn time_at(inst: &Instance, places: &Places, station: u32, task: u32) -> u64
    requires each { length places.now ≡ tasks inst.now }
    requires task { task < tasks inst.now }
    ensures time { result ≡ cond (nat_eq (seat places.now task).station station) (time inst.now task) 0 }
    ensures limit { result ≤ 200000000000000 }
{
    if places.at(task as usize).station == station {
        inst.time(task)
    } else {
        0
    }
}

/// The sum of the times at a station.
pub fn sum_at(inst: &Instance, places: &Places, station: u32) -> u64
    requires { length places.now ≡ tasks inst.now }
    ensures { result ≡ sum_at inst.now places.now station }
{
    let mut sum = 0;
    for task in 0..inst.tasks() {
        sum += time_at(inst, places, station, task);
    }
    sum
}

/// The greatest sum of so many stations.
pub fn longest_of(inst: &Instance, places: &Places, stations: u32) -> u64
    requires { length places.now ≡ tasks inst.now }
    ensures { result ≡ longest_of inst.now places.now stations }
{
    let mut longest = 0;
    for station in 0..stations {
        longest = sum_at(inst, places, station + 1).max(longest);
    }
    longest
}

/// The length of the longest note of so many stations.
fn longest_note(
    alloc: Global,
    inst: &Instance,
    cycle: u64,
    places: &Places,
    stations: u32,
) -> Result<u64, AllocError>
    requires each { length places.now ≡ tasks inst.now }
    requires some { 1 ≤ cycle }
    requires fits { (k : ℕ) → sum_at inst.now places.now k ≤ cycle }
    ensures note { IfOk result (λ n. n ≡ longest_note inst.now cycle places.now stations) }
    ensures short { IfOk result (λ n. n ≤ 40) }
{
    let mut longest = 0;
    for station in 0..stations {
        let segments = segments_at(alloc, inst, cycle, places, station + 1)?;
        let note = note_of(alloc, &segments)?;
        longest = (note.len() as u64).max(longest);
    }
    Ok(longest)
}

/// The room for notes.
pub fn room_for(longest: u64) -> u64
    requires { longest ≤ 40 }
    ensures room { result ≡ room_for longest }
    ensures limit { result ≤ 40 }
{
    if longest == 0 { 0 } else { longest.max(12) }
}

/// How wide a column of times is.
pub fn column_of(cycle: u64) -> u64
    ensures width { result ≡ column_of cycle }
    ensures limit { result ≤ 172 }
{
    8 * digits(cycle).max(4) + 12
}

/// What a picture of a balance needs of the whole line.
pub(crate) fn figures_of(
    alloc: Global,
    inst: &Instance,
    kind: LineKind,
    cycle: u64,
    balance: &Balance,
) -> Result<Figures, AllocError>
    requires range { IsPlacing kind (tasks inst.now) balance.now }
    requires right { IsRight kind inst.now cycle balance.now }
    requires cycle { IsCycle cycle }
    ensures value { IfOk result (λ f. f ≡ figures_of inst.now kind cycle balance.now) }
    ensures figures { IfOk result AreFigures }
{
    let longest = longest_of(inst, &balance.place, balance.stations);
    let note = longest_note(alloc, inst, cycle, &balance.place, balance.stations)?;
    Ok(Figures {
        kind,
        stations: balance.stations,
        cycle,
        total: inst.sum(&inst.all()),
        longest,
        column: column_of(cycle),
        notes: room_for(note),
    })
}
