//! The timeline of a sequence of units: a table of comma-separated values with a row for each station and unit.
//!
//! Stations are gone over one after the other, and at each one the units in their order, as utility work tells them. So
//! the time is proportional to the rows, at most 1,000,000, and to stations times models times tasks. The memory is
//! that of the text.
ghost use Rattle.std.specs.Prelude.{◌≡◌, ◌≤◌, ◌<◌, ◌++◌, ℕ, true, Some, IfOk, OnOk, All, length, map, slice_index_or};
ghost use Rattle.csv.specs.Writing.{default_writer, row_text};
ghost use Rattle.combined_graph.specs.Mixes.{is_name};
ghost use Rattle.station_report.specs.inner.Table.{IsTable, table_text};
ghost use Rattle.station_report.specs.TimelineText.{IsTimelineRead, rows_from, station_rows, timeline_heading};
ghost use Rattle.station_report.specs.TimelineText.{timeline_row, unit_rows};

use combined_graph::Mix;
use csv::Writer;
use itoa::Buffer;
use line_rules::Balance;
use std::alloc::{AllocError, Global};
use utility_work::{MAX_MODELS, utility_step, works_at};

/// The most rows of a timeline: its text is made in memory.
const MAX_ROWS: usize = 1_000_000;

/// What telling a timeline answers.
#[derive(Drop)]
pub enum TimelineRead {
    /// The text: a heading, and a row for each station and unit.
    Text(Vec<u8>),
    /// The rows would be more than 1,000,000.
    TooLarge,
    /// Out of memory.
    NoMemory,
}

/// A unit at a station: the numbers of both, from 1, where the unit is begun, its work there, and what of that is
/// utility work.
#[derive(Clone, Copy, Debug)]
struct Visit {
    station: u32,
    unit: u64,
    start: u64,
    work: u64,
    utility: u64,
}

/// Writes a record of these fields.
fn put_fields(table: &mut Writer<Vec<u8>>, fields: &[&[u8]]) -> Result<(), AllocError>
    requires { IsTable (λ v. Some v.items) table.old }
    ensures table { OnOk result (IsTable (λ v. Some v.items) table.new) }
    ensures text { OnOk result (table_text (λ v. Some v.items) table.new ≡ table_text (λ v. Some v.items) table.old
        ++ row_text default_writer (map (λ f. f.now) fields.now)) }
{
    if table.write_fields(fields).is_err() {
        return Err(AllocError);
    }
    Ok(())
}

/// A table with its heading.
fn started(alloc: Global) -> Result<Writer<Vec<u8>>, AllocError>
    ensures table { IfOk result (λ t. IsTable (λ v. Some v.items) t) }
    ensures text { IfOk result (λ t. table_text (λ v. Some v.items) t ≡ timeline_heading) }
{
    let mut table = Writer::from_writer(Vec::new(alloc));
    put_fields(
        &mut table,
        &[
            b"station".as_slice(),
            b"unit".as_slice(),
            b"model".as_slice(),
            b"start".as_slice(),
            b"work".as_slice(),
            b"utility".as_slice(),
        ],
    )?;
    Ok(table)
}

/// Writes the row of a unit of a model of this name at a station.
fn put_row(table: &mut Writer<Vec<u8>>, name: &[u8], visit: Visit) -> Result<(), AllocError>
    requires table { IsTable (λ v. Some v.items) table.old }
    requires name { is_name name.now ≡ true }
    ensures table { OnOk result (IsTable (λ v. Some v.items) table.new) }
    ensures text { OnOk result (table_text (λ v. Some v.items) table.new ≡ table_text (λ v. Some v.items) table.old
        ++ timeline_row visit.station visit.unit name.now visit.start visit.work visit.utility) }
{
    let mut station = Buffer::new();
    let mut unit = Buffer::new();
    let mut start = Buffer::new();
    let mut work = Buffer::new();
    let mut utility = Buffer::new();
    put_fields(
        table,
        &[
            station.format(visit.station).as_bytes(),
            unit.format(visit.unit).as_bytes(),
            name,
            start.format(visit.start).as_bytes(),
            work.format(visit.work).as_bytes(),
            utility.format(visit.utility).as_bytes(),
        ],
    )
}

/// Writes the rows of all units at a station of this reach, to which each model brings this work.
fn put_units(
    table: &mut Writer<Vec<u8>>,
    mix: &Mix,
    works: &[u64; MAX_MODELS],
    sequence: &[u32],
    station: u32,
    interval: u64,
    reach: u64,
) -> Result<(), AllocError>
    requires table { IsTable (λ v. Some v.items) table.old }
    requires limit { (m : ℕ) → slice_index_or works.now m 0 ≤ 1024000000000 }
    requires few { length sequence.now ≤ 100000 }
    requires models { All (λ m. m < length mix.now.models) sequence.now }
    requires reach { reach ≤ 1000000000 }
    ensures table { OnOk result (IsTable (λ v. Some v.items) table.new) }
    ensures text { OnOk result (table_text (λ v. Some v.items) table.new ≡ table_text (λ v. Some v.items) table.old
        ++ unit_rows mix.now.models (λ m. slice_index_or works.now m 0) station interval reach 1 0 sequence.now) }
{
    let _tasks = mix.tasks();
    let mut start = 0;
    for k in 0..sequence.len() {
        let model = sequence[k];
        let work = works[model as usize];
        let (utility, next) = utility_step(start, work, reach, interval);
        let visit = Visit {
            station,
            unit: k as u64 + 1,
            start,
            work,
            utility,
        };
        put_row(table, mix.name(model), visit)?;
        start = next;
    }
    Ok(())
}

/// Writes the rows of all units at each station.
fn put_stations(
    table: &mut Writer<Vec<u8>>,
    mix: &Mix,
    balance: &Balance,
    sequence: &[u32],
    interval: u64,
    reach: u64,
) -> Result<(), AllocError>
    requires table { IsTable (λ v. Some v.items) table.old }
    requires places { length balance.now.place ≡ mix.now.tasks }
    requires stations { balance.now.stations ≤ 1024 }
    requires few { length sequence.now ≤ 100000 }
    requires models { All (λ m. m < length mix.now.models) sequence.now }
    requires reach { reach ≤ 1000000000 }
    ensures table { OnOk result (IsTable (λ v. Some v.items) table.new) }
    ensures text { OnOk result (table_text (λ v. Some v.items) table.new ≡ table_text (λ v. Some v.items) table.old
        ++ rows_from mix.now balance.now.place sequence.now interval reach 1 balance.now.stations) }
{
    for k in 0..balance.stations {
        let works = works_at(mix, balance, k + 1);
        put_units(table, mix, &works, sequence, k + 1, interval, reach)?;
    }
    Ok(())
}

/// The text of a whole timeline.
fn text_of(
    alloc: Global,
    mix: &Mix,
    balance: &Balance,
    sequence: &[u32],
    interval: u64,
    reach: u64,
) -> Result<Vec<u8>, AllocError>
    requires places { length balance.now.place ≡ mix.now.tasks }
    requires stations { balance.now.stations ≤ 1024 }
    requires few { length sequence.now ≤ 100000 }
    requires models { All (λ m. m < length mix.now.models) sequence.now }
    requires reach { reach ≤ 1000000000 }
    ensures { IfOk result (λ t. t.items ≡ timeline_heading ++ rows_from mix.now balance.now.place sequence.now interval
        reach 1 balance.now.stations) }
{
    let mut table = started(alloc)?;
    put_stations(&mut table, mix, balance, sequence, interval, reach)?;
    match table.into_inner() {
        Ok(text) => Ok(text),
        Err(_) => Err(AllocError),
    }
}

/// The timeline of a sequence of units on a balanced line, each unit a model of the mix, where each station has this
/// reach, its length: comma-separated values with the heading `station,unit,model,start,work,utility` and a row for
/// each station and unit, by station and then unit, both counted from 1. The start is where the unit is begun, counted
/// from the station's beginning; the work is what it brings to the station; and the utility is what of that would be
/// done behind the station's end. Interval, length and the three of a row are in the mix's time unit.
pub fn timeline(
    alloc: Global,
    mix: &Mix,
    balance: &Balance,
    sequence: &[u32],
    interval: u64,
    reach: u64,
) -> TimelineRead
    requires places { length balance.now.place ≡ mix.now.tasks }
    requires stations { balance.now.stations ≤ 1024 }
    requires few { length sequence.now ≤ 100000 }
    requires models { All (λ m. m < length mix.now.models) sequence.now }
    requires limit { reach ≤ 1000000000 }
    ensures told { IsTimelineRead mix.now balance.now sequence.now interval reach result }
{
    if sequence.len() * balance.stations as usize > MAX_ROWS {
        return TimelineRead::TooLarge;
    }
    match text_of(alloc, mix, balance, sequence, interval, reach) {
        Ok(text) => TimelineRead::Text(text),
        Err(_) => TimelineRead::NoMemory,
    }
}
