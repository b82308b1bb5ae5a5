//! The text of a plan.
//!
//! The records are written station by station as they come, each side by a pass over the tasks in the order of ranks.
//! So beside the text no memory is taken.
ghost use Rattle.std.specs.Prelude.{◌≡◌, ◌≤◌, ◌<◌, ◌+◌, ◌∷◌, ◌++◌, [], cond, decimal, IfOk, OnOk, length, map};
ghost use Rattle.line_instance.specs.Line.{tasks, time};
ghost use Rattle.line_drawing.specs.Segments.{tasks_at, times_of};
ghost use Rattle.sheet_rows.specs.SheetRows.{with_row, with_rows};
ghost use Rattle.balance_plan.specs.Plan.{bom_text, plan_heading, plan_record, plan_text, side_word, turns_at};
ghost use Rattle.balance_plan.specs.Plan.{turns_from};
ghost use Rattle.balance_plan.specs.PlanFacts.{IsRightSomehow, IsTruePlan};
ghost use Rattle.balance_plan.specs.inner.Sides.{BothFit, has_place, turn_of, turns_if, turns_on};

use itoa::Buffer;
use line_instance::Instance;
use line_rules::{Balance, Places, Seatplace, Side};
use sheet_rows::SheetWriter;
use std::alloc::{AllocError, Global};
use task_names::Names;

/// The bytes of a byte-order mark.
const BOM: [u8; 3] = [0xEF, 0xBB, 0xBF];

/// The word for a side.
fn side_word(side: Side) -> &'static [u8]
    ensures { result.now ≡ side_word side }
{
    match side {
        Side::Front => b"front",
        Side::Back => b"back",
    }
}

/// Whether a task has a place.
fn has_place(places: &Places, place: Seatplace, task: u32) -> bool
    requires { task < length places.now }
    ensures { result ≡ has_place places.now place task }
{
    let seat = places.at(task as usize);
    seat.side == place.side && seat.station == place.station
}

/// Writes the names of the columns.
fn put_heading(sheet: &mut SheetWriter) -> Result<(), AllocError>
    ensures { OnOk result (sheet.new ≡ with_row sheet.old plan_heading) }
{
    sheet.put(&[
        b"station".as_slice(),
        b"side".as_slice(),
        b"number".as_slice(),
        b"task".as_slice(),
        b"time".as_slice(),
        b"start".as_slice(),
        b"end".as_slice(),
    ])
}

/// The numbers of a record: the station and the task, both from 1, the time of the task, and when it begins and ends.
#[derive(Clone, Copy, Debug)]
struct Numbers {
    station: u32,
    task: u32,
    time: u64,
    start: u64,
    end: u64,
}

/// Writes a record of these numbers, for a task of this name on a side of this word.
fn put_numbers(
    sheet: &mut SheetWriter,
    side: &[u8],
    name: &[u8],
    numbers: Numbers,
) -> Result<(), AllocError>
    ensures { OnOk result (sheet.new ≡ with_row sheet.old (decimal numbers.station ∷ side.now ∷ decimal numbers.task
        ∷ name.now ∷ decimal numbers.time ∷ decimal numbers.start ∷ decimal numbers.end ∷ [])) }
{
    let mut station = Buffer::new();
    let mut task = Buffer::new();
    let mut time = Buffer::new();
    let mut start = Buffer::new();
    let mut end = Buffer::new();
    sheet.put(&[
        station.format(numbers.station).as_bytes(),
        side,
        task.format(numbers.task).as_bytes(),
        name,
        time.format(numbers.time).as_bytes(),
        start.format(numbers.start).as_bytes(),
        end.format(numbers.end).as_bytes(),
    ])
}

/// Writes the record of a task that is begun at this time, and answers when it ends.
fn put_task(
    sheet: &mut SheetWriter,
    inst: &Instance,
    names: &Names,
    place: Seatplace,
    task: u32,
    start: u64,
) -> Result<u64, AllocError>
    requires many { length names.now ≡ tasks inst.now }
    requires task { task < tasks inst.now }
    requires start { start ≤ 1000000000000000000 }
    ensures ends { IfOk result (λ t. t ≡ start + time inst.now task) }
    ensures row { OnOk result (sheet.new ≡ with_row sheet.old
        (plan_record inst.now names.now (turn_of inst.now place task start))) }
{
    let _tasks = inst.tasks();
    let time = inst.time(task);
    let end = start + time;
    let numbers = Numbers {
        station: place.station,
        task: task + 1,
        time,
        start,
        end,
    };
    let name = names.at(task as usize).as_bytes();
    put_numbers(sheet, side_word(place.side), name, numbers)?;
    Ok(end)
}

/// Writes the record of a task where it has the place, and answers when the next one there begins.
fn put_if_there(
    sheet: &mut SheetWriter,
    inst: &Instance,
    names: &Names,
    place: Seatplace,
    there: bool,
    task: u32,
    start: u64,
) -> Result<u64, AllocError>
    requires many { length names.now ≡ tasks inst.now }
    requires task { task < tasks inst.now }
    requires start { start ≤ 1000000000000000000 }
    ensures next { IfOk result (λ t. t ≡ start + cond there (time inst.now task) 0) }
    ensures records { OnOk result (sheet.new ≡ with_rows sheet.old
        (map (plan_record inst.now names.now) (turns_if inst.now place start there task))) }
{
    if !there {
        return Ok(start);
    }
    put_task(sheet, inst, names, place, task, start)
}

/// Writes the records of the tasks of a place, that follow each other from this time on.
fn put_side(
    sheet: &mut SheetWriter,
    inst: &Instance,
    names: &Names,
    places: &Places,
    place: Seatplace,
    start: u64,
) -> Result<(), AllocError>
    requires many { length names.now ≡ tasks inst.now }
    requires each { length places.now ≡ tasks inst.now }
    requires fits { start + times_of inst.now (tasks_at inst.now places.now place.side place.station)
        ≤ 1000000000000000000 }
    ensures { OnOk result (sheet.new ≡ with_rows sheet.old (map (plan_record inst.now names.now)
        (turns_on inst.now place start (tasks_at inst.now places.now place.side place.station)))) }
{
    let mut next = start;
    for rank in 0..inst.tasks() {
        let task = inst.at_rank(rank);
        let there = has_place(places, place, task);
        next = put_if_there(sheet, inst, names, place, there, task, next)?;
    }
    Ok(())
}

/// The time of a task where it has the place, and else 0.
fn time_if_there(inst: &Instance, places: &Places, place: Seatplace, task: u32) -> u64
    requires each { length places.now ≡ tasks inst.now }
    requires task { task < tasks inst.now }
    ensures { result ≡ cond (has_place places.now place task) (time inst.now task) 0 }
{
    if has_place(places, place, task) {
        inst.time(task)
    } else {
        0
    }
}

/// The times of the tasks of a place together.
fn time_of(inst: &Instance, places: &Places, place: Seatplace) -> u64
    requires each { length places.now ≡ tasks inst.now }
    requires fits { times_of inst.now (tasks_at inst.now places.now place.side place.station) ≤ 1000000000000000000 }
    ensures { result ≡ times_of inst.now (tasks_at inst.now places.now place.side place.station) }
{
    let mut sum = 0;
    for rank in 0..inst.tasks() {
        let task = inst.at_rank(rank);
        sum += time_if_there(inst, places, place, task);
    }
    sum
}

/// Writes the records of a station: those of the tasks in front from the beginning of the cycle on, and those of the
/// tasks at the back up to its end.
fn put_station(
    sheet: &mut SheetWriter,
    inst: &Instance,
    names: &Names,
    places: &Places,
    cycle: u64,
    station: u32,
) -> Result<(), AllocError>
    requires many { length names.now ≡ tasks inst.now }
    requires each { length places.now ≡ tasks inst.now }
    requires cycle { cycle ≤ 1000000000000000000 }
    requires fits { BothFit inst.now cycle places.now station }
    ensures { OnOk result (sheet.new ≡ with_rows sheet.old
        (map (plan_record inst.now names.now) (turns_at inst.now cycle places.now station))) }
{
    let front = Seatplace {
        station,
        side: Side::Front,
    };
    let back = Seatplace {
        station,
        side: Side::Back,
    };
    put_side(sheet, inst, names, places, front, 0)?;
    let start = cycle - time_of(inst, places, back);
    put_side(sheet, inst, names, places, back, start)
}

/// Writes the records of all stations.
fn put_stations(
    sheet: &mut SheetWriter,
    inst: &Instance,
    names: &Names,
    balance: &Balance,
    cycle: u64,
) -> Result<(), AllocError>
    requires many { length names.now ≡ tasks inst.now }
    requires few { balance.now.stations ≤ 1024 }
    requires cycle { cycle ≤ 1000000000000000000 }
    requires right { IsRightSomehow inst.now cycle balance.now }
    ensures { OnOk result (sheet.new ≡ with_rows sheet.old (map (plan_record inst.now names.now)
        (turns_from inst.now cycle balance.now.place 1 balance.now.stations))) }
{
    let _tasks = inst.tasks();
    for k in 0..balance.stations {
        put_station(sheet, inst, names, &balance.place, cycle, k + 1)?;
    }
    Ok(())
}

/// Rows behind a byte-order mark, where one is wanted.
fn behind_bom(alloc: Global, rows: Vec<u8>, bom: bool) -> Result<Vec<u8>, AllocError>
    ensures { IfOk result (λ t. t.items ≡ bom_text bom ++ rows.items) }
{
    if !bom {
        return Ok(rows);
    }
    let mut text = Vec::from_slice(alloc, &BOM)?;
    text.extend_from_slice(&rows)?;
    Ok(text)
}

/// The text of a plan.
fn text_of(
    alloc: Global,
    inst: &Instance,
    names: &Names,
    balance: &Balance,
    cycle: u64,
    mark: u8,
    bom: bool,
) -> Result<Vec<u8>, AllocError>
    requires many { length names.now ≡ tasks inst.now }
    requires few { balance.now.stations ≤ 1024 }
    requires cycle { cycle ≤ 1000000000000000000 }
    requires right { IsRightSomehow inst.now cycle balance.now }
    ensures { IfOk result (λ t. t.items ≡ plan_text inst.now names.now cycle balance.now mark bom) }
{
    let mut sheet = SheetWriter::new(alloc, mark);
    put_heading(&mut sheet)?;
    put_stations(&mut sheet, inst, names, balance, cycle)?;
    let rows = sheet.finish()?;
    behind_bom(alloc, rows, bom)
}

/// The plan of a balance that is right at a cycle time, with this mark between the fields, and behind a byte-order mark
/// where one is wanted: the heading `station,side,number,task,time,start,end`, and a record for each task, station by
/// station. The tasks in front follow each other from the beginning of the cycle on, and those at the back up to its
/// end, both in the order of ranks. Tasks are counted from 1; times are in the instance's time unit. The one error is
/// that memory is out.
pub fn plan_text(
    alloc: Global,
    inst: &Instance,
    names: &Names,
    balance: &Balance,
    cycle: u64,
    mark: u8,
    bom: bool,
) -> Result<Vec<u8>, AllocError>
    requires many { length names.now ≡ tasks inst.now }
    requires few { balance.now.stations ≤ 1024 }
    requires cycle { cycle ≤ 1000000000000000000 }
    requires right { IsRightSomehow inst.now cycle balance.now }
    ensures text { IfOk result (λ t. t.items ≡ plan_text inst.now names.now cycle balance.now mark bom) }
    ensures true_plan { IsTruePlan inst.now cycle balance.now }
{
    let _tasks = inst.tasks();
    text_of(alloc, inst, names, balance, cycle, mark, bom)
}
