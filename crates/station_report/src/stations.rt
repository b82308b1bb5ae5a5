//! The printed lines of stations: one a station with the numbers of its tasks; or with their names, and then a line of
//! its own for those at the back.
ghost use Rattle.std.specs.Prelude.{◌≡◌, ◌++◌, ◌+◌, ◌<◌, ◌^◌, cond, codes, string_bytes, OnOk, IfOk, length};
ghost use Rattle.station_report.specs.StationsText.{is_at, has_task, numbers_at, back_part, numbered_line, names_at};
ghost use Rattle.station_report.specs.StationsText.{listed, back_line, named_lines, station_lines, stations_text};

use line_rules::{Balance, LineKind, Seatplace, Side};
use std::alloc::{AllocError, Global};
use task_names::{Names, Naming};

/// Whether a place is at a station, on a side.
fn is_at(side: Side, station: u32, place: &Seatplace) -> bool
    ensures { result ≡ is_at side station place.now }
{
    place.side == side && place.station == station
}

/// Whether a station has a task on a side.
fn has_task(side: Side, station: u32, places: &[Seatplace]) -> bool
    ensures { result ≡ has_task side station places.now }
{
    places.iter().any(|place| is_at(side, station, place))
}

/// The tasks of a station on a side, each after a blank.
fn push_tasks(
    text: &mut String,
    side: Side,
    station: u32,
    places: &[Seatplace],
) -> Result<(), AllocError>
    requires { length places.now < 2 ^ 31 }
    ensures { OnOk result (string_bytes text.new ≡ string_bytes text.old ++ numbers_at side station 1 places.now) }
{
    let mut number = 1u32;
    for place in places {
        if is_at(side, station, place) {
            write!(text, " {number}")?;
        }
        number += 1;
    }
    Ok(())
}

/// The tasks of a station at the back, after the word for it, where there are any.
fn push_back(
    text: &mut String,
    kind: LineKind,
    station: u32,
    places: &[Seatplace],
) -> Result<(), AllocError>
    requires { length places.now < 2 ^ 31 }
    ensures { OnOk result (string_bytes text.new ≡ string_bytes text.old ++ back_part kind station places.now) }
{
    match kind {
        LineKind::Straight => Ok(()),
        LineKind::U => {
            if !has_task(Side::Back, station, places) {
                return Ok(());
            }
            text.push_str(" back")?;
            push_tasks(text, Side::Back, station, places)
        }
    }
}

/// The line of a station, by the numbers of its tasks.
fn push_numbered(
    text: &mut String,
    kind: LineKind,
    station: u32,
    places: &[Seatplace],
) -> Result<(), AllocError>
    requires { length places.now < 2 ^ 31 }
    ensures { OnOk result (string_bytes text.new ≡ string_bytes text.old ++ numbered_line kind station places.now) }
{
    write!(text, "station {station}:")?;
    push_tasks(text, Side::Front, station, places)?;
    push_back(text, kind, station, places)?;
    text.push_str("\n")?;
    Ok(())
}

/// What stands before a name: a blank, and a semicolon where another name stands before it.
fn name_mark(further: bool) -> &'static str
    ensures { result.now ≡ cond further (codes "; ") (codes " ") }
{
    if further { "; " } else { " " }
}

/// The names of the tasks of a station on a side, each after a blank, with a semicolon behind each but the last.
fn push_names(
    text: &mut String,
    names: &Names,
    side: Side,
    station: u32,
    places: &[Seatplace],
) -> Result<(), AllocError>
    requires { length places.now < 2 ^ 31 }
    ensures { OnOk result (string_bytes text.new ≡ string_bytes text.old
        ++ listed (names_at names.now side station 0 places.now)) }
{
    let mut further = false;
    let mut task = 0usize;
    for place in places {
        if is_at(side, station, place) {
            text.push_str(name_mark(further))?;
            text.push_str(names.get(task))?;
            further = true;
        }
        task += 1;
    }
    Ok(())
}

/// The line of a station's tasks at the back, by their names, where there are any.
fn push_back_line(
    text: &mut String,
    names: &Names,
    kind: LineKind,
    station: u32,
    places: &[Seatplace],
) -> Result<(), AllocError>
    requires { length places.now < 2 ^ 31 }
    ensures { OnOk result (string_bytes text.new ≡ string_bytes text.old
        ++ back_line names.now kind station places.now) }
{
    match kind {
        LineKind::Straight => Ok(()),
        LineKind::U => {
            if !has_task(Side::Back, station, places) {
                return Ok(());
            }
            write!(text, "station {station} back:")?;
            push_names(text, names, Side::Back, station, places)?;
            text.push_str("\n")?;
            Ok(())
        }
    }
}

/// The lines of a station, by the names of its tasks.
fn push_named(
    text: &mut String,
    names: &Names,
    kind: LineKind,
    station: u32,
    places: &[Seatplace],
) -> Result<(), AllocError>
    requires { length places.now < 2 ^ 31 }
    ensures { OnOk result (string_bytes text.new ≡ string_bytes text.old
        ++ named_lines names.now kind station places.now) }
{
    write!(text, "station {station}:")?;
    push_names(text, names, Side::Front, station, places)?;
    text.push_str("\n")?;
    push_back_line(text, names, kind, station, places)
}

/// The lines of a station, as its tasks are called.
fn push_station(
    text: &mut String,
    naming: &Naming,
    kind: LineKind,
    station: u32,
    places: &[Seatplace],
) -> Result<(), AllocError>
    requires { length places.now < 2 ^ 31 }
    ensures { OnOk result (string_bytes text.new ≡ string_bytes text.old
        ++ station_lines naming.now kind station places.now) }
{
    match naming {
        Naming::Numbered => push_numbered(text, kind, station, places),
        Naming::Named(names) => push_named(text, names, kind, station, places),
    }
}

/// The lines of all stations of a balance on a line of this kind, from station 1 on, each ended by LF. With numbers, a
/// line has the number of the station, its tasks in front and, where it has any on a U-line, its tasks at the back.
/// With names, those at the back have a line of their own behind it. Tasks ascend by their numbers, which count from 1.
/// The one error is that memory is out.
pub fn stations_text(
    alloc: Global,
    naming: &Naming,
    balance: &Balance,
    kind: LineKind,
) -> Result<Vec<u8>, AllocError>
    requires places { length balance.now.place < 2 ^ 31 }
    requires stations { balance.now.stations < 2 ^ 31 }
    ensures { IfOk result (λ t. t.items ≡ stations_text naming.now kind balance.now.stations balance.now.place) }
{
    let mut text = String::new(alloc);
    for station in 1..balance.stations + 1 {
        push_station(&mut text, naming, kind, station, balance.place.as_slice())?;
    }
    Ok(text.into_bytes())
}
