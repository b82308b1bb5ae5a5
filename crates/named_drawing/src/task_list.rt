//! The list of the tasks below the rows, column by column, in the order of their numbers.
//!
//! Where an entry stands follows from its number, so the list is written in one pass over the tasks.
ghost use Rattle.std.specs.Prelude.{◌≡◌, ◌≤◌, ◌<◌, ◌^◌, ◌+◌, ◌-◌, ◌*◌, ◌++◌, ℕ, OnOk, length, string_bytes};
ghost use Rattle.task_names.specs.TaskNames.{name_at};
ghost use Rattle.line_instance.specs.Line.{tasks};
ghost use Rattle.line_drawing.specs.Parts.{text_of};
ghost use Rattle.named_drawing.specs.Page.{IsPage, column_x, entry_x, entry_y, filled_columns};
ghost use Rattle.named_drawing.specs.TaskList.{entries_text, entry_of, entry_text, heading_text};
ghost use Rattle.named_drawing.specs.TaskList.{headings_from, list_text, name_word_parts, number_parts};
ghost use Rattle.named_drawing.specs.TaskList.{number_word_parts};
ghost use Rattle.named_drawing.specs.TaskList.{start_parts, station_parts, time_parts};

use crate::escapes::push_escaped;
use crate::labels::name_of;
use crate::page::Page;
use line_instance::Instance;
use line_rules::Places;
use std::alloc::AllocError;
use task_names::Names;

/// The word above the names of a column.
fn push_name_word(text: &mut String, x: u64, y: u64) -> Result<(), AllocError>
    ensures { OnOk result (string_bytes text.new ≡ string_bytes text.old ++ text_of (name_word_parts x y)) }
{
    write!(
        text,
        "<text x=\"{x}\" y=\"{y}\" text-anchor=\"start\">task</text>"
    )?;
    Ok(())
}

/// The words above the times and the stations of a column.
fn push_number_words(
    text: &mut String,
    time_x: u64,
    station_x: u64,
    y: u64,
) -> Result<(), AllocError>
    ensures { OnOk result (string_bytes text.new ≡ string_bytes text.old
        ++ text_of (number_word_parts time_x station_x y)) }
{
    write!(
        text,
        "<text x=\"{time_x}\" y=\"{y}\">time</text><text x=\"{station_x}\" y=\"{y}\">station</text>\n"
    )?;
    Ok(())
}

/// The heading of a column.
fn push_heading(text: &mut String, page: &Page, column: u64) -> Result<(), AllocError>
    requires page { IsPage page.now }
    requires few { column ≤ 1024 }
    ensures { OnOk result (string_bytes text.new ≡ string_bytes text.old ++ heading_text page.now column) }
{
    let x = page.column_x(column);
    let y = page.list_top() + 12;
    let time_x = page.times_x(x);
    let station_x = page.stations_x(x);
    push_name_word(text, x + 40, y)?;
    push_number_words(text, time_x, station_x, y)?;
    Ok(())
}

/// The headings of all columns that have a task.
fn push_headings(text: &mut String, page: &Page, tasks: u32) -> Result<(), AllocError>
    requires page { IsPage page.now }
    requires some { 0 < tasks }
    requires few { tasks ≤ 1024 }
    ensures { OnOk result (string_bytes text.new ≡ string_bytes text.old
        ++ headings_from page.now 0 (filled_columns page.now tasks)) }
{
    let columns = page.filled_columns(tasks);
    for column in 0..columns {
        push_heading(text, page, column)?;
    }
    Ok(())
}

/// The number of a task.
fn push_number(text: &mut String, page: &Page, task: u32) -> Result<(), AllocError>
    requires page { IsPage page.now }
    requires few { task ≤ 1024 }
    ensures { OnOk result (string_bytes text.new ≡ string_bytes text.old ++ text_of (number_parts page.now task)) }
{
    let x = page.entry_x(task) + 32;
    let y = page.entry_y(task);
    let number = task + 1;
    write!(
        text,
        "<text x=\"{x}\" y=\"{y}\" font-style=\"italic\">{number}</text>"
    )?;
    Ok(())
}

/// Where the name of a task begins.
fn push_start(text: &mut String, page: &Page, task: u32) -> Result<(), AllocError>
    requires page { IsPage page.now }
    requires few { task ≤ 1024 }
    ensures { OnOk result (string_bytes text.new ≡ string_bytes text.old ++ text_of (start_parts page.now task)) }
{
    let x = page.entry_x(task) + 40;
    let y = page.entry_y(task);
    write!(text, "<text x=\"{x}\" y=\"{y}\" text-anchor=\"start\">")?;
    Ok(())
}

/// The time of a task.
fn push_time(text: &mut String, page: &Page, task: u32, time: u64) -> Result<(), AllocError>
    requires page { IsPage page.now }
    requires few { task ≤ 1024 }
    ensures { OnOk result (string_bytes text.new ≡ string_bytes text.old ++ text_of (time_parts page.now task time)) }
{
    let x = page.times_x(page.entry_x(task));
    let y = page.entry_y(task);
    write!(text, "</text><text x=\"{x}\" y=\"{y}\">{time}</text>")?;
    Ok(())
}

/// The station of a task.
fn push_station(text: &mut String, page: &Page, task: u32, station: u32) -> Result<(), AllocError>
    requires page { IsPage page.now }
    requires few { task ≤ 1024 }
    ensures { OnOk result (string_bytes text.new ≡ string_bytes text.old
        ++ text_of (station_parts page.now task station)) }
{
    let x = page.stations_x(page.entry_x(task));
    let y = page.entry_y(task);
    write!(text, "<text x=\"{x}\" y=\"{y}\">{station}</text>\n")?;
    Ok(())
}

/// The entry of a task with this name, time and station.
fn push_entry(
    text: &mut String,
    page: &Page,
    task: u32,
    name: &str,
    time: u64,
    station: u32,
) -> Result<(), AllocError>
    requires page { IsPage page.now }
    requires few { task ≤ 1024 }
    ensures { OnOk result (string_bytes text.new ≡ string_bytes text.old
        ++ entry_text page.now task name.now time station) }
{
    push_number(text, page, task)?;
    push_start(text, page, task)?;
    push_escaped(text, name)?;
    push_time(text, page, task, time)?;
    push_station(text, page, task, station)?;
    Ok(())
}

/// The entry of a task of the line.
fn push_task(
    text: &mut String,
    inst: &Instance,
    page: &Page,
    names: &Names,
    places: &Places,
    task: u32,
) -> Result<(), AllocError>
    requires page { IsPage page.now }
    requires each { length places.now ≡ tasks inst.now }
    requires named { length names.now ≡ tasks inst.now }
    requires task { task < tasks inst.now }
    ensures { OnOk result (string_bytes text.new ≡ string_bytes text.old
        ++ entry_of inst.now page.now names.now places.now task) }
{
    let _tasks = inst.tasks();
    let station = places.at(task as usize).station;
    push_entry(
        text,
        page,
        task,
        name_of(names, task),
        inst.time(task),
        station,
    )?;
    Ok(())
}

/// The entries of all tasks.
fn push_entries(
    text: &mut String,
    inst: &Instance,
    page: &Page,
    names: &Names,
    places: &Places,
) -> Result<(), AllocError>
    requires page { IsPage page.now }
    requires each { length places.now ≡ tasks inst.now }
    requires named { length names.now ≡ tasks inst.now }
    ensures { OnOk result (string_bytes text.new ≡ string_bytes text.old
        ++ entries_text inst.now page.now names.now places.now) }
{
    for task in 0..inst.tasks() {
        push_task(text, inst, page, names, places, task)?;
    }
    Ok(())
}

/// The list of the tasks, and the end of the picture.
pub(crate) fn push_list(
    text: &mut String,
    inst: &Instance,
    page: &Page,
    names: &Names,
    places: &Places,
) -> Result<(), AllocError>
    requires page { IsPage page.now }
    requires each { length places.now ≡ tasks inst.now }
    requires named { length names.now ≡ tasks inst.now }
    ensures { OnOk result (string_bytes text.new ≡ string_bytes text.old
        ++ list_text inst.now page.now names.now places.now) }
{
    let tasks = inst.tasks();
    text.push_str("<g text-anchor=\"end\">\n")?;
    push_headings(text, page, tasks)?;
    push_entries(text, inst, page, names, places)?;
    text.push_str("</g>\n</svg>\n")?;
    Ok(())
}
