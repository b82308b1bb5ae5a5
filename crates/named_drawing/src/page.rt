//! The numbers that the layout of a picture with names follows from.
//!
//! The longest note asks for the segments of each station, so this takes about as long as the rows do; beside the
//! segments and the note of one station no memory is taken.
ghost use Rattle.std.specs.Prelude.{◌≡◌, ◌≤◌, ◌<◌, ◌^◌, ◌+◌, ◌-◌, ◌*◌, ◌/◌, ℕ, IfOk, length};
ghost use Rattle.line_instance.specs.Line.{tasks};
ghost use Rattle.line_rules.specs.Balance.{IsRight};
ghost use Rattle.line_rules.specs.Ranges.{IsCycle, IsPlacing};
ghost use Rattle.line_drawing.specs.Figures.{AreFigures, sum_at};
ghost use Rattle.named_drawing.specs.Page.{IsPage, column_width, columns_of, column_x, entry_x, entry_y};
ghost use Rattle.named_drawing.specs.Page.{filled_columns, list_top, longest_note, longest_time, named_figures};
ghost use Rattle.named_drawing.specs.Page.{page_height, page_of, rows_of, stations_x, time_digits, times_x};
ghost use Rattle.named_drawing.specs.Page.{widest_name};

use crate::labels::{name_of, named_note};
use crate::widths::width;
use line_drawing::{Figures, column_of, digits, longest_of, room_for, segments_at};
use line_instance::Instance;
use line_rules::{Balance, LineKind, Places};
use std::alloc::{AllocError, Global};
use task_names::Names;

/// What a picture with names needs of the whole line.
#[derive(Clone, Copy, Debug)]
pub struct Page {
    /// What it shares with a picture without names.
    pub figures: Figures,
    /// How wide the widest name is.
    pub names: u64,
    /// How many digits a time of the list has room for.
    pub digits: u64,
    /// How many tasks stand in a column of the list.
    pub rows: u64,
}

impl Page {
    /// Where the list begins, from above.
    pub(crate) fn list_top(&self) -> u64
        ensures { result ≡ list_top self.now }
    {
        112 + 36 * u64::from(self.figures.stations)
    }

    /// How high the picture is.
    pub(crate) fn height(&self) -> u64
        requires { IsPage self.now }
        ensures { result ≡ page_height self.now }
    {
        self.list_top() + 40 + 16 * self.rows
    }

    /// Where a column begins, from the left.
    pub(crate) fn column_x(&self, column: u64) -> u64
        requires page { IsPage self.now }
        requires few { column ≤ 1024 }
        ensures place { result ≡ column_x self.now column }
        ensures limit { result ≤ 2000000 }
    {
        64 + column_width(self.names, self.digits) * column
    }

    /// Where the column begins in which a task stands.
    pub(crate) fn entry_x(&self, task: u32) -> u64
        requires page { IsPage self.now }
        requires few { task ≤ 1024 }
        ensures place { result ≡ entry_x self.now task }
        ensures limit { result ≤ 2000000 }
    {
        self.column_x(u64::from(task) / self.rows)
    }

    /// How far below the top a task stands.
    pub(crate) fn entry_y(&self, task: u32) -> u64
        requires { IsPage self.now }
        ensures { result ≡ entry_y self.now task }
    {
        self.list_top() + 30 + 16 * (u64::from(task) % self.rows)
    }

    /// Where the times of a column end.
    pub(crate) fn times_x(&self, x: u64) -> u64
        requires page { IsPage self.now }
        requires limit { x ≤ 2000000 }
        ensures { result ≡ times_x self.now x }
    {
        x + 48 + self.names + 8 * self.digits
    }

    /// Where the stations of a column end.
    pub(crate) fn stations_x(&self, x: u64) -> u64
        requires page { IsPage self.now }
        requires limit { x ≤ 2000000 }
        ensures { result ≡ stations_x self.now x }
    {
        x + 104 + self.names + 8 * self.digits
    }

    /// How many columns have a task.
    pub(crate) fn filled_columns(&self, tasks: u32) -> u64
        requires page { IsPage self.now }
        requires some { 0 < tasks }
        requires few { tasks ≤ 1024 }
        ensures columns { result ≡ filled_columns self.now tasks }
        ensures limit { result ≤ 1024 }
    {
        u64::from(tasks - 1) / self.rows + 1
    }
}

/// How wide a column of the list is.
fn column_width(names: u64, digits: u64) -> u64
    requires names { names ≤ 768 }
    requires digits { digits ≤ 20 }
    ensures width { result ≡ column_width names digits }
    ensures some { 1 ≤ result }
    ensures limit { result ≤ 1056 }
{
    128 + names + 8 * digits
}

/// How wide the widest name is.
fn widest_name(names: &Names) -> u64
    requires { length names.now ≤ 1024 }
    ensures width { result ≡ widest_name names.now }
    ensures limit { result ≤ 768 }
{
    let mut widest = 0;
    for task in 0..names.len() as u32 {
        widest = width(name_of(names, task).as_bytes()).max(widest);
    }
    widest
}

/// The longest time of a task.
fn longest_time(inst: &Instance) -> u64
    ensures { result ≡ longest_time inst.now }
{
    let mut longest = 0;
    for task in 0..inst.tasks() {
        longest = inst.time(task).max(longest);
    }
    longest
}

/// The digits to leave room for in the list.
fn time_digits(inst: &Instance) -> u64
    ensures digits { result ≡ time_digits inst.now }
    ensures limit { result ≤ 20 }
{
    digits(longest_time(inst)).max(4)
}

/// The length of the longest note of so many stations.
fn longest_note(
    alloc: Global,
    inst: &Instance,
    cycle: u64,
    names: &Names,
    places: &Places,
    stations: u32,
) -> Result<u64, AllocError>
    requires each { length places.now ≡ tasks inst.now }
    requires named { length names.now ≡ tasks inst.now }
    requires some { 1 ≤ cycle }
    requires fits { (k : ℕ) → sum_at inst.now places.now k ≤ cycle }
    ensures note { IfOk result (λ n. n ≡ longest_note inst.now cycle names.now places.now stations) }
    ensures short { IfOk result (λ n. n ≤ 40) }
{
    let _tasks = inst.tasks();
    let mut longest = 0;
    for station in 0..stations {
        let segments = segments_at(alloc, inst, cycle, places, station + 1)?;
        let note = named_note(alloc, names, &segments)?;
        longest = (note.len() as u64).max(longest);
    }
    Ok(longest)
}

/// The figures of a picture with names.
fn named_figures(
    alloc: Global,
    inst: &Instance,
    kind: LineKind,
    cycle: u64,
    names: &Names,
    balance: &Balance,
) -> Result<Figures, AllocError>
    requires range { IsPlacing kind (tasks inst.now) balance.now }
    requires right { IsRight kind inst.now cycle balance.now }
    requires cycle { IsCycle cycle }
    requires named { length names.now ≡ tasks inst.now }
    ensures value { IfOk result (λ f. f ≡ named_figures inst.now kind cycle names.now balance.now) }
    ensures figures { IfOk result AreFigures }
{
    let longest = longest_of(inst, &balance.place, balance.stations);
    let note = longest_note(alloc, inst, cycle, names, &balance.place, balance.stations)?;
    Ok(Figures {
        kind,
        stations: balance.stations,
        cycle,
        total: inst.sum(&inst.all()),
        longest,
        column: column_of(cycle),
        notes: room_for(note),
    })
}

/// How many columns of the list find room.
fn columns_of(figures: &Figures, names: u64, digits: u64) -> u64
    requires figures { AreFigures figures.now }
    requires names { names ≤ 768 }
    requires digits { digits ≤ 20 }
    ensures columns { result ≡ columns_of figures.now names digits }
    ensures limit { result ≤ 2000 }
{
    (figures.width() - 64) / column_width(names, digits)
}

/// How many tasks stand in a column of the list.
fn rows_of(tasks: u32, columns: u64) -> u64
    requires tasks { tasks ≤ 1024 }
    requires some { 0 < tasks }
    requires columns { 1 ≤ columns }
    requires limit { columns ≤ 2000 }
    ensures rows { result ≡ rows_of tasks columns }
    ensures some { 1 ≤ result }
    ensures few { result ≤ 1024 }
{
    (u64::from(tasks) + (columns - 1)) / columns
}

/// What a picture with names needs of the whole line.
pub(crate) fn page_of(
    alloc: Global,
    inst: &Instance,
    kind: LineKind,
    cycle: u64,
    names: &Names,
    balance: &Balance,
) -> Result<Page, AllocError>
    requires range { IsPlacing kind (tasks inst.now) balance.now }
    requires right { IsRight kind inst.now cycle balance.now }
    requires cycle { IsCycle cycle }
    requires named { length names.now ≡ tasks inst.now }
    ensures value { IfOk result (λ p. p ≡ page_of inst.now kind cycle names.now balance.now) }
    ensures page { IfOk result IsPage }
{
    let tasks = inst.tasks();
    let figures = named_figures(alloc, inst, kind, cycle, names, balance)?;
    let widest = widest_name(names);
    let digits = time_digits(inst);
    let columns = columns_of(&figures, widest, digits);
    let rows = rows_of(tasks, columns);
    Ok(Page {
        figures,
        names: widest,
        digits,
        rows,
    })
}
