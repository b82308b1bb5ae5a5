//! The tasks that the records of a table say, taken record by record.
ghost use Rattle.std.specs.Prelude.{◌≡◌, true, IfOk};
ghost use Rattle.std.specs.Str.{is_utf8};
ghost use Rattle.csv.specs.Records.{fields_of};
ghost use Rattle.line_io.specs.Lines.{number_in, value_of};
ghost use Rattle.task_table.specs.Records.{field, table_records};
ghost use Rattle.task_names.specs.TaskNames.{is_task_name as is_name};
ghost use Rattle.task_table.specs.Rows.{task_fault};
ghost use Rattle.task_table.specs.inner.RecordsLeft.{IsReading, records_of};
ghost use Rattle.task_table.specs.inner.Reading.{Tells, kind_or, no_tasks, record_said, rest_said, tasks_said};
ghost use Rattle.task_table.specs.inner.Reading.{with_task};
ghost use Rattle.task_table.specs.inner.Reading.{time_or, lists_of, ended_said};

use crate::fault::TableKind;
use crate::heading::columns_of;
use crate::records::{field_of, next_record, reader_of, says_from};
use crate::stop::{Stop, at_record};
use csv::{ByteRecord, Reader};
use line_io::{Num, Span, number};
use std::alloc::{AllocError, Global};
use std::marker::Model;
use task_names::{Name, Names, is_task_name};

/// The most tasks.
const MAX_TASKS: usize = 1024;

/// The greatest time of a task.
const MAX_TIME: u64 = 200_000_000_000_000;

/// The lists of a task: the number of its record, and the bytes of its fields `after` and `apart`.
#[derive(Drop)]
pub struct TaskLists {
    pub row: u64,
    pub after: Vec<u8>,
    pub apart: Vec<u8>,
}

impl Model for TaskLists {
    ghost use Rattle.task_table.specs.inner.Reading.{ListsSaid};

    ghost Value = { ListsSaid };

    ghost view = { λ s. record { row = s.row; after = s.after.items; apart = s.apart.items } };
}

/// The tasks so far: their names, their times and their lists.
#[derive(Drop)]
pub struct Tasks {
    pub names: Names,
    pub times: Vec<u64>,
    pub lists: Vec<TaskLists>,
}

impl Model for Tasks {
    ghost use Rattle.task_table.specs.inner.Reading.{TasksSaid};

    ghost Value = { TasksSaid };

    ghost view = { λ s. record { names = s.names; times = s.times.items; lists = s.lists.items } };
}

/// The lists of a record.
fn copied_lists(alloc: Global, number: u64, row: &ByteRecord) -> Result<TaskLists, AllocError>
    ensures { IfOk result (λ l. l ≡ lists_of number (fields_of row.now)) }
{
    Ok(TaskLists {
        row: number,
        after: Vec::from_slice(alloc, field_of(row, 2))?,
        apart: Vec::from_slice(alloc, field_of(row, 3))?,
    })
}

/// The time that a field gives.
fn time_of(field: &[u8]) -> Result<u64, TableKind>
    ensures { result ≡ time_or (number_in 200000000000000 field.now) }
{
    let whole = Span {
        from: 0,
        to: field.len(),
    };
    match number(field, whole, MAX_TIME) {
        Num::NotANumber => Err(TableKind::NotANumber),
        Num::Above => Err(TableKind::Range),
        Num::Value(time) => Ok(time),
    }
}

/// Whether bytes are text.
fn is_text(bytes: &[u8]) -> bool
    ensures { result ≡ is_utf8 bytes.now }
{
    match str::from_utf8(bytes) {
        Ok(_) => true,
        Err(_) => false,
    }
}

/// The time of a record of a task, where nothing is wrong with the record.
fn task_time(columns: usize, names: &Names, row: &ByteRecord) -> Result<u64, TableKind>
    ensures { result ≡ kind_or (task_fault columns names.now (fields_of row.now))
        (value_of (field (fields_of row.now) 1)) }
{
    if says_from(row, columns) {
        return Err(TableKind::Form);
    }
    let name = field_of(row, 0);
    if !is_text(name) {
        return Err(TableKind::NotUtf8);
    }
    if !is_task_name(name) {
        return Err(TableKind::BadName);
    }
    let time = time_of(field_of(row, 1))?;
    if names.has(name) {
        return Err(TableKind::RepeatedTask);
    }
    if names.len() >= MAX_TASKS {
        return Err(TableKind::TooManyTasks);
    }
    Ok(time)
}

impl Tasks {
    /// No task yet.
    fn new(alloc: Global) -> Tasks
        ensures { result ≡ no_tasks }
    {
        Tasks {
            names: Names::new(alloc),
            times: Vec::new(alloc),
            lists: Vec::new(alloc),
        }
    }

    /// One more task.
    fn with_task(
        self,
        alloc: Global,
        number: u64,
        row: &ByteRecord,
        time: u64,
    ) -> Result<Tasks, AllocError>
        requires name { is_name (field (fields_of row.now) 0) ≡ true }
        requires time { time ≡ value_of (field (fields_of row.now) 1) }
        ensures { IfOk result (λ tasks. tasks ≡ with_task self number (fields_of row.now)) }
    {
        let Tasks {
            mut names,
            mut times,
            mut lists,
        } = self;
        names.push(Name::new(alloc, field_of(row, 0))?)?;
        times.push(time)?;
        lists.push(copied_lists(alloc, number, row)?)?;
        Ok(Tasks {
            names,
            times,
            lists,
        })
    }

    /// Takes a record behind the heading of a table of so many columns.
    fn take(
        self,
        alloc: Global,
        columns: usize,
        number: u64,
        row: &ByteRecord,
    ) -> Result<Tasks, Stop>
        ensures { Tells result (record_said columns number (fields_of row.now) self) }
    {
        if !says_from(row, 0) {
            return Ok(self);
        }
        match task_time(columns, &self.names, row) {
            Ok(time) => Ok(self.with_task(alloc, number, row, time)?),
            Err(kind) => Err(at_record(number, kind)),
        }
    }
}

/// The tasks of the records behind the heading.
fn rest_of(
    alloc: Global,
    columns: usize,
    reader: &mut Reader<&[u8]>,
    row: &mut ByteRecord,
) -> Result<Tasks, Stop>
    requires { IsReading reader.old }
    ensures { Tells result (rest_said columns (records_of reader.old) 2 no_tasks) }
{
    let mut tasks = Tasks::new(alloc);
    for number in 2..u64::MAX {
        if !next_record(reader, row)? {
            return finished(tasks, number);
        }
        tasks = tasks.take(alloc, columns, number, row)?;
    }
    Err(Stop::Memory)
}

/// The tasks of all records, where there is one.
fn finished(tasks: Tasks, number: u64) -> Result<Tasks, Stop>
    ensures { Tells result (ended_said number tasks) }
{
    if tasks.names.len() == 0 {
        return Err(at_record(number, TableKind::NoTask));
    }
    Ok(tasks)
}

/// The tasks of a table with this mark between its fields.
pub fn tasks_of(alloc: Global, bytes: &[u8], mark: u8) -> Result<Tasks, Stop>
    ensures { Tells result (tasks_said (table_records mark bytes.now)) }
{
    let mut reader = reader_of(alloc, bytes, mark);
    let mut row = ByteRecord::new(alloc);
    if !next_record(&mut reader, &mut row)? {
        return Err(at_record(1, TableKind::Heading));
    }
    match columns_of(&row) {
        Some(columns) => rest_of(alloc, columns, &mut reader, &mut row),
        None => Err(at_record(1, TableKind::Heading)),
    }
}
