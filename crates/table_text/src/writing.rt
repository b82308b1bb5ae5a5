//! The writing of a table.
//!
//! For each task all tasks are asked whether they cover it, and those of smaller numbers whether they are apart from
//! it. Beside the text the lists of one record are kept.
ghost use Rattle.std.specs.Prelude.{◌≡◌, ◌<◌, ◌++◌, ◌∷◌, [], decimal, IfOk, OnOk, length};
ghost use Rattle.line_instance.specs.Line.{is_apart, tasks};
ghost use Rattle.task_names.specs.TaskNames.{name_at};
ghost use Rattle.sheet_rows.specs.SheetRows.{with_row, with_rows};
ghost use Rattle.table_text.specs.TableText.{has_pair, heading, is_direct, listed, record_of, records_of, table_text};
ghost use Rattle.table_text.specs.TableText.{those_below};
ghost use Rattle.table_text.specs.inner.Members.{member_if, with_member};

use itoa::Buffer;
use line_instance::Instance;
use sheet_rows::SheetWriter;
use std::alloc::{AllocError, Global};
use task_names::Names;

/// Whether some two tasks are apart. Takes no memory.
pub fn has_pair(inst: &Instance) -> bool
    ensures { result ≡ has_pair inst.now }
{
    for task in 0..inst.tasks() {
        if !inst.apart(task).is_empty() {
            return true;
        }
    }
    false
}

/// Puts a name behind a list of names, with a semicolon and a blank between.
fn push_member(list: &mut Vec<u8>, name: &[u8]) -> Result<(), AllocError>
    ensures { OnOk result (list.new.items ≡ with_member list.old.items name.now) }
{
    if !list.is_empty() {
        list.extend_from_slice(b"; ")?;
    }
    list.extend_from_slice(name)?;
    Ok(())
}

/// Puts the name of a task behind a list of names, where it is wanted.
fn push_if(list: &mut Vec<u8>, names: &Names, wanted: bool, task: u32) -> Result<(), AllocError>
    requires { task < length names.now }
    ensures { OnOk result (list.new.items ≡ member_if list.old.items wanted (name_at names.now task)) }
{
    if !wanted {
        return Ok(());
    }
    push_member(list, names.at(task as usize).as_bytes())
}

/// The names of the tasks that a task is covered by.
fn listed_before(
    alloc: Global,
    inst: &Instance,
    names: &Names,
    task: u32,
) -> Result<Vec<u8>, AllocError>
    requires many { length names.now ≡ tasks inst.now }
    requires task { task < tasks inst.now }
    ensures { IfOk result (λ t. t.items ≡ listed names.now (those_below (is_direct inst.now task) (tasks inst.now))) }
{
    let _names = names.len();
    let mut list = Vec::new(alloc);
    for other in 0..inst.tasks() {
        let covers = inst.covers(other, task);
        push_if(&mut list, names, covers, other)?;
    }
    Ok(list)
}

/// The names of the tasks of smaller numbers that are apart from a task.
fn listed_apart(
    alloc: Global,
    inst: &Instance,
    names: &Names,
    task: u32,
) -> Result<Vec<u8>, AllocError>
    requires many { length names.now ≡ tasks inst.now }
    requires task { task < tasks inst.now }
    ensures { IfOk result (λ t. t.items ≡ listed names.now (those_below (λ i. is_apart inst.now i task) task)) }
{
    let _names = names.len();
    let _tasks = inst.tasks();
    let apart = inst.apart(task);
    let mut list = Vec::new(alloc);
    for other in 0..task {
        let wanted = apart.has(other);
        push_if(&mut list, names, wanted, other)?;
    }
    Ok(list)
}

/// Writes the heading, with a column for tasks that are apart where there are some.
fn put_heading(sheet: &mut SheetWriter, paired: bool) -> Result<(), AllocError>
    ensures { OnOk result (sheet.new ≡ with_row sheet.old (heading paired)) }
{
    if !paired {
        return sheet.put(&[b"task".as_slice(), b"time".as_slice(), b"after".as_slice()]);
    }
    sheet.put(&[
        b"task".as_slice(),
        b"time".as_slice(),
        b"after".as_slice(),
        b"apart".as_slice(),
    ])
}

/// Writes a record with a list of tasks before.
fn put_three(
    sheet: &mut SheetWriter,
    name: &[u8],
    time: u64,
    before: &[u8],
) -> Result<(), AllocError>
    ensures { OnOk result (sheet.new ≡ with_row sheet.old (name.now ∷ decimal time ∷ before.now ∷ [])) }
{
    let mut buffer = Buffer::new();
    sheet.put(&[name, buffer.format(time).as_bytes(), before])
}

/// Writes a record with a list of tasks before, and one of tasks apart.
fn put_four<'a>(
    sheet: &mut SheetWriter,
    name: &'a [u8],
    time: u64,
    before: &'a [u8],
    apart: &'a [u8],
) -> Result<(), AllocError>
    ensures { OnOk result (sheet.new ≡ with_row sheet.old
        (name.now ∷ decimal time ∷ before.now ∷ apart.now ∷ [])) }
{
    let mut buffer = Buffer::new();
    sheet.put(&[name, buffer.format(time).as_bytes(), before, apart])
}

/// Writes the record of a task.
fn put_task(
    alloc: Global,
    sheet: &mut SheetWriter,
    inst: &Instance,
    names: &Names,
    paired: bool,
    task: u32,
) -> Result<(), AllocError>
    requires many { length names.now ≡ tasks inst.now }
    requires task { task < tasks inst.now }
    ensures { OnOk result (sheet.new ≡ with_row sheet.old (record_of inst.now names.now paired task)) }
{
    let time = inst.time(task);
    let name = names.at(task as usize).as_bytes();
    let before = listed_before(alloc, inst, names, task)?;
    if !paired {
        return put_three(sheet, name, time, &before);
    }
    let apart = listed_apart(alloc, inst, names, task)?;
    put_four(sheet, name, time, &before, &apart)
}

/// Writes the records of all tasks.
fn put_tasks(
    alloc: Global,
    sheet: &mut SheetWriter,
    inst: &Instance,
    names: &Names,
    paired: bool,
) -> Result<(), AllocError>
    requires many { length names.now ≡ tasks inst.now }
    ensures { OnOk result (sheet.new ≡ with_rows sheet.old (records_of inst.now names.now paired)) }
{
    for task in 0..inst.tasks() {
        put_task(alloc, sheet, inst, names, paired, task)?;
    }
    Ok(())
}

/// The canonical table of an instance whose tasks have these names: the heading `task,time,after`, with `,apart` where
/// two tasks are apart, and a record for each task in their order. The one error is that memory is out.
pub fn write_table(alloc: Global, inst: &Instance, names: &Names) -> Result<Vec<u8>, AllocError>
    requires { length names.now ≡ tasks inst.now }
    ensures { IfOk result (λ t. t.items ≡ table_text inst.now names.now) }
{
    let paired = has_pair(inst);
    let mut sheet = SheetWriter::new(alloc, b',');
    put_heading(&mut sheet, paired)?;
    put_tasks(alloc, &mut sheet, inst, names, paired)?;
    sheet.finish()
}
