//! What is printed of the faults of a table.
ghost use Rattle.std.specs.Prelude.{◌≡◌, ◌++◌, [], cond, codes, string_bytes, OnOk};
ghost use Rattle.input_files.specs.TableTexts.{joined_names, table_fault_text, table_kind_text};

use command_outcome::push_number;
use std::alloc::AllocError;
use task_names::{Name, Names};
use task_table::{TableFault, TableKind};

/// Puts that no task has a name behind a text.
fn push_unknown(text: &mut String, name: &Name) -> Result<(), AllocError>
    ensures { OnOk result (string_bytes text.new ≡ string_bytes text.old ++ (codes "unknown task " ++ name.now)) }
{
    text.push_str("unknown task ")?;
    text.push_str(name.text())?;
    Ok(())
}

/// Puts what is wrong with a record behind a text.
fn push_kind(text: &mut String, kind: &TableKind) -> Result<(), AllocError>
    ensures { OnOk result (string_bytes text.new ≡ string_bytes text.old ++ table_kind_text kind.now) }
{
    match kind {
        TableKind::Heading => text.push_str("heading"),
        TableKind::Form => text.push_str("form"),
        TableKind::NotUtf8 => text.push_str("not utf-8"),
        TableKind::BadName => text.push_str("bad name"),
        TableKind::NotANumber => text.push_str("not a number"),
        TableKind::Range => text.push_str("range"),
        TableKind::RepeatedTask => text.push_str("repeated task"),
        TableKind::TooManyTasks => text.push_str("too many tasks"),
        TableKind::NoTask => text.push_str("no task"),
        TableKind::TooManyArcs => text.push_str("too many arcs"),
        TableKind::UnknownTask(name) => push_unknown(text, name),
        TableKind::Itself => text.push_str("apart from itself"),
    }
}

/// What stands before a name: nothing, and a semicolon and a blank where another name stands before it.
fn name_mark(further: bool) -> &'static str
    ensures { result.now ≡ cond further (codes "; ") [] }
{
    if further { "; " } else { "" }
}

/// Puts names behind a text, with a semicolon and a blank between.
fn push_joined(text: &mut String, names: &Names) -> Result<(), AllocError>
    ensures { OnOk result (string_bytes text.new ≡ string_bytes text.old ++ joined_names names.now) }
{
    for task in 0..names.len() {
        text.push_str(name_mark(task > 0))?;
        text.push_str(names.at(task))?;
    }
    Ok(())
}

/// Puts the first fault of a table behind a text.
pub(crate) fn push_table_fault(text: &mut String, fault: &TableFault) -> Result<(), AllocError>
    ensures { OnOk result (string_bytes text.new ≡ string_bytes text.old ++ table_fault_text fault.now) }
{
    match fault {
        TableFault::Record { record, kind } => {
            text.push_str("record ")?;
            push_number(text, *record)?;
            text.push_str(" ")?;
            push_kind(text, kind)
        }
        TableFault::Cycle(names) => {
            text.push_str("cycle ")?;
            push_joined(text, names)
        }
    }
}
