//! The faults of a table.
use task_names::{Name, Names};

/// What is wrong with a record or with a member of one of its lists. Of one record, and of one member, they are tested
/// in this order.
#[derive(Drop)]
pub enum TableKind {
    /// The first record isn't the words `task`, `time`, `after`, with or without `apart`, and then empty fields alone.
    Heading,
    /// A field behind the heading's last word isn't empty.
    Form,
    /// The name isn't UTF-8.
    NotUtf8,
    /// The name, or the member of a list, is no name of a task.
    BadName,
    /// The time isn't one or more digits.
    NotANumber,
    /// The time is above 200,000,000,000,000.
    Range,
    /// An earlier record has the name.
    RepeatedTask,
    /// The record has the 1,025th task.
    TooManyTasks,
    /// No record has a task.
    NoTask,
    /// The member is the 524,289th of all lists `after`, or of all lists `apart`.
    TooManyArcs,
    /// No task has this name, that of the member.
    UnknownTask(Name),
    /// The member stands in the task's own list `apart`.
    Itself,
}

/// The first fault of a table.
#[derive(Drop)]
pub enum TableFault {
    /// A record, counted from 1, which is the row of the sheet, and what is wrong with it; the number of records plus 1
    /// where there is no task.
    Record { record: u64, kind: TableKind },
    /// The arcs have a cycle: the names of the tasks along a closed walk of arcs without a repeated task.
    Cycle(Names),
}
