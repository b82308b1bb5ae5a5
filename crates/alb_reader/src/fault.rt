//! The faults of an ALB text.
//!
//! A text has one first fault, with its line. A line with a wrong form comes before anything that the lines say
//! together. What is missing, and a cycle of the arcs, are told at the line of the end mark. Out of memory is no fault;
//! the types of errors have it beside.
ghost use Rattle.std.specs.Prelude.{◌≡◌};
ghost use Rattle.alb_reader.specs.declared.fault.LineError.TheVariants.{Memory};

use line_instance::Ring;
use std::alloc::{AllocError, AllocFailed};

/// What is wrong with a line, or with what a text says.
#[derive(Drop)]
pub enum AlbKind {
    /// The line has not the form of its section: a number, a task and its time, or a pair.
    NotANumber,
    /// The number of tasks isn't 1 to 1,024, the cycle time isn't 1 to 10^18, or a time is above its limit.
    Range,
    /// The line stands before the first heading, or is the second one of a section of one line.
    Stray,
    /// The heading is of no section.
    UnknownHeading,
    /// The heading stood before.
    RepeatedHeading,
    /// The text ends before the end mark.
    MissingEnd,
    /// The number of tasks, or the task times, are missing or empty.
    MissingSection,
    /// The line of task times names no task.
    BadTask,
    /// The line of task times names a task that was named before.
    RepeatedTask,
    /// No line of task times names this task, counted from 0; the least such.
    MissingTask(u32),
    /// A member of a pair isn't a task.
    BadArc,
    /// The line is the 524,289th pair.
    TooManyArcs,
    /// The arcs have a cycle; a closed walk of arcs without a repeated task, written from its least task.
    Cycle(Ring),
}

/// The first fault of a text.
#[derive(Drop)]
pub struct AlbFault {
    /// The number of the line at fault, counted from 1: that of the end mark where something is missing or the arcs
    /// have a cycle, and the number of lines plus 1 where the end mark is missing.
    pub line: u64,
    /// What is wrong.
    pub kind: AlbKind,
}

/// Why a line, or a part of a text, isn't taken.
#[derive(Drop)]
pub enum LineError {
    /// Memory is wanting.
    Memory,
    /// Something is wrong with it.
    Fault(AlbKind),
}

impl From<AllocError> for LineError {
    ghost from_gives = { λ _ e. e ≡ Memory };

    fn from(_e: AllocError) -> LineError {
        LineError::Memory
    }
}

impl<T: Drop> From<AllocFailed<T>> for LineError {
    ghost from_gives = { λ _ e. e ≡ Memory };

    fn from(_e: AllocFailed<T>) -> LineError {
        LineError::Memory
    }
}

/// Why a text isn't read.
#[derive(Drop)]
pub enum AlbError {
    /// Memory is wanting.
    Memory,
    /// The text has a fault.
    Fault(AlbFault),
}

impl From<AllocError> for AlbError {
    ghost use Rattle.alb_reader.specs.declared.fault.AlbError.TheVariants.{Memory as WantsMemory};

    ghost from_gives = { λ _ e. e ≡ WantsMemory };

    fn from(_e: AllocError) -> AlbError {
        AlbError::Memory
    }
}

impl<T: Drop> From<AllocFailed<T>> for AlbError {
    ghost use Rattle.alb_reader.specs.declared.fault.AlbError.TheVariants.{Memory as WantsMemory};

    ghost from_gives = { λ _ e. e ≡ WantsMemory };

    fn from(_e: AllocFailed<T>) -> AlbError {
        AlbError::Memory
    }
}

/// A fault of a line.
pub fn fault(line: u64, kind: AlbKind) -> AlbError
    ensures { result ≡ AlbError.Fault (record { line = line; kind = kind }) }
{
    AlbError::Fault(AlbFault { line, kind })
}
