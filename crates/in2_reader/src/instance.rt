//! The reading of an IN2 text as an instance.
//!
//! What the text says is read first, and `make` makes the instance of it. The ranges of an IN2 text are those that
//! `make` asks for, so of its refusals only a cycle is left, and out of memory. A text in memory is shorter than 2^63
//! bytes, so the numbers of its lines fit.
ghost use Rattle.std.specs.Prelude.{◌≡◌, ◌<◌, ◌^◌, length};
ghost use Rattle.in2_reader.specs.Grammar.{In2};
ghost use Rattle.in2_reader.specs.Instance.{IsIn2Read, IsReading, IsReadingOf, refusal};
ghost use Rattle.in2_reader.specs.declared.fault.In2Fault.{In2Fault};
ghost use Rattle.line_instance.specs.Line.{Line};
ghost use Rattle.line_instance.specs.Made.{AreTimes};
ghost use Rattle.line_instance.specs.Walks.{AreArcs};

use crate::draft::{Draft, read_draft};
use crate::fault::{In2Fault, In2Kind, ReadError};
use line_instance::{Instance, Made, make};
use std::alloc::Global;

/// What reading an IN2 text answers.
#[derive(Drop)]
pub enum In2Read {
    /// The instance of what the text says.
    Good(Instance),
    /// The first fault of the text.
    Fault(In2Fault),
    /// Memory is wanting.
    NoMemory,
}

/// Reads an IN2 text: the number of tasks, their times, in any time unit, arcs counted from 1, and the end mark.
pub fn read_in2(alloc: Global, bytes: &[u8]) -> In2Read
    requires { length bytes.now < 2 ^ 63 }
    ensures read { IsIn2Read bytes.now result }
    ensures none { (f : In2Fault) → result ≡ In2Read.Fault f → (line : Line) → ¬ IsReading bytes.now line }
{
    match read_draft(alloc, bytes) {
        Ok(draft) => instance_of(alloc, draft),
        Err(error) => refused(error),
    }
}

// The answer where a part isn't read.
fn refused(error: ReadError) -> In2Read
    ensures { result ≡ refusal error }
{
    match error {
        ReadError::Fault(fault) => In2Read::Fault(fault),
        ReadError::Memory => In2Read::NoMemory,
    }
}

// The instance of what a text says, or the cycle of its arcs.
fn instance_of(alloc: Global, draft: Draft) -> In2Read
    requires times { AreTimes draft.times.items }
    requires arcs { AreArcs (length draft.times.items) draft.arcs.items }
    ensures { IsReadingOf (record { times = draft.times.items; arcs = draft.arcs.items; last = draft.last }) result }
{
    let Draft { times, arcs, last } = draft;
    match make(alloc, times, &arcs) {
        Made::Good(instance) => In2Read::Good(instance),
        Made::Cycle(ring) => In2Read::Fault(In2Fault {
            line: last,
            kind: In2Kind::Cycle(ring),
        }),
        Made::NoMemory => In2Read::NoMemory,
        _ => unreachable!(),
    }
}
