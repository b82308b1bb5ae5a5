//! The reading of an ALB text as an instance.
//!
//! There are two passes: the form of each line up to the end mark, then what the lines say together. So a line with a
//! wrong form is told before a wrong task above it. The last fault that can come is a cycle, which `make` finds. A text
//! in memory is shorter than 2^63 bytes, so the numbers of its lines fit.
ghost use Rattle.std.specs.Prelude.{◌≡◌, ◌≤◌, ◌<◌, ◌^◌, ℕ, Option, Some, length};
ghost use Rattle.in2_reader.specs.Contents.{Lines, contents_from};
ghost use Rattle.line_instance.specs.Line.{Line};
ghost use Rattle.line_instance.specs.Made.{AreTimes};
ghost use Rattle.line_instance.specs.Walks.{AreArcs};
ghost use Rattle.alb_reader.specs.Instance.{IsAlbRead, IsAlbReading};
ghost use Rattle.alb_reader.specs.inner.Drafts.{IsWhole, IsDraft};
ghost use Rattle.alb_reader.specs.inner.Making.{IsFormRead, IsFillRead, IsMadeOf, IsOfTasks, refusal};
ghost use Rattle.alb_reader.specs.declared.fault.AlbFault.{AlbFault};

use crate::draft::Draft;
use crate::fault::{AlbError, AlbFault, AlbKind, fault};
use crate::filling::{arcs_of, times_of};
use crate::lines::read_draft;
use line_instance::{Instance, Made, Prec, make};
use std::alloc::Global;

/// What reading an ALB text answers.
#[derive(Drop)]
pub enum AlbRead {
    /// The instance of what the text says and, where it has one, the cycle time, 1 to 10^18.
    Good(Instance, Option<u64>),
    /// The first fault of the text.
    Fault(AlbFault),
    /// Memory is wanting.
    NoMemory,
}

/// Reads an ALB text: sections in any order, up to the end mark. Times and the cycle time are in any time unit.
pub fn read_alb(alloc: Global, bytes: &[u8]) -> AlbRead
    requires { length bytes.now < 2 ^ 63 }
    ensures read { IsAlbRead bytes.now result }
    ensures none { (f : AlbFault) → result ≡ AlbRead.Fault f → (line : Line) (c : Option ℕ)
        → ¬ IsAlbReading bytes.now line c }
    ensures limit { (line : Line) (c : ℕ) → result ≡ AlbRead.Good line (Some c) → (1 ≤ c) × (c ≤ 1000000000000000000) }
{
    let (draft, end) = match read_draft(alloc, bytes) {
        Ok(whole) => whole,
        Err(error) => return refused(error),
    };
    match formed(&draft, end) {
        Ok(tasks) => filled(alloc, &draft, tasks, end),
        Err(error) => refused(error),
    }
}

// The answer where a text isn't read.
fn refused(error: AlbError) -> AlbRead
    ensures { result ≡ refusal error }
{
    match error {
        AlbError::Fault(fault) => AlbRead::Fault(fault),
        AlbError::Memory => AlbRead::NoMemory,
    }
}

// The number of tasks, where there is one and there are task times.
fn formed(draft: &Draft, end: u64) -> Result<u32, AlbError>
    requires { (lines : Lines) × IsWhole lines draft.now end }
    ensures { (lines : Lines) (last : ℕ) → IsWhole lines draft.now end → IsFormRead lines last end result }
{
    let Some(tasks) = draft.tasks else {
        return Err(fault(end, AlbKind::MissingSection));
    };
    if draft.times.is_empty() {
        return Err(fault(end, AlbKind::MissingSection));
    }
    Ok(tasks as u32)
}

// The instance of these times and arcs, or the cycle of the arcs; `end` is the line of the end mark.
fn made(alloc: Global, times: Vec<u64>, arcs: &[Prec], cycle: Option<u64>, end: u64) -> AlbRead
    requires times { AreTimes times.items }
    requires arcs { AreArcs (length times.items) arcs.now }
    ensures { IsMadeOf times.items arcs.now cycle end result }
{
    match make(alloc, times, arcs) {
        Made::Good(instance) => AlbRead::Good(instance, cycle),
        Made::Cycle(ring) => AlbRead::Fault(AlbFault {
            line: end,
            kind: AlbKind::Cycle(ring),
        }),
        Made::NoMemory => AlbRead::NoMemory,
        _ => unreachable!(),
    }
}

// What a text whose form is right says of so many tasks.
fn filled(alloc: Global, draft: &Draft, tasks: u32, end: u64) -> AlbRead
    requires { (head : Lines) × IsDraft head draft.now × IsOfTasks head tasks }
    ensures read { (head : Lines) → IsDraft head draft.now → IsOfTasks head tasks → IsFillRead head end tasks result }
    ensures limit { (line : Line) (c : ℕ) → result ≡ AlbRead.Good line (Some c) → draft.now.cycle ≡ Some c }
{
    let times = match times_of(alloc, tasks as usize, &draft.times, end) {
        Ok(times) => times,
        Err(error) => return refused(error),
    };
    let arcs = match arcs_of(alloc, tasks, &draft.pairs) {
        Ok(arcs) => arcs,
        Err(error) => return refused(error),
    };
    made(alloc, times, &arcs, draft.cycle, end)
}
