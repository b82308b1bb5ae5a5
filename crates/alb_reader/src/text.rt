//! How a fault is printed.
//!
//! A fault is printed on one line: the number of the line at fault, and a few words for its kind. Tasks are counted
//! from 1 in print and from 0 in values, so a printed number is one more.
ghost use Rattle.std.specs.Prelude.{◌≡◌, ◌++◌, string_bytes, OnOk};
ghost use Rattle.alb_reader.specs.Texts.{fault_text};

use crate::fault::{AlbFault, AlbKind};
use in2_reader::RingTasks;
use std::alloc::AllocError;
use std::fmt;

impl fmt::Display for AlbKind {
    ghost use Rattle.std.specs.Prelude.{Some};
    ghost use Rattle.alb_reader.specs.Texts.{kind_text};

    ghost output = { λ kind. Some (kind_text kind) };

    fn fmt<W: fmt::Write>(&self, f: &mut fmt::Formatter<W>) -> fmt::Result {
        match self {
            AlbKind::NotANumber => write!(f, "not a number"),
            AlbKind::Range => write!(f, "range"),
            AlbKind::Stray => write!(f, "stray"),
            AlbKind::UnknownHeading => write!(f, "unknown heading"),
            AlbKind::RepeatedHeading => write!(f, "repeated heading"),
            AlbKind::MissingEnd => write!(f, "missing end"),
            AlbKind::MissingSection => write!(f, "missing section"),
            AlbKind::BadTask => write!(f, "bad task"),
            AlbKind::RepeatedTask => write!(f, "repeated task"),
            AlbKind::MissingTask(task) => {
                let number = u64::from(*task) + 1;
                write!(f, "missing task {number}")
            }
            AlbKind::BadArc => write!(f, "bad arc"),
            AlbKind::TooManyArcs => write!(f, "too many arcs"),
            AlbKind::Cycle(ring) => {
                let tasks = RingTasks { ring };
                write!(f, "cycle{tasks}")
            }
        }
    }
}

impl fmt::Display for AlbFault {
    ghost use Rattle.std.specs.Prelude.{Some};
    ghost use Rattle.alb_reader.specs.Texts.{fault_text};

    ghost output = { λ fault. Some (fault_text fault) };

    fn fmt<W: fmt::Write>(&self, f: &mut fmt::Formatter<W>) -> fmt::Result {
        let line = self.line;
        let kind = &self.kind;
        write!(f, "line {line} {kind}")
    }
}

/// Appends the printed text of a fault: its line and what is wrong with it. An error where memory is wanting.
pub fn push_fault(text: &mut String, fault: &AlbFault) -> Result<(), AllocError>
    ensures { OnOk result (string_bytes text.new ≡ string_bytes text.old ++ fault_text fault.now) }
{
    write!(text, "{fault}")
}
