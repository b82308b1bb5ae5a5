//! How a fault is printed.
//!
//! A fault is printed on one line: the number of the line at fault, and a few words for its kind. The tasks of a cycle
//! follow, counted from 1 in print and from 0 in values.
ghost use Rattle.std.specs.Prelude.{◌≡◌, ◌++◌, string_bytes, OnOk};
ghost use Rattle.in2_reader.specs.Texts.{fault_text};

use crate::fault::{In2Fault, In2Kind};
use line_instance::Ring;
use std::alloc::AllocError;
use std::fmt;

/// The tasks of a ring, which are printed counted from 1, a blank before each.
#[derive(Drop)]
pub struct RingTasks<'a> {
    /// The ring.
    pub ring: &'a Ring,
}

impl fmt::Display for RingTasks<'_> {
    ghost use Rattle.std.specs.Prelude.{Some};
    ghost use Rattle.in2_reader.specs.Texts.{ring_text};

    ghost output = { λ s. Some (ring_text s.ring.now) };

    fn fmt<W: fmt::Write>(&self, f: &mut fmt::Formatter<W>) -> fmt::Result {
        let ring = self.ring;
        for k in 0..ring.len() {
            let number = u64::from(ring.at(k)) + 1;
            write!(f, " {number}")?;
        }
        Ok(())
    }
}

impl fmt::Display for In2Kind {
    ghost use Rattle.std.specs.Prelude.{Some};
    ghost use Rattle.in2_reader.specs.Texts.{kind_text};

    ghost output = { λ kind. Some (kind_text kind) };

    fn fmt<W: fmt::Write>(&self, f: &mut fmt::Formatter<W>) -> fmt::Result {
        match self {
            In2Kind::NotANumber => write!(f, "not a number"),
            In2Kind::Range => write!(f, "range"),
            In2Kind::MissingTimes => write!(f, "missing times"),
            In2Kind::MissingEnd => write!(f, "missing end"),
            In2Kind::BadArc => write!(f, "bad arc"),
            In2Kind::TooManyArcs => write!(f, "too many arcs"),
            In2Kind::Cycle(ring) => {
                let tasks = RingTasks { ring };
                write!(f, "cycle{tasks}")
            }
        }
    }
}

impl fmt::Display for In2Fault {
    ghost use Rattle.std.specs.Prelude.{Some};
    ghost use Rattle.in2_reader.specs.Texts.{fault_text};

    ghost output = { λ fault. Some (fault_text fault) };

    fn fmt<W: fmt::Write>(&self, f: &mut fmt::Formatter<W>) -> fmt::Result {
        let line = self.line;
        let kind = &self.kind;
        write!(f, "line {line} {kind}")
    }
}

/// Appends the printed text of a fault: its line and what is wrong with it. An error where memory is wanting.
pub fn push_fault(text: &mut String, fault: &In2Fault) -> Result<(), AllocError>
    ensures { OnOk result (string_bytes text.new ≡ string_bytes text.old ++ fault_text fault.now) }
{
    write!(text, "{fault}")
}
