//! Reports, and why a command stops without one or early. A `?` on either carries a refusal up to the caller.
ghost use Rattle.std.specs.Prelude.{◌≡◌};
ghost use Rattle.command_outcome.specs.declared.report.Kept.TheVariants.{Nothing};
ghost use Rattle.command_outcome.specs.declared.report.EarlyEnd.TheVariants.{Memory, Report as Early};

use crate::status::Status;
use line_rules::{Certificate, EfficCert};
use sequence_values::SeqCert;
use std::alloc::AllocError;

/// The certificate that a run leaves in memory, beside what it prints and writes.
pub enum Kept {
    /// None.
    Nothing,
    /// The certificate of a line.
    Line(Certificate),
    /// The certificate of a line that was read again from its text, and the units that the check counted in it.
    Checked {
        certificate: Certificate,
        units: u64,
    },
    /// The certificate of a least product of stations and cycle.
    Product(EfficCert),
    /// The certificate of a sequence of least utility work.
    Sequence(SeqCert),
}

// By hand, and so a call: where a report is let go its caller then has one goal for what it keeps, and not one for each
// part of each kind of certificate.
impl Drop for Kept {
    fn drop(self) {
        match self {
            Kept::Nothing => {}
            Kept::Line(_certificate) => {}
            Kept::Checked {
                certificate: _certificate,
                units: _,
            } => {}
            Kept::Product(_certificate) => {}
            Kept::Sequence(_certificate) => {}
        }
    }
}

/// A status, the text that is put with it, and the certificate that is kept once it is put.
#[derive(Drop)]
pub struct Report {
    pub status: Status,
    pub text: Vec<u8>,
    pub kept: Kept,
}

impl Report {
    /// A report with which nothing is kept.
    pub fn told(status: Status, text: Vec<u8>) -> Report
        ensures { result ≡ record { status = status; text = text; kept = Nothing } }
    {
        Report {
            status,
            text,
            kept: Kept::Nothing,
        }
    }
}

/// Why a command stops.
#[derive(Drop)]
pub enum EarlyEnd {
    /// Out of memory.
    Memory,
    /// The file that the command writes could not be written.
    Unwritten,
    /// A refusal, with its report.
    Report(Report),
}

impl From<AllocError> for EarlyEnd {
    ghost from_gives = { λ _ s. s ≡ Memory };

    fn from(_error: AllocError) -> EarlyEnd {
        EarlyEnd::Memory
    }
}

/// A refusal with this status and text. Nothing is kept with it.
pub fn refuse(status: Status, text: Vec<u8>) -> EarlyEnd
    ensures { result ≡ Early (record { status = status; text = text; kept = Nothing }) }
{
    EarlyEnd::Report(Report::told(status, text))
}
