//! The faults of a certificate's text.
//!
//! The kinds are few, since programs make the text of a certificate. The number of the line, and whether its form or a
//! range is wrong, are enough to find the fault. Out of memory and a fault of the outside are no faults of the text.
ghost use Rattle.std.specs.Prelude.{◌≡◌};
ghost use Rattle.cert_lines.specs.declared.fault.ReadError.TheVariants.{Stopped};
ghost use Rattle.cert_lines.specs.declared.fault.LineError.TheVariants.{Memory};

use std::alloc::{AllocError, AllocFailed};

/// What is wrong with a line, or with the end of a text.
#[derive(Clone, Copy, Debug, PartialEq, Eq)]
pub enum CertKind {
    /// The text ends before the line is ended by its LF.
    Ended,
    /// The line hasn't the form of what may stand there.
    Form,
    /// The line has the form, and a number is out of its range.
    Range,
    /// A byte follows the last line.
    Trailing,
}

/// The first line at fault, and what is wrong with it.
#[derive(Clone, Copy, Debug, PartialEq, Eq)]
pub struct CertFault {
    /// The number of the line, counted from 1.
    pub line: u64,
    /// What is wrong.
    pub kind: CertKind,
}

/// Why a line isn't read.
#[derive(Clone, Copy, Debug, PartialEq, Eq)]
pub enum LineError {
    /// Memory is wanting.
    Memory,
    /// It hasn't the form.
    Form,
    /// It has the form, and a number is out of its range.
    Range,
}

/// Why a part of a text isn't read.
#[derive(Clone, Copy, Debug, PartialEq, Eq)]
pub enum ReadError {
    /// Memory is wanting, or the lines can't go on.
    Stopped,
    /// The part has a fault.
    Fault(CertFault),
}

impl From<AllocError> for ReadError {
    ghost from_gives = { λ _ e. e ≡ Stopped };

    fn from(_e: AllocError) -> ReadError {
        ReadError::Stopped
    }
}

impl<T: Drop> From<AllocFailed<T>> for ReadError {
    ghost from_gives = { λ _ e. e ≡ Stopped };

    fn from(_e: AllocFailed<T>) -> ReadError {
        ReadError::Stopped
    }
}

impl From<AllocError> for LineError {
    ghost from_gives = { λ _ e. e ≡ Memory };

    fn from(_e: AllocError) -> LineError {
        LineError::Memory
    }
}
