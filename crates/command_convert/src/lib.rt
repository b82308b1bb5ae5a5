//! The command `convert`: an instance written in another form, or a certificate written anew in version 2.
//!
//! The report is made before the file is written, so that a run that is out of memory writes nothing. A certificate is
//! written piece by piece, without its text in memory.
#![tactic(auto)]

mod convert;

pub use convert::convert_report;
