//! The lines of a certificate, one at a time: how each is written and read, and which values it may say.
//!
//! A certificate has some ten kinds of lines, and may have 20,000,000 of one kind. Each kind is a `Pattern`: the line
//! of a value, the values that may be said, and the code that reads one. A text is then a list of patterns, read over
//! any `Source` of lines. A line costs its bytes, and the memory of what it says.
#![tactic(auto)]

mod draft;
mod fault;
pub mod line_forms;
pub mod pattern;
mod source;
pub mod words;

pub use fault::{CertFault, CertKind, LineError, ReadError};
pub use line_rules::TaskSet;
pub use source::{Source, Taken};
