//! Certificates of sequences of least utility work on a mixed-model line (Scholl), as texts.
//!
//! The text goes line by line: the numbers of models and of stations, the charges where there are some, the bounds, the
//! sequence, the entries, the frames of a search that stopped, and the end. With charges it is of version 2, without of
//! version 1, and it has one spelling. Writing takes one pass over the certificate, and reading one over the bytes.
#![tactic(auto)]

mod body;
mod charges;
mod counted;
pub mod laws;
mod lines;
mod version;
mod whole_text;
mod words;
mod writing;

pub use whole_text::{SeqCertRead, SeqText, read_seq};
pub use writing::write_seq;
