//! Certificates of the least product of stations and cycle (Scholl's SALBP-E), and their text.
//!
//! The text is that of a certificate, line by line, with the range of stations that is asked for in place of a
//! question, and with bounds on a product. A certificate has one text in each version that can hold it, and that of the
//! least such version is written. Writing takes one pass over the entries, and reading one over the bytes.
#![tactic(auto)]

mod body;
pub mod laws;
mod lines;
mod listed;
mod version;
mod whole_text;
mod words;
mod writing;

pub use version::{Version, VersionedCert};
pub use whole_text::{EfficRead, EfficText, read_effic};
pub use writing::write_effic;
