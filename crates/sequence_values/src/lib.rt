//! Certificates of sequences of least utility work, as values: what a mix brings to the stations of a balanced line,
//! entries with their reasons, open frames, and the certificate.
//!
//! They stand apart from the rules, so that a report can keep a certificate without the rules below it.
#![tactic(auto)]

mod types;

pub use types::{Numbers, SeqCert, SeqEntries, SeqEntry, SeqFrame, SeqFrames, SeqWhy, Times};
