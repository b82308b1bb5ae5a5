//! Records of fields, written as comma-separated values into memory, or with another mark between the fields.
//!
//! Each record costs the time of its bytes.
#![tactic(auto)]

pub mod laws;
mod sheet;

pub use sheet::SheetWriter;
