//! The text of a certificate: one spelling in a version, written and read line by line.
//!
//! A certificate has one text in each version that can hold it, and that of the least such version, 2 or 3, is written.
//! `lifting` makes of a certificate of version 1 the one of version 2 that says the same.
#![tactic(auto)]

mod kept_text;
pub mod laws;
mod lifting;
mod lines;
mod output;
mod parts;
mod slice_lines;
mod version_one;
mod whole_text;
mod writer;
mod writing;

pub use cert_lines::{CertFault, CertKind, ReadError, Source, Taken};
pub use kept_text::KeptText;
pub use lines::{has_pairs, put_cert, put_keyed, put_kind, put_list, put_seats};
pub use output::Output;
pub use parts::{EntryList, read_all, read_entries, read_seating};
pub use slice_lines::SliceLines;
pub use whole_text::{CertRead, ListRead, read_cert, read_list};
pub use writer::{write_cert, write_list};
pub use writing::{put_cites, put_load, put_number, put_text};
