//! The files that a command reads: instances as tables, ALB or IN2 texts, pairs of tasks that are apart, and
//! certificates.
//!
//! Each file is fetched whole and then read, one after the other in the order of the words. What can't be taken in
//! stops the command with its report: the file can't be read, it is too long, or it has no reading, with the first
//! fault in it. A certificate is read piece by piece, so that its text never stands in memory as a whole.
#![tactic(auto)]

mod apart_pairs;
mod certificate;
mod fetch_file;
mod instance;
mod kind;
mod line_file;
mod sheets;
mod table_texts;
mod text_file;

pub use certificate::{MAX_CERTIFICATE, cert_fault_line_of, certificate_of};
pub use fetch_file::{fetch, fetch_within};
pub use instance::{Listed, Timed, line_of, listed_line, said_instance};
pub use kind::kind_of;
pub use line_file::{Plain, plain_line};
pub use sheets::{Sheet, fault_line_of, sheet_of};
pub use text_file::spelled_in;
