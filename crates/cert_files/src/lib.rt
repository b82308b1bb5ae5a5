//! Certificates in files, written and read.
//!
//! A certificate may be larger than what should stand in memory as a text, so it goes through pieces of 65,536 bytes
//! both ways. The lines are those of cert_text, which doesn't know where its bytes come from or go to.
#![tactic(auto)]

mod fetching;
mod file_lines;
mod file_text;
mod stop;
mod streaming;
mod window;

pub use fetching::{CertFrom, cert_from};
pub use streaming::{Streamed, stream_cert};
