//! Texts that are the lines of a value.
//!
//! A part of a text says a value in lines of which one value at most has each. What is read of a part is exact: its
//! value, or the first line that no value passes. A text in memory is such a part with nothing behind it. Reading takes
//! one pass over the bytes.
#![tactic(auto)]

mod part;
mod sequence;
mod text;

pub use part::Part;
pub use sequence::OneLine;
pub use text::{Text, TextRead, read_text};
