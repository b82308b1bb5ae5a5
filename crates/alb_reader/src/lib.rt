//! Instances, with a cycle time or none, as ALB texts.
//!
//! An ALB text has sections below headings, in any order, up to an end mark. It is read in two passes: over its lines,
//! and then over what was kept of them. The contents of lines, the pairs and the covering pairs are those of
//! in2_reader.
#![tactic(auto)]

mod draft;
mod fault;
mod filling;
mod instance;
pub mod laws;
mod lines;
mod mark;
mod text;
mod writing;

pub use fault::{AlbFault, AlbKind};
pub use instance::{AlbRead, read_alb};
pub use mark::begins_heading;
pub use text::push_fault;
pub use writing::write_alb;
