//! Mixes: the models that one line builds, read from comma-separated values and combined to one instance; and sequences
//! of their names.
//!
//! A mix is read in one pass over its records, and each record adds what it says to a draft. A model is looked up by
//! its name among those before it, which are at most 16, so the time is proportional to the bytes of the text. The
//! times are a table with a place for each model and task. Combining takes time proportional to models times tasks and
//! to the arcs, besides that of making the instance.
#![tactic(auto)]

mod combining;
mod draft;
mod fault;
mod field;
mod mix;
mod mix_text;
mod model;
mod records;
mod sequence;

pub use combining::{Combined, combine};
pub use fault::{MixFault, MixKind};
pub use mix::Mix;
pub use mix_text::{MixRead, read_mix};
pub use sequence::{SeqRead, read_sequence};
