//! What files say of lines that build several models: a mix and the line that it combines to, a balance of that line,
//! and a sequence of units.
//!
//! Each file is fetched whole and then read, in the order of the words: a mix is combined before the certificate is
//! fetched, and its balance is tested before the sequence is. Of a certificate the balance alone counts: it must be a
//! straight one of as many tasks, and right for the combined line at the launch interval times the total demand. The
//! time is that of the readings and of making the combined instance.
#![tactic(auto)]

mod balance_file;
mod balanced;
mod launch;
mod mix_file;
mod sequence_file;

pub use balanced::{Balanced, balanced_of};
pub use input_files::{fault_line_of, spelled_in};
pub use launch::{Launch, launch_of};
pub use mix_file::{CombinedMix, combined_of};
