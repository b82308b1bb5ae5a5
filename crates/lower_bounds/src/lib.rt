//! Lower bounds on the number of stations that a set of tasks needs.
#![tactic(auto)]

mod bounds;
mod by_size;
mod chains;
mod sizes;
mod total;

pub use bounds::{bound, exceeds, exceeds_by_chains_of};
pub use by_size::{SizeSets, exceeds_by_sizes, size_sets};
pub use chains::chained_tasks;
pub use sizes::{Times, times_in};
pub use total::{first_too_long, total_bound, total_time};
