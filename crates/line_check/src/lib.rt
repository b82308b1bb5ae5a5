//! An independent check of certificates: the balance, each entry of the proof, and the trail of a search that stopped.
//!
//! Nothing here is shared with a search but sets, lines, the rules and facts about them. The walk over loads and the
//! bound are those of check_loads, and the test of pairs that of pair_rule, a second code for the same definitions. So,
//! a mistake in a definition apart, nothing that the search alone rests on can make the check say yes. A check costs one
//! unit for each load of the entries and the trail, and takes no memory.
#![tactic(auto)]

mod checking;
mod entries;
mod frames;
pub mod laws;
mod lists;
mod pairs;
mod types;
mod walks;

pub use checking::{
    balance_fault, has_answer, needs_entries, verify, verify_found, verify_list, verify_list_found,
};
pub use entries::{check_entry, verify_entry};
pub use frames::check_frames;
pub use lists::check_entries;
pub use types::{
    Checked, EntryChecked, EntryFault, FrameFault, FramesFound, ListChecked, ListFound, Place,
    Verified,
};
