//! The check of a certificate with its entries checked side by side, in as many threads as there are processors.
//!
//! Entries are most of the cost of a check, and each needs only those before it, which are known. So they are checked
//! in batches, and the rest of a certificate as line_check does it. The answer is that of the check in order; it takes
//! memory for the answers of one batch.
#![tactic(auto)]

mod batches;
mod wide;

pub use batches::entries_found;
pub use wide::{Wide, verify_wide};
