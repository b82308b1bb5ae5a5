//! Gates: what a helper meets before each entry that it publishes. A gate has no effect on any answer; a test uses one
//! to hold helpers beside each other.

/// What a helper calls before each publish.
pub trait Gate: Sync {
    /// The helper's number, from 1, and how often it published before.
    fn pass_gate(&self, helper: u32, publish: u64);
}

/// The gate that holds nobody.
#[derive(Clone, Copy, Debug, PartialEq, Eq)]
pub struct AlwaysOpen;

impl Gate for AlwaysOpen {
    fn pass_gate(&self, _helper: u32, _publish: u64) {}
}
