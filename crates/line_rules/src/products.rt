//! A certificate of the least product of stations and cycle (Scholl's SALBP-E).
//!
//! It has the parts of a certificate, with a range of stations in place of a question and with bounds on a product. A
//! product is at most 10^24, the most stations times the longest cycle are 1,024 * 10^18, so it has 128 bits.
use crate::listed::Entries;
use crate::types::{Balance, LineKind, Trail};

/// Bounds on the least product of stations and cycle over a range of stations, with their proof. Cycles are in the
/// instance's time unit.
pub struct EfficCert {
    /// The kind of line.
    pub kind: LineKind,
    /// The number of tasks of the instance, 1 to 1,024.
    pub tasks: u32,
    /// The fewest stations that are asked for, 1 to 1,024.
    pub least_m: u32,
    /// The most stations that are asked for, 1 to 1,024.
    pub most_m: u32,
    /// The cycle of the balance, 1 to 10^18.
    pub cycle: u64,
    /// The lower bound on the product, 1 to 10^24.
    pub lower: u128,
    /// The upper bound, 1 to 10^24: the stations of the balance times its cycle.
    pub upper: u128,
    /// A balance of all tasks.
    pub balance: Balance,
    /// Entries, each of which follows from those before it; they show the lower bound.
    pub entries: Entries,
    /// Where the search was when its units ended, if they did.
    pub trail: Option<Trail>,
}

// By hand, and so a call: where a certificate is let go its caller then has one goal for it, and not one for each part.
impl Drop for EfficCert {
    fn drop(self) {
        let EfficCert {
            kind: _,
            tasks: _,
            least_m: _,
            most_m: _,
            cycle: _,
            lower: _,
            upper: _,
            balance: _balance,
            entries: _entries,
            trail: _trail,
        } = self;
    }
}
