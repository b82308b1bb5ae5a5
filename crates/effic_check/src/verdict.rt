//! What the check of a certificate of a product finds.
use line_check::{EntryFault, FrameFault};

/// Where the check fails first, with the values that it speaks of. Tasks, stations and numbers as the certificate has
/// them; tasks, entries and frames are counted from 0.
#[derive(Clone, Copy)]
pub enum EfficPlace {
    /// The certificate is of another number of tasks than the line has.
    Tasks {
        /// The certificate's number.
        said: u32,
        /// The line's.
        real: u32,
    },
    /// The stations of the balance aren't asked for: as many as it has.
    Stations(u32),
    /// The least task whose station isn't one of the balance's.
    Station(u32),
    /// The least task at the back of a straight line.
    Side(u32),
    /// The least station whose times exceed the cycle, and their sum.
    Overfull(u32, u64),
    /// The least pair of tasks whose precedence is broken.
    Broken(u32, u32),
    /// The upper bound isn't the product of the stations of the balance and the cycle.
    Upper(u128),
    /// An entry, and what is wrong with it.
    Entry {
        /// The number of the entry.
        entry: u64,
        /// The first thing that is wrong with it.
        why: EntryFault,
    },
    /// The least number of stations at which a product below the lower bound is left open.
    Goal(u32),
    /// A frame of the trail, and what is wrong with it.
    Frame {
        /// The number of the frame.
        frame: u32,
        /// The first thing that is wrong with it.
        why: FrameFault,
    },
}

/// What the check of a certificate finds.
#[derive(Clone, Copy)]
pub enum EfficVerified {
    /// The certificate is accepted: its bounds are true.
    Accepted {
        /// No product lies below this bound.
        lower: u128,
        /// A balance reaches this product.
        upper: u128,
        /// The units of the entries and the trail.
        units: u64,
    },
    /// The first check that fails.
    Refused(EfficPlace),
    /// More loads than these steps had to be walked, before a check failed.
    StepsEnded(u64),
}
