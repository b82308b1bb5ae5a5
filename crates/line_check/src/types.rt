//! What the check of a certificate finds: of an entry, a list, frames, and the whole, and why it refuses.
//!
//! Each answer has the values that its printed line speaks of, so that nothing is computed again for the text. An entry
//! and a frame have faults of their own; a certificate names the part in which its first fault is.

use line_rules::Load;

/// Why an entry of a certificate is refused.
#[derive(Clone, Copy)]
pub enum EntryFault {
    /// By Bound: the bound of the set, which isn't above the entry's number of stations.
    Bound(u32),
    /// By Branch: the line has no such mode.
    Mode,
    /// By Branch: the entry has no station, or its set has no task.
    Most,
    /// The first cite that isn't of an earlier entry, from 0.
    Cite(u64),
    /// By Branch: the first full load, of those whose rest the bound leaves open, that no cite is left for or whose
    /// cite doesn't refute the rest.
    Uncovered(Load),
    /// By Branch: cites are left when all loads are covered.
    Spare,
    /// By Swap: the entry doesn't follow from the one that it cites.
    Swap,
    /// By Pairs: the tasks that are named, and those that conflict with each of them, don't refute the set.
    Pairs,
}

/// Why a frame of a trail is refused.
#[derive(Clone, Copy)]
pub enum FrameFault {
    /// The first frame doesn't ask a question within the bounds of the certificate.
    Allowed,
    /// The set or the number of stations isn't what the frame above leaves; the first frame has all tasks.
    Set,
    /// The line has no such mode.
    Mode,
    /// The last load is missing, isn't a load of the set, or isn't full, where it has to be.
    Last,
    /// The first cite that isn't of an entry of the list, from 0.
    Cite(u64),
    /// The first full load, of those that are matched, that no cite is left for or whose cite doesn't refute the rest.
    Uncovered(Load),
    /// Cites are left when all loads are covered.
    Spare,
}

/// What the check of one entry finds.
#[derive(Clone, Copy)]
pub enum EntryChecked {
    /// The entry follows.
    Right {
        /// The loads walked.
        units: u64,
    },
    /// The entry doesn't follow.
    Fails {
        /// The loads walked up to the failure.
        units: u64,
    },
    /// More loads than the steps had to be walked.
    StepsEnded,
}

/// What the check of one entry, or of one frame, finds, with the fault.
#[derive(Clone, Copy)]
pub enum Checked<F> {
    /// It follows.
    Right {
        /// The loads walked.
        units: u64,
    },
    /// It doesn't follow.
    Fails {
        /// The first thing that is wrong with it.
        why: F,
        /// The loads walked up to the failure.
        units: u64,
    },
    /// More loads than the steps had to be walked.
    StepsEnded,
}

/// What a walk over loads that takes cites finds.
#[derive(Clone, Copy)]
pub(crate) enum Walked {
    Right { units: u64 },
    Uncovered { load: Load, units: u64 },
    Spare { units: u64 },
    StepsEnded,
}

/// Where the check of a certificate fails first, with the values that it speaks of. Tasks, stations and numbers as the
/// certificate has them; tasks, entries and frames are counted from 0.
#[derive(Clone, Copy)]
pub enum Place {
    /// The certificate is of another number of tasks than the line has.
    Tasks {
        /// The certificate's number.
        said: u32,
        /// The line's.
        real: u32,
    },
    /// The task that is said to be too long isn't longer than the cycle.
    Infeasible {
        /// The task.
        task: u32,
        /// Its time.
        time: u64,
    },
    /// The task that is said to be too long isn't the first one.
    Earlier {
        /// The task.
        task: u32,
        /// The first task that is longer than the cycle.
        least: u32,
    },
    /// The balance isn't in as many stations as its bound says: as many as it has.
    Stations(u32),
    /// The least task whose station isn't one of the line's.
    Station(u32),
    /// The least task at the back of a straight line.
    Side(u32),
    /// The least station whose times exceed the cycle, and their sum.
    Overfull(u32, u64),
    /// The least pair of tasks whose precedence is broken.
    Broken(u32, u32),
    /// The least pair of tasks that are apart and at one station.
    Together(u32, u32),
    /// An entry, and what is wrong with it.
    Entry {
        /// The number of the entry.
        entry: u64,
        /// The first thing that is wrong with it.
        why: EntryFault,
    },
    /// No entry shows the lower bound.
    Goal,
    /// A frame of the trail, and what is wrong with it.
    Frame {
        /// The number of the frame.
        frame: u32,
        /// The first thing that is wrong with it.
        why: FrameFault,
    },
}

/// What the check of a list of entries finds.
#[derive(Clone, Copy)]
pub enum ListFound {
    /// Each entry follows.
    Right {
        /// The loads walked.
        units: u64,
    },
    /// The first entry that doesn't follow.
    Refused {
        /// Its number.
        entry: u64,
        /// The first thing that is wrong with it.
        why: EntryFault,
    },
    /// More loads than the steps had to be walked, before an entry was refused.
    StepsEnded,
}

/// What the check of the frames of a trail finds.
#[derive(Clone, Copy)]
pub enum FramesFound {
    /// The frames are a valid trail.
    Right {
        /// The loads walked.
        units: u64,
    },
    /// The first frame that isn't what it should be.
    Refused {
        /// Its number.
        frame: u32,
        /// The first thing that is wrong with it.
        why: FrameFault,
    },
    /// More loads than the steps had to be walked, before a frame was refused.
    StepsEnded,
}

/// What the check of a list of entries and a trail finds.
#[derive(Clone, Copy)]
pub enum ListChecked {
    /// Each entry follows, and the trail is valid.
    Right {
        /// The units of the entries and the trail.
        units: u64,
    },
    /// The first check that fails: an entry or a frame.
    Refused(Place),
    /// More loads than these steps had to be walked, before a check failed.
    StepsEnded(u64),
}

/// What the check of a certificate finds.
#[derive(Clone, Copy)]
pub enum Verified {
    /// The certificate is accepted: its bounds are true.
    Accepted {
        /// No balance lies below this bound.
        lower: u64,
        /// A balance lies at this bound.
        upper: u64,
        /// The units of the entries and the trail.
        units: u64,
    },
    /// The certificate is accepted: there is no balance, since this task, from 0, is longer than the cycle.
    TooLong(u32),
    /// The first check that fails.
    Refused(Place),
    /// More loads than these steps had to be walked, before a check failed.
    StepsEnded(u64),
}
