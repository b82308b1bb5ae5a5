//! What the check of a certificate finds. Models and entries are counted from 0.

/// Why an entry of a certificate is refused.
#[derive(Clone, Copy)]
pub enum SeqEntryFault {
    /// By Bound: the bound of the state, which is below the entry's value.
    Bound(u64),
    /// By Branch: no unit is left. By Charge: the rows have no unit.
    Empty,
    /// By Branch or Charge: the first cite that isn't of an earlier entry.
    Cite(u64),
    /// By Branch: the model of the first step that needs a cite and has none left, or isn't answered by it. By Charge:
    /// the first model whose unit needs a cite and has none left, or isn't served by it.
    Uncovered(u32),
    /// By Branch or Charge: cites are left when all steps or units are covered.
    Spare,
}

/// What the check of one entry after others finds.
#[derive(Clone, Copy)]
pub enum SeqEntryChecked {
    /// The entry follows.
    Right {
        /// The units of the entry: the steps walked.
        units: u64,
    },
    /// The entry doesn't follow.
    Fails {
        /// The steps walked up to the fault.
        units: u64,
    },
    /// More steps than these had to be walked, before the check failed.
    StepsEnded,
}

/// Why a frame of a trail is refused.
#[derive(Clone, Copy)]
pub enum SeqFrameFault {
    /// The first frame's need isn't above the lower bound and at most the upper one.
    Allowed,
    /// The state or the need isn't what the frame above leaves; the first frame has the root.
    Set,
    /// The last model is missing where it has to be there, or no unit of it is left.
    Last,
    /// The first cite that isn't of an entry of the list.
    Cite(u64),
    /// The model of the first step, of those that are matched, that needs a cite and has none left, or isn't answered
    /// by it.
    Uncovered(u32),
    /// Cites are left when all steps are covered.
    Spare,
}

/// Where the check of a certificate fails first.
#[derive(Clone, Copy)]
pub enum SeqPlace {
    /// The certificate's number of models isn't that of the demands.
    Models(u32),
    /// The certificate's number of stations isn't the line's.
    Stations(u32),
    /// The sequence hasn't each model as often as it is wanted.
    Sequence,
    /// The utility work of the sequence, which isn't the upper bound.
    Total(u64),
    /// An entry, and what is wrong with it.
    Entry {
        /// The number of the entry.
        entry: u64,
        /// The first thing that is wrong with it.
        why: SeqEntryFault,
    },
    /// No entry shows the lower bound.
    Goal,
    /// A frame of the trail, and what is wrong with it.
    Frame {
        /// The number of the frame.
        frame: u32,
        /// The first thing that is wrong with it.
        why: SeqFrameFault,
    },
}

/// What the check of a certificate finds.
#[derive(Clone, Copy)]
pub enum SeqVerified {
    /// The certificate is accepted: its bounds are true.
    Accepted {
        /// No sequence of the demands has less utility work.
        lower: u64,
        /// The sequence has this utility work.
        upper: u64,
        /// The units of the entries and the frames.
        units: u64,
    },
    /// The first check that fails.
    Refused(SeqPlace),
    /// More steps than these had to be walked, before a check failed.
    StepsEnded(u64),
}

/// What a walk over steps that takes cites finds.
#[derive(Clone, Copy)]
pub(crate) enum Walked {
    Through { units: u64, taken: usize },
    Uncovered { model: u32, units: u64 },
    StepsEnded,
}

/// What the check of one entry, or of one frame, finds, with the fault and the steps walked.
#[derive(Clone, Copy)]
pub(crate) enum Checked<F> {
    Right { units: u64 },
    Fails { why: F, units: u64 },
    StepsEnded,
}

/// What the check of the entries finds.
#[derive(Clone, Copy)]
pub(crate) enum EntriesFound {
    Right { units: u64 },
    Refused { entry: u64, why: SeqEntryFault },
    StepsEnded,
}

/// What the check of the frames finds.
#[derive(Clone, Copy)]
pub(crate) enum FramesFound {
    Right { units: u64 },
    Refused { frame: u32, why: SeqFrameFault },
    StepsEnded,
}
