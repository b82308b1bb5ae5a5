//! What a search for a sequence comes to.
use sequence_values::{Numbers, SeqCert, SeqFrame, SeqFrames};

/// What a search for a sequence of least utility work comes to.
#[derive(Drop)]
pub enum Ordered {
    /// The sequence has the least utility work: the bounds of the certificate meet.
    Solved(SeqCert),
    /// The units ended before the bounds met; the certificate has the frames that are open.
    Stopped(SeqCert),
    /// Memory ended in a try: no sequence has less utility work than `lower`, one has `upper`, and these differ.
    Memory {
        /// The lower bound.
        lower: u64,
        /// The upper bound.
        upper: u64,
    },
    /// There was no memory to begin.
    NoMemory,
}

/// What a step of a frame comes to.
#[derive(Drop)]
pub(crate) enum Stepped {
    /// It costs the need, or the bound of its next state is what is left of it.
    Passed,
    /// An entry answers its next state.
    Answered(u64),
    /// It leaves no unit: a sequence that costs less than is asked about.
    Ends,
    /// Its next state is asked about.
    Opens(SeqFrame),
}

/// What a try comes to.
#[derive(Drop)]
pub(crate) enum Tried {
    /// No sequence costs less than the need: the last entry says so of the root.
    Refuted,
    /// A sequence costs less.
    Found(Numbers),
    /// The units ended, and one more step was needed.
    Stopped(SeqFrames),
}
