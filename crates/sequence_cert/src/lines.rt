//! The lines that certificates of other questions don't have: those of units, of entries and of frames of states. Each
//! is read word by word, and then its numbers are held against their ranges.
ghost use Rattle.std.specs.Prelude.{◌≡◌, ◌≤◌, ◌↔◌, All, IsTrue, MatchResult};
ghost use Rattle.cert_lines.specs.declared.fault.LineError.TheVariants.{Range};
ghost use Rattle.sequence_cert.specs.inner.StateReading.{indexed, frame_of};
ghost use Rattle.sequence_cert.specs.inner.Parts.{AreCitesWithin, IsEntryWithin, IsLastWithin};
ghost use Rattle.sequence_cert.specs.inner.Parts.{IsFrameWithin};

use crate::version::Version;
use crate::words::{FrameDraft, entry, frame};
use cert_lines::LineError;
use cert_lines::pattern::Pattern;
use cert_lines::words::number;
use sequence_values::{SeqEntry, SeqFrame, SeqWhy};
use std::alloc::Global;

/// The greatest number of a certificate.
pub(crate) const MAX_NUMBER: u64 = 1_000_000_000_000_000_000;

/// The most units of a model.
const MAX_UNITS: u64 = 1000;

/// The greatest start.
const MAX_START: u64 = 1_000_000_000;

/// The line of a unit: its model, which is counted from 1 in the text and from 0 here.
#[derive(Clone, Copy)]
pub(crate) struct UnitLine {
    /// The number of models.
    pub models: u32,
}

impl Pattern for UnitLine {
    ghost use Rattle.std.specs.Prelude.{◌<◌};
    ghost use Rattle.sequence_cert.specs.SequenceText.{unit_row};
    ghost use Rattle.sequence_cert.specs.inner.Parts.{AreModels};

    type Value = u64;

    ghost line_of = { λ p v. unit_row v };

    ghost may_say = { λ p v. v < p.models };

    ghost can_read = { λ p. AreModels p.models };

    fn read(&self, _alloc: Global, line: &[u8]) -> Result<u64, LineError> {
        let Some(model) = number(line) else {
            return Err(LineError::Form);
        };
        if model < 1 {
            return Err(LineError::Range);
        }
        if model > u64::from(self.models) {
            return Err(LineError::Range);
        }
        Ok(model - 1)
    }
}

/// Whether each number is at most so great.
pub(crate) fn are_within(numbers: &[u64], most: u64) -> bool
    ensures { IsTrue result ↔ All (λ x. x ≤ most) numbers.now }
{
    for number in numbers {
        if *number > most {
            return false;
        }
    }
    true
}

// Whether the cites of an entry are within their range.
fn are_cites_within(why: &SeqWhy) -> bool
    ensures { IsTrue result ↔ AreCitesWithin why.now }
{
    match why {
        SeqWhy::Bound => true,
        SeqWhy::Branch { cites } => are_within(cites.as_slice(), MAX_NUMBER),
        SeqWhy::Charge { cites } => are_within(cites.as_slice(), MAX_NUMBER),
    }
}

// The entry of a line, where its numbers are within their ranges.
fn entry_within(entry: SeqEntry) -> Result<SeqEntry, LineError>
    ensures { MatchResult result (λ e. (e ≡ entry) × IsEntryWithin entry) (λ e. (e ≡ Range) × ¬ IsEntryWithin entry) }
{
    if !are_within(entry.rem.as_slice(), MAX_UNITS) {
        return Err(LineError::Range);
    }
    if !are_within(entry.starts.as_slice(), MAX_START) {
        return Err(LineError::Range);
    }
    if entry.least > MAX_NUMBER {
        return Err(LineError::Range);
    }
    if !are_cites_within(&entry.why) {
        return Err(LineError::Range);
    }
    Ok(entry)
}

/// The line of an entry. In a text of version 2 that may be one by Charge.
#[derive(Clone, Copy)]
pub(crate) struct StateEntryLine {
    /// The version of the text.
    pub version: Version,
    /// The number of models.
    pub models: u32,
    /// The number of stations.
    pub stations: u32,
}

impl Pattern for StateEntryLine {
    ghost use Rattle.sequence_rules.specs.Ranges.{IsEntry};
    ghost use Rattle.sequence_cert.specs.SequenceText.{entry_row};
    ghost use Rattle.sequence_cert.specs.inner.Versions.{mark_of};

    type Value = SeqEntry;

    ghost line_of = { λ p v. entry_row v };

    ghost may_say = { λ p v. IsEntry p.models p.stations (mark_of p.version) v };

    ghost can_read = { λ p. Unit {0} };

    fn read(&self, alloc: Global, line: &[u8]) -> Result<SeqEntry, LineError> {
        match entry(alloc, self.version, line, self.models, self.stations) {
            Err(_) => Err(LineError::Memory),
            Ok(None) => Err(LineError::Form),
            Ok(Some(entry)) => entry_within(entry),
        }
    }
}

// Whether a model that is counted from 1, where there is one, is one of so many.
fn is_last_within(last: Option<u64>, models: u32) -> bool
    ensures { IsTrue result ↔ IsLastWithin models last }
{
    match last {
        None => true,
        Some(model) => model >= 1 && model <= u64::from(models),
    }
}

// A model that is counted from 1, where there is one, counted from 0.
fn index_of(last: Option<u64>, models: u32) -> Option<u32>
    requires { IsLastWithin models last }
    ensures { result ≡ indexed last }
{
    match last {
        None => None,
        Some(model) => Some((model - 1) as u32),
    }
}

// The frame of a line, where its numbers are within their ranges.
fn frame_within(draft: FrameDraft, models: u32) -> Result<SeqFrame, LineError>
    ensures { MatchResult result (λ f. (f ≡ frame_of draft) × IsFrameWithin models draft)
        (λ e. (e ≡ Range) × ¬ IsFrameWithin models draft) }
{
    if !are_within(draft.rem.as_slice(), MAX_UNITS) {
        return Err(LineError::Range);
    }
    if !are_within(draft.starts.as_slice(), MAX_START) {
        return Err(LineError::Range);
    }
    if draft.need > MAX_NUMBER {
        return Err(LineError::Range);
    }
    if !is_last_within(draft.last, models) {
        return Err(LineError::Range);
    }
    if !are_within(draft.cites.as_slice(), MAX_NUMBER) {
        return Err(LineError::Range);
    }
    let FrameDraft {
        rem,
        starts,
        need,
        last,
        cites,
    } = draft;
    Ok(SeqFrame {
        rem,
        starts,
        need,
        last: index_of(last, models),
        cites,
    })
}

/// The line of a frame.
#[derive(Clone, Copy)]
pub(crate) struct StateFrameLine {
    /// The number of models.
    pub models: u32,
    /// The number of stations.
    pub stations: u32,
}

impl Pattern for StateFrameLine {
    ghost use Rattle.sequence_rules.specs.Ranges.{IsFrame};
    ghost use Rattle.sequence_cert.specs.SequenceText.{frame_row};
    ghost use Rattle.sequence_cert.specs.inner.Parts.{AreModels};

    type Value = SeqFrame;

    ghost line_of = { λ p v. frame_row v };

    ghost may_say = { λ p v. IsFrame p.models p.stations v };

    ghost can_read = { λ p. AreModels p.models };

    fn read(&self, alloc: Global, line: &[u8]) -> Result<SeqFrame, LineError> {
        match frame(alloc, line, self.models, self.stations) {
            Err(_) => Err(LineError::Memory),
            Ok(None) => Err(LineError::Form),
            Ok(Some(draft)) => frame_within(draft, self.models),
        }
    }
}
