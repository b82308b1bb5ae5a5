//! The reading of the lines of charges, of entries and of frames, before their numbers are held against their ranges.
//!
//! A line is split at its blanks, one word after the other. Reading takes memory for the numbers of its words alone.
ghost use Rattle.std.specs.Prelude.{◌≡◌, IfOk, option_map};
ghost use Rattle.sequence_cert.specs.inner.StateReading.{many_in, charges_in, state_in, bound_in, why_of, cited_in};
ghost use Rattle.sequence_cert.specs.inner.StateReading.{charge_in, entry_in, last_in, open_in, frame_in};

use crate::version::Version;
use cert_lines::words::{cites_of, first_number, is_none, number, split_at};
use sequence_values::{Numbers, SeqEntry, SeqWhy};
use std::alloc::{AllocError, Global};

/// What the line of a frame says.
#[derive(Drop)]
pub(crate) struct FrameDraft {
    /// The units left of each model.
    pub rem: Numbers,
    /// Where the next unit is begun at each station.
    pub starts: Numbers,
    /// The utility work that is asked about.
    pub need: u64,
    /// The last model, counted from 1, where there is one.
    pub last: Option<u64>,
    /// The cites.
    pub cites: Numbers,
}

// So many numbers with a comma between. An error where memory is wanting.
#[tactic(auto, unfolding(crate::specs::inner::StateReading::many_in))]
fn many(alloc: Global, word: &[u8], count: u32) -> Result<Option<Numbers>, AllocError>
    ensures { IfOk result (λ ns. ns ≡ many_in count word.now) }
{
    let Some(numbers) = cites_of(alloc, word)? else {
        return Ok(None);
    };
    if numbers.len() as u64 != u64::from(count) {
        return Ok(None);
    }
    Ok(Some(numbers))
}

/// The charges of so many models. An error where memory is wanting.
#[tactic(auto, unfolding(crate::specs::inner::StateReading::charges_in))]
pub(crate) fn charges(
    alloc: Global,
    line: &[u8],
    models: u32,
) -> Result<Option<Numbers>, AllocError>
    ensures { IfOk result (λ ns. ns ≡ charges_in models line.now) }
{
    let Some((word, rest)) = split_at(line, b' ') else {
        return Ok(None);
    };
    if word == b"charges".as_slice() {
        return many(alloc, rest, models);
    }
    Ok(None)
}

/// The numbers of a state, and what stands behind them.
#[derive(Drop)]
struct StateFront<'a> {
    /// The units left of each model.
    rem: Numbers,
    /// Where the next unit is begun at each station.
    starts: Numbers,
    /// What stands behind both.
    rest: &'a [u8],
}

// The state of so many models and stations in front. An error where memory is wanting.
#[tactic(auto, unfolding(crate::specs::inner::StateReading::state_in))]
fn state<'a>(
    alloc: Global,
    bytes: &'a [u8],
    models: u32,
    stations: u32,
) -> Result<Option<StateFront<'a>>, AllocError>
    ensures { IfOk result (λ s. state_in models stations bytes.now
        ≡ option_map (λ p. ((p.rem, p.starts), p.rest.now)) s) }
{
    let Some((word, rest)) = split_at(bytes, b' ') else {
        return Ok(None);
    };
    let Some(rem) = many(alloc, word, models)? else {
        return Ok(None);
    };
    let Some((word, rest)) = split_at(rest, b' ') else {
        return Ok(None);
    };
    let Some(starts) = many(alloc, word, stations)? else {
        return Ok(None);
    };
    Ok(Some(StateFront { rem, starts, rest }))
}

// What an entry by the bound says behind its first word.
#[tactic(auto, unfolding(crate::specs::inner::StateReading::bound_in))]
fn bound(
    alloc: Global,
    bytes: &[u8],
    models: u32,
    stations: u32,
) -> Result<Option<SeqEntry>, AllocError>
    ensures { IfOk result (λ e. e ≡ bound_in models stations bytes.now) }
{
    let Some(StateFront { rem, starts, rest }) = state(alloc, bytes, models, stations)? else {
        return Ok(None);
    };
    let Some(least) = number(rest) else {
        return Ok(None);
    };
    Ok(Some(SeqEntry {
        rem,
        starts,
        least,
        why: SeqWhy::Bound,
    }))
}

/// The reasons that have cites.
#[derive(Clone, Copy)]
pub(crate) enum Citing {
    /// By Branch.
    Branch,
    /// By Charge.
    Charge,
}

impl Citing {
    // The reason with these cites.
    fn why(self, cites: Numbers) -> SeqWhy
        ensures { result ≡ why_of self cites }
    {
        match self {
            Citing::Branch => SeqWhy::Branch { cites },
            Citing::Charge => SeqWhy::Charge { cites },
        }
    }
}

// What an entry with cites says behind its first word.
#[tactic(auto, unfolding(crate::specs::inner::StateReading::cited_in))]
fn cited(
    alloc: Global,
    kind: Citing,
    bytes: &[u8],
    models: u32,
    stations: u32,
) -> Result<Option<SeqEntry>, AllocError>
    ensures { IfOk result (λ e. e ≡ cited_in kind models stations bytes.now) }
{
    let Some(StateFront { rem, starts, rest }) = state(alloc, bytes, models, stations)? else {
        return Ok(None);
    };
    let Some((least, rest)) = first_number(rest) else {
        return Ok(None);
    };
    let Some(cites) = cites_of(alloc, rest)? else {
        return Ok(None);
    };
    Ok(Some(SeqEntry {
        rem,
        starts,
        least,
        why: kind.why(cites),
    }))
}

// What an entry by Charge says, which stands in version 2 alone and has one number of units.
fn charge(
    alloc: Global,
    version: Version,
    word: &[u8],
    rest: &[u8],
    stations: u32,
) -> Result<Option<SeqEntry>, AllocError>
    ensures { IfOk result (λ e. e ≡ charge_in version stations word.now rest.now) }
{
    match version {
        Version::One => Ok(None),
        Version::Two => {
            if word == b"charge".as_slice() {
                return cited(alloc, Citing::Charge, rest, 1, stations);
            }
            Ok(None)
        }
    }
}

/// What the line of an entry says in a text of this version. An error where memory is wanting.
#[tactic(auto, unfolding(crate::specs::inner::StateReading::entry_in))]
pub(crate) fn entry(
    alloc: Global,
    version: Version,
    line: &[u8],
    models: u32,
    stations: u32,
) -> Result<Option<SeqEntry>, AllocError>
    ensures { IfOk result (λ e. e ≡ entry_in version models stations line.now) }
{
    let Some((word, rest)) = split_at(line, b' ') else {
        return Ok(None);
    };
    if word == b"bound".as_slice() {
        return bound(alloc, rest, models, stations);
    }
    if word == b"branch".as_slice() {
        return cited(alloc, Citing::Branch, rest, models, stations);
    }
    charge(alloc, version, word, rest, stations)
}

// The last model that a word is, counted from 1, or the mark of none.
#[tactic(auto, unfolding(crate::specs::inner::StateReading::last_in))]
fn last(word: &[u8]) -> Option<Option<u64>>
    ensures { result ≡ last_in word.now }
{
    if is_none(word) {
        return Some(None);
    }
    let model = number(word)?;
    Some(Some(model))
}

// What a frame says behind its first word.
#[tactic(auto, unfolding(crate::specs::inner::StateReading::open_in))]
fn open(
    alloc: Global,
    bytes: &[u8],
    models: u32,
    stations: u32,
) -> Result<Option<FrameDraft>, AllocError>
    ensures { IfOk result (λ f. f ≡ open_in models stations bytes.now) }
{
    let Some(StateFront { rem, starts, rest }) = state(alloc, bytes, models, stations)? else {
        return Ok(None);
    };
    let Some((need, rest)) = first_number(rest) else {
        return Ok(None);
    };
    let Some((word, rest)) = split_at(rest, b' ') else {
        return Ok(None);
    };
    let Some(last) = last(word) else {
        return Ok(None);
    };
    let Some(cites) = cites_of(alloc, rest)? else {
        return Ok(None);
    };
    Ok(Some(FrameDraft {
        rem,
        starts,
        need,
        last,
        cites,
    }))
}

/// What the line of a frame says. An error where memory is wanting.
#[tactic(auto, unfolding(crate::specs::inner::StateReading::frame_in))]
pub(crate) fn frame(
    alloc: Global,
    line: &[u8],
    models: u32,
    stations: u32,
) -> Result<Option<FrameDraft>, AllocError>
    ensures { IfOk result (λ f. f ≡ frame_in models stations line.now) }
{
    let Some((word, rest)) = split_at(line, b' ') else {
        return Ok(None);
    };
    if word == b"open".as_slice() {
        return open(alloc, rest, models, stations);
    }
    Ok(None)
}
