//! What a line says, before its numbers are held against their ranges.
//!
//! A line is split into words and numbers first, and its numbers are held against their ranges later. So a line that
//! has the form and a wrong number is told apart from one that hasn't the form. Numbers past 64 bits stay at the
//! greatest of 64 bits, which is out of every range here. Each byte is looked at a few times.
ghost use Rattle.std.specs.Prelude.{◌≡◌, ◌≤◌, IfOk, option_map};
ghost use Rattle.cert_lines.specs.Words.{parts_at, number_in};
ghost use Rattle.cert_lines.specs.inner.LineReading.{keyed_in, seat_in, cycle_first, bound_in, branch_in, swap_in};
ghost use Rattle.cert_lines.specs.inner.LineReading.{pairs_in, entry_in, load_in, last_in, frame_in, trail_numbers};
ghost use Rattle.cert_lines.specs.inner.LineReading.{trail_in};

use crate::words::{cites_of, first_number, is_none, mode_of, number, set_of, split_at};
use line_rules::{BoxedSet, Cites, LineKind, Load, Mode, Side, TaskSet};
use std::alloc::{AllocError, Global};

/// The line of an entry; a swap's tasks are counted from 1.
#[derive(Drop)]
pub struct Draft {
    /// The cycle.
    pub cycle: u64,
    /// The set of tasks.
    pub set: TaskSet,
    /// The number of stations.
    pub most: u64,
    /// Why the set has no balance in so many.
    pub why: DraftWhy,
}

/// Why an entry holds, as its line says.
#[derive(Drop)]
pub enum DraftWhy {
    /// By the bound.
    Bound,
    /// By the loads from an end.
    Branch {
        mode: Mode,
        cites: Cites,
    },
    /// By another entry, one task for another.
    Swap {
        cite: u64,
        out_task: u64,
        in_task: u64,
    },
    /// By tasks of which no two share a station.
    Pairs {
        two: BoxedSet,
    },
}

/// The line of a frame.
#[derive(Drop)]
pub struct FrameDraft {
    /// The end or ends.
    pub mode: Mode,
    /// The set of tasks.
    pub set: TaskSet,
    /// The number of stations.
    pub most: u64,
    /// The last load, where there is one.
    pub last: Option<Load>,
    /// The cites.
    pub cites: Cites,
}

/// The number behind a word.
#[tactic(auto, unfolding(crate::specs::inner::LineReading::keyed_in))]
pub fn keyed(line: &[u8], key: &[u8]) -> Option<u64>
    ensures { result ≡ keyed_in key.now line.now }
{
    let (word, rest) = split_at(line, b' ')?;
    if word != key {
        return None;
    }
    number(rest)
}

/// The station and the side of a place.
#[tactic(auto, unfolding(crate::specs::inner::LineReading::seat_in))]
pub fn seat(line: &[u8], kind: LineKind) -> Option<(u64, Side)>
    ensures { result ≡ seat_in kind line.now }
{
    match kind {
        LineKind::Straight => {
            let station = number(line)?;
            Some((station, Side::Front))
        }
        LineKind::U => {
            let (station, rest) = first_number(line)?;
            let [letter] = rest else {
                return None;
            };
            match *letter {
                b'f' => Some((station, Side::Front)),
                b'b' => Some((station, Side::Back)),
                _ => None,
            }
        }
    }
}

// The cycle that is given, or the one in front, and what stands behind it.
#[tactic(auto, unfolding(crate::specs::inner::LineReading::cycle_first))]
fn first_cycle(bytes: &[u8], given: Option<u64>) -> Option<(u64, &[u8])>
    ensures { cycle_first given bytes.now ≡ option_map (λ p. (p.0, p.1.now)) result }
{
    match given {
        Some(cycle) => Some((cycle, bytes)),
        None => first_number(bytes),
    }
}

// What the line of a bound says behind its first word.
#[tactic(auto, unfolding(crate::specs::inner::LineReading::bound_in))]
fn bound(bytes: &[u8], tasks: u32, given: Option<u64>) -> Option<Draft>
    requires { tasks ≤ 1024 }
    ensures { result ≡ bound_in tasks given bytes.now }
{
    let (cycle, rest) = first_cycle(bytes, given)?;
    let (word, rest) = split_at(rest, b' ')?;
    let set = set_of(word, tasks)?;
    let most = number(rest)?;
    Some(Draft {
        cycle,
        set,
        most,
        why: DraftWhy::Bound,
    })
}

// What the line of a swap says behind its first word.
#[tactic(auto, unfolding(crate::specs::inner::LineReading::swap_in))]
fn swap(bytes: &[u8], tasks: u32, given: Option<u64>) -> Option<Draft>
    requires { tasks ≤ 1024 }
    ensures { result ≡ swap_in tasks given bytes.now }
{
    let (cycle, rest) = first_cycle(bytes, given)?;
    let (word, rest) = split_at(rest, b' ')?;
    let set = set_of(word, tasks)?;
    let (most, rest) = first_number(rest)?;
    let (cite, rest) = first_number(rest)?;
    let (out_task, rest) = first_number(rest)?;
    let in_task = number(rest)?;
    Some(Draft {
        cycle,
        set,
        most,
        why: DraftWhy::Swap {
            cite,
            out_task,
            in_task,
        },
    })
}

// What the line of a branch says behind its first word.
#[tactic(auto, unfolding(crate::specs::inner::LineReading::branch_in))]
fn branch(
    alloc: Global,
    bytes: &[u8],
    tasks: u32,
    given: Option<u64>,
) -> Result<Option<Draft>, AllocError>
    requires { tasks ≤ 1024 }
    ensures { IfOk result (λ d. d ≡ branch_in tasks given bytes.now) }
{
    let Some((word, rest)) = split_at(bytes, b' ') else {
        return Ok(None);
    };
    let Some(mode) = mode_of(word) else {
        return Ok(None);
    };
    let Some((cycle, rest)) = first_cycle(rest, given) else {
        return Ok(None);
    };
    let Some((word, rest)) = split_at(rest, b' ') else {
        return Ok(None);
    };
    let Some(set) = set_of(word, tasks) else {
        return Ok(None);
    };
    let Some((most, rest)) = first_number(rest) else {
        return Ok(None);
    };
    let Some(cites) = cites_of(alloc, rest)? else {
        return Ok(None);
    };
    Ok(Some(Draft {
        cycle,
        set,
        most,
        why: DraftWhy::Branch { mode, cites },
    }))
}

// What the line of an entry by pairs says behind its first word.
#[tactic(auto, unfolding(crate::specs::inner::LineReading::pairs_in))]
fn pairs_entry(
    alloc: Global,
    bytes: &[u8],
    tasks: u32,
    given: Option<u64>,
) -> Result<Option<Draft>, AllocError>
    requires { tasks ≤ 1024 }
    ensures { IfOk result (λ d. d ≡ pairs_in tasks given bytes.now) }
{
    let Some((cycle, rest)) = first_cycle(bytes, given) else {
        return Ok(None);
    };
    let Some((word, rest)) = split_at(rest, b' ') else {
        return Ok(None);
    };
    let Some(set) = set_of(word, tasks) else {
        return Ok(None);
    };
    let Some((most, rest)) = first_number(rest) else {
        return Ok(None);
    };
    let Some(two) = set_of(rest, tasks) else {
        return Ok(None);
    };
    let two = BoxedSet::new(alloc, &two)?;
    Ok(Some(Draft {
        cycle,
        set,
        most,
        why: DraftWhy::Pairs { two },
    }))
}

/// What the line of an entry says, whose cycle may be given, of a text with entries by pairs or without. An error where
/// memory is wanting.
#[tactic(auto, unfolding(crate::specs::inner::LineReading::entry_in))]
pub fn entry(
    alloc: Global,
    line: &[u8],
    tasks: u32,
    given: Option<u64>,
    pairs: bool,
) -> Result<Option<Draft>, AllocError>
    requires { tasks ≤ 1024 }
    ensures { IfOk result (λ d. d ≡ entry_in tasks given pairs line.now) }
{
    let Some((word, rest)) = split_at(line, b' ') else {
        return Ok(None);
    };
    if word == b"bound".as_slice() {
        return Ok(bound(rest, tasks, given));
    }
    if word == b"branch".as_slice() {
        return branch(alloc, rest, tasks, given);
    }
    if word == b"swap".as_slice() {
        return Ok(swap(rest, tasks, given));
    }
    if pairs && word == b"pairs".as_slice() {
        return pairs_entry(alloc, rest, tasks, given);
    }
    Ok(None)
}

// The load of a mode that a word is.
#[tactic(auto, unfolding(crate::specs::inner::LineReading::load_in))]
fn load(word: &[u8], tasks: u32, mode: Mode) -> Option<Load>
    requires { tasks ≤ 1024 }
    ensures { result ≡ load_in tasks mode word.now }
{
    match mode {
        Mode::Fore => {
            let front = set_of(word, tasks)?;
            Some(Load {
                front,
                back: TaskSet::empty(),
            })
        }
        Mode::Back => {
            let back = set_of(word, tasks)?;
            Some(Load {
                front: TaskSet::empty(),
                back,
            })
        }
        Mode::Both => {
            let (word, rest) = split_at(word, b'/')?;
            let front = set_of(word, tasks)?;
            let back = set_of(rest, tasks)?;
            Some(Load { front, back })
        }
    }
}

// The last load that a word is, or the mark of none.
#[tactic(auto, unfolding(crate::specs::inner::LineReading::last_in))]
fn last(word: &[u8], tasks: u32, mode: Mode) -> Option<Option<Load>>
    requires { tasks ≤ 1024 }
    ensures { result ≡ last_in tasks mode word.now }
{
    if is_none(word) {
        return Some(None);
    }
    let load = load(word, tasks, mode)?;
    Some(Some(load))
}

/// What the line of a frame says. An error where memory is wanting.
#[tactic(auto, unfolding(crate::specs::inner::LineReading::frame_in, crate::specs::inner::LineReading::frame_rest_in))]
pub fn frame(alloc: Global, line: &[u8], tasks: u32) -> Result<Option<FrameDraft>, AllocError>
    requires { tasks ≤ 1024 }
    ensures { IfOk result (λ f. f ≡ frame_in tasks line.now) }
{
    let Some((word, rest)) = split_at(line, b' ') else {
        return Ok(None);
    };
    if word != b"open".as_slice() {
        return Ok(None);
    }
    let Some((word, rest)) = split_at(rest, b' ') else {
        return Ok(None);
    };
    let Some(mode) = mode_of(word) else {
        return Ok(None);
    };
    let Some((word, rest)) = split_at(rest, b' ') else {
        return Ok(None);
    };
    let Some(set) = set_of(word, tasks) else {
        return Ok(None);
    };
    let Some((most, rest)) = first_number(rest) else {
        return Ok(None);
    };
    let Some((word, rest)) = split_at(rest, b' ') else {
        return Ok(None);
    };
    let Some(last) = last(word, tasks, mode) else {
        return Ok(None);
    };
    let Some(cites) = cites_of(alloc, rest)? else {
        return Ok(None);
    };
    Ok(Some(FrameDraft {
        mode,
        set,
        most,
        last,
        cites,
    }))
}

// The number of frames and the cycle of a trail.
#[tactic(auto, unfolding(crate::specs::inner::LineReading::trail_numbers))]
fn numbers_of_trail(bytes: &[u8]) -> Option<Option<(u64, u64)>>
    ensures { result ≡ trail_numbers bytes.now }
{
    let (frames, rest) = first_number(bytes)?;
    let (word, rest) = split_at(rest, b' ')?;
    if word != b"at".as_slice() {
        return None;
    }
    let cycle = number(rest)?;
    Some(Some((frames, cycle)))
}

/// The head of a trail: its number of frames and its cycle, where it has frames.
#[tactic(auto, unfolding(crate::specs::inner::LineReading::trail_in))]
pub fn trail(line: &[u8]) -> Option<Option<(u64, u64)>>
    ensures { result ≡ trail_in line.now }
{
    let (word, rest) = split_at(line, b' ')?;
    if word != b"trail".as_slice() {
        return None;
    }
    if rest == b"0".as_slice() {
        return Some(None);
    }
    numbers_of_trail(rest)
}
