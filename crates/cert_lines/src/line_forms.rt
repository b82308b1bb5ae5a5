//! The kinds of lines of a certificate.
//!
//! Each kind has its word, its numbers and their ranges. A range may depend on what was read before: stations on the
//! balance, cites on the number of entries. Entries may cite later ones here, since that is no question of the form:
//! the check refuses it.
ghost use Rattle.std.specs.Prelude.{◌≡◌, ◌≤◌, ◌<◌, ◌+◌, ◌↔◌, IsTrue, MatchResult, IfOk};
ghost use Rattle.cert_lines.specs.Rows.{keyed as keyed_row};
ghost use Rattle.cert_lines.specs.Words.{greatest};
ghost use Rattle.cert_lines.specs.ReadingOn.{IsReadOn};
ghost use Rattle.cert_lines.specs.Pattern.{IsRead, one};
ghost use Rattle.cert_lines.specs.LineForms.{key_text, IsWhyWithin, IsWithin, entry_of, why_of, IsFrameWithin};
ghost use Rattle.cert_lines.specs.LineForms.{frame_of};
ghost use Rattle.cert_lines.specs.declared.fault.LineError.TheVariants.{Range};
ghost use Rattle.line_rules.specs.Ranges.{IsCycle, AreCites};

use crate::draft::{Draft, DraftWhy, FrameDraft, entry, frame, keyed, seat, trail};
use crate::fault::{LineError, ReadError};
use crate::pattern::{Pattern, read_line};
use crate::source::Source;
use line_rules::{Ask, Entry, LineKind, OpenFrame, Seatplace, Why};
use std::alloc::Global;

/// The greatest cycle, 10^18: more than the 2.048 * 10^17 that all tasks of a line take together.
pub const MAX_CYCLE: u64 = 1_000_000_000_000_000_000;

/// The word of a line with a number.
#[derive(Clone, Copy)]
pub enum Key {
    Tasks,
    Cycle,
    Stations,
    Infeasible,
    Lower,
    Upper,
    Balance,
    Entries,
    Parts,
    Part,
    Trail,
    Models,
    Units,
}

impl Key {
    /// The word.
    #[inline]
    fn text(self) -> &'static [u8]
        ensures { result.now ≡ key_text self }
    {
        match self {
            Key::Tasks => b"tasks",
            Key::Cycle => b"cycle",
            Key::Stations => b"stations",
            Key::Infeasible => b"infeasible",
            Key::Lower => b"lower",
            Key::Upper => b"upper",
            Key::Balance => b"balance",
            Key::Entries => b"entries",
            Key::Parts => b"parts",
            Key::Part => b"part",
            Key::Trail => b"trail",
            Key::Models => b"models",
            Key::Units => b"units",
        }
    }
}

/// The line of a word and a number within its range.
#[derive(Clone, Copy)]
pub struct NumberLine {
    /// The word.
    pub key: Key,
    /// The least number.
    pub low: u64,
    /// The greatest number.
    pub high: u64,
}

impl Pattern for NumberLine {
    ghost use Rattle.std.specs.Prelude.{◌≤◌, ◌<◌};
    ghost use Rattle.cert_lines.specs.Rows.{keyed as keyed_row};
    ghost use Rattle.cert_lines.specs.LineForms.{key_text};
    ghost use Rattle.cert_lines.specs.Words.{greatest};

    type Value = u64;

    ghost line_of = { λ p v. keyed_row (key_text p.key) v };

    ghost may_say = { λ p v. (p.low ≤ v) × (v ≤ p.high) };

    ghost can_read = { λ p. (p.low ≤ p.high) × (p.high < greatest) };

    fn read(&self, _alloc: Global, line: &[u8]) -> Result<u64, LineError> {
        let Some(value) = keyed(line, self.key.text()) else {
            return Err(LineError::Form);
        };
        if value < self.low {
            return Err(LineError::Range);
        }
        if value > self.high {
            return Err(LineError::Range);
        }
        Ok(value)
    }
}

/// Reads the line of a word and a number within its range.
pub fn read_number<S: Source>(
    alloc: Global,
    source: &mut S,
    key: Key,
    low: u64,
    high: u64,
) -> Result<u64, ReadError>
    requires some { low ≤ high }
    requires small { high < greatest }
    ensures said { IfOk result (λ v. (low ≤ v) × (v ≤ high)) }
    ensures read { S.told → IsRead (one (keyed_row (key_text key)) (λ v. (low ≤ v) × (v ≤ high)))
        (S.number source.old) (S.left source.old) (S.left source.new) (S.number source.new) result }
    ensures source { IsReadOn S.base S.faults S.least source.old source.new }
{
    read_line(alloc, source, &NumberLine { key, low, high })
}

/// The version of a certificate's text.
#[derive(Clone, Copy, Debug, PartialEq, Eq)]
pub enum Version {
    /// Version 1, whose entries stand in parts.
    One,
    /// Version 2.
    Two,
    /// Version 3, which may have entries by pairs.
    Three,
}

/// The first line.
#[derive(Clone, Copy)]
pub struct VersionLine;

impl Pattern for VersionLine {
    ghost use Rattle.cert_lines.specs.LineForms.{version_row};

    type Value = Version;

    ghost line_of = { λ p v. version_row v };

    ghost may_say = { λ p v. Unit {0} };

    ghost can_read = { λ p. Unit {0} };

    fn read(&self, _alloc: Global, line: &[u8]) -> Result<Version, LineError> {
        if line == b"line balance certificate 2".as_slice() {
            return Ok(Version::Two);
        }
        if line == b"line balance certificate 1".as_slice() {
            return Ok(Version::One);
        }
        if line == b"line balance certificate 3".as_slice() {
            return Ok(Version::Three);
        }
        Err(LineError::Form)
    }
}

/// The line of the kind of line.
#[derive(Clone, Copy)]
pub struct KindLine;

impl Pattern for KindLine {
    ghost use Rattle.cert_lines.specs.ValueRows.{kind_row};

    type Value = LineKind;

    ghost line_of = { λ p v. kind_row v };

    ghost may_say = { λ p v. Unit {0} };

    ghost can_read = { λ p. Unit {0} };

    fn read(&self, _alloc: Global, line: &[u8]) -> Result<LineKind, LineError> {
        if line == b"line straight".as_slice() {
            return Ok(LineKind::Straight);
        }
        if line == b"line u".as_slice() {
            return Ok(LineKind::U);
        }
        Err(LineError::Form)
    }
}

/// The last line.
#[derive(Clone, Copy)]
pub struct EndLine;

impl Pattern for EndLine {
    ghost use Rattle.std.specs.Prelude.{codes};
    ghost use Rattle.cert_lines.specs.Rows.{fixed};

    type Value = ();

    ghost line_of = { λ p v. fixed (codes "end") };

    ghost may_say = { λ p v. Unit {0} };

    ghost can_read = { λ p. Unit {0} };

    fn read(&self, _alloc: Global, line: &[u8]) -> Result<(), LineError> {
        if line == b"end".as_slice() {
            return Ok(());
        }
        Err(LineError::Form)
    }
}

/// The line behind the question.
#[derive(Clone, Copy)]
pub enum Opening {
    /// A task, from 0, is too long.
    TooLong { task: u32 },
    /// The lower bound.
    Lower { lower: u64 },
}

/// Whether a number is a cycle.
#[inline]
fn is_cycle(n: u64) -> bool
    ensures { IsTrue result ↔ IsCycle n }
{
    n >= 1 && n <= MAX_CYCLE
}

/// Whether each cite is of one of so many entries.
fn are_cites(cites: &[u64], count: u64) -> bool
    ensures { IsTrue result ↔ AreCites count cites.now }
{
    for cite in cites {
        if *cite >= count {
            return false;
        }
    }
    true
}

// A cycle within its range.
fn cycle_within(cycle: u64) -> Result<u64, LineError>
    ensures { MatchResult result (λ c. (c ≡ cycle) × IsCycle cycle) (λ e. (e ≡ Range) × ¬ IsCycle cycle) }
{
    if !is_cycle(cycle) {
        return Err(LineError::Range);
    }
    Ok(cycle)
}

// A number of stations within its range.
fn stations_within(stations: u64) -> Result<u32, LineError>
    ensures { MatchResult result (λ m. (m ≡ stations) × ((1 ≤ stations) × (stations ≤ 1024)))
        (λ e. (e ≡ Range) × ¬ ((1 ≤ stations) × (stations ≤ 1024))) }
{
    if stations < 1 {
        return Err(LineError::Range);
    }
    if stations > 1024 {
        return Err(LineError::Range);
    }
    Ok(stations as u32)
}

// A task, counted from 1, within its range, as a task from 0.
fn task_within(task: u64, tasks: u32) -> Result<u32, LineError>
    ensures { MatchResult result (λ t. (t + 1 ≡ task) × (t < tasks))
        (λ e. (e ≡ Range) × ¬ ((1 ≤ task) × (task ≤ tasks))) }
{
    if task < 1 {
        return Err(LineError::Range);
    }
    if task > u64::from(tasks) {
        return Err(LineError::Range);
    }
    Ok((task - 1) as u32)
}

/// The line of the question.
#[derive(Clone, Copy)]
pub struct AskLine;

impl Pattern for AskLine {
    ghost use Rattle.cert_lines.specs.ValueRows.{ask_row};
    ghost use Rattle.line_rules.specs.Ranges.{IsAsked};

    type Value = Ask;

    ghost line_of = { λ p v. ask_row v };

    ghost may_say = { λ p v. IsAsked v };

    ghost can_read = { λ p. Unit {0} };

    fn read(&self, _alloc: Global, line: &[u8]) -> Result<Ask, LineError> {
        if let Some(cycle) = keyed(line, b"cycle") {
            return match cycle_within(cycle) {
                Ok(cycle) => Ok(Ask::Stations { cycle }),
                Err(error) => Err(error),
            };
        }
        if let Some(stations) = keyed(line, b"stations") {
            return match stations_within(stations) {
                Ok(stations) => Ok(Ask::Cycle { stations }),
                Err(error) => Err(error),
            };
        }
        Err(LineError::Form)
    }
}

/// The line behind the question: a task only where the question names a cycle.
#[derive(Clone, Copy)]
pub struct OpeningLine {
    /// The question.
    pub ask: Ask,
    /// The number of tasks.
    pub tasks: u32,
}

impl Pattern for OpeningLine {
    ghost use Rattle.std.specs.Prelude.{◌≤◌};
    ghost use Rattle.cert_lines.specs.LineForms.{opening_row, IsOpening};

    type Value = Opening;

    ghost line_of = { λ p v. opening_row v };

    ghost may_say = { λ p v. IsOpening p.ask p.tasks v };

    ghost can_read = { λ p. (1 ≤ p.tasks) × (p.tasks ≤ 1024) };

    fn read(&self, _alloc: Global, line: &[u8]) -> Result<Opening, LineError> {
        if let Some(lower) = keyed(line, b"lower") {
            return match cycle_within(lower) {
                Ok(lower) => Ok(Opening::Lower { lower }),
                Err(error) => Err(error),
            };
        }
        match self.ask {
            Ask::Cycle { stations: _ } => Err(LineError::Form),
            Ask::Stations { cycle: _ } => match keyed(line, b"infeasible") {
                None => Err(LineError::Form),
                Some(task) => match task_within(task, self.tasks) {
                    Ok(task) => Ok(Opening::TooLong { task }),
                    Err(error) => Err(error),
                },
            },
        }
    }
}

/// The line of a place.
#[derive(Clone, Copy)]
pub struct SeatLine {
    /// The kind of line.
    pub kind: LineKind,
    /// The number of stations.
    pub stations: u32,
}

impl Pattern for SeatLine {
    ghost use Rattle.std.specs.Prelude.{◌≤◌};
    ghost use Rattle.cert_lines.specs.ValueRows.{seat_row};
    ghost use Rattle.line_rules.specs.Ranges.{IsPlaced};

    type Value = Seatplace;

    ghost line_of = { λ p v. seat_row p.kind v };

    ghost may_say = { λ p v. IsPlaced p.kind p.stations v };

    ghost can_read = { λ p. (1 ≤ p.stations) × (p.stations ≤ 1024) };

    fn read(&self, _alloc: Global, line: &[u8]) -> Result<Seatplace, LineError> {
        let Some((station, side)) = seat(line, self.kind) else {
            return Err(LineError::Form);
        };
        if station < 1 {
            return Err(LineError::Range);
        }
        if station > u64::from(self.stations) {
            return Err(LineError::Range);
        }
        Ok(Seatplace {
            station: station as u32,
            side,
        })
    }
}

/// The head of a trail: its number of frames and its cycle, where it has frames.
#[derive(Clone, Copy)]
pub struct TrailLine;

impl Pattern for TrailLine {
    ghost use Rattle.cert_lines.specs.Rows.{trail as trail_row};
    ghost use Rattle.cert_lines.specs.LineForms.{IsHead};

    type Value = Option<(u64, u64)>;

    ghost line_of = { λ p v. trail_row v };

    ghost may_say = { λ p v. IsHead v };

    ghost can_read = { λ p. Unit {0} };

    fn read(&self, _alloc: Global, line: &[u8]) -> Result<Option<(u64, u64)>, LineError> {
        let Some(head) = trail(line) else {
            return Err(LineError::Form);
        };
        let Some((frames, cycle)) = head else {
            return Ok(None);
        };
        if frames < 1 {
            return Err(LineError::Range);
        }
        if frames > 1024 {
            return Err(LineError::Range);
        }
        if !is_cycle(cycle) {
            return Err(LineError::Range);
        }
        Ok(Some((frames, cycle)))
    }
}

// Whether the numbers of an entry's reason are within their ranges.
fn is_why_within(why: &DraftWhy, tasks: u32, count: u64) -> bool
    ensures { IsTrue result ↔ IsWhyWithin tasks count why.now }
{
    match why {
        DraftWhy::Bound => true,
        DraftWhy::Branch { mode: _, cites } => are_cites(cites.as_slice(), count),
        DraftWhy::Swap {
            cite,
            out_task,
            in_task,
        } => {
            *cite < count
                && *out_task >= 1
                && *out_task <= u64::from(tasks)
                && *in_task >= 1
                && *in_task <= u64::from(tasks)
        }
        DraftWhy::Pairs { two: _ } => true,
    }
}

// The reason of an entry, its tasks counted from 0.
fn why_from(why: DraftWhy, tasks: u32, count: u64) -> Why
    requires { IsWhyWithin tasks count why }
    ensures { result ≡ why_of why }
{
    match why {
        DraftWhy::Bound => Why::Bound,
        DraftWhy::Branch { mode, cites } => Why::Branch { mode, cites },
        DraftWhy::Swap {
            cite,
            out_task,
            in_task,
        } => Why::Swap {
            cite,
            out_task: (out_task - 1) as u32,
            in_task: (in_task - 1) as u32,
        },
        DraftWhy::Pairs { two } => Why::Pairs { two },
    }
}

// The entry of a line, where its numbers are within their ranges.
fn entry_within(draft: Draft, tasks: u32, count: u64) -> Result<Entry, LineError>
    ensures { MatchResult result (λ e. (e ≡ entry_of draft) × IsWithin tasks count draft)
        (λ e. (e ≡ Range) × ¬ IsWithin tasks count draft) }
{
    if !is_cycle(draft.cycle) {
        return Err(LineError::Range);
    }
    if draft.most > 1024 {
        return Err(LineError::Range);
    }
    if !is_why_within(&draft.why, tasks, count) {
        return Err(LineError::Range);
    }
    let Draft {
        cycle,
        set,
        most,
        why,
    } = draft;
    Ok(Entry {
        set,
        most: most as u32,
        cycle,
        why: why_from(why, tasks, count),
    })
}

/// The line of an entry, whose cycle may be given, of a text with entries by pairs or without.
#[derive(Clone, Copy)]
pub struct EntryLine {
    /// The number of tasks.
    pub tasks: u32,
    /// How many entries there are.
    pub count: u64,
    /// The cycle, where the line has none.
    pub given: Option<u64>,
    /// Whether entries by pairs may stand there.
    pub pairs: bool,
}

impl Pattern for EntryLine {
    ghost use Rattle.std.specs.Prelude.{◌≤◌};
    ghost use Rattle.cert_lines.specs.LineForms.{given_row, IsSaid, IsGivenCycle};

    type Value = Entry;

    ghost line_of = { λ p v. given_row p.tasks p.given v };

    ghost may_say = { λ p v. IsSaid p.tasks p.count p.given p.pairs v };

    ghost can_read = { λ p. (1 ≤ p.tasks) × (p.tasks ≤ 1024) × (p.count ≤ 20000000) × IsGivenCycle p.given };

    fn read(&self, alloc: Global, line: &[u8]) -> Result<Entry, LineError> {
        match entry(alloc, line, self.tasks, self.given, self.pairs) {
            Err(_) => Err(LineError::Memory),
            Ok(None) => Err(LineError::Form),
            Ok(Some(draft)) => entry_within(draft, self.tasks, self.count),
        }
    }
}

// The frame of a line, where its numbers are within their ranges.
fn frame_within(draft: FrameDraft, count: u64) -> Result<OpenFrame, LineError>
    ensures { MatchResult result (λ f. (f ≡ frame_of draft) × IsFrameWithin count draft)
        (λ e. (e ≡ Range) × ¬ IsFrameWithin count draft) }
{
    if draft.most > 1024 {
        return Err(LineError::Range);
    }
    if !are_cites(draft.cites.as_slice(), count) {
        return Err(LineError::Range);
    }
    let FrameDraft {
        mode,
        set,
        most,
        last,
        cites,
    } = draft;
    Ok(OpenFrame {
        set,
        most: most as u32,
        mode,
        last,
        cites,
    })
}

/// The line of a frame.
#[derive(Clone, Copy)]
pub struct FrameLine {
    /// The number of tasks.
    pub tasks: u32,
    /// How many entries there are.
    pub count: u64,
}

impl Pattern for FrameLine {
    ghost use Rattle.std.specs.Prelude.{◌≤◌};
    ghost use Rattle.cert_lines.specs.ValueRows.{frame_row};
    ghost use Rattle.line_rules.specs.Ranges.{IsFrame};

    type Value = OpenFrame;

    ghost line_of = { λ p v. frame_row p.tasks v };

    ghost may_say = { λ p v. IsFrame p.tasks p.count v };

    ghost can_read = { λ p. (1 ≤ p.tasks) × (p.tasks ≤ 1024) × (p.count ≤ 20000000) };

    fn read(&self, alloc: Global, line: &[u8]) -> Result<OpenFrame, LineError> {
        match frame(alloc, line, self.tasks) {
            Err(_) => Err(LineError::Memory),
            Ok(None) => Err(LineError::Form),
            Ok(Some(draft)) => frame_within(draft, self.count),
        }
    }
}
