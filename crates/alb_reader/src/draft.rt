//! What is kept of the lines of an ALB text.
//!
//! Sections may come in any order, so a line is tested by its section and by the lines before it. What the lines say
//! together is asked later, when all are there. A line costs its own bytes and at most one place in a list.
ghost use Rattle.std.specs.Prelude.{◌≡◌, ◌++◌, ◌∷◌, ◌||◌, [], ℕ, None, Some, Option, true, false, nat_eq, MatchResult};
ghost use Rattle.std.specs.Prelude.{OnOk, OnErr, IfErr, IfSome, IsNone, length};
ghost use Rattle.line_io.specs.Lines.{number_in};
ghost use Rattle.line_io.specs.declared.text.Num.TheVariants.{Value};
ghost use Rattle.in2_reader.specs.Contents.{Lines};
ghost use Rattle.in2_reader.specs.Pairs.{pair_in};
ghost use Rattle.alb_reader.specs.Sections.{mark_of, is_same};
ghost use Rattle.alb_reader.specs.Faults.{some_fault, timed, timed_fault, pair_fault, gap_split, value_or_0};
ghost use Rattle.alb_reader.specs.inner.Drafts.{IsDraft, IsWrong, Takes, heading_seen, opened, time_line, pair_line};
ghost use Rattle.alb_reader.specs.declared.mark.Mark.TheVariants.{Body};

use crate::fault::{AlbKind, LineError};
use crate::mark::{Mark, Section, mark_of};
use in2_reader::{Meaning, Pair, behind_gaps, is_gap, pair_of};
use line_instance::Prec;
use line_io::{Num, Span, number};
use std::alloc::Global;

/// The most tasks: the bits of a set.
const MAX_TASKS: u64 = 1024;

/// The greatest time of a task: that of every instance, so that `make` refuses no time that was read.
const MAX_TIME: u64 = 200_000_000_000_000;

/// The greatest cycle time: that of every certificate, above the 2.048 * 10^17 of all tasks together.
const MAX_CYCLE: u64 = 1_000_000_000_000_000_000;

/// The most lines of pairs: 2^19, above the 523,776 pairs that 1,024 tasks have.
const MAX_PAIRS: usize = 524_288;

/// A line of task times.
#[derive(Clone, Copy, Debug, PartialEq, Eq)]
pub struct TimeLine {
    /// The number of the line, counted from 1.
    pub line: u64,
    /// The number of the task, from 1; 0 where the line names none up to 1,024.
    pub task: u64,
    /// The time.
    pub time: u64,
}

/// A line of a pair.
#[derive(Clone, Copy, Debug, PartialEq, Eq)]
pub struct PairLine {
    /// The number of the line, counted from 1.
    pub line: u64,
    /// The pair, where both of its members are up to 1,024.
    pub arc: Option<Prec>,
}

/// Which headings stood.
#[derive(Clone, Copy, Debug, PartialEq, Eq)]
pub struct Headings {
    pub tasks: bool,
    pub cycle: bool,
    pub strength: bool,
    pub times: bool,
    pub pairs: bool,
}

impl Headings {
    fn has(&self, section: Section) -> bool
        ensures { result ≡ heading_seen self.now section }
    {
        match section {
            Section::Tasks => self.tasks,
            Section::Cycle => self.cycle,
            Section::Strength => self.strength,
            Section::Times => self.times,
            Section::Pairs => self.pairs,
        }
    }
}

/// What is kept of the lines that were read.
#[derive(Drop)]
pub struct Draft {
    pub section: Option<Section>,
    pub seen: Headings,
    pub tasks: Option<u64>,
    pub cycle: Option<u64>,
    pub strength: bool,
    pub times: Vec<TimeLine>,
    pub pairs: Vec<PairLine>,
}

// What bytes are, all of them read as a number up to a maximum.
fn whole(bytes: &[u8], max: u64) -> Num
    ensures { result ≡ number_in max bytes.now }
{
    number(
        bytes,
        Span {
            from: 0,
            to: bytes.len(),
        },
        max,
    )
}

// The number of a line that has one, from 1 to a greatest one, or what is wrong with the line.
fn some_number(content: &[u8], max: u64) -> Result<u64, LineError>
    ensures { MatchResult result (λ v. (number_in max content.now ≡ Value v)
        × (some_fault (number_in max content.now) ≡ None)) (IsWrong (some_fault (number_in max content.now))) }
{
    match whole(content, max) {
        Num::NotANumber => Err(LineError::Fault(AlbKind::NotANumber)),
        Num::Above => Err(LineError::Fault(AlbKind::Range)),
        Num::Value(0) => Err(LineError::Fault(AlbKind::Range)),
        Num::Value(value) => Ok(value),
    }
}

// What stands before the first blank or tab, and behind it.
fn split_gap(bytes: &[u8]) -> Option<(&[u8], &[u8])>
    ensures none { IsNone result → gap_split bytes.now ≡ None }
    ensures some { IfSome result (λ p. gap_split bytes.now ≡ Some (p.0.now, p.1.now)) }
{
    for i in 0..bytes.len() {
        if is_gap(bytes[i]) {
            return Some((&bytes[..i], &bytes[i + 1..]));
        }
    }
    None
}

// The number of the task of a line of task times, 0 where it has none up to 1,024.
fn task_number(num: Num) -> u64
    ensures { result ≡ value_or_0 num }
{
    match num {
        Num::Value(value) => value,
        _ => 0,
    }
}

// The task and the time of a line, or what is wrong with it.
fn timed_line(line: u64, content: &[u8]) -> Result<TimeLine, LineError>
    ensures { MatchResult result (λ t. (t ≡ time_line (line, content.now))
        × (timed_fault (timed content.now).0 (timed content.now).1 ≡ None))
        (IsWrong (timed_fault (timed content.now).0 (timed content.now).1)) }
{
    let Some((front, back)) = split_gap(content) else {
        return Err(LineError::Fault(AlbKind::NotANumber));
    };
    let task = whole(front, MAX_TASKS);
    let time = whole(behind_gaps(back), MAX_TIME);
    match (task, time) {
        (Num::NotANumber, _) => Err(LineError::Fault(AlbKind::NotANumber)),
        (_, Num::NotANumber) => Err(LineError::Fault(AlbKind::NotANumber)),
        (_, Num::Above) => Err(LineError::Fault(AlbKind::Range)),
        (task, Num::Value(time)) => Ok(TimeLine {
            line,
            task: task_number(task),
            time,
        }),
    }
}

// The pair of a line behind so many pairs, or what is wrong with it.
fn paired_line(line: u64, content: &[u8], pairs: usize) -> Result<PairLine, LineError>
    ensures { MatchResult result (λ p. (p ≡ pair_line (line, content.now))
        × (pair_fault (nat_eq pairs 524288) (pair_in 1024 content.now) ≡ None))
        (IsWrong (pair_fault (nat_eq pairs 524288) (pair_in 1024 content.now))) }
{
    let is_full = pairs == MAX_PAIRS;
    let pair = pair_of(content, 1024, Meaning::Before);
    match pair {
        Pair::Other | Pair::End => Err(LineError::Fault(AlbKind::NotANumber)),
        Pair::Arc(_) | Pair::BadArc if is_full => Err(LineError::Fault(AlbKind::TooManyArcs)),
        Pair::Arc(arc) => Ok(PairLine {
            line,
            arc: Some(arc),
        }),
        Pair::BadArc => Ok(PairLine { line, arc: None }),
    }
}

impl Headings {
    // Notes that the heading of a section stands.
    fn note(&mut self, section: Section)
        ensures { (s : Section) → heading_seen self.new s ≡ (is_same s section || heading_seen self.old s) }
    {
        match section {
            Section::Tasks => self.tasks = true,
            Section::Cycle => self.cycle = true,
            Section::Strength => self.strength = true,
            Section::Times => self.times = true,
            Section::Pairs => self.pairs = true,
        }
    }
}

impl Draft {
    /// The draft of no lines.
    pub fn new(alloc: Global) -> Draft
        ensures { IsDraft [] result }
    {
        Draft {
            section: None,
            seen: Headings {
                tasks: false,
                cycle: false,
                strength: false,
                times: false,
                pairs: false,
            },
            tasks: None,
            cycle: None,
            strength: false,
            times: Vec::new(alloc),
            pairs: Vec::new(alloc),
        }
    }

    /// Takes a line, whose content has this mark, or tells what is wrong with it.
    pub fn take(&mut self, mark: Mark, line: u64, content: &[u8]) -> Result<(), LineError>
        requires { mark ≡ mark_of content.now }
        ensures { (before : Lines) → IsDraft before self.old → Takes before line content.now self.new result }
    {
        match mark {
            Mark::Heading(section) => self.open(section),
            Mark::End => Ok(()),
            Mark::Unknown => Err(LineError::Fault(AlbKind::UnknownHeading)),
            Mark::Body => self.take_body(line, content),
        }
    }

    // Begins a section.
    fn open(&mut self, section: Section) -> Result<(), LineError>
        ensures opened { OnOk result ((heading_seen self.old.seen section ≡ false)
            × (self.new ≡ opened self.old section self.new.seen)) }
        ensures seen { OnOk result ((s : Section) → heading_seen self.new.seen s
            ≡ (is_same s section || heading_seen self.old.seen s)) }
        ensures wrong { OnErr result (heading_seen self.old.seen section ≡ true) }
        ensures kind { IfErr result (λ e. e ≡ LineError.Fault AlbKind.RepeatedHeading) }
    {
        if self.seen.has(section) {
            return Err(LineError::Fault(AlbKind::RepeatedHeading));
        }
        self.seen.note(section);
        self.section = Some(section);
        Ok(())
    }

    // Takes a line of the present section.
    fn take_body(&mut self, line: u64, content: &[u8]) -> Result<(), LineError>
        ensures { (before : Lines) → IsDraft before self.old → mark_of content.now ≡ Body
            → Takes before line content.now self.new result }
    {
        match self.section {
            None => Err(LineError::Fault(AlbKind::Stray)),
            Some(Section::Tasks) => {
                if self.tasks.is_some() {
                    return Err(LineError::Fault(AlbKind::Stray));
                }
                self.tasks = Some(some_number(content, MAX_TASKS)?);
                Ok(())
            }
            Some(Section::Cycle) => {
                if self.cycle.is_some() {
                    return Err(LineError::Fault(AlbKind::Stray));
                }
                self.cycle = Some(some_number(content, MAX_CYCLE)?);
                Ok(())
            }
            Some(Section::Strength) => {
                if self.strength {
                    return Err(LineError::Fault(AlbKind::Stray));
                }
                self.strength = true;
                Ok(())
            }
            Some(Section::Times) => {
                self.times.push(timed_line(line, content)?)?;
                Ok(())
            }
            Some(Section::Pairs) => {
                self.pairs
                    .push(paired_line(line, content, self.pairs.len())?)?;
                Ok(())
            }
        }
    }
}
