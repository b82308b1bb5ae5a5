//! The reading of a text line by line: times, and pairs up to the end mark.
//!
//! The first number tells how many times follow, so one pass is enough, and the first line that doesn't fit is the
//! first fault. A line costs its own bytes and one place in a list.
ghost use Rattle.std.specs.Prelude.{◌≡◌, ◌≤◌, ◌<◌, ◌+◌, ◌-◌, ◌^◌, ℕ, length, IfOk, Ok};
ghost use Rattle.line_io.specs.Lines.{number_in};
ghost use Rattle.in2_reader.specs.Contents.{contents_from, lines_in};
ghost use Rattle.line_io.specs.declared.text.Num.TheVariants.{Value};
ghost use Rattle.in2_reader.specs.declared.fault.ReadError.TheVariants as errors;
ghost use Rattle.in2_reader.specs.inner.Draft.{Gives, times_in, pairs_in, counted, text_said};

use crate::fault::{In2Fault, In2Kind, ReadError};
use crate::line::next_content;
use crate::pair::{Meaning, Pair, pair_of};
use line_instance::Prec;
use line_io::{Num, Span, number};
use std::alloc::Global;

// The most tasks: the bits of a set.
const MAX_TASKS: u64 = 1024;

// The greatest time of a task: that of every instance, so that `make` refuses no time that was read.
const MAX_TIME: u64 = 200_000_000_000_000;

/// The most pairs that a text may have: 2^19, above the 523,776 pairs that 1,024 tasks have.
pub const MAX_ARCS: usize = 524_288;

/// What an IN2 text says.
#[derive(Debug, Drop)]
pub struct Draft {
    /// The times of the tasks, in the text's time unit.
    pub times: Vec<u64>,
    /// The arcs, their tasks counted from 0.
    pub arcs: Vec<Prec>,
    /// The number of the line of the end mark, counted from 1.
    pub last: u64,
}

// Bytes that are left, and the number of their first line.
#[derive(Drop)]
struct Left<'a> {
    text: &'a [u8],
    line: u64,
}

// A fault of a line.
fn fault(line: u64, kind: In2Kind) -> ReadError
    ensures { result ≡ errors.Fault (record { line = line; kind = kind }) }
{
    ReadError::Fault(In2Fault { line, kind })
}

// What bytes are, all of them read as a number up to a maximum.
fn whole(bytes: &[u8], max: u64) -> Num
    ensures number { result ≡ number_in max bytes.now }
    ensures most { (v : ℕ) → result ≡ Value v → v ≤ max }
{
    number(
        bytes,
        Span {
            from: 0,
            to: bytes.len(),
        },
        max,
    )
}

// Reads so many times, and gives them with what is left.
fn read_times(
    alloc: Global,
    tasks: u64,
    text: &[u8],
    line: u64,
) -> Result<(Vec<u64>, Left<'_>), ReadError>
    requires { line + length text.now < 2 ^ 64 }
    ensures exact { Gives (λ x. (x.0.items, contents_from x.1.line x.1.text.now)) result
        (times_in (lines_in line text.now) tasks (contents_from line text.now)) }
    ensures same { IfOk result (λ x. lines_in x.1.line x.1.text.now ≡ lines_in line text.now) }
    ensures room { IfOk result (λ x. x.1.line + length x.1.text.now < 2 ^ 64) }
{
    let mut times = Vec::new(alloc);
    let mut left = text;
    let mut at = line;
    for i in 0..tasks {
        match next_content(left, at) {
            Err(end) => return Err(fault(end, In2Kind::MissingTimes)),
            Ok(content) => {
                match whole(content.bytes, MAX_TIME) {
                    Num::NotANumber => return Err(fault(content.line, In2Kind::NotANumber)),
                    Num::Above => return Err(fault(content.line, In2Kind::Range)),
                    Num::Value(time) => times.push(time)?,
                }
                left = content.rest;
                at = content.line + 1;
            }
        }
    }
    Ok((
        times,
        Left {
            text: left,
            line: at,
        },
    ))
}

/// Reads pairs up to the end mark, at most so many, and gives them with the line of the mark.
pub fn read_pairs(
    alloc: Global,
    meaning: Meaning,
    tasks: u32,
    most: usize,
    text: &[u8],
    line: u64,
) -> Result<(Vec<Prec>, u64), ReadError>
    requires { line + length text.now < 2 ^ 64 }
    ensures { Gives (λ x. (x.0.items, x.1)) result (pairs_in (lines_in line text.now) meaning tasks most
        (contents_from line text.now)) }
{
    let mut arcs = Vec::new(alloc);
    let mut left = text;
    let mut at = line;
    'pairs: loop {
        match next_content(left, at) {
            Err(end) => return Err(fault(end, In2Kind::MissingEnd)),
            Ok(content) => {
                let is_full = arcs.len() == most;
                match pair_of(content.bytes, tasks, meaning) {
                    Pair::Other => return Err(fault(content.line, In2Kind::NotANumber)),
                    Pair::End => return Ok((arcs, content.line)),
                    Pair::BadArc => {
                        let kind = if is_full {
                            In2Kind::TooManyArcs
                        } else {
                            In2Kind::BadArc
                        };
                        return Err(fault(content.line, kind));
                    }
                    Pair::Arc(arc) => {
                        if is_full {
                            return Err(fault(content.line, In2Kind::TooManyArcs));
                        }
                        arcs.push(arc)?;
                    }
                }
                left = content.rest;
                at = content.line + 1;
            }
        }
    }
}

/// Reads an IN2 text, but for cycles.
pub fn read_draft(alloc: Global, bytes: &[u8]) -> Result<Draft, ReadError>
    requires { length bytes.now < 2 ^ 63 }
    ensures exact { Gives (λ d. record { times = d.times.items; arcs = d.arcs.items; last = d.last }) result
        (text_said bytes.now) }
{
    match next_content(bytes, 1) {
        Err(end) => Err(fault(end, In2Kind::MissingTimes)),
        Ok(content) => match whole(content.bytes, MAX_TASKS) {
            Num::NotANumber => Err(fault(content.line, In2Kind::NotANumber)),
            Num::Above => Err(fault(content.line, In2Kind::Range)),
            Num::Value(0) => Err(fault(content.line, In2Kind::Range)),
            Num::Value(tasks) => {
                let (times, left) = read_times(alloc, tasks, content.rest, content.line + 1)?;
                let (arcs, last) = read_pairs(
                    alloc,
                    Meaning::Before,
                    tasks as u32,
                    MAX_ARCS,
                    left.text,
                    left.line,
                )?;
                Ok(Draft { times, arcs, last })
            }
        },
    }
}
