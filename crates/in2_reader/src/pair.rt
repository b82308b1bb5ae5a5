//! Pairs of tasks, and the end mark.
//!
//! A pair is two numbers with a comma between, with blanks or tabs round the comma or none. `-1,-1` is the end mark,
//! which no pair can be, since tasks are counted from 1. What is no pair is told apart from a pair that names no task,
//! because these are two faults.
ghost use Rattle.std.specs.Prelude.{◌≡◌, ◌≢◌, ◌≤◌, ◌<◌, ◌^◌, ℕ, MatchOption, length, take, drop, IfSome, IsNone, None};
ghost use Rattle.std.specs.Prelude.{Some};
ghost use Rattle.in2_reader.specs.Pairs.{pair_in, pair_for, comma_split, without_gaps_front, without_gaps_back};
ghost use Rattle.in2_reader.specs.Pairs.{is_gap as gap, arc_in, is_minus_one as minus_one};
ghost use Rattle.line_io.specs.declared.text.Num.TheVariants.{Value};
ghost use Rattle.line_io.specs.Lines.{number_in};

use line_instance::Prec;
use line_io::{Num, Span, number};

/// What pairs of tasks mean.
#[derive(Clone, Copy, Debug, PartialEq, Eq)]
pub enum Meaning {
    /// The first task is done before the other.
    Before,
    /// The tasks are apart, so they are two.
    Apart,
}

/// What a content is where pairs stand.
#[derive(Clone, Copy, Debug, PartialEq, Eq)]
pub enum Pair {
    /// A pair of tasks.
    Arc(Prec),
    /// A pair of which a member is no task, or that may not be of one task and is.
    BadArc,
    /// The end mark.
    End,
    /// Neither a pair nor the end mark.
    Other,
}

/// Whether a byte is a blank or a tab; a CR isn't one.
pub fn is_gap(b: u8) -> bool
    ensures { result ≡ gap b }
{
    b == b' ' || b == b'\t'
}

// The bytes up to the last one that is neither.
fn before_gaps(bytes: &[u8]) -> &[u8]
    ensures { result.now ≡ without_gaps_back bytes.now }
{
    let mut kept = bytes;
    while let [front @ .., last] = kept {
        if !is_gap(*last) {
            return kept;
        }
        kept = front;
    }
    kept
}

/// The bytes from the first one that is neither a blank nor a tab.
pub fn behind_gaps(bytes: &[u8]) -> &[u8]
    ensures { result.now ≡ without_gaps_front bytes.now }
{
    let mut kept = bytes;
    while let [first, rest @ ..] = kept {
        if !is_gap(*first) {
            return kept;
        }
        kept = rest;
    }
    kept
}

// What stands before the first comma and behind it.
fn split_comma(bytes: &[u8]) -> Option<(&[u8], &[u8])>
    ensures none { IsNone result → comma_split bytes.now ≡ None }
    ensures some { IfSome result (λ p. comma_split bytes.now ≡ Some (p.0.now, p.1.now)) }
{
    for i in 0..bytes.len() {
        if bytes[i] == b',' {
            return Some((&bytes[..i], &bytes[i + 1..]));
        }
    }
    None
}

// Whether the bytes are `-1`.
fn is_minus_one(bytes: &[u8]) -> bool
    ensures { result ≡ minus_one bytes.now }
{
    bytes == b"-1".as_slice()
}

// What the bytes are, read as a number of a task.
fn whole(bytes: &[u8], tasks: u32) -> Num
    ensures number { result ≡ number_in tasks bytes.now }
    ensures most { (v : ℕ) → result ≡ Value v → v < 2 ^ 32 }
{
    number(
        bytes,
        Span {
            from: 0,
            to: bytes.len(),
        },
        u64::from(tasks),
    )
}

// The pair of two numbers, as tasks counted from 0.
fn arc_of(first: Num, then: Num) -> Pair
    requires first { (v : ℕ) → first ≡ Value v → v < 2 ^ 32 }
    requires then { (v : ℕ) → «then» ≡ Value v → v < 2 ^ 32 }
    ensures { result ≡ arc_in first then }
{
    match (first, then) {
        (Num::NotANumber, _) => Pair::Other,
        (_, Num::NotANumber) => Pair::Other,
        (Num::Value(i), Num::Value(j)) if i > 0 && j > 0 => Pair::Arc(Prec {
            first: (i - 1) as u32,
            then: (j - 1) as u32,
        }),
        _ => Pair::BadArc,
    }
}

/// What a content is where pairs of this meaning stand, of this many tasks.
pub fn pair_of(content: &[u8], tasks: u32, meaning: Meaning) -> Pair
    ensures { result ≡ pair_for meaning tasks content.now }
{
    match (pair_in_content(content, tasks), meaning) {
        (Pair::Arc(arc), Meaning::Apart) if arc.first == arc.then => Pair::BadArc,
        (pair, _) => pair,
    }
}

// The pair of a content, which may be of one task.
fn pair_in_content(content: &[u8], tasks: u32) -> Pair
    ensures { result ≡ pair_in tasks content.now }
{
    match split_comma(content) {
        None => Pair::Other,
        Some((front, back)) => {
            let front = before_gaps(front);
            let back = behind_gaps(back);
            if is_minus_one(front) && is_minus_one(back) {
                return Pair::End;
            }
            arc_of(whole(front, tasks), whole(back, tasks))
        }
    }
}
