//! The reading of words: numbers, modes, cites and sets.
//!
//! A set has a hexadecimal digit for each four tasks, the first of the four as the highest bit. Bits past the last task
//! have to be 0. A number has no 0 in front of another digit. So each value has one spelling, and two texts of one
//! certificate in one version can't differ. Each byte is looked at once.
ghost use Rattle.std.specs.Prelude.{◌≡◌, ◌≤◌, ◌<◌, ◌||◌, IfOk, option_map, true, cond, slice_set, nat_lt, not};
ghost use Rattle.cert_lines.specs.Words.{parts_at, number_in, number_first, mode_in, cites_in, numbers_in, pieces_at};
ghost use Rattle.cert_lines.specs.Words.{set_in, is_hex as hex, hex_value as value, is_spare, with_digit};
ghost use Rattle.cert_lines.specs.Words.{is_unplain as unplain, is_none as none};

use line_rules::{Cites, Mode, TaskSet};
use std::alloc::{AllocError, Global};

/// What stands before the first byte of this value, and behind it; None where there is no such byte.
pub fn split_at(bytes: &[u8], mark: u8) -> Option<(&[u8], &[u8])>
    ensures { parts_at mark bytes.now ≡ option_map (λ p. (p.0.now, p.1.now)) result }
{
    for i in 0..bytes.len() {
        if bytes[i] == mark {
            return Some((&bytes[..i], &bytes[i + 1..]));
        }
    }
    None
}

// Whether a word is empty, or begins with a needless 0.
fn is_unplain(word: &[u8]) -> bool
    ensures { result ≡ unplain word.now }
{
    match word {
        [] => true,
        [_] => false,
        [first, ..] => *first == b'0',
    }
}

/// The number that a word is, without a needless 0 in front. A number past 64 bits is the greatest of 64 bits.
pub fn number(word: &[u8]) -> Option<u64>
    ensures { result ≡ number_in word.now }
{
    if is_unplain(word) {
        return None;
    }
    let mut value = 0u64;
    for b in word {
        let b = *b;
        if b < b'0' || b > b'9' {
            return None;
        }
        value = value.saturating_mul(10).saturating_add(u64::from(b - b'0'));
    }
    Some(value)
}

/// The number in front of a blank, and what stands behind it.
#[tactic(auto, unfolding(crate::specs::Words::number_first))]
pub fn first_number(bytes: &[u8]) -> Option<(u64, &[u8])>
    ensures { number_first bytes.now ≡ option_map (λ p. (p.0, p.1.now)) result }
{
    let (word, rest) = split_at(bytes, b' ')?;
    let n = number(word)?;
    Some((n, rest))
}

/// The mode that a word is.
#[tactic(auto, unfolding(crate::specs::Words::mode_in))]
pub fn mode_of(word: &[u8]) -> Option<Mode>
    ensures { result ≡ mode_in word.now }
{
    let [letter] = word else {
        return None;
    };
    match *letter {
        b'f' => Some(Mode::Fore),
        b'b' => Some(Mode::Back),
        b'u' => Some(Mode::Both),
        _ => None,
    }
}

/// Whether a word is the mark of none.
pub fn is_none(word: &[u8]) -> bool
    ensures { result ≡ none word.now }
{
    match word {
        [letter] => *letter == b'-',
        _ => false,
    }
}

/// The cites that a word is: `-` for none, or numbers with a comma between. An error where memory is wanting.
#[tactic(auto, unfolding(crate::specs::Words::cites_in))]
pub fn cites_of(alloc: Global, word: &[u8]) -> Result<Option<Cites>, AllocError>
    ensures { IfOk result (λ cites. cites ≡ cites_in word.now) }
{
    if is_none(word) {
        return Ok(Some(Cites::from_vec(Vec::new(alloc))));
    }
    numbers_of(alloc, word)
}

// Numbers with a comma, the byte 44, between.
fn numbers_of(alloc: Global, word: &[u8]) -> Result<Option<Cites>, AllocError>
    ensures { IfOk result (λ cites. cites ≡ numbers_in (pieces_at 44 word.now)) }
{
    let mut cites = Cites::from_vec(Vec::new(alloc));
    let mut left = word;
    while let Some((piece, rest)) = split_at(left, b',') {
        match number(piece) {
            Some(cite) => cites.push(cite)?,
            None => return Ok(None),
        }
        left = rest;
    }
    match number(left) {
        Some(cite) => {
            cites.push(cite)?;
            Ok(Some(cites))
        }
        None => Ok(None),
    }
}

// Whether a byte is a digit of four tasks.
#[inline]
fn is_hex(b: u8) -> bool
    ensures { result ≡ hex b }
{
    (b >= b'0' && b <= b'9') || (b >= b'a' && b <= b'f')
}

// What a digit of four tasks stands for.
#[inline]
fn hex_value(b: u8) -> u8
    requires { hex b ≡ true }
    ensures { result ≡ value b }
{
    if b >= b'a' { b - (b'a' - 10) } else { b - b'0' }
}

// Puts the task `i` into the set where it is there, and answers whether it may be.
#[inline]
fn put_task(set: &mut TaskSet, tasks: u32, i: u32, is_there: bool) -> bool
    requires { tasks ≤ 1024 }
    ensures may { result ≡ (nat_lt i tasks || not is_there) }
    ensures put { result ≡ true → set.new ≡ cond is_there (slice_set set.old i true) set.old }
{
    if !is_there {
        return true;
    }
    if i >= tasks {
        return false;
    }
    set.insert(i);
    true
}

// Puts the tasks of a digit into the set, and answers whether they may be there.
#[inline]
fn put_digit(set: &mut TaskSet, tasks: u32, k: u32, digit: u8) -> bool
    requires few { tasks ≤ 1024 }
    requires within { k < 256 }
    requires small { digit < 16 }
    ensures may { result ≡ is_spare tasks k digit }
    ensures put { result ≡ true → set.new ≡ with_digit set.old k digit }
{
    put_task(set, tasks, 4 * k, digit / 8 % 2 == 1)
        && put_task(set, tasks, 4 * k + 1, digit / 4 % 2 == 1)
        && put_task(set, tasks, 4 * k + 2, digit / 2 % 2 == 1)
        && put_task(set, tasks, 4 * k + 3, digit % 2 == 1)
}

/// The set of tasks that a word is.
pub fn set_of(word: &[u8], tasks: u32) -> Option<TaskSet>
    requires { tasks ≤ 1024 }
    ensures { result ≡ set_in tasks word.now }
{
    if word.len() != ((tasks + 3) / 4) as usize {
        return None;
    }
    let mut set = TaskSet::empty();
    for (k, b) in word.iter().enumerate() {
        let b = *b;
        if !is_hex(b) {
            return None;
        }
        if !put_digit(&mut set, tasks, k as u32, hex_value(b)) {
            return None;
        }
    }
    Some(set)
}
