//! The reading of wide numbers, and of lines of a word and two numbers.
ghost use Rattle.std.specs.Prelude.{◌≡◌, min};
ghost use Rattle.line_io.specs.Lines.{value_of};
ghost use Rattle.effic_cert.specs.inner.WideReading.{widest, wide_in, wide_keyed_in, two_in, span_in};

use cert_lines::words::{first_number, number, split_at};

// What digits stand for. A number past 128 bits is the greatest of 128 bits.
fn value(digits: &[u8]) -> u128
    ensures { result ≡ min (value_of digits.now) widest }
{
    let mut value = 0u128;
    for b in digits {
        let digit = b.saturating_sub(b'0');
        value = value.saturating_mul(10).saturating_add(u128::from(digit));
    }
    value
}

/// The number that a word is, without a needless 0 in front. A number past 128 bits is the greatest of 128 bits.
#[tactic(auto, unfolding(crate::specs::inner::WideReading::wide_in))]
pub(crate) fn wide(word: &[u8]) -> Option<u128>
    ensures { result ≡ wide_in word.now }
{
    number(word)?;
    Some(value(word))
}

/// The wide number behind a word.
#[tactic(auto, unfolding(crate::specs::inner::WideReading::wide_keyed_in))]
pub(crate) fn wide_keyed(line: &[u8], key: &[u8]) -> Option<u128>
    ensures { result ≡ wide_keyed_in key.now line.now }
{
    let (word, rest) = split_at(line, b' ')?;
    if word != key {
        return None;
    }
    wide(rest)
}

// Two numbers with a blank between.
#[tactic(auto, unfolding(crate::specs::inner::WideReading::two_in))]
fn two(bytes: &[u8]) -> Option<(u64, u64)>
    ensures { result ≡ two_in bytes.now }
{
    let (first, rest) = first_number(bytes)?;
    let second = number(rest)?;
    Some((first, second))
}

/// The two numbers behind a word.
#[tactic(auto, unfolding(crate::specs::inner::WideReading::span_in))]
pub(crate) fn span(line: &[u8], key: &[u8]) -> Option<(u64, u64)>
    ensures { result ≡ span_in key.now line.now }
{
    let (word, rest) = split_at(line, b' ')?;
    if word != key {
        return None;
    }
    two(rest)
}
