//! Numbers in words.
//!
//! A number has one spelling: digits, with no 0 in front of another digit. A value above the limit of its key is no
//! value, so a job can't have one.
ghost use Rattle.std.specs.Prelude.{◌≡◌, ◌≤◌, IfSome};
ghost use Rattle.line_words.specs.Table.{leads_with_nought, number_up_to};

use line_io::{Num, Span, number};

/// Whether more than one byte stands there, and the first is the digit 0.
fn leads_with_nought(bytes: &[u8]) -> bool
    ensures { result ≡ leads_with_nought bytes.now }
{
    match bytes {
        [first, _, ..] => *first == b'0',
        _ => false,
    }
}

/// The number up to `most` that a text writes with no needless 0 in front.
pub(crate) fn number_up_to(most: u64, text: &str) -> Option<u64>
    ensures value { result ≡ number_up_to most text.now }
    ensures most { IfSome result (λ v. v ≤ most) }
{
    let bytes = text.as_bytes();
    if leads_with_nought(bytes) {
        return None;
    }
    let span = Span {
        from: 0,
        to: bytes.len(),
    };
    match number(bytes, span, most) {
        Num::Value(value) => Some(value),
        Num::NotANumber => None,
        Num::Above => None,
    }
}
