//! What a field is: a name, a number, a task, or nothing.
ghost use Rattle.std.specs.Prelude.{◌≡◌, ◌≤◌, ◌<◌, ℕ, IfOk, IfSome};
ghost use Rattle.std.specs.List.{list_all};
ghost use Rattle.line_io.specs.Lines.{number_in};
ghost use Rattle.line_io.specs.declared.text.Num.TheVariants.{Value};
ghost use Rattle.combined_graph.specs.Mixes.{is_name as name_test, is_name_byte as name_byte};
ghost use Rattle.combined_graph.specs.MixRecords.{bounded, positive, task_in};

use crate::fault::MixKind;
use line_io::{Num, Span, number};

// Letters, digits, `-` and `_`.
fn is_name_byte(b: u8) -> bool
    ensures { result ≡ name_byte b }
{
    b.is_ascii_alphanumeric() || b == b'-' || b == b'_'
}

// Whether each byte is one of a name.
fn is_of_name(field: &[u8]) -> bool
    ensures { result ≡ list_all name_byte field.now }
{
    field.iter().all(|b| is_name_byte(*b))
}

/// Whether a field is a name: 1 to 32 letters, digits, `-` or `_`.
pub fn is_name(field: &[u8]) -> bool
    ensures { result ≡ name_test field.now }
{
    !field.is_empty() && field.len() <= 32 && is_of_name(field)
}

// What a field is, read as a number up to a maximum.
fn whole(field: &[u8], max: u64) -> Num
    ensures number { result ≡ number_in max field.now }
    ensures most { (v : ℕ) → result ≡ Value v → v ≤ max }
{
    number(
        field,
        Span {
            from: 0,
            to: field.len(),
        },
        max,
    )
}

/// A number of 0 up to a maximum.
pub fn bounded(field: &[u8], max: u64) -> Result<u64, MixKind>
    ensures value { result ≡ bounded (number_in max field.now) }
    ensures most { IfOk result (λ v. v ≤ max) }
{
    match whole(field, max) {
        Num::NotANumber => Err(MixKind::Form),
        Num::Above => Err(MixKind::Range),
        Num::Value(v) => Ok(v),
    }
}

/// A number of 1 up to a maximum.
pub fn positive(field: &[u8], max: u64) -> Result<u64, MixKind>
    ensures value { result ≡ positive (number_in max field.now) }
    ensures some { IfOk result (λ v. 0 < v) }
    ensures most { IfOk result (λ v. v ≤ max) }
{
    match whole(field, max) {
        Num::NotANumber => Err(MixKind::Form),
        Num::Above | Num::Value(0) => Err(MixKind::Range),
        Num::Value(v) => Ok(v),
    }
}

/// The task, counted from 0, that a number stands for, where there is such a task.
pub fn task_in(tasks: u32, field: &[u8]) -> Result<Option<u32>, MixKind>
    ensures value { result ≡ task_in tasks field.now }
    ensures task { IfOk result (λ o. IfSome o (λ t. t < tasks)) }
{
    match whole(field, u64::from(tasks)) {
        Num::NotANumber => Err(MixKind::Form),
        Num::Above | Num::Value(0) => Ok(None),
        Num::Value(v) => Ok(Some((v - 1) as u32)),
    }
}
