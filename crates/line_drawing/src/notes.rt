//! The tasks whose numbers don't fit into their segments, noted beside the row.
ghost use Rattle.std.specs.Prelude.{◌≡◌, ◌≤◌, ◌<◌, ◌^◌, ◌++◌, All, IfOk, OnOk, codes, decimal, length, string_bytes};
ghost use Rattle.line_drawing.specs.Notes.{blanked, is_narrow, joined, narrow_numbers, note_of, shortened};

use crate::segments::Segment;
use itoa::Buffer;
use std::alloc::{AllocError, Global};

/// The most bytes of a note that names its tasks.
const NOTE: usize = 40;

/// How many digits a number has.
pub fn digits(n: u64) -> u64
    ensures digits { result ≡ length (decimal n) }
    ensures few { result ≤ 20 }
{
    let mut buffer = Buffer::new();
    buffer.format(n).len() as u64
}

/// Whether a task's number doesn't fit into its segment.
pub fn is_narrow(segment: &Segment) -> bool
    ensures { result ≡ is_narrow segment.now }
{
    segment.width < 8 * digits(u64::from(segment.task) + 1) + 2
}

/// The numbers of the narrow tasks, in the order of segments.
fn narrow_numbers(alloc: Global, segments: &[Segment]) -> Result<Vec<u64>, AllocError>
    ensures { IfOk result (λ v. v.items ≡ narrow_numbers segments.now) }
{
    segments
        .iter()
        .filter(|segment| is_narrow(segment))
        .map(|segment| u64::from(segment.task) + 1)
        .collect(alloc)
}

/// Numbers behind a text, each after a blank.
fn push_blanked(text: &mut String, numbers: &[u64]) -> Result<(), AllocError>
    ensures { OnOk result (string_bytes text.new ≡ string_bytes text.old ++ blanked numbers.now) }
{
    for number in numbers {
        write!(text, " {number}")?;
    }
    Ok(())
}

/// Numbers with one blank between.
fn joined(alloc: Global, numbers: &[u64]) -> Result<String, AllocError>
    ensures { IfOk result (λ t. string_bytes t ≡ joined numbers.now) }
{
    let mut text = String::new(alloc);
    let [first, rest @ ..] = numbers else {
        return Ok(text);
    };
    write!(text, "{first}")?;
    push_blanked(&mut text, rest)?;
    Ok(text)
}

/// So many tasks.
fn counted(alloc: Global, count: usize) -> Result<String, AllocError>
    ensures text { IfOk result (λ t. string_bytes t ≡ decimal count ++ codes " tasks") }
    ensures short { IfOk result (λ t. length (string_bytes t) ≤ 40) }
{
    let mut text = String::new(alloc);
    write!(text, "{count} tasks")?;
    Ok(text)
}

/// Numbers with one blank between, or their count where that is too long.
pub fn shortened(alloc: Global, numbers: &[u64]) -> Result<String, AllocError>
    ensures text { IfOk result (λ t. string_bytes t ≡ shortened numbers.now) }
    ensures short { IfOk result (λ t. length (string_bytes t) ≤ 40) }
{
    let text = joined(alloc, numbers)?;
    if text.len() <= NOTE {
        return Ok(text);
    }
    counted(alloc, numbers.len())
}

/// The note of a station: its narrow tasks; empty where there are none.
pub(crate) fn note_of(alloc: Global, segments: &[Segment]) -> Result<String, AllocError>
    ensures text { IfOk result (λ t. string_bytes t ≡ note_of segments.now) }
    ensures short { IfOk result (λ t. length (string_bytes t) ≤ 40) }
{
    let numbers = narrow_numbers(alloc, segments)?;
    shortened(alloc, &numbers)
}
