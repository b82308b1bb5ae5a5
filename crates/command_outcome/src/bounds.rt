//! The bounds of a search, as every command prints them, and the report of a search that memory ended: its memory is
//! taken before the search, so that the report costs none.
ghost use Rattle.std.specs.Prelude.{◌≡◌, ◌++◌, string_bytes, OnOk, IfOk, []};
ghost use Rattle.command_outcome.specs.Bounds.{bounds_line, cut_short_text, seek_line, seek_text};
ghost use Rattle.command_outcome.specs.Outcome.{MayStop, Stops, told};
ghost use Rattle.command_outcome.specs.declared.status.Status.TheVariants as ends;

use crate::report::{EarlyEnd, refuse};
use crate::status::Status;
use std::alloc::{AllocError, Global};

/// More bytes than the report of a search that memory ended can have: two numbers of at most 39 digits, and 27 bytes
/// beside them.
const CUT_SHORT_ROOM: usize = 128;

/// The line with both bounds.
pub fn push_bounds(text: &mut String, lower: u128, upper: u128) -> Result<(), AllocError>
    ensures { OnOk result (string_bytes text.new ≡ string_bytes text.old ++ bounds_line lower upper) }
{
    write!(text, "bounds {lower} {upper}\n")
}

/// A text, and behind it the line that says how many units a seek used of those that it might use, and how many of its
/// lemmas were kept.
pub fn with_seek_line(text: String, used: u64, limit: u64, kept: u64) -> Result<String, AllocError>
    ensures { IfOk result (λ t. string_bytes t ≡ string_bytes text ++ seek_line used limit kept) }
{
    let mut text = text;
    write!(text, "seek used {used} of {limit} kept {kept}\n")?;
    Ok(text)
}

/// The first line of a report on a search whose tries may each seek with so many loads: what all their seeks used of
/// what they might, and how many of their lemmas were kept; no line where there are no loads.
pub fn seek_text(
    alloc: Global,
    loads: u64,
    used: u64,
    limit: u64,
    kept: u64,
) -> Result<String, AllocError>
    ensures { IfOk result (λ t. string_bytes t ≡ seek_text loads used limit kept) }
{
    let text = String::new(alloc);
    if loads == 0 {
        return Ok(text);
    }
    with_seek_line(text, used, limit, kept)
}

/// Memory for the report of a search that memory ends, taken before the search.
pub fn room_for_bounds(alloc: Global) -> Result<String, AllocError>
    ensures { IfOk result (λ s. string_bytes s ≡ []) }
{
    String::with_capacity(alloc, CUT_SHORT_ROOM)
}

/// The report of a search that memory ended, in memory that was taken before.
pub fn cut_short_text(room: String, lower: u128, upper: u128) -> Result<Vec<u8>, AllocError>
    requires { string_bytes room ≡ [] }
    ensures { IfOk result (λ t. t.items ≡ cut_short_text lower upper) }
{
    let mut text = room;
    text.push_str("stopped by memory\n")?;
    push_bounds(&mut text, lower, upper)?;
    Ok(text.into_bytes())
}

/// The refusal of a search that memory ended, with its bounds, in memory that was taken before.
pub fn cut_short(room: String, lower: u128, upper: u128) -> Result<EarlyEnd, AllocError>
    requires room { string_bytes room ≡ [] }
    ensures answer { IfOk result (Stops (λ out. out ≡ told ends.Memory (cut_short_text lower upper))) }
    ensures fault { IfOk result (MayStop ⊥) }
{
    let text = cut_short_text(room, lower, upper)?;
    Ok(refuse(Status::Memory, text))
}
