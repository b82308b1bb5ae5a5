//! The reading of an ALB text line by line, up to its end mark.
//!
//! A line with a content is a heading, the end mark or a line of the present section. The draft takes it or tells what
//! is wrong with it, and the first line that isn't taken ends the reading. Nothing after the end mark is looked at.
ghost use Rattle.std.specs.Prelude.{◌≡◌, ◌<◌, ◌^◌, length};
ghost use Rattle.in2_reader.specs.Contents.{contents_from, lines_in};
ghost use Rattle.alb_reader.specs.inner.Drafts.{IsDrafted, error_at};

use crate::draft::Draft;
use crate::fault::{AlbError, AlbKind, LineError, fault};
use crate::mark::{Mark, mark_of};
use in2_reader::next_content;
use std::alloc::Global;

// The fault of a line, or out of memory.
fn error_at(line: u64, error: LineError) -> AlbError
    ensures { result ≡ error_at line error }
{
    match error {
        LineError::Memory => AlbError::Memory,
        LineError::Fault(kind) => fault(line, kind),
    }
}

/// Reads the lines up to the end mark, and gives the draft of them with the number of the line of the mark.
pub fn read_draft(alloc: Global, bytes: &[u8]) -> Result<(Draft, u64), AlbError>
    requires { length bytes.now < 2 ^ 63 }
    ensures { IsDrafted (contents_from 1 bytes.now) (lines_in 1 bytes.now) result }
{
    let mut draft = Draft::new(alloc);
    let mut left = bytes;
    let mut at = 1;
    'lines: loop {
        let content = match next_content(left, at) {
            Err(end) => return Err(fault(end, AlbKind::MissingEnd)),
            Ok(content) => content,
        };
        let mark = mark_of(alloc, content.bytes)?;
        if let Mark::End = mark {
            return Ok((draft, content.line));
        }
        if let Err(error) = draft.take(mark, content.line, content.bytes) {
            return Err(error_at(content.line, error));
        }
        left = content.rest;
        at = content.line + 1;
    }
}
