//! Headings.
//!
//! A line that begins with `<` has to be one of six: the headings of five sections, and the end mark. Upper and lower
//! case are alike there. So a copy of that one line is made in lower case, which is the only memory that a heading
//! takes.
ghost use Rattle.std.specs.Prelude.{◌≡◌, IfOk};
ghost use Rattle.alb_reader.specs.Sections.{begins_heading, named, mark_of};

use std::alloc::{AllocError, Global};

/// A section of an ALB text.
#[derive(Clone, Copy, Debug, PartialEq, Eq)]
pub enum Section {
    /// The number of tasks, on one line.
    Tasks,
    /// The cycle time, on one line.
    Cycle,
    /// The order strength, on one line, which is passed over.
    Strength,
    /// A line for each task, with its time.
    Times,
    /// A line for each pair of tasks of which the first is done before the other.
    Pairs,
}

/// What a content is.
#[derive(Clone, Copy, Debug, PartialEq, Eq)]
pub enum Mark {
    /// The heading of a section.
    Heading(Section),
    /// The end mark.
    End,
    /// A heading of no section.
    Unknown,
    /// A line of a section.
    Body,
}

/// Whether a content begins with `<`.
pub fn begins_heading(content: &[u8]) -> bool
    ensures { result ≡ begins_heading content.now }
{
    match content {
        [first, ..] => *first == b'<',
        [] => false,
    }
}

// What a heading, its letters in lower case, names.
fn named(heading: &[u8]) -> Mark
    ensures { result ≡ named heading.now }
{
    if heading == b"<number of tasks>".as_slice() {
        return Mark::Heading(Section::Tasks);
    }
    if heading == b"<cycle time>".as_slice() {
        return Mark::Heading(Section::Cycle);
    }
    if heading == b"<order strength>".as_slice() {
        return Mark::Heading(Section::Strength);
    }
    if heading == b"<task times>".as_slice() {
        return Mark::Heading(Section::Times);
    }
    if heading == b"<precedence relations>".as_slice() {
        return Mark::Heading(Section::Pairs);
    }
    if heading == b"<end>".as_slice() {
        return Mark::End;
    }
    Mark::Unknown
}

/// What a content is: a heading, whose letters A to Z are read as a to z, or a line of a section. An error where memory
/// is wanting.
pub fn mark_of(alloc: Global, content: &[u8]) -> Result<Mark, AllocError>
    ensures { IfOk result (λ m. m ≡ mark_of content.now) }
{
    if !begins_heading(content) {
        return Ok(Mark::Body);
    }
    let lowered = content.to_ascii_lowercase(alloc)?;
    Ok(named(&lowered))
}
