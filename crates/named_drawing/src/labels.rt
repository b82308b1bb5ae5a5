//! What is written into the segment of a task, and the note of the tasks of which nothing is.
//!
//! A label is made anew wherever it is asked for, which takes a few passes over the bytes of the name and no memory.
ghost use Rattle.std.specs.Prelude.{◌≡◌, ◌≤◌, ◌<◌, ◌++◌, ◌∷◌, [], All, IfOk, OnOk, cond, length, string_bytes};
ghost use Rattle.task_names.specs.TaskNames.{name_at};
ghost use Rattle.named_drawing.specs.Labels.{is_nothing, is_unlabelled, label_of, named_note, number_label, parts_fit};
ghost use Rattle.named_drawing.specs.Labels.{parts_label, unlabelled};
ghost use Rattle.named_drawing.specs.inner.Cuts.{IsCut, IsCutLabel};

use crate::widths::{best_blank, fits};
use line_drawing::{Segment, is_narrow, shortened};
use std::alloc::{AllocError, Global};
use task_names::Names;

/// What stands in the segment of a task.
#[derive(Clone, Copy, Debug)]
pub enum Label {
    /// The name of the task.
    Name,
    /// The name in two parts, one above the other, around the blank at a place.
    Parts(usize),
    /// The number of the task.
    Number,
    /// Nothing, since nothing fits.
    Nothing,
}

/// The name of a task.
pub(crate) fn name_of(names: &Names, task: u32) -> &str
    requires { task < length names.now }
    ensures name { result.now ≡ name_at names.now task }
    ensures short { length result.now ≤ 64 }
{
    let _many = names.len();
    names.at(task as usize)
}

/// The number of a segment's task, where it fits.
fn number_label(segment: &Segment) -> Label
    ensures { result ≡ number_label segment.now }
{
    if is_narrow(segment) {
        return Label::Nothing;
    }
    Label::Number
}

/// Whether both parts of a name fit into a segment.
fn parts_fit(room: u64, name: &[u8], at: usize) -> bool
    requires short { length name.now ≤ 64 }
    requires within { at < length name.now }
    ensures { result ≡ parts_fit room name.now at }
{
    fits(room, &name[..at]) && fits(room, &name[at + 1..])
}

/// The parts of a name around a blank, where they fit, and else the number.
fn parts_label(name: &[u8], segment: &Segment, best: Option<usize>) -> Label
    requires short { length name.now ≤ 64 }
    requires blank { IsCut name.now best }
    ensures { result ≡ parts_label name.now segment.now best }
{
    match best {
        Some(at) => {
            if parts_fit(segment.width, name, at) {
                return Label::Parts(at);
            }
            number_label(segment)
        }
        None => number_label(segment),
    }
}

/// The label of a segment, whose task has this name.
pub(crate) fn label_of(name: &str, segment: &Segment) -> Label
    requires { length name.now ≤ 64 }
    ensures label { result ≡ label_of name.now segment.now }
    ensures blank { IsCutLabel name.now result }
{
    let name = name.as_bytes();
    if fits(segment.width, name) {
        return Label::Name;
    }
    parts_label(name, segment, best_blank(name))
}

/// Whether a segment stays without a label.
fn is_unlabelled(names: &Names, segment: &Segment) -> bool
    requires { segment.now.task < length names.now }
    ensures { result ≡ is_unlabelled names.now segment.now }
{
    match label_of(name_of(names, segment.task), segment) {
        Label::Nothing => true,
        _ => false,
    }
}

/// Puts the number of a task behind others, where it is wanted.
fn keep(numbers: &mut Vec<u64>, number: u64, wanted: bool) -> Result<(), AllocError>
    ensures { OnOk result (numbers.new.items ≡ numbers.old.items ++ cond wanted (number ∷ []) []) }
{
    if wanted {
        numbers.push(number)?;
    }
    Ok(())
}

/// The numbers of the tasks without a label, in the order of segments.
fn unlabelled(alloc: Global, names: &Names, segments: &[Segment]) -> Result<Vec<u64>, AllocError>
    requires { All (λ s. s.task < length names.now) segments.now }
    ensures { IfOk result (λ v. v.items ≡ unlabelled names.now segments.now) }
{
    let mut numbers = Vec::new(alloc);
    for segment in segments {
        let wanted = is_unlabelled(names, segment);
        keep(&mut numbers, u64::from(segment.task) + 1, wanted)?;
    }
    Ok(numbers)
}

/// The note of a station: its tasks without a label; empty where each has one.
pub(crate) fn named_note(
    alloc: Global,
    names: &Names,
    segments: &[Segment],
) -> Result<String, AllocError>
    requires { All (λ s. s.task < length names.now) segments.now }
    ensures text { IfOk result (λ t. string_bytes t ≡ named_note names.now segments.now) }
    ensures short { IfOk result (λ t. length (string_bytes t) ≤ 40) }
{
    let numbers = unlabelled(alloc, names, segments)?;
    shortened(alloc, &numbers)
}
