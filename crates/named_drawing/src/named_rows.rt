//! The row of a station, line by line, with the names of its tasks.
//!
//! A row goes over its segments a few times: for its heading, for the shapes of either side and for the labels.
ghost use Rattle.std.specs.Prelude.{◌≡◌, ◌≤◌, ◌<◌, ◌^◌, ◌+◌, ◌-◌, ◌*◌, ◌++◌, [], All, OnOk, length, string_bytes};
ghost use Rattle.task_names.specs.TaskNames.{name_at};
ghost use Rattle.line_drawing.specs.Figures.{AreFigures};
ghost use Rattle.line_drawing.specs.Parts.{text_of};
ghost use Rattle.line_drawing.specs.Rows.{each_where, is_of};
ghost use Rattle.line_drawing.specs.Segments.{end_of};
ghost use Rattle.named_drawing.specs.Labels.{label_of};
ghost use Rattle.named_drawing.specs.NamedRows.{back_text, front_text, label_line, label_lines, label_text};
ghost use Rattle.named_drawing.specs.NamedRows.{labels_text};
ghost use Rattle.named_drawing.specs.NamedRows.{lead, middle_of, name_text, named_row, names_text, number_parts};
ghost use Rattle.named_drawing.specs.NamedRows.{opening_text, parts_text, path_text, place_text, shape_parts};
ghost use Rattle.named_drawing.specs.NamedRows.{shown_name};
ghost use Rattle.named_drawing.specs.NamedRows.{time_parts};
ghost use Rattle.named_drawing.specs.inner.Cuts.{IsCutAt};

use crate::escapes::push_escaped;
use crate::labels::{Label, label_of, name_of};
use line_drawing::{Figures, Segment, push_columns, push_margin, push_slowest, push_times};
use line_rules::{LineKind, Side};
use std::alloc::AllocError;
use task_names::Names;

/// What stands before the name of a task, by the side of the task before it.
fn lead(before: Option<Side>, side: Side) -> &'static str
    ensures { result.now ≡ lead before side }
{
    match before {
        None => match side {
            Side::Front => " ",
            Side::Back => " back: ",
        },
        Some(Side::Front) => match side {
            Side::Front => "; ",
            Side::Back => "; back: ",
        },
        Some(Side::Back) => "; ",
    }
}

/// The names of the tasks of a station.
fn push_names(text: &mut String, names: &Names, segments: &[Segment]) -> Result<(), AllocError>
    requires { All (λ s. s.task < length names.now) segments.now }
    ensures { OnOk result (string_bytes text.new ≡ string_bytes text.old ++ names_text names.now None segments.now) }
{
    let mut before = None;
    for segment in segments {
        text.push_str(lead(before, segment.side))?;
        push_escaped(text, name_of(names, segment.task))?;
        before = Some(segment.side);
    }
    Ok(())
}

/// The place and the number of a station.
fn push_place(text: &mut String, station: u32) -> Result<(), AllocError>
    ensures { OnOk result (string_bytes text.new ≡ string_bytes text.old ++ place_text station) }
{
    let y = 76 + 36 * u64::from(station);
    write!(
        text,
        "<g transform=\"translate(64 {y})\"><title>station {station}:"
    )?;
    Ok(())
}

/// The heading of a row: what its station does, in words.
fn push_opening(
    text: &mut String,
    figures: &Figures,
    names: &Names,
    station: u32,
    sum: u64,
    segments: &[Segment],
) -> Result<(), AllocError>
    requires fits { sum ≤ figures.now.cycle }
    requires named { All (λ s. s.task < length names.now) segments.now }
    ensures { OnOk result (string_bytes text.new ≡ string_bytes text.old
        ++ opening_text figures.now names.now station sum segments.now) }
{
    push_place(text, station)?;
    push_names(text, names, segments)?;
    push_times(text, figures, sum)?;
    Ok(())
}

/// The shape of a segment, and the number of its task.
fn push_shape(text: &mut String, segment: &Segment) -> Result<(), AllocError>
    ensures { OnOk result (string_bytes text.new ≡ string_bytes text.old ++ text_of (shape_parts segment.now)) }
{
    let Segment { x, width, .. } = *segment;
    let number = u64::from(segment.task) + 1;
    write!(text, "<path d=\"M{x}-20v32h{width}v-32z\"><title>{number} ")?;
    Ok(())
}

/// The time of a segment's task.
fn push_time(text: &mut String, segment: &Segment) -> Result<(), AllocError>
    ensures { OnOk result (string_bytes text.new ≡ string_bytes text.old ++ text_of (time_parts segment.now)) }
{
    let time = segment.time;
    write!(text, ", time {time}</title></path>\n")?;
    Ok(())
}

/// The segment of a task.
fn push_path(text: &mut String, names: &Names, segment: &Segment) -> Result<(), AllocError>
    requires { segment.now.task < length names.now }
    ensures { OnOk result (string_bytes text.new ≡ string_bytes text.old ++ path_text names.now segment.now) }
{
    push_shape(text, segment)?;
    push_escaped(text, name_of(names, segment.task))?;
    push_time(text, segment)?;
    Ok(())
}

/// The segments of a side.
fn push_paths(
    text: &mut String,
    names: &Names,
    side: Side,
    segments: &[Segment],
) -> Result<(), AllocError>
    requires { All (λ s. s.task < length names.now) segments.now }
    ensures { OnOk result (string_bytes text.new ≡ string_bytes text.old
        ++ each_where (is_of side) (path_text names.now) segments.now) }
{
    for segment in segments {
        if segment.side == side {
            push_path(text, names, segment)?;
        }
    }
    Ok(())
}

/// The frame of a row, and the segments in front in it.
fn push_front(text: &mut String, names: &Names, segments: &[Segment]) -> Result<(), AllocError>
    requires { All (λ s. s.task < length names.now) segments.now }
    ensures { OnOk result (string_bytes text.new ≡ string_bytes text.old ++ front_text names.now segments.now) }
{
    text.push_str(
        "<path fill=\"#fff\" stroke=\"#888\" d=\"M0-20v32h800v-32z\"/>\n<g fill=\"#cfe2f6\" stroke=\"#467\">\n",
    )?;
    push_paths(text, names, Side::Front, segments)?;
    text.push_str("</g>\n")?;
    Ok(())
}

/// The segments at the back; a straight line has none.
fn push_back(
    text: &mut String,
    kind: LineKind,
    names: &Names,
    segments: &[Segment],
) -> Result<(), AllocError>
    requires { All (λ s. s.task < length names.now) segments.now }
    ensures { OnOk result (string_bytes text.new ≡ string_bytes text.old ++ back_text kind names.now segments.now) }
{
    match kind {
        LineKind::Straight => Ok(()),
        LineKind::U => {
            text.push_str("<g fill=\"#76a5d8\" stroke=\"#000\">\n")?;
            push_paths(text, names, Side::Back, segments)?;
            text.push_str("</g>\n")?;
            Ok(())
        }
    }
}

/// The middle of a segment.
fn middle_of(segment: &Segment) -> u64
    requires { end_of segment.now ≤ 800 }
    ensures { result ≡ middle_of segment.now }
{
    segment.x + segment.width / 2
}

/// A name in the middle of its segment.
fn push_name(text: &mut String, name: &str, segment: &Segment) -> Result<(), AllocError>
    requires { end_of segment.now ≤ 800 }
    ensures { OnOk result (string_bytes text.new ≡ string_bytes text.old ++ name_text name.now segment.now) }
{
    let middle = middle_of(segment);
    write!(text, "<text x=\"{middle}\">")?;
    push_escaped(text, name)?;
    text.push_str("</text>\n")?;
    Ok(())
}

/// The two parts of a name, one above the other.
fn push_parts(text: &mut String, name: &str, segment: &Segment, at: usize) -> Result<(), AllocError>
    requires within { end_of segment.now ≤ 800 }
    requires blank { IsCutAt name.now at }
    ensures { OnOk result (string_bytes text.new ≡ string_bytes text.old ++ parts_text name.now segment.now at) }
{
    let middle = middle_of(segment);
    write!(text, "<text x=\"{middle}\" y=\"-7\">")?;
    push_escaped(text, &name[..at])?;
    write!(text, "</text><text x=\"{middle}\" y=\"7\">")?;
    push_escaped(text, &name[at + 1..])?;
    text.push_str("</text>\n")?;
    Ok(())
}

/// The number of a task in the middle of its segment.
fn push_number(text: &mut String, segment: &Segment) -> Result<(), AllocError>
    requires { end_of segment.now ≤ 800 }
    ensures { OnOk result (string_bytes text.new ≡ string_bytes text.old ++ text_of (number_parts segment.now)) }
{
    let middle = middle_of(segment);
    let number = u64::from(segment.task) + 1;
    write!(
        text,
        "<text x=\"{middle}\" font-style=\"italic\">{number}</text>\n"
    )?;
    Ok(())
}

/// The label of a segment, where there is one.
fn push_label(text: &mut String, name: &str, segment: &Segment) -> Result<(), AllocError>
    requires within { end_of segment.now ≤ 800 }
    requires short { length name.now ≤ 64 }
    ensures { OnOk result (string_bytes text.new ≡ string_bytes text.old
        ++ label_text name.now segment.now (label_of name.now segment.now)) }
{
    match label_of(name, segment) {
        Label::Name => push_name(text, name, segment),
        Label::Parts(at) => push_parts(text, name, segment, at),
        Label::Number => push_number(text, segment),
        Label::Nothing => Ok(()),
    }
}

/// The labels of all segments.
fn push_label_lines(
    text: &mut String,
    names: &Names,
    segments: &[Segment],
) -> Result<(), AllocError>
    requires within { All (λ s. end_of s ≤ 800) segments.now }
    requires named { All (λ s. s.task < length names.now) segments.now }
    ensures { OnOk result (string_bytes text.new ≡ string_bytes text.old ++ label_lines names.now segments.now) }
{
    for segment in segments {
        push_label(text, name_of(names, segment.task), segment)?;
    }
    Ok(())
}

/// The labels of all segments, as a group.
fn push_labels(text: &mut String, names: &Names, segments: &[Segment]) -> Result<(), AllocError>
    requires within { All (λ s. end_of s ≤ 800) segments.now }
    requires named { All (λ s. s.task < length names.now) segments.now }
    ensures { OnOk result (string_bytes text.new ≡ string_bytes text.old ++ labels_text names.now segments.now) }
{
    text.push_str("<g text-anchor=\"middle\" pointer-events=\"none\">\n")?;
    push_label_lines(text, names, segments)?;
    text.push_str("</g>\n")?;
    Ok(())
}

/// The row of a station with this sum, these segments and this note.
pub(crate) fn push_named_row(
    text: &mut String,
    figures: &Figures,
    names: &Names,
    station: u32,
    sum: u64,
    segments: &[Segment],
    note: &str,
) -> Result<(), AllocError>
    requires figures { AreFigures figures.now }
    requires fits { sum ≤ figures.now.cycle }
    requires within { All (λ s. end_of s ≤ 800) segments.now }
    requires named { All (λ s. s.task < length names.now) segments.now }
    ensures { OnOk result (string_bytes text.new ≡ string_bytes text.old
        ++ named_row figures.now names.now station sum segments.now note.now) }
{
    push_opening(text, figures, names, station, sum, segments)?;
    push_front(text, names, segments)?;
    push_back(text, figures.kind, names, segments)?;
    push_labels(text, names, segments)?;
    push_columns(text, figures, station, sum)?;
    push_slowest(text, figures, sum)?;
    push_margin(text, figures, note)?;
    text.push_str("</g>\n")?;
    Ok(())
}
