//! The row of a station, line by line.
ghost use Rattle.std.specs.Prelude.{◌≡◌, ◌≤◌, ◌<◌, ◌^◌, ◌+◌, ◌-◌, ◌*◌, ◌++◌, All, codes, decimal, IfOk, OnOk, length};
ghost use Rattle.std.specs.Prelude.{string_bytes};
ghost use Rattle.line_drawing.specs.Rows.{back_text, backs_text, columns_text, each_where, front_text, has_side, is_of};
ghost use Rattle.line_drawing.specs.Rows.{label_text, labels_text, margin_text, number_text, numbers_text};
ghost use Rattle.line_drawing.specs.Rows.{opening_text, path_text, place_text, row_text, slowest_text, tasks_text};
ghost use Rattle.line_drawing.specs.Rows.{times_text};
ghost use Rattle.line_drawing.specs.Figures.{AreFigures};
ghost use Rattle.line_drawing.specs.Notes.{is_narrow};
ghost use Rattle.line_drawing.specs.Segments.{end_of};

use crate::figures::Figures;
use crate::notes::is_narrow;
use crate::segments::Segment;
use line_rules::{LineKind, Side};
use std::alloc::AllocError;

/// The numbers of the tasks of a side, each after a blank.
fn push_numbers(text: &mut String, side: Side, segments: &[Segment]) -> Result<(), AllocError>
    ensures { OnOk result (string_bytes text.new ≡ string_bytes text.old ++ numbers_text side segments.now) }
{
    for segment in segments {
        if segment.side == side {
            let number = u64::from(segment.task) + 1;
            write!(text, " {number}")?;
        }
    }
    Ok(())
}

/// Whether a segment is of a side.
fn has_side(side: Side, segments: &[Segment]) -> bool
    ensures { result ≡ has_side side segments.now }
{
    segments.iter().any(|segment| segment.side == side)
}

/// The tasks at the back after the word for it, where there are some.
fn push_backs(text: &mut String, segments: &[Segment]) -> Result<(), AllocError>
    ensures { OnOk result (string_bytes text.new ≡ string_bytes text.old ++ backs_text segments.now) }
{
    if !has_side(Side::Back, segments) {
        return Ok(());
    }
    text.push_str(" back")?;
    push_numbers(text, Side::Back, segments)
}

/// The tasks of a station: those in front, and those at the back.
fn push_tasks(text: &mut String, segments: &[Segment]) -> Result<(), AllocError>
    ensures { OnOk result (string_bytes text.new ≡ string_bytes text.old ++ tasks_text segments.now) }
{
    push_numbers(text, Side::Front, segments)?;
    push_backs(text, segments)
}

/// The place and the number of a station.
fn push_place(text: &mut String, station: u32) -> Result<(), AllocError>
    ensures { OnOk result (string_bytes text.new ≡ string_bytes text.old ++ place_text station) }
{
    let y = 88 + 24 * u64::from(station);
    write!(
        text,
        "<g transform=\"translate(64 {y})\"><title>station {station}:"
    )?;
    Ok(())
}

/// The sum of a station's times, and what is left of the cycle.
pub fn push_times(text: &mut String, figures: &Figures, sum: u64) -> Result<(), AllocError>
    requires { sum ≤ figures.now.cycle }
    ensures { OnOk result (string_bytes text.new ≡ string_bytes text.old ++ times_text figures.now sum) }
{
    let idle = figures.cycle - sum;
    write!(text, ", time {sum}, idle {idle}</title>\n")?;
    Ok(())
}

/// The heading of a row: what its station does, in words.
fn push_opening(
    text: &mut String,
    figures: &Figures,
    station: u32,
    sum: u64,
    segments: &[Segment],
) -> Result<(), AllocError>
    requires { sum ≤ figures.now.cycle }
    ensures { OnOk result (string_bytes text.new ≡ string_bytes text.old
        ++ opening_text figures.now station sum segments.now) }
{
    push_place(text, station)?;
    push_tasks(text, segments)?;
    push_times(text, figures, sum)
}

/// The segment of a task.
fn push_path(text: &mut String, segment: &Segment) -> Result<(), AllocError>
    ensures { OnOk result (string_bytes text.new ≡ string_bytes text.old ++ path_text segment.now) }
{
    let Segment { x, width, time, .. } = *segment;
    let number = u64::from(segment.task) + 1;
    write!(
        text,
        "<path d=\"M{x}-14v20h{width}v-20z\"><title>task {number}, time {time}</title></path>\n"
    )?;
    Ok(())
}

/// The segments of a side.
fn push_paths(text: &mut String, side: Side, segments: &[Segment]) -> Result<(), AllocError>
    ensures { OnOk result (string_bytes text.new ≡ string_bytes text.old
        ++ each_where (is_of side) path_text segments.now) }
{
    for segment in segments {
        if segment.side == side {
            push_path(text, segment)?;
        }
    }
    Ok(())
}

/// The frame of a row, and the segments in front in it.
fn push_front(text: &mut String, segments: &[Segment]) -> Result<(), AllocError>
    ensures { OnOk result (string_bytes text.new ≡ string_bytes text.old ++ front_text segments.now) }
{
    text.push_str(
        "<path fill=\"#fff\" stroke=\"#888\" d=\"M0-14v20h800v-20z\"/>\n<g fill=\"#cfe2f6\" stroke=\"#467\">\n",
    )?;
    push_paths(text, Side::Front, segments)?;
    text.push_str("</g>\n")?;
    Ok(())
}

/// The segments at the back; a straight line has none.
fn push_back(text: &mut String, kind: LineKind, segments: &[Segment]) -> Result<(), AllocError>
    ensures { OnOk result (string_bytes text.new ≡ string_bytes text.old ++ back_text kind segments.now) }
{
    match kind {
        LineKind::Straight => Ok(()),
        LineKind::U => {
            text.push_str("<g fill=\"#76a5d8\" stroke=\"#000\">\n")?;
            push_paths(text, Side::Back, segments)?;
            text.push_str("</g>\n")?;
            Ok(())
        }
    }
}

/// The number of a task in the middle of its segment.
fn push_label(text: &mut String, segment: &Segment) -> Result<(), AllocError>
    requires { end_of segment.now ≤ 800 }
    ensures { OnOk result (string_bytes text.new ≡ string_bytes text.old ++ label_text segment.now) }
{
    let middle = segment.x + segment.width / 2;
    let number = u64::from(segment.task) + 1;
    write!(text, "<text x=\"{middle}\">{number}</text>\n")?;
    Ok(())
}

/// The numbers of the tasks that aren't narrow.
fn push_labels(text: &mut String, segments: &[Segment]) -> Result<(), AllocError>
    requires { All (λ s. end_of s ≤ 800) segments.now }
    ensures { OnOk result (string_bytes text.new ≡ string_bytes text.old ++ labels_text segments.now) }
{
    text.push_str("<g text-anchor=\"middle\" pointer-events=\"none\">\n")?;
    for segment in segments {
        if !is_narrow(segment) {
            push_label(text, segment)?;
        }
    }
    text.push_str("</g>\n")?;
    Ok(())
}

/// The station, the sum of its times, and what is left of the cycle.
pub fn push_columns(
    text: &mut String,
    figures: &Figures,
    station: u32,
    sum: u64,
) -> Result<(), AllocError>
    requires figures { AreFigures figures.now }
    requires fits { sum ≤ figures.now.cycle }
    ensures { OnOk result (string_bytes text.new ≡ string_bytes text.old ++ columns_text figures.now station sum) }
{
    let time_x = 800 + figures.column;
    let idle_x = 800 + 2 * figures.column;
    let idle = figures.cycle - sum;
    write!(
        text,
        "<text x=\"-8\">{station}</text><text x=\"{time_x}\">{sum}</text><text x=\"{idle_x}\">{idle}</text>\n"
    )?;
    Ok(())
}

/// The word for a station with the greatest sum.
pub fn push_slowest(text: &mut String, figures: &Figures, sum: u64) -> Result<(), AllocError>
    requires { AreFigures figures.now }
    ensures { OnOk result (string_bytes text.new ≡ string_bytes text.old ++ slowest_text figures.now sum) }
{
    if sum != figures.longest {
        return Ok(());
    }
    let x = 860 + 2 * figures.column;
    write!(text, "<text x=\"{x}\">slowest</text>\n")?;
    Ok(())
}

/// The note, where there is one.
pub fn push_margin(text: &mut String, figures: &Figures, note: &str) -> Result<(), AllocError>
    requires { AreFigures figures.now }
    ensures { OnOk result (string_bytes text.new ≡ string_bytes text.old ++ margin_text figures.now note.now) }
{
    if note.is_empty() {
        return Ok(());
    }
    let x = 872 + 2 * figures.column;
    write!(
        text,
        "<text x=\"{x}\" text-anchor=\"start\">{note}</text>\n"
    )?;
    Ok(())
}

/// The row of a station with this sum, these segments and this note.
pub(crate) fn push_row(
    text: &mut String,
    figures: &Figures,
    station: u32,
    sum: u64,
    segments: &[Segment],
    note: &str,
) -> Result<(), AllocError>
    requires figures { AreFigures figures.now }
    requires fits { sum ≤ figures.now.cycle }
    requires within { All (λ s. end_of s ≤ 800) segments.now }
    ensures { OnOk result (string_bytes text.new ≡ string_bytes text.old
        ++ row_text figures.now station sum segments.now note.now) }
{
    push_opening(text, figures, station, sum, segments)?;
    push_front(text, segments)?;
    push_back(text, figures.kind, segments)?;
    push_labels(text, segments)?;
    push_columns(text, figures, station, sum)?;
    push_slowest(text, figures, sum)?;
    push_margin(text, figures, note)?;
    text.push_str("</g>\n")?;
    Ok(())
}
