//! The whole picture of a timeline.
ghost use Rattle.std.specs.Prelude.{◌≡◌, ◌≤◌, ◌<◌, ◌^◌, ◌+◌, ◌*◌, ◌++◌, ℕ, All, IfOk, OnOk, length, string_bytes};
ghost use Rattle.combined_graph.specs.Mixes.{model_at};
ghost use Rattle.timeline_drawing.specs.Parts.{text_of};
ghost use Rattle.timeline_drawing.specs.Visits.{AreWorks, Course, course, name_of};
ghost use Rattle.timeline_drawing.specs.Figures.{AreFigures, AreSums, figures_of, station_sum};
ghost use Rattle.timeline_drawing.specs.Facts.{IsTruePicture};
ghost use Rattle.timeline_drawing.specs.Drawing.{IsTimelineRead, above_text, end_text, ends_parts, ground_text};
ghost use Rattle.timeline_drawing.specs.Drawing.{head_text, heading_parts, headings_text, interval_parts, legend_text};
ghost use Rattle.timeline_drawing.specs.Drawing.{marks_text, marks_to, pace_text, panel_text, panels_to, picture_text};
ghost use Rattle.timeline_drawing.specs.Drawing.{reach_parts};
ghost use Rattle.timeline_drawing.specs.Drawing.{rows_to, size_text, station_word, sum_text, timeline_text};
ghost use Rattle.timeline_drawing.specs.Drawing.{totals_parts};
ghost use Rattle.timeline_drawing.specs.Drawing.{totals_text};
ghost use Rattle.timeline_drawing.specs.Drawing.{unit_word, units_text};

use crate::figures::{Figures, figures_of, position, station_sums};
use crate::rows::push_row;
use crate::visits::{first_starts, next_row, works_of};
use combined_graph::Mix;
use line_rules::Balance;
use std::alloc::{AllocError, Global};
use utility_work::MAX_MODELS;

/// The most units of a picture.
const MAX_UNITS: usize = 1_000;

/// The most stations of a picture.
const MAX_STATIONS: u32 = 64;

/// What drawing a timeline answers.
#[derive(Drop)]
pub enum TimelineRead {
    /// The text: one SVG 1.1 picture.
    Text(Vec<u8>),
    /// There are more than 1,000 units or more than 64 stations.
    TooLarge,
    /// Out of memory.
    NoMemory,
}

/// The word for so many stations.
fn station_word(stations: u32) -> &'static str
    ensures { result.now ≡ station_word stations }
{
    if stations == 1 {
        " station, "
    } else {
        " stations, "
    }
}

/// The word for so many units.
fn unit_word(units: u64) -> &'static str
    ensures { result.now ≡ unit_word units }
{
    if units == 1 { " unit" } else { " units" }
}

/// So many units.
fn push_units(text: &mut String, units: u64) -> Result<(), AllocError>
    ensures { OnOk result (string_bytes text.new ≡ string_bytes text.old ++ units_text units) }
{
    let word = unit_word(units);
    write!(text, "{units}{word}")?;
    Ok(())
}

/// The launch interval and the length of a station.
fn push_pace(text: &mut String, figures: &Figures) -> Result<(), AllocError>
    ensures { OnOk result (string_bytes text.new ≡ string_bytes text.old ++ pace_text figures.now) }
{
    let Figures {
        interval,
        reach,
        ..
    } = *figures;
    write!(text, ", launch interval {interval}, station length {reach}")?;
    Ok(())
}

/// The stations, the units, the launch interval and the length of a station.
fn push_head(text: &mut String, figures: &Figures) -> Result<(), AllocError>
    ensures { OnOk result (string_bytes text.new ≡ string_bytes text.old ++ head_text figures.now) }
{
    let stations = figures.stations;
    let word = station_word(stations);
    write!(text, "{stations}{word}")?;
    push_units(text, figures.units)?;
    push_pace(text, figures)
}

/// The size of the picture.
fn push_size(text: &mut String, figures: &Figures) -> Result<(), AllocError>
    requires { AreFigures figures.now }
    ensures { OnOk result (string_bytes text.new ≡ string_bytes text.old ++ size_text figures.now) }
{
    let width = figures.width();
    let height = figures.height();
    write!(
        text,
        "<svg xmlns=\"http://www.w3.org/2000/svg\" version=\"1.1\" width=\"{width}\" height=\"{height}\" \
        viewBox=\"0 0 {width} {height}\" role=\"img\" \
        font-family=\"Arial,sans-serif\" font-size=\"12\" shape-rendering=\"crispEdges\">\n<title>"
    )?;
    Ok(())
}

/// The ground of the picture.
fn push_ground(text: &mut String, figures: &Figures) -> Result<(), AllocError>
    requires { AreFigures figures.now }
    ensures { OnOk result (string_bytes text.new ≡ string_bytes text.old ++ ground_text figures.now) }
{
    let width = figures.width();
    let height = figures.height();
    write!(
        text,
        "</title>\n<rect width=\"{width}\" height=\"{height}\" fill=\"#fff\"/>\n\
        <text x=\"16\" y=\"28\" font-size=\"18\">"
    )?;
    Ok(())
}

/// The utility work, and how many units have some.
fn push_late(text: &mut String, figures: &Figures) -> Result<(), AllocError>
    ensures { OnOk result (string_bytes text.new ≡ string_bytes text.old ++ text_of (totals_parts figures.now)) }
{
    let Figures { total, late, .. } = *figures;
    write!(
        text,
        "</text>\n<text x=\"16\" y=\"48\">Utility work {total}, at {late} of "
    )?;
    Ok(())
}

/// The sums of the whole line.
fn push_totals(text: &mut String, figures: &Figures) -> Result<(), AllocError>
    ensures { OnOk result (string_bytes text.new ≡ string_bytes text.old ++ totals_text figures.now) }
{
    push_late(text, figures)?;
    push_units(text, figures.units)
}

/// What the marks mean.
fn push_legend(text: &mut String) -> Result<(), AllocError>
    ensures { OnOk result (string_bytes text.new ≡ string_bytes text.old ++ legend_text) }
{
    text.push_str(
        "</text>\n<text x=\"16\" y=\"66\">Row: a launch. Bar: its work, from where it begins in the station. \
        Dashed: launch interval. Red: utility work.</text>\n",
    )
}

/// The headings of the columns.
fn push_headings(text: &mut String, figures: &Figures) -> Result<(), AllocError>
    requires { AreFigures figures.now }
    ensures { OnOk result (string_bytes text.new ≡ string_bytes text.old ++ headings_text figures.now) }
{
    let unit_x = figures.left - 8;
    let sum_x = figures.right;
    write!(
        text,
        "<text x=\"16\" y=\"88\">model</text><text x=\"{unit_x}\" y=\"88\" text-anchor=\"end\">unit</text>\
        <text x=\"{sum_x}\" y=\"88\" text-anchor=\"end\">utility</text>\n"
    )?;
    Ok(())
}

/// What stands above the panels.
fn push_above(text: &mut String, figures: &Figures) -> Result<(), AllocError>
    requires { AreFigures figures.now }
    ensures { OnOk result (string_bytes text.new ≡ string_bytes text.old ++ above_text figures.now) }
{
    push_size(text, figures)?;
    push_head(text, figures)?;
    push_ground(text, figures)?;
    push_head(text, figures)?;
    push_totals(text, figures)?;
    push_legend(text)?;
    push_headings(text, figures)?;
    Ok(())
}

/// The heading of a station.
fn push_heading(text: &mut String, figures: &Figures, station: u32) -> Result<(), AllocError>
    requires { AreFigures figures.now }
    ensures { OnOk result (string_bytes text.new ≡ string_bytes text.old
        ++ text_of (heading_parts figures.now station)) }
{
    let x = figures.panel_x(station);
    let number = u64::from(station) + 1;
    write!(text, "<text x=\"{x}\" y=\"88\">station {number}</text>\n")?;
    Ok(())
}

/// The ground of a station, as far as it reaches.
fn push_reach(text: &mut String, figures: &Figures, station: u32) -> Result<(), AllocError>
    requires { AreFigures figures.now }
    ensures { OnOk result (string_bytes text.new ≡ string_bytes text.old
        ++ text_of (reach_parts figures.now station)) }
{
    let x = figures.panel_x(station);
    let panel = figures.panel();
    let width = position(figures.scale, figures.reach);
    write!(
        text,
        "<path fill=\"#eee\" d=\"M{x} 97v{panel}h{width}v-{panel}z\"/>\n"
    )?;
    Ok(())
}

/// The panel of a station.
fn push_panel(text: &mut String, figures: &Figures, station: u32) -> Result<(), AllocError>
    requires { AreFigures figures.now }
    ensures { OnOk result (string_bytes text.new ≡ string_bytes text.old ++ panel_text figures.now station) }
{
    push_heading(text, figures, station)?;
    push_reach(text, figures, station)
}

/// The panels of all stations.
fn push_panels(text: &mut String, figures: &Figures) -> Result<(), AllocError>
    requires { AreFigures figures.now }
    ensures { OnOk result (string_bytes text.new ≡ string_bytes text.old
        ++ panels_to figures.now figures.now.stations) }
{
    for station in 0..figures.stations {
        push_panel(text, figures, station)?;
    }
    Ok(())
}

/// The name of a model.
fn name_of(mix: &Mix, model: u32) -> &str
    requires { model < length mix.now.models }
    ensures { result.now ≡ (model_at mix.now.models model).name }
{
    let _tasks = mix.tasks();
    match std::str::from_utf8(mix.name(model)) {
        Ok(name) => name,
        Err(_) => "",
    }
}

/// The rows of all units.
fn push_rows(
    alloc: Global,
    text: &mut String,
    figures: &Figures,
    mix: &Mix,
    balance: &Balance,
    sequence: &[u32],
    interval: u64,
    reach: u64,
    works: &[[u64; MAX_MODELS]],
) -> Result<(), AllocError>
    requires figures { AreFigures figures.now }
    requires drawn { figures.now ≡ figures_of (course mix.now balance.now sequence.now interval reach) }
    requires works { AreWorks mix.now balance.now.place works.now balance.now.stations }
    requires models { All (λ m. m < length mix.now.models) sequence.now }
    requires reach { reach ≤ 1000000000 }
    ensures { OnOk result (string_bytes text.new ≡ string_bytes text.old
        ++ rows_to (course mix.now balance.now sequence.now interval reach) figures.now (length sequence.now)) }
{
    let mut starts = first_starts(alloc, balance.stations)?;
    for unit in 0..sequence.len() as u32 {
        let row = next_row(
            alloc,
            mix,
            balance,
            sequence,
            interval,
            reach,
            works,
            &mut starts,
            unit,
        )?;
        let model = sequence[unit as usize];
        push_row(text, figures, name_of(mix, model), model, unit, &row)?;
    }
    Ok(())
}

/// The lines where a station begins and ends.
fn push_ends(text: &mut String, figures: &Figures, station: u32) -> Result<(), AllocError>
    requires { AreFigures figures.now }
    ensures { OnOk result (string_bytes text.new ≡ string_bytes text.old
        ++ text_of (ends_parts figures.now station)) }
{
    let x = figures.panel_x(station);
    let panel = figures.panel();
    let end = x + position(figures.scale, figures.reach);
    write!(
        text,
        "<path stroke=\"#000\" d=\"M{x} 97v{panel}M{end} 97v{panel}\"/>\n"
    )?;
    Ok(())
}

/// The line of the launch interval.
fn push_interval(text: &mut String, figures: &Figures, station: u32) -> Result<(), AllocError>
    requires { AreFigures figures.now }
    ensures { OnOk result (string_bytes text.new ≡ string_bytes text.old
        ++ text_of (interval_parts figures.now station)) }
{
    let x = figures.panel_x(station) + position(figures.scale, figures.interval);
    let panel = figures.panel();
    write!(
        text,
        "<path stroke=\"#000\" stroke-dasharray=\"3 3\" d=\"M{x} 97v{panel}\"/>\n"
    )?;
    Ok(())
}

/// The sum of a station, where it is above 0.
fn push_sum(text: &mut String, figures: &Figures, station: u32, sum: u64) -> Result<(), AllocError>
    requires { AreFigures figures.now }
    ensures { OnOk result (string_bytes text.new ≡ string_bytes text.old ++ sum_text figures.now station sum) }
{
    if sum == 0 {
        return Ok(());
    }
    let x = figures.panel_x(station);
    let y = figures.panel() + 115;
    write!(
        text,
        "<text x=\"{x}\" y=\"{y}\" fill=\"#d00\">{sum}</text>\n"
    )?;
    Ok(())
}

/// The marks of a station.
fn push_station(
    text: &mut String,
    figures: &Figures,
    station: u32,
    sum: u64,
) -> Result<(), AllocError>
    requires { AreFigures figures.now }
    ensures { OnOk result (string_bytes text.new ≡ string_bytes text.old ++ marks_text figures.now station sum) }
{
    push_ends(text, figures, station)?;
    push_interval(text, figures, station)?;
    push_sum(text, figures, station, sum)
}

/// The marks of all stations, with these sums.
fn push_marks(text: &mut String, figures: &Figures, sums: &[u64]) -> Result<(), AllocError>
    requires figures { AreFigures figures.now }
    requires each { length sums.now ≡ figures.now.stations }
    ensures { OnOk result ((d : Course) → d.balance.stations ≡ figures.now.stations → AreSums d sums.now
        → string_bytes text.new ≡ string_bytes text.old ++ marks_to d figures.now figures.now.stations) }
{
    for station in 0..figures.stations {
        push_station(text, figures, station, sums[station as usize])?;
    }
    Ok(())
}

/// The sum of all, and the end.
fn push_end(text: &mut String, figures: &Figures) -> Result<(), AllocError>
    requires { AreFigures figures.now }
    ensures { OnOk result (string_bytes text.new ≡ string_bytes text.old ++ end_text figures.now) }
{
    let y = figures.panel() + 115;
    let x = figures.right;
    let total = figures.total;
    write!(
        text,
        "<text x=\"16\" y=\"{y}\">utility</text>\
        <text x=\"{x}\" y=\"{y}\" text-anchor=\"end\">{total}</text>\n</svg>\n"
    )?;
    Ok(())
}

/// The picture of a small timeline.
fn picture(
    alloc: Global,
    mix: &Mix,
    balance: &Balance,
    sequence: &[u32],
    interval: u64,
    reach: u64,
) -> Result<Vec<u8>, AllocError>
    requires places { length balance.now.place ≡ mix.now.tasks }
    requires stations { balance.now.stations ≤ 64 }
    requires few { length sequence.now ≤ 1000 }
    requires models { All (λ m. m < length mix.now.models) sequence.now }
    requires reach { reach ≤ 1000000000 }
    ensures { IfOk result (λ t. t.items ≡ timeline_text (course mix.now balance.now sequence.now interval reach)) }
{
    let works = works_of(alloc, mix, balance)?;
    let (sums, total) = station_sums(alloc, mix, balance, sequence, interval, reach)?;
    let figures = figures_of(
        alloc, mix, balance, sequence, interval, reach, &works, total,
    )?;
    let mut text = String::new(alloc);
    push_above(&mut text, &figures)?;
    push_panels(&mut text, &figures)?;
    push_rows(
        alloc, &mut text, &figures, mix, balance, sequence, interval, reach, &works,
    )?;
    push_marks(&mut text, &figures, &sums)?;
    push_end(&mut text, &figures)?;
    Ok(text.into_bytes())
}

/// The picture of the timeline of a sequence of units on a balanced line, each unit a model of the mix, where each
/// station has this reach, its length: one self-contained SVG 1.1 text, the movement diagram of the line. Interval and
/// length are in the mix's time unit. At most 1,000 units at 64 stations are drawn.
pub fn timeline_picture(
    alloc: Global,
    mix: &Mix,
    balance: &Balance,
    sequence: &[u32],
    interval: u64,
    reach: u64,
) -> TimelineRead
    requires places { length balance.now.place ≡ mix.now.tasks }
    requires stations { balance.now.stations ≤ 1024 }
    requires few { length sequence.now ≤ 100000 }
    requires models { All (λ m. m < length mix.now.models) sequence.now }
    requires limit { reach ≤ 1000000000 }
    ensures drawn { IsTimelineRead (course mix.now balance.now sequence.now interval reach) result }
    ensures true_picture { IsTruePicture (course mix.now balance.now sequence.now interval reach) }
{
    if sequence.len() > MAX_UNITS || balance.stations > MAX_STATIONS {
        return TimelineRead::TooLarge;
    }
    match picture(alloc, mix, balance, sequence, interval, reach) {
        Ok(text) => TimelineRead::Text(text),
        Err(_) => TimelineRead::NoMemory,
    }
}
