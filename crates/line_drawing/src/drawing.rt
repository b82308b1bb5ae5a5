//! The whole picture of a certificate's balance.
ghost use Rattle.std.specs.Prelude.{◌≡◌, ◌≤◌, ◌<◌, ◌^◌, ◌+◌, ◌*◌, ◌++◌, ℕ, IfOk, OnOk, length, string_bytes};
ghost use Rattle.line_instance.specs.Line.{tasks};
ghost use Rattle.line_rules.specs.Accepted.{upper_cycle};
ghost use Rattle.line_rules.specs.Ranges.{IsInRange};
ghost use Rattle.line_drawing.specs.Figures.{AreFigures, sum_at};
ghost use Rattle.line_drawing.specs.Facts.{HasRightBalance, IsTrueDrawing, stations_of};
ghost use Rattle.line_drawing.specs.Drawing.{above_text, bounds_text, drawing_text, end_text, ground_text, head_text};
ghost use Rattle.line_drawing.specs.Drawing.{headings_text, kind_word, ask_word, size_text, station_word, legend_text};
ghost use Rattle.line_drawing.specs.Drawing.{notes_text, picture_text, rows_from, station_text, top_text, totals_text};

use crate::figures::{Figures, figures_of, sum_at};
use crate::notes::note_of;
use crate::rows::push_row;
use crate::segments::segments_at;
use line_instance::Instance;
use line_rules::{Ask, Balance, Certificate, Claim, LineKind, Places};
use std::alloc::{AllocError, Global};

/// The kind of line.
fn kind_word(kind: LineKind) -> &'static str
    ensures { result.now ≡ kind_word kind }
{
    match kind {
        LineKind::Straight => "Straight line, ",
        LineKind::U => "U-line, ",
    }
}

/// The word for so many stations.
fn station_word(stations: u32) -> &'static str
    ensures { result.now ≡ station_word stations }
{
    if stations == 1 {
        " station, cycle time "
    } else {
        " stations, cycle time "
    }
}

/// The kind of line, the stations and the cycle time.
pub fn push_head(text: &mut String, figures: &Figures) -> Result<(), AllocError>
    ensures { OnOk result (string_bytes text.new ≡ string_bytes text.old ++ head_text figures.now) }
{
    let Figures {
        kind,
        stations,
        cycle,
        ..
    } = *figures;
    let line = kind_word(kind);
    let word = station_word(stations);
    write!(text, "{line}{stations}{word}{cycle}")?;
    Ok(())
}

/// The size of the picture.
fn push_size(text: &mut String, figures: &Figures) -> Result<(), AllocError>
    requires { AreFigures figures.now }
    ensures { OnOk result (string_bytes text.new ≡ string_bytes text.old ++ size_text figures.now) }
{
    let width = figures.width();
    let height = figures.height();
    write!(
        text,
        "<svg xmlns=\"http://www.w3.org/2000/svg\" version=\"1.1\" width=\"{width}\" height=\"{height}\" \
        viewBox=\"0 0 {width} {height}\" role=\"img\" \
        font-family=\"Arial,sans-serif\" font-size=\"12\" shape-rendering=\"crispEdges\">\n<title>"
    )?;
    Ok(())
}

/// The ground of the picture.
fn push_ground(text: &mut String, figures: &Figures) -> Result<(), AllocError>
    requires { AreFigures figures.now }
    ensures { OnOk result (string_bytes text.new ≡ string_bytes text.old ++ ground_text figures.now) }
{
    let width = figures.width();
    let height = figures.height();
    write!(
        text,
        "</title>\n<rect width=\"{width}\" height=\"{height}\" fill=\"#fff\"/>\n\
        <text x=\"64\" y=\"28\" font-size=\"18\">"
    )?;
    Ok(())
}

/// The first lines: the size, and the title.
fn push_top(text: &mut String, figures: &Figures) -> Result<(), AllocError>
    requires { AreFigures figures.now }
    ensures { OnOk result (string_bytes text.new ≡ string_bytes text.old ++ top_text figures.now) }
{
    push_size(text, figures)?;
    push_head(text, figures)?;
    push_ground(text, figures)?;
    push_head(text, figures)?;
    text.push_str("</text>\n<text x=\"64\" y=\"48\">")?;
    Ok(())
}

/// What is asked.
fn ask_word(ask: Ask) -> &'static str
    ensures { result.now ≡ ask_word ask }
{
    match ask {
        Ask::Stations { .. } => "Stations: ",
        Ask::Cycle { .. } => "Cycle time: ",
    }
}

/// The bounds of the certificate.
pub fn push_bounds(text: &mut String, ask: Ask, lower: u64, upper: u64) -> Result<(), AllocError>
    ensures { OnOk result (string_bytes text.new ≡ string_bytes text.old ++ bounds_text ask lower upper) }
{
    text.push_str(ask_word(ask))?;
    if lower == upper {
        return text.push_str("optimal");
    }
    write!(text, "at least {lower}, at most {upper}")?;
    Ok(())
}

/// The line of the totals.
pub fn push_totals(text: &mut String, figures: &Figures) -> Result<(), AllocError>
    requires { AreFigures figures.now }
    ensures { OnOk result (string_bytes text.new ≡ string_bytes text.old ++ totals_text figures.now) }
{
    let Figures { total, longest, .. } = *figures;
    let percent = figures.efficiency() / 10;
    let tenths = figures.efficiency() % 10;
    let idle = figures.idle();
    write!(
        text,
        " (by the certificate)</text>\n<text x=\"64\" y=\"66\">Efficiency {percent}.{tenths} %, total time {total}, \
        idle time {idle}, longest station time {longest}</text>\n"
    )?;
    Ok(())
}

/// What the colours mean, on a U-line.
pub fn push_legend(text: &mut String, kind: LineKind) -> Result<(), AllocError>
    ensures { OnOk result (string_bytes text.new ≡ string_bytes text.old ++ legend_text kind) }
{
    match kind {
        LineKind::Straight => Ok(()),
        LineKind::U => {
            text.push_str("<text x=\"104\" y=\"88\">light: front tasks, dark: back tasks</text>\n")
        }
    }
}

/// The heading of the notes, where there are some.
pub fn push_notes(text: &mut String, figures: &Figures) -> Result<(), AllocError>
    requires { AreFigures figures.now }
    ensures { OnOk result (string_bytes text.new ≡ string_bytes text.old ++ notes_text figures.now) }
{
    if figures.notes == 0 {
        return Ok(());
    }
    let x = 936 + 2 * figures.column;
    write!(text, "<text x=\"{x}\" y=\"88\">narrow tasks</text>\n")?;
    Ok(())
}

/// The headings of the columns.
pub fn push_headings(text: &mut String, figures: &Figures) -> Result<(), AllocError>
    requires { AreFigures figures.now }
    ensures { OnOk result (string_bytes text.new ≡ string_bytes text.old ++ headings_text figures.now) }
{
    let cycle = figures.cycle;
    let time_x = 864 + figures.column;
    let idle_x = 864 + 2 * figures.column;
    write!(
        text,
        "<g text-anchor=\"end\">\n<text x=\"56\" y=\"88\">station</text>\
        <text x=\"864\" y=\"88\">cycle time {cycle}</text><text x=\"{time_x}\" y=\"88\">time</text>\
        <text x=\"{idle_x}\" y=\"88\">idle</text>\n"
    )?;
    Ok(())
}

/// What stands above the rows.
fn push_above(
    text: &mut String,
    figures: &Figures,
    ask: Ask,
    lower: u64,
    upper: u64,
) -> Result<(), AllocError>
    requires { AreFigures figures.now }
    ensures { OnOk result (string_bytes text.new ≡ string_bytes text.old ++ above_text figures.now ask lower upper) }
{
    push_top(text, figures)?;
    push_bounds(text, ask, lower, upper)?;
    push_totals(text, figures)?;
    push_legend(text, figures.kind)?;
    push_notes(text, figures)?;
    push_headings(text, figures)?;
    Ok(())
}

/// The row of a station.
fn push_station(
    alloc: Global,
    text: &mut String,
    inst: &Instance,
    figures: &Figures,
    places: &Places,
    station: u32,
) -> Result<(), AllocError>
    requires each { length places.now ≡ tasks inst.now }
    requires figures { AreFigures figures.now }
    requires fits { sum_at inst.now places.now station ≤ figures.now.cycle }
    ensures { OnOk result (string_bytes text.new ≡ string_bytes text.old
        ++ station_text inst.now figures.now places.now station) }
{
    let _tasks = inst.tasks();
    let segments = segments_at(alloc, inst, figures.cycle, places, station)?;
    let note = note_of(alloc, &segments)?;
    let sum = sum_at(inst, places, station);
    push_row(text, figures, station, sum, &segments, &note)?;
    Ok(())
}

/// The rows of all stations.
fn push_rows(
    alloc: Global,
    text: &mut String,
    inst: &Instance,
    figures: &Figures,
    balance: &Balance,
) -> Result<(), AllocError>
    requires each { length balance.now.place ≡ tasks inst.now }
    requires few { balance.now.stations ≤ 1024 }
    requires figures { AreFigures figures.now }
    requires fits { (k : ℕ) → sum_at inst.now balance.now.place k ≤ figures.now.cycle }
    ensures { OnOk result (string_bytes text.new ≡ string_bytes text.old
        ++ rows_from inst.now figures.now balance.now.place 1 balance.now.stations) }
{
    for station in 1..balance.stations + 1 {
        push_station(alloc, text, inst, figures, &balance.place, station)?;
    }
    Ok(())
}

/// The line where the cycle ends, and the end.
fn push_end(text: &mut String, figures: &Figures) -> Result<(), AllocError>
    ensures { OnOk result (string_bytes text.new ≡ string_bytes text.old ++ end_text figures.now) }
{
    let length = 24 * u64::from(figures.stations) + 6;
    write!(
        text,
        "<path stroke=\"#000\" stroke-width=\"3\" d=\"M864 92v{length}\"/>\n</g>\n</svg>\n"
    )?;
    Ok(())
}

/// The picture of a balance, with the bounds that are claimed.
fn picture(
    alloc: Global,
    inst: &Instance,
    figures: &Figures,
    ask: Ask,
    lower: u64,
    upper: u64,
    balance: &Balance,
) -> Result<Vec<u8>, AllocError>
    requires each { length balance.now.place ≡ tasks inst.now }
    requires few { balance.now.stations ≤ 1024 }
    requires figures { AreFigures figures.now }
    requires fits { (k : ℕ) → sum_at inst.now balance.now.place k ≤ figures.now.cycle }
    ensures { IfOk result (λ t. t.items ≡ picture_text inst.now figures.now ask lower upper balance.now) }
{
    let mut text = String::new(alloc);
    push_above(&mut text, figures, ask, lower, upper)?;
    push_rows(alloc, &mut text, inst, figures, balance)?;
    push_end(&mut text, figures)?;
    Ok(text.into_bytes())
}

/// The cycle time of a balance that shows an upper bound.
pub fn upper_cycle(ask: Ask, upper: u64) -> u64
    ensures { result ≡ upper_cycle ask upper }
{
    match ask {
        Ask::Stations { cycle } => cycle,
        Ask::Cycle { .. } => upper,
    }
}

/// The picture of what is claimed.
fn drawn(alloc: Global, inst: &Instance, cert: &Certificate) -> Result<Vec<u8>, AllocError>
    requires range { IsInRange cert.now }
    requires right { HasRightBalance inst.now cert.now }
    ensures { IfOk result (λ t. t.items ≡ drawing_text inst.now cert.now) }
{
    match &cert.claim {
        Claim::TooLong { .. } => Ok(Vec::new(alloc)),
        Claim::Bounds {
            lower,
            upper,
            balance,
            ..
        } => {
            let cycle = upper_cycle(cert.ask, *upper);
            let figures = figures_of(alloc, inst, cert.kind, cycle, balance)?;
            let text = picture(alloc, inst, &figures, cert.ask, *lower, *upper, balance)?;
            Ok(text)
        }
    }
}

/// The picture of a certificate's balance, which has to be right for the line: one self-contained SVG 1.1 text. The
/// bounds are shown as the certificate claims them, and not tested. The one error is that memory is out.
///
/// The text takes memory once; beside it stand the segments and the note of one station.
pub fn draw_text(alloc: Global, inst: &Instance, cert: &Certificate) -> Result<Vec<u8>, AllocError>
    requires range { IsInRange cert.now }
    requires right { HasRightBalance inst.now cert.now }
    ensures text { IfOk result (λ t. t.items ≡ drawing_text inst.now cert.now) }
    ensures true_picture { IsTrueDrawing inst.now cert.now }
    ensures size { length (drawing_text inst.now cert.now) ≤ 1000 + 500 * stations_of cert.now + 120 * tasks inst.now }
{
    let _tasks = inst.tasks();
    drawn(alloc, inst, cert)
}
