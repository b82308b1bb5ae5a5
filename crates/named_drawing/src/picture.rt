//! The whole picture of a certificate's balance, with the names of the tasks.
//!
//! What stands above the rows is that of a picture without names, but for its height.
ghost use Rattle.std.specs.Prelude.{◌≡◌, ◌≤◌, ◌<◌, ◌^◌, ◌+◌, ◌*◌, ◌++◌, ℕ, IfOk, OnOk, length, string_bytes};
ghost use Rattle.task_names.specs.TaskNames.{AreDistinct};
ghost use Rattle.line_instance.specs.Line.{tasks};
ghost use Rattle.line_rules.specs.Ranges.{IsInRange};
ghost use Rattle.line_drawing.specs.Figures.{AreFigures, sum_at};
ghost use Rattle.line_drawing.specs.Facts.{HasRightBalance, IsTrueDrawing, stations_of};
ghost use Rattle.named_drawing.specs.NamedFacts.{LabelsEachTask, ListsEachTask};
ghost use Rattle.named_drawing.specs.Page.{IsPage};
ghost use Rattle.named_drawing.specs.NamedDrawing.{above_text, end_text, ground_text, named_drawing_text};
ghost use Rattle.named_drawing.specs.NamedDrawing.{named_picture};
ghost use Rattle.named_drawing.specs.NamedDrawing.{rows_from, size_text, station_text, top_text};
ghost use Rattle.named_drawing.specs.Xml.{IsWellFormed};

use crate::labels::named_note;
use crate::named_rows::push_named_row;
use crate::page::{Page, page_of};
use crate::task_list::push_list;
use line_drawing::{
    Figures, push_bounds, push_head, push_headings, push_legend, push_notes, push_totals,
    segments_at, sum_at, upper_cycle,
};
use line_instance::Instance;
use line_rules::{Ask, Balance, Certificate, Claim, Places};
use std::alloc::{AllocError, Global};
use task_names::Names;

/// The size of the picture.
fn push_size(text: &mut String, page: &Page) -> Result<(), AllocError>
    requires { IsPage page.now }
    ensures { OnOk result (string_bytes text.new ≡ string_bytes text.old ++ size_text page.now) }
{
    let width = page.figures.width();
    let height = page.height();
    write!(
        text,
        "<svg xmlns=\"http://www.w3.org/2000/svg\" version=\"1.1\" width=\"{width}\" height=\"{height}\" \
        viewBox=\"0 0 {width} {height}\" role=\"img\" \
        font-family=\"Arial,sans-serif\" font-size=\"12\" shape-rendering=\"crispEdges\">\n<title>"
    )?;
    Ok(())
}

/// The ground of the picture.
fn push_ground(text: &mut String, page: &Page) -> Result<(), AllocError>
    requires { IsPage page.now }
    ensures { OnOk result (string_bytes text.new ≡ string_bytes text.old ++ ground_text page.now) }
{
    let width = page.figures.width();
    let height = page.height();
    write!(
        text,
        "</title>\n<rect width=\"{width}\" height=\"{height}\" fill=\"#fff\"/>\n\
        <text x=\"64\" y=\"28\" font-size=\"18\">"
    )?;
    Ok(())
}

/// The first lines: the size, and the title.
fn push_top(text: &mut String, page: &Page) -> Result<(), AllocError>
    requires { IsPage page.now }
    ensures { OnOk result (string_bytes text.new ≡ string_bytes text.old ++ top_text page.now) }
{
    push_size(text, page)?;
    push_head(text, &page.figures)?;
    push_ground(text, page)?;
    push_head(text, &page.figures)?;
    text.push_str("</text>\n<text x=\"64\" y=\"48\">")?;
    Ok(())
}

/// What stands above the rows.
fn push_above(
    text: &mut String,
    page: &Page,
    ask: Ask,
    lower: u64,
    upper: u64,
) -> Result<(), AllocError>
    requires { IsPage page.now }
    ensures { OnOk result (string_bytes text.new ≡ string_bytes text.old ++ above_text page.now ask lower upper) }
{
    push_top(text, page)?;
    push_bounds(text, ask, lower, upper)?;
    push_totals(text, &page.figures)?;
    push_legend(text, page.figures.kind)?;
    push_notes(text, &page.figures)?;
    push_headings(text, &page.figures)?;
    Ok(())
}

/// The row of a station.
fn push_station(
    alloc: Global,
    text: &mut String,
    inst: &Instance,
    figures: &Figures,
    names: &Names,
    places: &Places,
    station: u32,
) -> Result<(), AllocError>
    requires each { length places.now ≡ tasks inst.now }
    requires named { length names.now ≡ tasks inst.now }
    requires figures { AreFigures figures.now }
    requires fits { sum_at inst.now places.now station ≤ figures.now.cycle }
    ensures { OnOk result (string_bytes text.new ≡ string_bytes text.old
        ++ station_text inst.now figures.now names.now places.now station) }
{
    let _tasks = inst.tasks();
    let segments = segments_at(alloc, inst, figures.cycle, places, station)?;
    let note = named_note(alloc, names, &segments)?;
    let sum = sum_at(inst, places, station);
    push_named_row(text, figures, names, station, sum, &segments, &note)?;
    Ok(())
}

/// The rows of all stations.
fn push_rows(
    alloc: Global,
    text: &mut String,
    inst: &Instance,
    figures: &Figures,
    names: &Names,
    balance: &Balance,
) -> Result<(), AllocError>
    requires each { length balance.now.place ≡ tasks inst.now }
    requires named { length names.now ≡ tasks inst.now }
    requires few { balance.now.stations ≤ 1024 }
    requires figures { AreFigures figures.now }
    requires fits { (k : ℕ) → sum_at inst.now balance.now.place k ≤ figures.now.cycle }
    ensures { OnOk result (string_bytes text.new ≡ string_bytes text.old
        ++ rows_from inst.now figures.now names.now balance.now.place 1 balance.now.stations) }
{
    for station in 1..balance.stations + 1 {
        push_station(alloc, text, inst, figures, names, &balance.place, station)?;
    }
    Ok(())
}

/// The line where the cycle ends.
fn push_end(text: &mut String, figures: &Figures) -> Result<(), AllocError>
    ensures { OnOk result (string_bytes text.new ≡ string_bytes text.old ++ end_text figures.now) }
{
    let length = 36 * u64::from(figures.stations) + 6;
    write!(
        text,
        "<path stroke=\"#000\" stroke-width=\"3\" d=\"M864 92v{length}\"/>\n</g>\n"
    )?;
    Ok(())
}

/// The picture of a balance with names, with the bounds that are claimed.
fn picture(
    alloc: Global,
    inst: &Instance,
    page: &Page,
    names: &Names,
    ask: Ask,
    lower: u64,
    upper: u64,
    balance: &Balance,
) -> Result<Vec<u8>, AllocError>
    requires each { length balance.now.place ≡ tasks inst.now }
    requires named { length names.now ≡ tasks inst.now }
    requires few { balance.now.stations ≤ 1024 }
    requires page { IsPage page.now }
    requires fits { (k : ℕ) → sum_at inst.now balance.now.place k ≤ page.now.figures.cycle }
    ensures { IfOk result (λ t. t.items ≡ named_picture inst.now page.now names.now ask lower upper balance.now) }
{
    let mut text = String::new(alloc);
    push_above(&mut text, page, ask, lower, upper)?;
    push_rows(alloc, &mut text, inst, &page.figures, names, balance)?;
    push_end(&mut text, &page.figures)?;
    push_list(&mut text, inst, page, names, &balance.place)?;
    Ok(text.into_bytes())
}

/// The picture of what is claimed.
fn drawn(
    alloc: Global,
    inst: &Instance,
    names: &Names,
    cert: &Certificate,
) -> Result<Vec<u8>, AllocError>
    requires range { IsInRange cert.now }
    requires right { HasRightBalance inst.now cert.now }
    requires many { length names.now ≡ tasks inst.now }
    ensures { IfOk result (λ t. t.items ≡ named_drawing_text inst.now names.now cert.now) }
{
    match &cert.claim {
        Claim::TooLong { .. } => Ok(Vec::new(alloc)),
        Claim::Bounds {
            lower,
            upper,
            balance,
            ..
        } => {
            let cycle = upper_cycle(cert.ask, *upper);
            let page = page_of(alloc, inst, cert.kind, cycle, names, balance)?;
            let text = picture(alloc, inst, &page, names, cert.ask, *lower, *upper, balance)?;
            Ok(text)
        }
    }
}

/// The picture of a certificate's balance, which has to be right for the line, with the names of the tasks: one
/// self-contained SVG 1.1 text, in UTF-8. The bounds are shown as the certificate claims them, and not tested. The one
/// error is that memory is out.
///
/// The text takes memory once; beside it stand the segments and the note of one station.
pub fn draw_named(
    alloc: Global,
    inst: &Instance,
    names: &Names,
    cert: &Certificate,
) -> Result<Vec<u8>, AllocError>
    requires range { IsInRange cert.now }
    requires right { HasRightBalance inst.now cert.now }
    requires many { length names.now ≡ tasks inst.now }
    requires distinct { AreDistinct names.now }
    ensures text { IfOk result (λ t. t.items ≡ named_drawing_text inst.now names.now cert.now) }
    ensures true_picture { IsTrueDrawing inst.now cert.now }
    ensures listed { ListsEachTask inst.now names.now cert.now }
    ensures labels { LabelsEachTask inst.now names.now cert.now }
    ensures size { length (named_drawing_text inst.now names.now cert.now)
        ≤ 4000 + 600 * stations_of cert.now + 1700 * tasks inst.now }
    ensures xml { IsWellFormed (named_drawing_text inst.now names.now cert.now) }
{
    let _tasks = inst.tasks();
    let _many = names.len();
    drawn(alloc, inst, names, cert)
}
