//! The row of a unit, line by line.
ghost use Rattle.std.specs.Prelude.{◌≡◌, ◌≤◌, ◌<◌, ◌^◌, ◌+◌, ◌-◌, ◌*◌, ◌%◌, ◌++◌, All, codes, decimal, IfOk, OnOk};
ghost use Rattle.std.specs.Prelude.{length};
ghost use Rattle.std.specs.Prelude.{string_bytes};
ghost use Rattle.timeline_drawing.specs.Parts.{text_of};
ghost use Rattle.timeline_drawing.specs.Visits.{IsVisit, row_utility, work_end};
ghost use Rattle.timeline_drawing.specs.Figures.{AreFigures};
ghost use Rattle.timeline_drawing.specs.Rows.{bar_text, bars_text, colour_of, each_where, group_text, has_utility};
ghost use Rattle.timeline_drawing.specs.Rows.{has_work, label_text, late_text, outline_text, place_text, red_text};
ghost use Rattle.timeline_drawing.specs.Rows.{reds_text, row_text, shape_text, sum_parts, times_parts, tip_text};
ghost use Rattle.timeline_drawing.specs.Rows.{where_parts};

use crate::figures::Figures;
use crate::visits::{Visit, row_utility};
use std::alloc::AllocError;

/// The colour of a model, one of eight in turn.
fn colour_of(model: u32) -> &'static str
    ensures { result.now ≡ colour_of model }
{
    match model % 8 {
        0 => "#0072b2",
        1 => "#e69f00",
        2 => "#009e73",
        3 => "#56b4e9",
        4 => "#cc79a7",
        5 => "#f0e442",
        6 => "#332288",
        _ => "#fc8",
    }
}

/// A shape of this width.
fn push_shape(text: &mut String, x: u64, width: u64) -> Result<(), AllocError>
    ensures { OnOk result (string_bytes text.new ≡ string_bytes text.old ++ shape_text x width) }
{
    write!(text, "<path d=\"M{x}-10v12h{width}v-12z\"><title>station ")?;
    Ok(())
}

/// The place of a visit: the station, the unit and its model's name.
fn push_where(text: &mut String, name: &str, visit: &Visit) -> Result<(), AllocError>
    ensures { OnOk result (string_bytes text.new ≡ string_bytes text.old ++ text_of (where_parts name.now visit.now)) }
{
    let station = u64::from(visit.station) + 1;
    let unit = u64::from(visit.unit) + 1;
    write!(text, "{station}, unit {unit}, {name}")?;
    Ok(())
}

/// The times of a visit.
fn push_times(text: &mut String, visit: &Visit) -> Result<(), AllocError>
    ensures { OnOk result (string_bytes text.new ≡ string_bytes text.old ++ text_of (times_parts visit.now)) }
{
    let Visit {
        start,
        work,
        utility,
        ..
    } = *visit;
    write!(
        text,
        ": start {start}, work {work}, utility {utility}</title></path>\n"
    )?;
    Ok(())
}

/// The record of a visit.
fn push_tip(text: &mut String, name: &str, visit: &Visit) -> Result<(), AllocError>
    ensures { OnOk result (string_bytes text.new ≡ string_bytes text.old ++ tip_text name.now visit.now) }
{
    push_where(text, name, visit)?;
    push_times(text, visit)
}

/// The bar of a visit.
fn push_bar(
    text: &mut String,
    figures: &Figures,
    name: &str,
    visit: &Visit,
) -> Result<(), AllocError>
    requires figures { AreFigures figures.now }
    requires fits { work_end visit.now ≤ figures.now.scale }
    requires sound { IsVisit visit.now }
    ensures { OnOk result (string_bytes text.new ≡ string_bytes text.old
        ++ bar_text figures.now name.now visit.now) }
{
    let x = figures.panel_x(visit.station) + figures.bar_x(visit);
    push_shape(text, x, figures.bar_width(visit))?;
    push_tip(text, name, visit)
}

/// The red part of a visit.
fn push_red(
    text: &mut String,
    figures: &Figures,
    name: &str,
    visit: &Visit,
) -> Result<(), AllocError>
    requires figures { AreFigures figures.now }
    requires fits { work_end visit.now ≤ figures.now.scale }
    requires sound { IsVisit visit.now }
    ensures { OnOk result (string_bytes text.new ≡ string_bytes text.old
        ++ red_text figures.now name.now visit.now) }
{
    let x = figures.panel_x(visit.station) + figures.red_x(visit);
    push_shape(text, x, figures.red_width(visit))?;
    push_tip(text, name, visit)
}

/// The place of a row and the line below it.
fn push_place(text: &mut String, figures: &Figures, unit: u32) -> Result<(), AllocError>
    requires { AreFigures figures.now }
    ensures { OnOk result (string_bytes text.new ≡ string_bytes text.old ++ place_text figures.now unit) }
{
    let y = 110 + 18 * u64::from(unit);
    let length = figures.right - 16;
    write!(
        text,
        "<g transform=\"translate(0 {y})\">\n<path stroke=\"#bbb\" d=\"M16 5h{length}\"/>\n"
    )?;
    Ok(())
}

/// The model's name and the unit's number.
fn push_label(text: &mut String, figures: &Figures, name: &str, unit: u32) -> Result<(), AllocError>
    requires { AreFigures figures.now }
    ensures { OnOk result (string_bytes text.new ≡ string_bytes text.old ++ label_text figures.now name.now unit) }
{
    let x = figures.left - 8;
    let number = u64::from(unit) + 1;
    write!(
        text,
        "<text x=\"16\">{name}</text><text x=\"{x}\" text-anchor=\"end\">{number}</text>\n"
    )?;
    Ok(())
}

/// The end of the heading of bars: models from 8 on have an outline.
fn outline(model: u32) -> &'static str
    ensures { result.now ≡ outline_text model }
{
    if model < 8 {
        "\">\n"
    } else {
        "\" stroke=\"#000\">\n"
    }
}

/// The heading of bars.
fn push_group(text: &mut String, model: u32) -> Result<(), AllocError>
    ensures { OnOk result (string_bytes text.new ≡ string_bytes text.old ++ group_text model) }
{
    text.push_str("<g fill=\"")?;
    text.push_str(colour_of(model))?;
    text.push_str(outline(model))
}

/// A bar at each station where the unit has work.
fn push_bars(
    text: &mut String,
    figures: &Figures,
    name: &str,
    row: &[Visit],
) -> Result<(), AllocError>
    requires figures { AreFigures figures.now }
    requires fits { All (λ v. work_end v ≤ figures.now.scale) row.now }
    requires sound { All IsVisit row.now }
    ensures { OnOk result (string_bytes text.new ≡ string_bytes text.old
        ++ each_where has_work (bar_text figures.now name.now) row.now) }
{
    for visit in row {
        if visit.work > 0 {
            push_bar(text, figures, name, visit)?;
        }
    }
    Ok(())
}

/// The bars of a unit in the colour of its model.
fn push_work(
    text: &mut String,
    figures: &Figures,
    name: &str,
    model: u32,
    row: &[Visit],
) -> Result<(), AllocError>
    requires figures { AreFigures figures.now }
    requires fits { All (λ v. work_end v ≤ figures.now.scale) row.now }
    requires sound { All IsVisit row.now }
    ensures { OnOk result (string_bytes text.new ≡ string_bytes text.old
        ++ bars_text figures.now name.now model row.now) }
{
    push_group(text, model)?;
    push_bars(text, figures, name, row)?;
    text.push_str("</g>\n")
}

/// A red part at each station where the unit has utility work.
fn push_reds(
    text: &mut String,
    figures: &Figures,
    name: &str,
    row: &[Visit],
) -> Result<(), AllocError>
    requires figures { AreFigures figures.now }
    requires fits { All (λ v. work_end v ≤ figures.now.scale) row.now }
    requires sound { All IsVisit row.now }
    ensures { OnOk result (string_bytes text.new ≡ string_bytes text.old
        ++ each_where has_utility (red_text figures.now name.now) row.now) }
{
    for visit in row {
        if visit.utility > 0 {
            push_red(text, figures, name, visit)?;
        }
    }
    Ok(())
}

/// The sum of a unit's utility work.
fn push_sum(text: &mut String, figures: &Figures, utility: u64) -> Result<(), AllocError>
    ensures { OnOk result (string_bytes text.new ≡ string_bytes text.old ++ text_of (sum_parts figures.now utility)) }
{
    let x = figures.right;
    write!(
        text,
        "<text x=\"{x}\" text-anchor=\"end\">{utility}</text>\n</g>\n"
    )?;
    Ok(())
}

/// The red parts of a unit and its sum.
fn push_utility(
    text: &mut String,
    figures: &Figures,
    name: &str,
    row: &[Visit],
    utility: u64,
) -> Result<(), AllocError>
    requires figures { AreFigures figures.now }
    requires fits { All (λ v. work_end v ≤ figures.now.scale) row.now }
    requires sound { All IsVisit row.now }
    requires sum { utility ≡ row_utility row.now }
    ensures { OnOk result (string_bytes text.new ≡ string_bytes text.old ++ reds_text figures.now name.now row.now) }
{
    text.push_str("<g fill=\"#d00\">\n")?;
    push_reds(text, figures, name, row)?;
    push_sum(text, figures, utility)?;
    Ok(())
}

/// The red parts of a unit and its sum, where it has utility work.
fn push_late(
    text: &mut String,
    figures: &Figures,
    name: &str,
    row: &[Visit],
) -> Result<(), AllocError>
    requires figures { AreFigures figures.now }
    requires few { length row.now ≤ 64 }
    requires fits { All (λ v. work_end v ≤ figures.now.scale) row.now }
    requires sound { All IsVisit row.now }
    ensures { OnOk result (string_bytes text.new ≡ string_bytes text.old ++ late_text figures.now name.now row.now) }
{
    let utility = row_utility(row);
    if utility == 0 {
        return Ok(());
    }
    push_utility(text, figures, name, row, utility)
}

/// The row of a unit with this name and this model, at all stations.
pub(crate) fn push_row(
    text: &mut String,
    figures: &Figures,
    name: &str,
    model: u32,
    unit: u32,
    row: &[Visit],
) -> Result<(), AllocError>
    requires figures { AreFigures figures.now }
    requires few { length row.now ≤ 64 }
    requires fits { All (λ v. work_end v ≤ figures.now.scale) row.now }
    requires sound { All IsVisit row.now }
    ensures { OnOk result (string_bytes text.new ≡ string_bytes text.old
        ++ row_text figures.now name.now model unit row.now) }
{
    push_place(text, figures, unit)?;
    push_label(text, figures, name, unit)?;
    push_work(text, figures, name, model, row)?;
    push_late(text, figures, name, row)?;
    text.push_str("</g>\n")
}
