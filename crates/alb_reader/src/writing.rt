//! The canonical ALB text of an instance.
//!
//! Only covering pairs are written, since all other precedences follow from them. To find them each pair of tasks is
//! asked once: for 1,024 tasks about a million questions, each a few operations on sets. All else is one pass over the
//! tasks.
ghost use Rattle.std.specs.Prelude.{◌≡◌, ◌++◌, ◌+◌, codes, decimal, string_bytes, OnOk, IfOk};
ghost use Rattle.std.specs.List.{flat_map, range_with_len};
ghost use Rattle.line_instance.specs.Line.{tasks};
ghost use Rattle.alb_reader.specs.Written.{IsAlbText, tasks_section, cycle_section, times_section, pairs_section};
ghost use Rattle.alb_reader.specs.Written.{timed_line};

use in2_reader::{covers_of, push_pairs};
use line_instance::{Instance, Prec};
use std::alloc::{AllocError, Global};

/// The canonical text of an instance, with a cycle time or none: the number of tasks, the cycle time, the times and the
/// covering pairs, each section with its heading. An error where memory is wanting.
pub fn write_alb(alloc: Global, inst: &Instance, cycle: Option<u64>) -> Result<Vec<u8>, AllocError>
    ensures { IfOk result (λ text. IsAlbText inst.now cycle text.items) }
{
    let covers = covers_of(alloc, inst)?;
    let mut text = String::new(alloc);
    push_tasks(&mut text, inst.tasks())?;
    push_cycle(&mut text, cycle)?;
    push_times(&mut text, inst)?;
    push_arcs(&mut text, &covers)?;
    text.push_str("<end>\n")?;
    Ok(text.into_bytes())
}

// Appends the section of the number of tasks.
fn push_tasks(text: &mut String, tasks: u32) -> Result<(), AllocError>
    ensures { OnOk result (string_bytes text.new ≡ string_bytes text.old ++ tasks_section tasks) }
{
    text.push_str("<number of tasks>\n")?;
    write!(text, "{tasks}")?;
    text.push_str("\n\n")?;
    Ok(())
}

// Appends the section of the cycle time, where there is one.
fn push_cycle(text: &mut String, cycle: Option<u64>) -> Result<(), AllocError>
    ensures { OnOk result (string_bytes text.new ≡ string_bytes text.old ++ cycle_section cycle) }
{
    let Some(cycle) = cycle else {
        return Ok(());
    };
    text.push_str("<cycle time>\n")?;
    write!(text, "{cycle}")?;
    text.push_str("\n\n")?;
    Ok(())
}

// Appends the section of the task times.
fn push_times(text: &mut String, inst: &Instance) -> Result<(), AllocError>
    ensures { OnOk result (string_bytes text.new ≡ string_bytes text.old ++ times_section inst.now) }
{
    text.push_str("<task times>\n")?;
    push_time_lines(text, inst)?;
    text.push_str("\n")?;
    Ok(())
}

// Appends a line for each task.
fn push_time_lines(text: &mut String, inst: &Instance) -> Result<(), AllocError>
    ensures { OnOk result (string_bytes text.new ≡ string_bytes text.old
        ++ flat_map (timed_line inst.now) (range_with_len 0 (tasks inst.now))) }
{
    for i in 0..inst.tasks() {
        push_time(text, u64::from(i) + 1, inst.time(i))?;
    }
    Ok(())
}

// Appends the line of a task.
fn push_time(text: &mut String, number: u64, time: u64) -> Result<(), AllocError>
    ensures { OnOk result (string_bytes text.new ≡ string_bytes text.old
        ++ (decimal number ++ codes " " ++ decimal time ++ codes "\n")) }
{
    write!(text, "{number}")?;
    text.push_str(" ")?;
    write!(text, "{time}")?;
    text.push_str("\n")?;
    Ok(())
}

// Appends the section of the pairs.
fn push_arcs(text: &mut String, arcs: &[Prec]) -> Result<(), AllocError>
    ensures { OnOk result (string_bytes text.new ≡ string_bytes text.old ++ pairs_section arcs.now) }
{
    text.push_str("<precedence relations>\n")?;
    push_pairs(text, arcs)?;
    text.push_str("\n")?;
    Ok(())
}
