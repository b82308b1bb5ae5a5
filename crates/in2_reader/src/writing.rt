//! The canonical text of an instance.
//!
//! Only covering pairs are written, since all other precedences follow from them. To find them each pair of tasks is
//! asked once: for 1,024 tasks about a million questions, each a few operations on sets. All else is one pass over the
//! tasks.
ghost use Rattle.std.specs.Prelude.{◌≡◌, ◌++◌, ◌+◌, ◌<◌, string_bytes, OnOk, IfOk};
ghost use Rattle.std.specs.List.{flat_map};
ghost use Rattle.line_instance.specs.Line.{tasks};
ghost use Rattle.in2_reader.specs.Written.{IsIn2Text, AreCovers, AreCoversTo, number_line, pair_line};

use line_instance::{Instance, Prec};
use std::alloc::{AllocError, Global};

/// The canonical text of an instance: the number of tasks, the times, the covering pairs, ascending and counted from 1,
/// and the end mark, a line for each. An error where memory is wanting.
pub fn write_in2(alloc: Global, inst: &Instance) -> Result<Vec<u8>, AllocError>
    ensures { IfOk result (λ text. IsIn2Text inst.now text.items) }
{
    let covers = covers_of(alloc, inst)?;
    let tasks = inst.tasks();
    let mut text = String::new(alloc);
    writeln!(text, "{tasks}")?;
    push_times(&mut text, inst)?;
    push_pairs(&mut text, &covers)?;
    text.push_str("-1,-1\n")?;
    Ok(text.into_bytes())
}

// Appends a line for each time.
fn push_times(text: &mut String, inst: &Instance) -> Result<(), AllocError>
    ensures { OnOk result (string_bytes text.new ≡ string_bytes text.old ++ flat_map number_line inst.now.times) }
{
    for i in 0..inst.tasks() {
        let time = inst.time(i);
        writeln!(text, "{time}")?;
    }
    Ok(())
}

/// Appends a line for each pair, its tasks counted from 1. An error where memory is wanting.
pub fn push_pairs(text: &mut String, pairs: &[Prec]) -> Result<(), AllocError>
    ensures { OnOk result (string_bytes text.new ≡ string_bytes text.old ++ flat_map pair_line pairs.now) }
{
    for pair in pairs {
        let Prec { first, then } = *pair;
        let (first, then) = (u64::from(first) + 1, u64::from(then) + 1);
        writeln!(text, "{first},{then}")?;
    }
    Ok(())
}

/// The covering pairs, ascending by the first task and then the second. An error where memory is wanting.
pub fn covers_of(alloc: Global, inst: &Instance) -> Result<Vec<Prec>, AllocError>
    ensures { IfOk result (λ pairs. AreCovers inst.now pairs.items) }
{
    let mut pairs = Vec::new(alloc);
    for i in 0..inst.tasks() {
        push_covers(&mut pairs, inst, i)?;
    }
    Ok(pairs)
}

// Appends the covering pairs whose first task is `i`.
fn push_covers(pairs: &mut Vec<Prec>, inst: &Instance, i: u32) -> Result<(), AllocError>
    requires task { i < tasks inst.now }
    requires pairs { AreCoversTo inst.now pairs.old.items i 0 }
    ensures { OnOk result (AreCoversTo inst.now pairs.new.items (i + 1) 0) }
{
    for j in 0..inst.tasks() {
        push_cover(pairs, inst, i, j)?;
    }
    Ok(())
}

// Appends the pair of `i` and `j` where it is a covering pair.
#[tactic(auto, using(crate::proofs::CollectedPairs::one_collected, crate::proofs::CollectedPairs::one_passed))]
fn push_cover(pairs: &mut Vec<Prec>, inst: &Instance, i: u32, j: u32) -> Result<(), AllocError>
    requires first { i < tasks inst.now }
    requires then { j < tasks inst.now }
    requires pairs { AreCoversTo inst.now pairs.old.items i j }
    ensures { OnOk result (AreCoversTo inst.now pairs.new.items i (j + 1)) }
{
    if !inst.covers(i, j) {
        return Ok(());
    }
    pairs.push(Prec { first: i, then: j })?;
    Ok(())
}
