//! Draws times and arcs, task by task, and makes the instance of them.
//!
//! A time is 1 to 100. A task has an arc from an earlier one where its word is even, so about half of the tasks have
//! one. No ring can come, since each arc leads to a later task.
ghost use Rattle.std.specs.Prelude.{◌≡◌, ◌≤◌, ◌++◌, ◌∷◌, [], ℕ, List, length, IfOk, OnOk};
ghost use Rattle.line_instance.specs.Made.{AreTimes, IsInstanceOf};
ghost use Rattle.line_instance.specs.Walks.{AreArcs, IsRing};
ghost use Rattle.line_generator.specs.Drawn.{IfGood, IsGenerated, word, next, time_from, arc_from, times_of, arcs_of};

use line_instance::{Instance, Made, Prec, make};
use rand_core::SeedableRng;
use rand_core::utils::NextWord;
use rand_pcg::Lcg64Xsh32;
use std::alloc::{AllocError, Global};

/// What drawing a line gives.
#[derive(Drop)]
pub enum Generated {
    /// The line.
    Good(Instance),
    /// Out of memory.
    NoMemory,
}

/// Times and arcs.
#[derive(Drop)]
struct Draft {
    times: Vec<u64>,
    arcs: Vec<Prec>,
}

/// The line of a seed, of 1 to 1,024 tasks: times of 1 to 100, and at most one arc to each task from an earlier one.
pub fn generate(alloc: Global, seed: u64, tasks: u32) -> Generated
    requires some { 1 ≤ tasks }
    requires few { tasks ≤ 1024 }
    ensures { IfGood result (IsGenerated seed tasks) }
{
    match draw(alloc, seed, tasks) {
        Ok(draft) => line_of(alloc, draft),
        Err(_) => Generated::NoMemory,
    }
}

// The line of times and arcs that no refusal fits.
fn line_of(alloc: Global, draft: Draft) -> Generated
    requires times { AreTimes draft.times.items }
    requires arcs { AreArcs (length draft.times.items) draft.arcs.items }
    requires ringless { (ring : List ℕ) → IsRing draft.arcs.items ring → ⊥ }
    ensures { IfGood result (IsInstanceOf draft.times.items draft.arcs.items) }
{
    let Draft { times, arcs } = draft;
    match make(alloc, times, &arcs) {
        Made::Good(inst) => Generated::Good(inst),
        Made::NoMemory => Generated::NoMemory,
        _ => unreachable!(),
    }
}

// The times and arcs of the line.
fn draw(alloc: Global, seed: u64, tasks: u32) -> Result<Draft, AllocError>
    requires { 1 ≤ tasks }
    ensures times { IfOk result (λ d. d.times.items ≡ times_of seed tasks) }
    ensures arcs { IfOk result (λ d. d.arcs.items ≡ arcs_of seed tasks) }
{
    let mut rng = Lcg64Xsh32::seed_from_u64(seed);
    let (mut times, mut arcs) = (Vec::new(alloc), Vec::new(alloc));
    draw_time(&mut rng, &mut times)?;
    for task in 1..tasks {
        draw_time(&mut rng, &mut times)?;
        draw_arc(&mut rng, task, &mut arcs)?;
    }
    Ok(Draft { times, arcs })
}

// Draws the time of the next task.
fn draw_time(rng: &mut Lcg64Xsh32, times: &mut Vec<u64>) -> Result<(), AllocError>
    ensures rng { rng.new ≡ next rng.old }
    ensures times { OnOk result (times.new.items ≡ times.old.items ++ time_from (word rng.old) ∷ []) }
{
    let word = rng.next_word();
    times.push(1 + u64::from(word % 100))?;
    Ok(())
}

// Draws the arc to a task from an earlier one, where its word is one.
fn draw_arc(rng: &mut Lcg64Xsh32, task: u32, arcs: &mut Vec<Prec>) -> Result<(), AllocError>
    requires { 1 ≤ task }
    ensures rng { rng.new ≡ next rng.old }
    ensures arcs { OnOk result (arcs.new.items ≡ arcs.old.items ++ arc_from (word rng.old) task) }
{
    let word = rng.next_word();
    if word % 2 == 0 {
        arcs.push(Prec {
            first: word / 2 % task,
            then: task,
        })?;
    }
    Ok(())
}
