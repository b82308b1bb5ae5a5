//! The instance that a mix combines to.
//!
//! The combined time of a task is summed model by model, and fits the limit of an instance: 16 models of a demand of
//! 10,000 and a time of 1,000,000,000 come to 160,000,000,000,000. The arcs of all models are put behind each other,
//! and an arc that two models have stands twice, which changes no walk.
ghost use Rattle.std.specs.Prelude.{◌≡◌, ◌≤◌, ◌<◌, ◌*◌, ℕ, List, IfOk, length, slice_index_or};
ghost use Rattle.combined_graph.specs.Combined.{IsCombined, IsCombinedAs, combined_time, all_arcs, total_demand};
ghost use Rattle.combined_graph.specs.Mixes.{model_at};
ghost use Rattle.line_instance.specs.Line.{Line};

use crate::mix::Mix;
use crate::model::MixModel;
use line_instance::{Instance, Made, Prec, Ring, make};
use std::alloc::{AllocError, Global};

/// What combining a mix answers.
#[derive(Drop)]
pub enum Combined {
    /// The combined instance, and how many units are wanted of all models together.
    Good(Instance, u64),
    /// The arcs of the models have a cycle together; a closed walk without a repeated task, written from its least
    /// task.
    Cycle(Ring),
    /// Out of memory.
    NoMemory,
}

/// Combines a mix: the time of a task is the sum over the models of demand times time, and the arcs are those of all
/// models. So a cycle time of the launch interval times the total demand is an interval for each unit on average.
pub fn combine(alloc: Global, mix: &Mix) -> Combined
    ensures combined { IsCombinedAs mix.now result }
    ensures cycle { (ring : List ℕ) → result ≡ Combined.Cycle ring → (line : Line) → ¬ IsCombined mix.now line }
{
    let tasks = mix.tasks();
    let Ok(times) = times_of(alloc, tasks, &mix.models) else {
        return Combined::NoMemory;
    };
    let Ok(arcs) = arcs_of(alloc, &mix.models) else {
        return Combined::NoMemory;
    };
    match make(alloc, times, &arcs) {
        Made::Good(instance) => Combined::Good(instance, demand_of(&mix.models)),
        Made::Cycle(ring) => Combined::Cycle(ring),
        Made::NoMemory => Combined::NoMemory,
        _ => unreachable!(),
    }
}

// How many units are wanted.
fn demand_of(models: &[MixModel]) -> u64
    requires { length models.now ≤ 16 }
    ensures { result ≡ total_demand models.now }
{
    let mut total = 0;
    for m in 0..models.len() {
        total += models[m].demand();
    }
    total
}

// The combined time of a task.
fn time_of(models: &[MixModel], task: u32) -> u64
    requires few { length models.now ≤ 16 }
    requires task { (m : ℕ) → m < length models.now → task < length (model_at models.now m).times }
    ensures time { result ≡ combined_time models.now task }
    ensures limit { result ≤ 200000000000000 }
{
    let mut time = 0;
    for m in 0..models.len() {
        time += models[m].work(task);
    }
    time
}

// The combined times of so many tasks.
fn times_of(alloc: Global, tasks: u32, models: &[MixModel]) -> Result<Vec<u64>, AllocError>
    requires few { length models.now ≤ 16 }
    requires tasks { (m : ℕ) → m < length models.now → length (model_at models.now m).times ≡ tasks }
    ensures many { IfOk result (λ v. length v.items ≡ tasks) }
    ensures times { IfOk result (λ v. (t : ℕ) → t < tasks → slice_index_or v.items t 0 ≡ combined_time models.now t) }
    ensures limit { IfOk result (λ v. (t : ℕ) → slice_index_or v.items t 0 ≤ 200000000000000) }
{
    let mut times = Vec::new(alloc);
    for task in 0..tasks {
        times.push(time_of(models, task))?;
    }
    Ok(times)
}

// The arcs of all models.
fn arcs_of(alloc: Global, models: &[MixModel]) -> Result<Vec<Prec>, AllocError>
    ensures { IfOk result (λ v. v.items ≡ all_arcs models.now) }
{
    let mut arcs = Vec::new(alloc);
    for m in 0..models.len() {
        arcs.extend_from_slice(models[m].arcs())?;
    }
    Ok(arcs)
}
