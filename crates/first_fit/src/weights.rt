//! The weights of the tasks.
//!
//! In front a task weighs its own time and that of all after it; at the back its own and that of all before it. Each
//! weight is one sum over a set, made once for the line.
ghost use Rattle.std.specs.Prelude.{◌≡◌, ◌<◌, ◌≤◌, IfOk, length};
ghost use Rattle.line_instance.specs.Line.{Line, tasks};
ghost use Rattle.line_rules.specs.Ranked.{weight};
ghost use Rattle.first_fit.specs.inner.Weights.{AreWeights, weight_in};
ghost use Rattle.line_rules.specs.declared.types.Side.TheVariants.{Front, Back};

use crate::filling::Choice;
use line_instance::Instance;
use line_rules::Side;
use std::alloc::{AllocError, Global};

/// The weight of each task in front and at the back.
#[derive(Drop)]
pub struct Weights {
    pub front: Vec<u64>,
    pub back: Vec<u64>,
}

impl Weights {
    /// The weight of a task at a side.
    pub fn of(&self, choice: Choice) -> u64
        requires front { choice.task < length self.now.front.items }
        requires back { choice.task < length self.now.back.items }
        ensures { result ≡ weight_in self.now choice.task choice.side }
    {
        match choice.side {
            Side::Front => self.front[choice.task as usize],
            Side::Back => self.back[choice.task as usize],
        }
    }
}

fn front_weight(inst: &Instance, task: u32) -> u64
    requires { task < tasks inst.now }
    ensures weight { result ≡ weight inst.now task Front }
{
    let _tasks = inst.tasks();
    inst.time(task) + inst.sum(inst.after(task))
}

fn back_weight(inst: &Instance, task: u32) -> u64
    requires { task < tasks inst.now }
    ensures weight { result ≡ weight inst.now task Back }
{
    let _tasks = inst.tasks();
    inst.time(task) + inst.sum(inst.before(task))
}

/// The weights of all tasks.
pub fn weights_of(alloc: Global, inst: &Instance) -> Result<Weights, AllocError>
    ensures { IfOk result (λ w. AreWeights inst.now w) }
{
    let mut front = Vec::new(alloc);
    let mut back = Vec::new(alloc);
    for task in 0..inst.tasks() {
        front.push(front_weight(inst, task))?;
        back.push(back_weight(inst, task))?;
    }
    Ok(Weights { front, back })
}
