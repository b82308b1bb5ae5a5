//! Laws of instances. Each function does nothing: its contract is the law.
ghost use Rattle.std.specs.Prelude.{◌<◌, ℕ};
ghost use Rattle.line_instance.specs.Line.{Before, tasks, at_rank};
ghost use Rattle.line_instance.specs.Laws.{AfterIsTheConverse, RanksAreInverse, RanksArePermutation};
ghost use Rattle.line_instance.specs.Laws.{InstanceIsOne, NoRing, AnswerIsOne, KeptIsOne};

use crate::instance::Instance;

/// What is before a task is before the tasks after it, and no task is before itself.
pub fn before_is_an_order(inst: &Instance)
    ensures leads_on { (i j k : ℕ) → Before inst.now i j → Before inst.now j k → Before inst.now i k }
    ensures not_itself { (i : ℕ) → Before inst.now i i → ⊥ }
{
    let _tasks = inst.tasks();
}

/// The set of the tasks after a task is one, and a task is in it where the other is in its row of the tasks before it.
pub fn after_is_the_converse()
    ensures { AfterIsTheConverse }
{}

/// A task's rank is above those of the tasks before it.
pub fn ranks_rise(inst: &Instance)
    ensures { (k m : ℕ) → k < tasks inst.now → m < tasks inst.now
        → Before inst.now (at_rank inst.now k) (at_rank inst.now m) → k < m }
{
    let _tasks = inst.tasks();
}

/// Ranks by tasks and tasks by ranks undo each other: the rank of the task of a rank is that rank.
pub fn ranks_are_inverse()
    ensures { RanksAreInverse }
{}

/// The ranks go over the tasks, each task once.
pub fn ranks_are_a_permutation()
    ensures { RanksArePermutation }
{}

/// Times and arcs have one instance.
pub fn instance_is_one()
    ensures { InstanceIsOne }
{}

/// The arcs of an instance have no ring.
pub fn no_ring()
    ensures { NoRing }
{}

/// The answers of `make` exclude each other, up to the ring that is shown and to out of memory.
pub fn answer_is_one()
    ensures { AnswerIsOne }
{}

/// A task has one list of kept partners.
pub fn kept_is_one()
    ensures { KeptIsOne }
{}
