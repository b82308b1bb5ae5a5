//! The choice of the next task.
//!
//! It goes over all tasks, front before back, and keeps the best so far. A later choice has to have more weight, so of
//! equal weights the least task stays, in front before the back.
ghost use Rattle.std.specs.Prelude.{◌≡◌, ◌<◌, IsNone, IfSome};
ghost use Rattle.line_instance.specs.Line.{tasks};
ghost use Rattle.first_fit.specs.inner.Filling.{MayJoin};
ghost use Rattle.first_fit.specs.inner.Weights.{AreWeights};
ghost use Rattle.first_fit.specs.inner.Picked.{IsFirst, IsBetter};
ghost use Rattle.first_fit.specs.declared.filling.Choice.{Choice as Pick};

use crate::filling::{Choice, Filling};
use crate::weights::Weights;
use line_instance::Instance;
use line_rules::{LineKind, Side};

/// Of the tasks and sides that may join the station the one that ranks first.
pub fn pick(inst: &Instance, kind: LineKind, weights: &Weights, filling: &Filling) -> Option<Choice>
    requires { AreWeights inst.now weights.now }
    ensures none { IsNone result → (a : Pick) → MayJoin kind inst.now filling.now a → ⊥ }
    ensures some { IfSome result (IsFirst kind inst.now filling.now) }
{
    let mut best = None;
    for task in 0..inst.tasks() {
        let front = Choice {
            task,
            side: Side::Front,
        };
        best = better(inst, kind, weights, filling, best, front);
        let back = Choice {
            task,
            side: Side::Back,
        };
        best = better(inst, kind, weights, filling, best, back);
    }
    best
}

/// The better of the best so far and a further choice, which may not be one.
fn better(
    inst: &Instance,
    kind: LineKind,
    weights: &Weights,
    filling: &Filling,
    best: Option<Choice>,
    choice: Choice,
) -> Option<Choice>
    requires weights { AreWeights inst.now weights.now }
    requires task { choice.task < tasks inst.now }
    requires best { IfSome best (λ b. b.task < tasks inst.now) }
    ensures { IsBetter kind inst.now filling.now best choice result }
{
    if !filling.may_join(inst, kind, choice) {
        return best;
    }
    match best {
        None => Some(choice),
        Some(b) => {
            if weights.of(b) < weights.of(choice) {
                Some(choice)
            } else {
                best
            }
        }
    }
}
