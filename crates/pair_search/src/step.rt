//! The test of a step that was found: which of the items belong to `one`, and what lies between.
//!
//! Both go over the tasks that were found, with a few operations on sets each. On a straight line the hull takes in
//! whatever lies between two of them, so who conflicts in it is what the rows say.
ghost use Rattle.std.specs.Prelude.{◌≡◌, ℕ, ◌<◌, true, length, IfSome};
ghost use Rattle.line_instance.specs.Truths.{In, IsSubset};
ghost use Rattle.line_instance.specs.Line.{IsTaskSet};
ghost use Rattle.line_rules.specs.declared.types.LineKind.TheVariants.{Straight};
ghost use Rattle.line_rules.specs.Pairs.{is_between};
ghost use Rattle.pair_search.specs.inner.Ones.{AreOnes};

use line_instance::{Instance, TaskSet};
use line_rules::LineKind;

/// The items outside `two` that share with no task of it; None where two tasks of it share.
pub(crate) fn ones(rows: &[TaskSet], items: &TaskSet, two: &TaskSet) -> Option<TaskSet>
    requires rows { (i : ℕ) → In two.now i → i < length rows.now }
    ensures { IfSome result (AreOnes rows.now items.now two.now) }
{
    let mut one = items.minus(two);
    for i in two {
        let row = &rows[i as usize];
        if !row.meet(two).is_empty() {
            return None;
        }
        one = one.minus(row);
    }
    Some(one)
}

/// Some tasks with all that lies between two of them on a straight line.
pub(crate) fn hull(inst: &Instance, kind: LineKind, tasks: &TaskSet) -> TaskSet
    requires { IsTaskSet inst.now tasks.now }
    ensures truths { length result ≡ 1024 }
    ensures within { IsSubset tasks.now result }
    ensures between { kind ≡ Straight → (i j k : ℕ) → In tasks.now i → In tasks.now j
        → is_between inst.now i j k ≡ true → In result k }
{
    match kind {
        LineKind::U => return *tasks,
        LineKind::Straight => {}
    }
    let mut after = TaskSet::empty();
    let mut before = TaskSet::empty();
    for i in tasks {
        after = after.union(inst.after(i));
        before = before.union(inst.before(i));
    }
    tasks.union(&after.meet(&before))
}
