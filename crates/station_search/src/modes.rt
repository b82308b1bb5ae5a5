//! The choice of the end from which the stations of a set are filled: the one with fewer tasks to begin with.
//!
//! One pass over the members, with two meets of words for each.
ghost use Rattle.std.specs.Prelude.{◌≡◌, ◌<◌, IfSome};
ghost use Rattle.line_instance.specs.Line.{IsTaskSet, tasks};
ghost use Rattle.line_rules.specs.Loads.{Belongs};
ghost use Rattle.station_search.specs.Mode.{mode_of, frame_mode, is_source, is_sink};

use line_instance::{Instance, TaskSet};
use line_rules::{LineKind, Mode};

// Whether no member of the set is before the task.
#[inline]
fn is_source(inst: &Instance, set: &TaskSet, task: u32) -> bool
    requires { task < tasks inst.now }
    ensures { result ≡ is_source inst.now set.now task }
{
    inst.is_disjoint(inst.before(task), set)
}

// Whether no member of the set is after the task.
#[inline]
fn is_sink(inst: &Instance, set: &TaskSet, task: u32) -> bool
    requires { task < tasks inst.now }
    ensures { result ≡ is_sink inst.now set.now task }
{
    inst.is_disjoint(inst.after(task), set)
}

/// The mode of a set of tasks: both ends on a U-line. On a straight line it is the front, where the tasks of the set
/// without predecessor in it are at most as many as those without successor in it, and otherwise the back.
pub fn choose_mode(inst: &Instance, kind: LineKind, set: &TaskSet) -> Mode
    requires { IsTaskSet inst.now set.now }
    ensures mode { result ≡ mode_of kind inst.now set.now }
    ensures belongs { Belongs kind result }
{
    match kind {
        LineKind::U => return Mode::Both,
        LineKind::Straight => {}
    }
    let (mut sources, mut sinks) = (0u32, 0u32);
    for task in set {
        sources += u32::from(is_source(inst, set, task));
        sinks += u32::from(is_sink(inst, set, task));
    }
    if sources <= sinks {
        Mode::Fore
    } else {
        Mode::Back
    }
}

/// The mode of a frame: the one that is asked for, and where none is the mode of its set.
#[inline]
pub fn mode_for(inst: &Instance, kind: LineKind, set: &TaskSet, asked: Option<Mode>) -> Mode
    requires set { IsTaskSet inst.now set.now }
    requires asked { IfSome asked (Belongs kind) }
    ensures mode { result ≡ frame_mode asked kind inst.now set.now }
    ensures belongs { Belongs kind result }
{
    match asked {
        Some(mode) => mode,
        None => choose_mode(inst, kind, set),
    }
}
