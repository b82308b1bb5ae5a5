//! The search over the loads of a set, from load to load, with the frames on a stack in the heap.
//!
//! A frame is a question: whether its set has a balance in so many stations. Its loads are listed in order. The rest of
//! a load that nothing refutes is the question of a frame below. A frame whose loads ended is refuted, and published.
ghost use Rattle.std.specs.Prelude.{◌≡◌, ℕ, ◌+◌, ◌-◌, ◌^◌, ◌<◌, ◌≤◌, true, []};
ghost use Rattle.std.specs.Prelude.{Option, IfOk, OnOk, OnErr, IfSome, None};
ghost use Rattle.line_instance.specs.Truths.{In};
ghost use Rattle.line_instance.specs.Line.{Line, IsTaskSet};
ghost use Rattle.line_rules.specs.Bounds.{bound};
ghost use Rattle.line_rules.specs.Loads.{IsLoad, Belongs};
ghost use Rattle.line_rules.specs.Order.{Counts};
ghost use Rattle.line_rules.specs.Entries.{IsUnanswered};
ghost use Rattle.line_rules.specs.Ranges.{IsCycle};
ghost use Rattle.line_rules.specs.declared.types.LineKind.{LineKind as Kind};
ghost use Rattle.line_rules.specs.declared.types.Mode.{Mode as Way};
ghost use Rattle.lemma_core.specs.Desks.{entries, Keeps, Waits, FollowsSeen};
ghost use Rattle.lemma_core.specs.Own.{IsStatable};
ghost use Rattle.station_search.specs.Mode.{frame_mode};
ghost use Rattle.station_search.specs.Decide.{IsFor, IsPairing, IsAnswered, Decides};
ghost use Rattle.station_search.specs.inner.Work.{branch_of, DoesFew, DoesFor, Accounts, Ends};

use crate::answers::{Decided, Reason, Units};
use crate::looking::ByLook;
use crate::ordering::loads_in_order;
use crate::standing::{Listed, begin_standing, go_down, go_up, list_load, trail_of};
use lemma_core::{Desk, Published};
use line_instance::{Instance, TaskSet};
use line_rules::{Cites, Entry, LineKind, Mode, OpenFrame, Why};
use lower_bounds::size_sets;
use pair_search::PairTable;
use std::alloc::{AllocError, Global};
use std::mem::replace;

/// Publishes a frame whose loads ended as a Branch entry, which takes its cites, and gives the number of an entry that
/// answers it.
pub fn publish_branch<D: Desk>(
    alloc: Global,
    desk: &mut D,
    cycle: u64,
    frame: &mut OpenFrame,
) -> Result<u64, AllocError>
    requires follows { FollowsSeen (D.desk desk.old) (branch_of cycle frame.old) }
    requires range { IsStatable (branch_of cycle frame.old) }
    ensures keeps { Keeps (D.desk desk.old) (D.desk desk.new) }
    ensures waits { OnErr result (Waits (D.desk desk.old) (D.desk desk.new)) }
    ensures answered { IfOk result (λ id.
        IsAnswered (entries (D.desk desk.new)) id frame.old.set frame.old.most cycle) }
    ensures publishes { (asked : Option Way) (kind : Kind) (line : Line) (n : ℕ)
        → frame.old.mode ≡ frame_mode asked kind line frame.old.set
        → Counts line (IsLoad line cycle frame.old.mode frame.old.set) n
        → ((D.desk desk.old).alone ≡ true → IsUnanswered (entries (D.desk desk.old)) frame.old.set frame.old.most cycle)
        → OnOk result (DoesFor asked kind line cycle (D.desk desk.old) (D.desk desk.new) frame.old.set 1 n) }
    ensures pays { (asked : Option Way) (kind : Kind) (line : Line) (n : ℕ)
        → frame.old.mode ≡ frame_mode asked kind line frame.old.set
        → Counts line (IsLoad line cycle frame.old.mode frame.old.set) n
        → OnOk result (DoesFew asked kind line cycle (D.desk desk.old) (D.desk desk.new) 1 n) }
{
    let cites = replace(&mut frame.cites, Cites::from_vec(Vec::new(alloc)));
    let step = Entry {
        set: frame.set,
        most: frame.most,
        cycle,
        why: Why::Branch {
            mode: frame.mode,
            cites,
        },
    };
    match desk.publish(step) {
        Published::Known(id) => Ok(id),
        Published::Added(id) => Ok(id),
        Published::NoMemory => Err(AllocError),
    }
}

/// Goes from load to load until the set is refuted, a balance is found, or the units end.
pub fn search<D: Desk>(
    alloc: Global,
    desk: &mut D,
    inst: &Instance,
    kind: LineKind,
    cycle: u64,
    set: &TaskSet,
    most: u32,
    mode: Option<Mode>,
    pairs: &mut Option<PairTable>,
    units: &mut Units,
) -> Result<Decided, AllocError>
    requires desk { IsFor (D.desk desk.old) inst.now kind cycle }
    requires set { IsTaskSet inst.now set.now }
    requires cycle { IsCycle cycle }
    requires few { most ≤ 1024 }
    requires mode { IfSome mode (Belongs kind) }
    requires pairs { IfSome pairs.old (IsPairing inst.now kind cycle) }
    requires some { (i : ℕ) × In set.now i }
    requires bound { bound kind inst.now cycle set.now ≤ most }
    requires unanswered { (D.desk desk.old).alone ≡ true → IsUnanswered (entries (D.desk desk.old)) set.now most cycle }
    requires units { units.old.used + units.old.left < 2 ^ 64 }
    ensures keeps { Keeps (D.desk desk.old) (D.desk desk.new) }
    ensures pairs { pairs.new ≡ pairs.old }
    ensures units { units.new.used + units.new.left ≡ units.old.used + units.old.left }
    ensures decides { IfOk result
        (Decides mode kind inst.now cycle (entries (D.desk desk.new)) set.now most units.new.left) }
    ensures ends { IfOk result
        (Ends mode kind inst.now cycle (D.desk desk.old) (D.desk desk.new) (units.new.used - units.old.used)) }
    ensures accounts { let used = units.new.used - units.old.used in
        OnErr result (Accounts mode kind inst.now cycle (D.desk desk.old) (D.desk desk.new) [] used used) }
{
    let _tasks = inst.tasks();
    let sizes = size_sets(inst, cycle);
    let mut standing = begin_standing(alloc, inst, kind, cycle, set, most, mode, pairs)?;
    'search: loop {
        match list_load::<ByLook, D>(
            alloc,
            desk,
            inst,
            kind,
            cycle,
            &sizes,
            pairs,
            units,
            &mut standing,
        )? {
            Listed::Ended => {
                let id = publish_branch(alloc, desk, cycle, &mut standing.frame)?;
                let up = go_up(pairs, &mut standing, id)?;
                if !up {
                    return Ok(Decided::Refuted(Reason::ByEntry(id)));
                }
            }
            Listed::Spent => return Ok(Decided::Spent(trail_of(standing))),
            Listed::Passed => {}
            Listed::Empty => {
                let frames = trail_of(standing);
                return Ok(Decided::Found(loads_in_order(alloc, &frames)?));
            }
            Listed::Open(rest) => {
                go_down(alloc, inst, kind, cycle, &rest, mode, pairs, &mut standing)?;
            }
        }
    }
}
