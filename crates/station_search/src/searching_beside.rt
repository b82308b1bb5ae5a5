//! The search over the loads of a set beside others, from load to load, with the frames on a stack in the heap.
//!
//! It goes as the search alone does, and a frame's loads are walked at most twice. In its first walk a rest that another
//! helper claims is put off, and so the frame lacks a cite. Such a frame is never published: where no entry answers it
//! by then, its loads are walked again from the first, and none is put off.
ghost use Rattle.std.specs.Prelude.{◌≡◌, ℕ, ◌+◌, ◌-◌, ◌^◌, ◌<◌, ◌≤◌, true, false, Option, None, IfOk, OnOk, OnErr, IfSome, []};
ghost use Rattle.line_instance.specs.Truths.{In};
ghost use Rattle.line_instance.specs.Line.{Line, IsTaskSet};
ghost use Rattle.line_rules.specs.Bounds.{bound};
ghost use Rattle.line_rules.specs.Loads.{IsLoad};
ghost use Rattle.line_rules.specs.Order.{Counts};
ghost use Rattle.line_rules.specs.Ranges.{IsCycle};
ghost use Rattle.line_rules.specs.declared.types.LineKind.{LineKind as Kind};
ghost use Rattle.line_rules.specs.declared.types.Mode.{Mode as Way};
ghost use Rattle.lemma_core.specs.Desks.{entries, Keeps, Waits, FollowsSeen};
ghost use Rattle.lemma_core.specs.Own.{IsStatable};
ghost use Rattle.station_search.specs.Mode.{frame_mode};
ghost use Rattle.station_search.specs.Decide.{IsFor, IsPairing};
ghost use Rattle.station_search.specs.Beside.{DecidesBeside, most_added};
ghost use Rattle.station_search.specs.inner.Work.{branch_of, Accounts};
ghost use Rattle.station_search.specs.inner.Walks.{IfWhole, Settles, PaysFor};
ghost use Rattle.station_search.specs.declared.searching_beside.Walk.TheVariants.{Second};

use crate::answers::{Reason, Units};
use crate::beside::{Beside, DecidedBeside};
use crate::listings::begin_listing;
use crate::looking::ByFind;
use crate::ordering::loads_in_order;
use crate::searching::publish_branch;
use crate::stacks::{push_on, take_from};
use crate::standing::{Listed, begin_standing, go_down, go_up, list_load, trail_of};
use lemma_core::Looked;
use line_instance::{Instance, TaskSet};
use line_rules::{Cites, LineKind, OpenFrame};
use lower_bounds::size_sets;
use pair_search::PairTable;
use std::alloc::{AllocError, Global};

/// Which walk over its loads a frame is in.
#[derive(Clone, Copy)]
pub enum Walk {
    /// The first, and no load was put off.
    First,
    /// The first, and a load was put off.
    Gapped,
    /// The second, in which none is put off.
    Second,
}

// Settles a frame whose loads ended: it is published, or looked for where a load of it was put off. The number of an
// entry that answers it; or None, and then the frame stands before its first load again.
fn settle<D: Beside>(
    alloc: Global,
    desk: &mut D,
    cycle: u64,
    frame: &mut OpenFrame,
    walk: Walk,
) -> Result<Option<u64>, AllocError>
    requires follows { IfWhole walk (FollowsSeen (D.desk desk.old) (branch_of cycle frame.old)) }
    requires range { IsStatable (branch_of cycle frame.old) }
    requires cycle { (D.desk desk.old).about.cycle ≡ cycle }
    ensures keeps { Keeps (D.desk desk.old) (D.desk desk.new) }
    ensures waits { OnErr result (Waits (D.desk desk.old) (D.desk desk.new)) }
    ensures settles { IfOk result (Settles cycle (D.desk desk.old) (D.desk desk.new) frame.old frame.new walk) }
    ensures pays { (asked : Option Way) (kind : Kind) (line : Line) (n : ℕ)
        → frame.old.mode ≡ frame_mode asked kind line frame.old.set
        → Counts line (IsLoad line cycle frame.old.mode frame.old.set) n
        → IfOk result (PaysFor asked kind line cycle (D.desk desk.old) (D.desk desk.new) n) }
{
    match walk {
        Walk::First | Walk::Second => Ok(Some(publish_branch(alloc, desk, cycle, frame)?)),
        Walk::Gapped => match desk.look(&frame.set, frame.most) {
            Looked::Found { id, .. } => Ok(Some(id)),
            Looked::Absent => {
                frame.last = None;
                frame.cites = Cites::from_vec(Vec::new(alloc));
                Ok(None)
            }
        },
    }
}

// Whether the load of an open rest is put off: in the first walk where another helper claims the rest.
fn is_put_off<D: Beside>(desk: &mut D, walk: Walk, rest: &TaskSet, most: u32) -> bool
    ensures waits { Waits (D.desk desk.old) (D.desk desk.new) }
    ensures settles { walk ≡ Second → result ≡ false }
{
    match walk {
        Walk::First | Walk::Gapped => desk.is_claimed(rest, most),
        Walk::Second => false,
    }
}

// Whether an open rest is searched now, and then it is claimed; otherwise its load is put off.
fn takes_up<D: Beside>(desk: &mut D, walk: Walk, rest: &TaskSet, most: u32) -> bool
    ensures waits { Waits (D.desk desk.old) (D.desk desk.new) }
    ensures settles { walk ≡ Second → result ≡ true }
{
    if is_put_off(desk, walk, rest, most) {
        return false;
    }
    desk.claim(rest, most);
    true
}

/// Goes from load to load until the set is refuted, a balance is found, the units end, or the end is called.
pub fn search_beside<D: Beside>(
    alloc: Global,
    desk: &mut D,
    inst: &Instance,
    kind: LineKind,
    cycle: u64,
    set: &TaskSet,
    most: u32,
    pairs: &mut Option<PairTable>,
    units: &mut Units,
) -> Result<DecidedBeside, AllocError>
    requires desk { IsFor (D.desk desk.old) inst.now kind cycle }
    requires set { IsTaskSet inst.now set.now }
    requires cycle { IsCycle cycle }
    requires few { most ≤ 1024 }
    requires pairs { IfSome pairs.old (IsPairing inst.now kind cycle) }
    requires some { (i : ℕ) × In set.now i }
    requires bound { bound kind inst.now cycle set.now ≤ most }
    requires units { units.old.used + units.old.left < 2 ^ 64 }
    ensures keeps { Keeps (D.desk desk.old) (D.desk desk.new) }
    ensures pairs { pairs.new ≡ pairs.old }
    ensures units { units.new.used + units.new.left ≡ units.old.used + units.old.left }
    ensures decides { IfOk result
        (DecidesBeside kind inst.now cycle (entries (D.desk desk.new)) set.now most units.new.left) }
    ensures ends { let used = units.new.used - units.old.used in IfOk result (λ d.
        Accounts None kind inst.now cycle (D.desk desk.old) (D.desk desk.new) [] used (most_added used d)) }
    ensures accounts { let used = units.new.used - units.old.used in
        OnErr result (Accounts None kind inst.now cycle (D.desk desk.old) (D.desk desk.new) [] used used) }
{
    let _tasks = inst.tasks();
    let sizes = size_sets(inst, cycle);
    let mut standing = begin_standing(alloc, inst, kind, cycle, set, most, None, pairs)?;
    let mut walks: Vec<Walk> = Vec::new(alloc);
    let mut walk = Walk::First;
    'search: loop {
        match list_load::<ByFind, D>(
            alloc,
            desk,
            inst,
            kind,
            cycle,
            &sizes,
            pairs,
            units,
            &mut standing,
        )? {
            Listed::Ended => {
                let settled = settle(alloc, desk, cycle, &mut standing.frame, walk)?;
                let Some(id) = settled else {
                    standing.listing = begin_listing(inst, cycle, &standing.frame);
                    walk = Walk::Second;
                    continue;
                };
                let up = go_up(pairs, &mut standing, id)?;
                if !up {
                    return Ok(DecidedBeside::Refuted(Reason::ByEntry(id)));
                }
                walk = take_from(&mut walks);
                if desk.is_ended() {
                    return Ok(DecidedBeside::Ended);
                }
            }
            Listed::Spent => return Ok(DecidedBeside::Spent),
            Listed::Passed => {}
            Listed::Empty => {
                let frames = trail_of(standing);
                return Ok(DecidedBeside::Found(loads_in_order(alloc, &frames)?));
            }
            Listed::Open(rest) => {
                if takes_up(desk, walk, &rest, standing.frame.most - 1) {
                    go_down(alloc, inst, kind, cycle, &rest, None, pairs, &mut standing)?;
                    push_on(&mut walks, walk)?;
                    walk = Walk::First;
                } else {
                    walk = Walk::Gapped;
                }
            }
        }
    }
}
