//! Where a search stands, and the steps that it takes: the next load is listed, the rest of a load is gone down to, and
//! a frame that is refuted gives way to the one above it.
//!
//! Both searches take these steps. The frames that wait stand on a stack in the heap, and their listings on another.
ghost use Rattle.std.specs.Prelude.{◌≡◌, ◌+◌, ◌^◌, ◌<◌, ◌≤◌, ◌&&◌, [], Option, None, IfOk, IfSome, OnOk, OnErr, true};
ghost use Rattle.std.specs.Prelude.{false, length, vec_len, vec_capacity, ◌∷◌, ◌++◌, IsSome};
ghost use Rattle.line_instance.specs.Line.{IsTaskSet};
ghost use Rattle.line_rules.specs.Loads.{Belongs};
ghost use Rattle.line_rules.specs.Ranges.{IsCycle};
ghost use Rattle.line_rules.specs.declared.types.Mode.{Mode as Way};
ghost use Rattle.lower_bounds.specs.Sizes.{AreSizeSets};
ghost use Rattle.lemma_core.specs.Desks.{Keeps};
ghost use Rattle.station_search.specs.Mode.{frame_mode};
ghost use Rattle.station_search.specs.Decide.{IsFor, IsPairing};
ghost use Rattle.station_search.specs.inner.Work.{IsBeside, DoesFew};
ghost use Rattle.station_search.specs.inner.Steps.{IsReady, IsBegun, GoesDown, GoesUp, ListsOn, with_mark};

use crate::answers::Units;
use crate::listings::{Listing, begin_listing, next_load, pass_over};
use crate::looking::Looker;
use crate::modes::mode_for;
use crate::pairing::{enter, enter_first, leave};
use crate::sorting::{Sorted, sort_rest};
use crate::stacks::{pop_from, push_on, stack_with_room, take_from};
use lemma_core::Desk;
use line_instance::{Instance, TaskSet};
use line_rules::{Cites, Frames, LineKind, Mode, OpenFrame};
use lower_bounds::SizeSets;
use pair_search::PairTable;
use std::alloc::{AllocError, Global};
use std::mem::replace;

/// Where a search stands: the frames that wait, with their listings, and the one in hand.
#[derive(Drop)]
pub struct Standing {
    /// The frames that wait, from the question down.
    pub passed: Vec<OpenFrame>,
    /// Their listings.
    pub listings: Vec<Listing>,
    /// The frame in hand.
    pub frame: OpenFrame,
    /// Its listing.
    pub listing: Listing,
}

/// What comes of the next load of the frame in hand.
pub enum Listed {
    /// There is none.
    Ended,
    /// There is one, and no unit for it.
    Spent,
    /// It needs no search: the frame cites an entry that refutes its rest.
    Passed,
    /// Its rest is empty, so there is a balance.
    Empty,
    /// Its rest is to be searched.
    Open(TaskSet),
}

/// A frame of which no load was listed: in the mode asked for, or else in that of its set.
pub fn open_frame(
    alloc: Global,
    inst: &Instance,
    kind: LineKind,
    set: &TaskSet,
    most: u32,
    mode: Option<Mode>,
) -> OpenFrame
    requires set { IsTaskSet inst.now set.now }
    requires mode { IfSome mode (Belongs kind) }
    ensures set { result.set ≡ set.now }
    ensures most { result.most ≡ most }
    ensures mode { result.mode ≡ frame_mode mode kind inst.now set.now }
    ensures belongs { Belongs kind result.mode }
    ensures last { result.last ≡ None }
    ensures cites { result.cites ≡ [] }
{
    OpenFrame {
        set: *set,
        most,
        mode: mode_for(inst, kind, set, mode),
        last: None,
        cites: Cites::from_vec(Vec::new(alloc)),
    }
}

/// Stands before the first load of a question. The table goes into its frame.
pub fn begin_standing(
    alloc: Global,
    inst: &Instance,
    kind: LineKind,
    cycle: u64,
    set: &TaskSet,
    most: u32,
    mode: Option<Mode>,
    pairs: &mut Option<PairTable>,
) -> Result<Standing, AllocError>
    requires set { IsTaskSet inst.now set.now }
    requires mode { IfSome mode (Belongs kind) }
    ensures pairs { pairs.new ≡ pairs.old }
    ensures begun { IfOk result (IsBegun mode kind inst.now cycle set.now most) }
{
    enter_first(pairs, set)?;
    let passed = stack_with_room(alloc)?;
    let frame = open_frame(alloc, inst, kind, set, most, mode);
    let listing = begin_listing(inst, cycle, &frame);
    Ok(Standing {
        passed,
        listings: Vec::new(alloc),
        frame,
        listing,
    })
}

/// Goes down to the rest of the last load: the frame in hand waits, and one of the rest with a station less is in hand.
pub fn go_down(
    alloc: Global,
    inst: &Instance,
    kind: LineKind,
    cycle: u64,
    rest: &TaskSet,
    mode: Option<Mode>,
    pairs: &mut Option<PairTable>,
    standing: &mut Standing,
) -> Result<(), AllocError>
    requires set { IsTaskSet inst.now rest.now }
    requires mode { IfSome mode (Belongs kind) }
    requires some { 1 ≤ standing.old.frame.most }
    requires beside { IsBeside inst.now cycle standing.old.frame standing.old.listing }
    requires ready { IsReady inst.now cycle standing.old }
    ensures pairs { pairs.new ≡ pairs.old }
    ensures down { OnOk result (GoesDown mode kind inst.now cycle rest.now standing.old standing.new) }
{
    enter(pairs, rest)?;
    let below = open_frame(alloc, inst, kind, rest, standing.frame.most - 1, mode);
    let listing = begin_listing(inst, cycle, &below);
    push_on(&mut standing.passed, replace(&mut standing.frame, below))?;
    push_on(
        &mut standing.listings,
        replace(&mut standing.listing, listing),
    )?;
    Ok(())
}

/// Goes up to the frame that waits last, which cites the entry that answers the one in hand. False where none waits.
pub fn go_up(
    pairs: &mut Option<PairTable>,
    standing: &mut Standing,
    id: u64,
) -> Result<bool, AllocError>
    requires ready { length standing.old.listings.items ≡ length standing.old.passed.items }
    ensures pairs { pairs.new ≡ pairs.old }
    ensures top { IfOk result (λ up. up ≡ false → standing.old.passed.items ≡ []) }
    ensures up { IfOk result (λ up. up ≡ true → GoesUp id standing.old standing.new) }
    ensures fails { OnErr result (1 ≤ length standing.old.passed.items) }
{
    leave(pairs);
    let Some(parent) = pop_from(&mut standing.passed) else {
        return Ok(false);
    };
    standing.frame = parent;
    standing.listing = take_from(&mut standing.listings);
    standing.frame.cites.push(id)?;
    Ok(true)
}

/// The frames that wait and the one in hand after them, in the room that the stack has: this takes no memory.
pub fn trail_of(standing: Standing) -> Frames
    requires { vec_len standing.passed < vec_capacity standing.passed }
    ensures { result ≡ standing.passed.items ++ standing.frame ∷ [] }
{
    let mut passed = standing.passed;
    passed.push_reserved(standing.frame);
    Frames::from_vec(passed)
}

// The frame has the load at which its listing stands as its last one, where loads were passed over.
fn catch_up(frame: &mut OpenFrame, listing: &Listing, passed: bool)
    requires none { passed ≡ false → listing.now.walk.last ≡ frame.old.last }
    requires some { passed ≡ true → IsSome listing.now.walk.last }
    ensures { frame.new ≡ with_mark frame.old listing.now.walk.last }
{
    if passed {
        frame.last = Some(listing.walk.load());
    }
}

/// Lists the next load of the frame in hand, where there is one and a unit for it, and sorts what it leaves. Loads before
/// it that aren't open are passed over.
pub fn list_load<L: Looker<D>, D: Desk>(
    alloc: Global,
    desk: &mut D,
    inst: &Instance,
    kind: LineKind,
    cycle: u64,
    sizes: &SizeSets,
    pairs: &mut Option<PairTable>,
    units: &mut Units,
    standing: &mut Standing,
) -> Result<Listed, AllocError>
    requires desk { IsFor (D.desk desk.old) inst.now kind cycle }
    requires cycle { IsCycle cycle }
    requires sizes { AreSizeSets inst.now cycle sizes.now }
    requires set { IsTaskSet inst.now standing.old.frame.set }
    requires beside { IsBeside inst.now cycle standing.old.frame standing.old.listing }
    requires some { 1 ≤ standing.old.frame.most }
    requires few { standing.old.frame.most ≤ 1024 }
    requires pairs { IfSome pairs.old (IsPairing inst.now kind cycle) }
    requires units { units.old.used + units.old.left < 2 ^ 64 }
    ensures keeps { Keeps (D.desk desk.old) (D.desk desk.new) }
    ensures pairs { pairs.new ≡ pairs.old }
    ensures units { units.new.used + units.new.left ≡ units.old.used + units.old.left }
    ensures lists { IfOk result (ListsOn kind inst.now cycle (L.exact && (D.desk desk.old).alone) (D.desk desk.old)
        (D.desk desk.new) standing.old standing.new units.old.used units.new.used units.new.left) }
    ensures fails { (asked : Option Way)
        → OnErr result (DoesFew asked kind inst.now cycle (D.desk desk.old) (D.desk desk.new) 1 0) }
    ensures fails_used { OnErr result (units.old.used + 1 ≤ units.new.used) }
{
    let used = units.used;
    if !pass_over(
        inst,
        kind,
        cycle,
        sizes,
        &standing.frame,
        &mut standing.listing,
        units,
    ) {
        catch_up(&mut standing.frame, &standing.listing, units.used != used);
        return match next_load(inst, cycle, &standing.frame, &mut standing.listing) {
            None => Ok(Listed::Ended),
            Some(_) => Ok(Listed::Spent),
        };
    }
    standing.frame.last = Some(standing.listing.walk.load());
    let rest = standing.listing.walk.rest(inst);
    let most = standing.frame.most - 1;
    match sort_rest::<L, D>(alloc, desk, inst, kind, cycle, &rest, most, pairs)? {
        Sorted::Covered(cite) => {
            standing.frame.cites.push(cite)?;
            Ok(Listed::Passed)
        }
        Sorted::Empty => Ok(Listed::Empty),
        Sorted::Open => Ok(Listed::Open(rest)),
    }
}
