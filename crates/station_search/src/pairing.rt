//! The pairs of a search: what its table tells of a question, the entry that is published for that, and the frames
//! that the table goes into.
//!
//! Without a table nothing is asked, and nothing is done.
ghost use Rattle.std.specs.Prelude.{◌≡◌, ◌≤◌, ℕ, true, List, Bool, Option, IfSome, IsNone, IfOk, OnOk, OnErr, length};
ghost use Rattle.line_instance.specs.Truths.{IsSubset};
ghost use Rattle.line_instance.specs.Line.{IsTaskSet};
ghost use Rattle.line_rules.specs.Bounds.{bound};
ghost use Rattle.line_rules.specs.Pairs.{IsRefutedByPairs};
ghost use Rattle.line_rules.specs.Ranges.{IsCycle};
ghost use Rattle.line_rules.specs.declared.types.Mode.{Mode};
ghost use Rattle.lemma_core.specs.Desks.{entries, Keeps, Waits};
ghost use Rattle.pair_search.specs.Found.{IfRefuted};
ghost use Rattle.station_search.specs.Decide.{IsFor, IsPairing, IsAnswered, Decides};
ghost use Rattle.station_search.specs.Costs.{HasPublished, Costs, CostsAlone, FewAdded};
ghost use Rattle.station_search.specs.inner.Work.{DoesFor, Ends};

use crate::answers::{Decided, Reason};
use lemma_core::{Desk, Published};
use line_instance::{Instance, TaskSet};
use line_rules::{BoxedSet, Entry, Frames, LineKind, Why};
use pair_search::{PairTable, Paired, pair_table};
use std::alloc::{AllocError, Global};

/// A table of who can share a station at a cycle, 1 to 10^18 in the instance's time unit, where pairs are asked. An
/// error where memory is wanting.
pub fn table_for(
    alloc: Global,
    inst: &Instance,
    kind: LineKind,
    cycle: u64,
    pairs: bool,
) -> Result<Option<PairTable>, AllocError>
    requires cycle { IsCycle cycle }
    ensures { IfOk result (λ o. IfSome o (IsPairing inst.now kind cycle)) }
{
    if !pairs {
        return Ok(None);
    }
    Ok(Some(pair_table(alloc, inst, kind, cycle)?))
}

/// What pairs say of a question, a set of tasks in `most` stations, where there is a table. A question of one station
/// isn't asked: there only tasks that are apart could refute what the bound leaves open.
#[inline]
pub fn ask_pairs(
    pairs: &mut Option<PairTable>,
    inst: &Instance,
    kind: LineKind,
    cycle: u64,
    set: &TaskSet,
    most: u32,
) -> Paired
    requires pairs { IfSome pairs.old (IsPairing inst.now kind cycle) }
    requires set { IsTaskSet inst.now set.now }
    requires few { most ≤ 1024 }
    ensures pairs { pairs.new ≡ pairs.old }
    ensures truths { IfRefuted result (λ hull two. length hull ≡ 1024) }
    ensures within { IfRefuted result (λ hull two. IsSubset hull set.now) }
    ensures refuted { IfRefuted result (λ hull two. IsRefutedByPairs kind inst.now cycle hull most two) }
{
    if most < 2 {
        return Paired::Open;
    }
    ask_pairs_of_rest(pairs, inst, kind, cycle, set, most)
}

/// What pairs say of the rest that a load leaves, in the stations that are left, where there is a table. One station is
/// asked for too: two tasks that are apart refute it then.
#[inline]
pub fn ask_pairs_of_rest(
    pairs: &mut Option<PairTable>,
    inst: &Instance,
    kind: LineKind,
    cycle: u64,
    set: &TaskSet,
    most: u32,
) -> Paired
    requires pairs { IfSome pairs.old (IsPairing inst.now kind cycle) }
    requires set { IsTaskSet inst.now set.now }
    requires few { most ≤ 1024 }
    ensures pairs { pairs.new ≡ pairs.old }
    ensures truths { IfRefuted result (λ hull two. length hull ≡ 1024) }
    ensures within { IfRefuted result (λ hull two. IsSubset hull set.now) }
    ensures refuted { IfRefuted result (λ hull two. IsRefutedByPairs kind inst.now cycle hull most two) }
{
    let Some(table) = pairs else {
        return Paired::Open;
    };
    table.find(inst, set, most)
}

/// Publishes that pairs refute a set in so many stations, with the tasks that count twice, and gives the number of an
/// entry that answers it.
pub fn publish_pairs<D: Desk>(
    alloc: Global,
    desk: &mut D,
    inst: &Instance,
    kind: LineKind,
    cycle: u64,
    set: &TaskSet,
    most: u32,
    two: &TaskSet,
) -> Result<u64, AllocError>
    requires desk { IsFor (D.desk desk.old) inst.now kind cycle }
    requires set { IsTaskSet inst.now set.now }
    requires cycle { IsCycle cycle }
    requires few { most ≤ 1024 }
    requires refuted { IsRefutedByPairs kind inst.now cycle set.now most two.now }
    ensures keeps { Keeps (D.desk desk.old) (D.desk desk.new) }
    ensures waits { OnErr result (Waits (D.desk desk.old) (D.desk desk.new)) }
    ensures answered { IfOk result (λ id. IsAnswered (entries (D.desk desk.new)) id set.now most cycle) }
    ensures publishes { (asked : Option Mode) (whole : List Bool) → IsSubset set.now whole
        → OnOk result (DoesFor asked kind inst.now cycle (D.desk desk.old) (D.desk desk.new) whole 1 0) }
{
    let two = BoxedSet::new(alloc, two)?;
    let step = Entry {
        set: *set,
        most,
        cycle,
        why: Why::Pairs { two },
    };
    match desk.publish(step) {
        Published::Known(id) => Ok(id),
        Published::Added(id) => Ok(id),
        Published::NoMemory => Err(AllocError),
    }
}

/// Publishes that pairs refute a question, with the tasks that count twice, and gives the answer of the search to it.
pub fn refute_by_pairs<D: Desk>(
    alloc: Global,
    desk: &mut D,
    inst: &Instance,
    kind: LineKind,
    cycle: u64,
    set: &TaskSet,
    most: u32,
    two: &TaskSet,
) -> Decided
    requires desk { IsFor (D.desk desk.old) inst.now kind cycle }
    requires set { IsTaskSet inst.now set.now }
    requires cycle { IsCycle cycle }
    requires few { most ≤ 1024 }
    requires bounded { bound kind inst.now cycle set.now ≤ most }
    requires refuted { IsRefutedByPairs kind inst.now cycle set.now most two.now }
    ensures keeps { Keeps (D.desk desk.old) (D.desk desk.new) }
    ensures decides { (asked : Option Mode) (left : ℕ)
        → Decides asked kind inst.now cycle (entries (D.desk desk.new)) set.now most left result }
    ensures ends { (asked : Option Mode) (used : ℕ) → used ≡ 0
        → Ends asked kind inst.now cycle (D.desk desk.old) (D.desk desk.new) used result }
{
    match publish_pairs(alloc, desk, inst, kind, cycle, set, most, two) {
        Ok(id) => Decided::Refuted(Reason::ByEntry(id)),
        Err(_) => Decided::NoMemory(Frames::from_vec(Vec::new(alloc))),
    }
}

/// The answer to a question where pairs refute it, or want of memory; None where they don't tell, or where there is no
/// table. It is as `decide_in` answers, which asks the bound and the desk before this, and lists no load.
pub fn decide_by_pairs<D: Desk>(
    alloc: Global,
    desk: &mut D,
    inst: &Instance,
    kind: LineKind,
    cycle: u64,
    set: &TaskSet,
    most: u32,
    pairs: &mut Option<PairTable>,
) -> Option<Decided>
    requires desk { IsFor (D.desk desk.old) inst.now kind cycle }
    requires set { IsTaskSet inst.now set.now }
    requires cycle { IsCycle cycle }
    requires few { most ≤ 1024 }
    requires bounded { bound kind inst.now cycle set.now ≤ most }
    requires pairs { IfSome pairs.old (IsPairing inst.now kind cycle) }
    ensures keeps { IfSome result (λ d. Keeps (D.desk desk.old) (D.desk desk.new)) }
    ensures still { IsNone result → D.desk desk.new ≡ D.desk desk.old }
    ensures refuted { IfSome result (λ d. (two : List Bool) × IsRefutedByPairs kind inst.now cycle set.now most two) }
    ensures pairs { pairs.new ≡ pairs.old }
    ensures own { IfSome result (λ d. (mode : Option Mode)
        → HasPublished mode kind inst.now cycle (D.desk desk.old) (D.desk desk.new)) }
    ensures decides { IfSome result (λ d. (mode : Option Mode) (left : ℕ)
        → Decides mode kind inst.now cycle (entries (D.desk desk.new)) set.now most left d) }
    ensures costs { IfSome result (λ d. (mode : Option Mode)
        → Costs mode kind inst.now cycle (D.desk desk.old) (D.desk desk.new) 0 d) }
    ensures alone { IfSome result (λ d. (D.desk desk.old).alone ≡ true
        → CostsAlone inst.now cycle (D.desk desk.old) (D.desk desk.new) 0 d) }
    ensures few { IfSome result (FewAdded inst.now cycle (D.desk desk.old) (D.desk desk.new) 0) }
{
    match ask_pairs(pairs, inst, kind, cycle, set, most) {
        Paired::Refuted { two, .. } => {
            let refuted = refute_by_pairs(alloc, desk, inst, kind, cycle, set, most, &two);
            Some(refuted)
        }
        Paired::Open => None,
    }
}

/// The table goes into the first frame of a search; those of an earlier search are left.
pub fn enter_first(pairs: &mut Option<PairTable>, set: &TaskSet) -> Result<(), AllocError>
    ensures pairs { pairs.new ≡ pairs.old }
{
    let Some(table) = pairs else {
        return Ok(());
    };
    table.leave_all();
    table.enter(set)
}

/// The table goes into a frame with this set.
#[inline]
pub fn enter(pairs: &mut Option<PairTable>, set: &TaskSet) -> Result<(), AllocError>
    ensures pairs { pairs.new ≡ pairs.old }
{
    let Some(table) = pairs else {
        return Ok(());
    };
    table.enter(set)
}

/// The table leaves the deepest frame.
#[inline]
pub fn leave(pairs: &mut Option<PairTable>)
    ensures pairs { pairs.new ≡ pairs.old }
{
    if let Some(table) = pairs {
        table.leave();
    }
}
