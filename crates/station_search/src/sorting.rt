//! What is to be done with what an open load leaves.
ghost use Rattle.std.specs.Prelude.{◌≡◌, ◌≤◌, ◌&&◌, Option, Some, IfSome, IfOk, OnErr};
ghost use Rattle.line_instance.specs.Line.{IsTaskSet};
ghost use Rattle.line_rules.specs.Ranges.{IsCycle};
ghost use Rattle.line_rules.specs.declared.types.Mode.{Mode};
ghost use Rattle.lemma_core.specs.Desks.{entries, Keeps};
ghost use Rattle.station_search.specs.Decide.{IsFor, IsPairing};
ghost use Rattle.station_search.specs.inner.Work.{Sorts, DoesFor, may_add};

use crate::looking::Looker;
use crate::pairing::{ask_pairs_of_rest, publish_pairs};
use crate::swaps::publish_swap;
use lemma_core::Desk;
use line_instance::{Instance, TaskSet};
use line_rules::LineKind;
use pair_search::{PairTable, Paired};
use std::alloc::{AllocError, Global};

/// What a search does with the rest of an open load.
pub enum Sorted {
    /// The entry of this number refutes it.
    Covered(u64),
    /// It is empty, so there is a balance.
    Empty,
    /// It is to be searched.
    Open,
}

/// What is to be done with the rest of an open load, for which so many stations are left: an entry that refutes it is
/// looked for, then pairs, and then a Swap.
pub fn sort_rest<L: Looker<D>, D: Desk>(
    alloc: Global,
    desk: &mut D,
    inst: &Instance,
    kind: LineKind,
    cycle: u64,
    rest: &TaskSet,
    most: u32,
    pairs: &mut Option<PairTable>,
) -> Result<Sorted, AllocError>
    requires desk { IsFor (D.desk desk.old) inst.now kind cycle }
    requires cycle { IsCycle cycle }
    requires set { IsTaskSet inst.now rest.now }
    requires few { most ≤ 1024 }
    requires pairs { IfSome pairs.old (IsPairing inst.now kind cycle) }
    ensures keeps { Keeps (D.desk desk.old) (D.desk desk.new) }
    ensures pairs { pairs.new ≡ pairs.old }
    ensures publishes { (asked : Option Mode) → IfOk result (λ s.
        DoesFor asked kind inst.now cycle (D.desk desk.old) (D.desk desk.new) rest.now (may_add s) 0) }
    ensures fails { (asked : Option Mode) →
        OnErr result (DoesFor asked kind inst.now cycle (D.desk desk.old) (D.desk desk.new) rest.now 0 0) }
    ensures sorts { IfOk result
        (Sorts cycle (L.exact && (D.desk desk.old).alone) (entries (D.desk desk.new)) rest.now most) }
{
    if rest.is_empty() {
        return Ok(Sorted::Empty);
    }
    if let Some(id) = L::find(desk, rest, most) {
        return Ok(Sorted::Covered(id));
    }
    if let Paired::Refuted { hull, two } = ask_pairs_of_rest(pairs, inst, kind, cycle, rest, most) {
        let paired = publish_pairs(alloc, desk, inst, kind, cycle, &hull, most, &two)?;
        return Ok(Sorted::Covered(paired));
    }
    match publish_swap::<L, D>(desk, inst, kind, cycle, rest, most)? {
        Some(id) => Ok(Sorted::Covered(id)),
        None => Ok(Sorted::Open),
    }
}
