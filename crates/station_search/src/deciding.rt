//! Whether a set of tasks has a balance in so many stations.
ghost use Rattle.std.specs.Prelude.{◌≡◌, ◌+◌, ◌-◌, ◌^◌, ◌<◌, ◌≤◌, true, None, IfSome};
ghost use Rattle.line_instance.specs.Line.{IsTaskSet};
ghost use Rattle.line_rules.specs.Bounds.{bound};
ghost use Rattle.line_rules.specs.Loads.{Belongs};
ghost use Rattle.line_rules.specs.Entries.{HasAnswer};
ghost use Rattle.line_rules.specs.Ranges.{IsCycle};
ghost use Rattle.lemma_core.specs.Desks.{entries, Keeps};
ghost use Rattle.station_search.specs.Decide.{IsFor, IsPairing, Decides, IsByEntry};
ghost use Rattle.station_search.specs.Costs.{HasPublished, Costs, CostsAlone, FewAdded};

use crate::answers::{Decided, Reason, Units};
use crate::pairing::{ask_pairs, refute_by_pairs};
use crate::searching::search;
use lemma_core::{Desk, Looked};
use line_instance::{Instance, TaskSet};
use line_rules::{Frames, LineKind, Loads, Mode};
use lower_bounds::exceeds;
use pair_search::{PairTable, Paired};
use std::alloc::Global;

/// Whether a set of tasks has a balance in `most` stations on a line of this kind at this cycle: by the bound, by an
/// entry that the desk has seen, or by a search that lists the loads of the end station and publishes what it refutes.
///
/// The desk is for this instance, line kind and cycle, which is 1 to 1,000,000,000,000,000,000 in the instance's time
/// unit; `most` is at most 1,024. Each load that is listed takes a unit from those left. Where none is left and one
/// more load is needed, the answer is `Spent`, and takes no memory: the frames of the search stand on a stack in the
/// heap, which has room for one more at all times. Each frame has the mode of its set, by `choose_mode`.
pub fn decide<D: Desk>(
    alloc: Global,
    desk: &mut D,
    inst: &Instance,
    kind: LineKind,
    cycle: u64,
    set: &TaskSet,
    most: u32,
    units: &mut Units,
) -> Decided
    requires desk { IsFor (D.desk desk.old) inst.now kind cycle }
    requires set { IsTaskSet inst.now set.now }
    requires cycle { IsCycle cycle }
    requires few { most ≤ 1024 }
    requires units { units.old.used + units.old.left < 2 ^ 64 }
    ensures keeps { Keeps (D.desk desk.old) (D.desk desk.new) }
    ensures units { units.new.used + units.new.left ≡ units.old.used + units.old.left }
    ensures own { HasPublished None kind inst.now cycle (D.desk desk.old) (D.desk desk.new) }
    ensures decides { Decides None kind inst.now cycle (entries (D.desk desk.new)) set.now most units.new.left result }
    ensures known { bound kind inst.now cycle set.now ≤ most
        → HasAnswer (entries (D.desk desk.old)) set.now most cycle
        → IsByEntry result × (units.new.used ≡ units.old.used) }
    ensures costs { let used = units.new.used - units.old.used in
        Costs None kind inst.now cycle (D.desk desk.old) (D.desk desk.new) used result }
    ensures alone { let used = units.new.used - units.old.used in
        (D.desk desk.old).alone ≡ true → CostsAlone inst.now cycle (D.desk desk.old) (D.desk desk.new) used result }
    ensures few { let used = units.new.used - units.old.used in
        FewAdded inst.now cycle (D.desk desk.old) (D.desk desk.new) used result }
{
    let mut pairs: Option<PairTable> = None;
    decide_in(
        alloc, desk, inst, kind, cycle, set, most, None, &mut pairs, units,
    )
}

/// The same question, with each frame of the search in the mode that is asked for, which belongs to the kind of line,
/// and with a table of pairs, which is of this line, kind and cycle. `decide` asks for no mode, and then each frame has
/// the mode of its set; and it has no table.
///
/// With a table the pairs are asked after the desk: of the question, where `most` is at least 2, and of each rest, before
/// a Swap is looked for. What they refute is published as an entry by Pairs, of the question's own set, or of the
/// part of the rest that counts. That uses no unit.
pub fn decide_in<D: Desk>(
    alloc: Global,
    desk: &mut D,
    inst: &Instance,
    kind: LineKind,
    cycle: u64,
    set: &TaskSet,
    most: u32,
    mode: Option<Mode>,
    pairs: &mut Option<PairTable>,
    units: &mut Units,
) -> Decided
    requires desk { IsFor (D.desk desk.old) inst.now kind cycle }
    requires set { IsTaskSet inst.now set.now }
    requires cycle { IsCycle cycle }
    requires few { most ≤ 1024 }
    requires mode { IfSome mode (Belongs kind) }
    requires pairs { IfSome pairs.old (IsPairing inst.now kind cycle) }
    requires units { units.old.used + units.old.left < 2 ^ 64 }
    ensures keeps { Keeps (D.desk desk.old) (D.desk desk.new) }
    ensures pairs { pairs.new ≡ pairs.old }
    ensures units { units.new.used + units.new.left ≡ units.old.used + units.old.left }
    ensures own { HasPublished mode kind inst.now cycle (D.desk desk.old) (D.desk desk.new) }
    ensures decides { Decides mode kind inst.now cycle (entries (D.desk desk.new)) set.now most units.new.left result }
    ensures known { bound kind inst.now cycle set.now ≤ most
        → HasAnswer (entries (D.desk desk.old)) set.now most cycle
        → IsByEntry result × (units.new.used ≡ units.old.used) }
    ensures costs { let used = units.new.used - units.old.used in
        Costs mode kind inst.now cycle (D.desk desk.old) (D.desk desk.new) used result }
    ensures alone { let used = units.new.used - units.old.used in
        (D.desk desk.old).alone ≡ true → CostsAlone inst.now cycle (D.desk desk.old) (D.desk desk.new) used result }
    ensures few { let used = units.new.used - units.old.used in
        FewAdded inst.now cycle (D.desk desk.old) (D.desk desk.new) used result }
{
    if exceeds(inst, kind, cycle, set, most) {
        return Decided::Refuted(Reason::ByBound);
    }
    match desk.look(set, most) {
        Looked::Found { id, .. } => return Decided::Refuted(Reason::ByEntry(id)),
        Looked::Absent => {}
    }
    if set.is_empty() {
        return Decided::Found(Loads::from_vec(Vec::new(alloc)));
    }
    if let Paired::Refuted { two, .. } = ask_pairs(pairs, inst, kind, cycle, set, most) {
        return refute_by_pairs(alloc, desk, inst, kind, cycle, set, most, &two);
    }
    match search(
        alloc, desk, inst, kind, cycle, set, most, mode, pairs, units,
    ) {
        Ok(decided) => decided,
        Err(_) => Decided::NoMemory(Frames::from_vec(Vec::new(alloc))),
    }
}
