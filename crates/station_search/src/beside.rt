//! Whether a set of tasks has a balance in so many stations, decided beside others that search the same questions.
//!
//! It is the search of `decide`, over a desk at a book that others share. In the first walk over the loads of a frame,
//! a rest that another helper claims is put off. Where loads were put off, the frame is looked for once more, since the
//! others may have refuted it; and where they haven't, its loads are walked a second time, and none is put off. So
//! nobody waits for a claim, and each Branch has its cites from one walk. A second walk costs its loads once more; most
//! of their rests are answered by then.
ghost use Rattle.std.specs.Prelude.{◌≡◌, ◌+◌, ◌-◌, ◌^◌, ◌<◌, ◌≤◌, None, IfSome};
ghost use Rattle.line_instance.specs.Line.{IsTaskSet};
ghost use Rattle.line_rules.specs.Bounds.{bound};
ghost use Rattle.line_rules.specs.Ranges.{IsCycle};
ghost use Rattle.lemma_core.specs.Desks.{entries, Keeps, Waits};
ghost use Rattle.station_search.specs.Decide.{IsFor, IsPairing, IsAnswered};
ghost use Rattle.station_search.specs.Costs.{HasPublished};
ghost use Rattle.station_search.specs.Beside.{DecidesBeside, FewBeside};
ghost use Rattle.station_search.specs.declared.answers.Reason.TheVariants.{ByBound};
ghost use Rattle.station_search.specs.declared.beside.DecidedBeside.TheVariants.{Refuted};

use crate::answers::{Reason, Units};
use crate::pairing::{ask_pairs, publish_pairs};
use crate::searching_beside::search_beside;
use lemma_core::Desk;
use line_instance::{Instance, TaskSet};
use line_rules::{LineKind, Loads};
use lower_bounds::exceeds;
use pair_search::{PairTable, Paired};
use std::alloc::Global;

/// A desk beside others at one book: what it finds without waiting, and a board of hints on which helpers claim
/// questions.
pub trait Beside: Desk {
    /// The number of an entry that answers the question of the set and so many stations. None says nothing.
    fn find(&mut self, set: &TaskSet, most: u32) -> Option<u64>
        ensures waits { Waits (Self.desk self.old) (Self.desk self.new) }
        ensures finds { IfSome result (λ id.
            IsAnswered (entries (Self.desk self.new)) id set.now most (Self.desk self.new).about.cycle) };

    /// Whether another helper claims the question. A hint that no answer rests on.
    fn is_claimed(&mut self, set: &TaskSet, most: u32) -> bool
        ensures waits { Waits (Self.desk self.old) (Self.desk self.new) };

    /// Claims the question.
    fn claim(&mut self, set: &TaskSet, most: u32)
        ensures waits { Waits (Self.desk self.old) (Self.desk self.new) };

    /// Whether somebody called the end. A hint that no answer rests on.
    fn is_ended(&mut self) -> bool
        ensures waits { Waits (Self.desk self.old) (Self.desk self.new) };
}

/// The answer to a question that was decided beside others.
#[derive(Drop)]
pub enum DecidedBeside {
    /// The set has no such balance.
    Refuted(Reason),
    /// It has one: the loads of its stations, in order.
    Found(Loads),
    /// The units ended before it was decided. This answer takes no memory.
    Spent,
    /// Somebody called the end before it was decided.
    Ended,
    /// Out of memory before it was decided.
    NoMemory,
}

/// Whether a set of tasks has a balance in `most` stations on a line of this kind at this cycle, as `decide_in` asks
/// it with each frame in the mode of its set, but beside others at the same book.
///
/// Each load costs a unit whenever it is listed, in a second walk too. The end is asked for whenever a frame was closed
/// or left and the one above it goes on.
pub fn decide_beside<D: Beside>(
    alloc: Global,
    desk: &mut D,
    inst: &Instance,
    kind: LineKind,
    cycle: u64,
    set: &TaskSet,
    most: u32,
    pairs: &mut Option<PairTable>,
    units: &mut Units,
) -> DecidedBeside
    requires desk { IsFor (D.desk desk.old) inst.now kind cycle }
    requires set { IsTaskSet inst.now set.now }
    requires cycle { IsCycle cycle }
    requires few { most ≤ 1024 }
    requires pairs { IfSome pairs.old (IsPairing inst.now kind cycle) }
    requires units { units.old.used + units.old.left < 2 ^ 64 }
    ensures keeps { Keeps (D.desk desk.old) (D.desk desk.new) }
    ensures pairs { pairs.new ≡ pairs.old }
    ensures units { units.new.used + units.new.left ≡ units.old.used + units.old.left }
    ensures own { HasPublished None kind inst.now cycle (D.desk desk.old) (D.desk desk.new) }
    ensures bounded { most < bound kind inst.now cycle set.now → result ≡ Refuted ByBound }
    ensures decides { DecidesBeside kind inst.now cycle (entries (D.desk desk.new)) set.now most units.new.left result }
    ensures few { let used = units.new.used - units.old.used in
        FewBeside inst.now cycle (D.desk desk.old) (D.desk desk.new) used result }
{
    if exceeds(inst, kind, cycle, set, most) {
        return DecidedBeside::Refuted(Reason::ByBound);
    }
    if let Some(id) = desk.find(set, most) {
        return DecidedBeside::Refuted(Reason::ByEntry(id));
    }
    if set.is_empty() {
        return DecidedBeside::Found(Loads::from_vec(Vec::new(alloc)));
    }
    if let Paired::Refuted { two, .. } = ask_pairs(pairs, inst, kind, cycle, set, most) {
        return match publish_pairs(alloc, desk, inst, kind, cycle, set, most, &two) {
            Ok(id) => DecidedBeside::Refuted(Reason::ByEntry(id)),
            Err(_) => DecidedBeside::NoMemory,
        };
    }
    desk.claim(set, most);
    match search_beside(alloc, desk, inst, kind, cycle, set, most, pairs, units) {
        Ok(decided) => decided,
        Err(_) => DecidedBeside::NoMemory,
    }
}
