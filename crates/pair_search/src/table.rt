//! The table of one cycle, and the question to it.
//!
//! A table has a row of 128 bytes for each task, and a matching of 4 KB for each frame of a search. A question begins
//! with the matching of the deepest frame, less the pairs that left the set. So it mostly looks for a few paths. It
//! ends as soon as there are so many pairs that they don't refute. It takes no memory.
ghost use Rattle.std.specs.Prelude.{◌≡◌, ◌≤◌, length, IfOk};
ghost use Rattle.line_instance.specs.Truths.{IsSubset};
ghost use Rattle.line_instance.specs.Line.{IsTaskSet};
ghost use Rattle.line_rules.specs.Ranges.{IsCycle};
ghost use Rattle.line_rules.specs.Pairs.{IsRefutedByPairs};
ghost use Rattle.pair_search.specs.Sharing.{IsTableOf};
ghost use Rattle.pair_search.specs.Found.{IfRefuted};

use crate::matching::{Matching, sharing};
use crate::paths::Paths;
use crate::rows::{long_tasks, rows};
use crate::step::{hull, ones};
use line_instance::{Instance, TaskSet};
use line_rules::LineKind;
use std::alloc::{AllocError, Global};
use std::marker::Model;

/// What pairs say of a question: whether a set of tasks has a balance in so many stations. Own; after the bin packing
/// bounds of Martello and Toth, 1990.
#[derive(Clone, Copy, Debug, PartialEq, Eq)]
pub enum Paired {
    /// It has none.
    Refuted {
        /// A part of the set that pairs refute: the tasks that count, and what lies between two of them.
        hull: TaskSet,
        /// The tasks of the hull that count twice.
        two: TaskSet,
    },
    /// Pairs don't tell.
    Open,
}

/// Who shares with whom at one cycle, on one line, with the matchings of the frames of a search.
///
/// A contract sees it as the kind of line, the cycle, the tasks above a third of the cycle, and a row for each of them.
/// The matchings have no part in it: they change what a question costs, and never what its answer means.
#[derive(Drop)]
pub struct PairTable {
    kind: LineKind,
    cycle: u64,
    long: TaskSet,
    rows: Vec<TaskSet>,
    matching: Matching,
    paths: Paths,
    frames: Vec<Matching>,
}

impl Model for PairTable {
    ghost use Rattle.pair_search.specs.Sharing.{Sharing};

    ghost Value = { Sharing };

    ghost view = { λ t. record { kind = t.kind; cycle = t.cycle; long = t.long; rows = t.rows.items } };
}

/// The table of a line, of this kind and at a cycle in the instance's time unit; an error where memory is wanting.
pub fn pair_table(
    alloc: Global,
    inst: &Instance,
    kind: LineKind,
    cycle: u64,
) -> Result<PairTable, AllocError>
    requires cycle { IsCycle cycle }
    ensures kind { IfOk result (λ t. t.kind ≡ kind) }
    ensures cycle { IfOk result (λ t. t.cycle ≡ cycle) }
    ensures table { IfOk result (IsTableOf inst.now) }
{
    let long = long_tasks(inst, cycle);
    let rows = rows(alloc, inst, kind, cycle, &long)?;
    Ok(PairTable {
        kind,
        cycle,
        long,
        rows,
        matching: Matching::new(),
        paths: Paths::new(),
        frames: Vec::new(alloc),
    })
}

impl PairTable {
    // Whether pairs refute a set in so many stations, with those of these tasks that are long.
    fn tested(&self, inst: &Instance, set: &TaskSet, most: u32, tasks: &TaskSet) -> Paired
        requires table { IsTableOf inst.now self.now }
        requires set { IsTaskSet inst.now set.now }
        requires few { most ≤ 1024 }
        ensures truths { IfRefuted result (λ hull two. length hull ≡ 1024) }
        ensures within { IfRefuted result (λ hull two. IsSubset hull set.now) }
        ensures refuted { IfRefuted result (λ hull two.
            IsRefutedByPairs self.now.kind inst.now self.now.cycle hull most two) }
    {
        let items = set.meet(&self.long);
        let two = items.meet(tasks);
        let Some(one) = ones(&self.rows, &items, &two) else {
            return Paired::Open;
        };
        if 2 * two.count() + one.count() <= 2 * most {
            return Paired::Open;
        }
        let hull = hull(inst, self.kind, &two.union(&one));
        if !hull.is_subset(set) {
            return Paired::Open;
        }
        Paired::Refuted { hull, two }
    }

    // Begins with the matching of the deepest frame where that has more pairs within some tasks than the last one.
    fn begin(&mut self, tasks: &TaskSet)
        ensures kept { self.new ≡ self.old }
    {
        if let Some(frame) = self.frames.last() {
            if frame.at_least(tasks) > self.matching.at_least(tasks) {
                self.matching = *frame;
            }
        }
    }

    /// What pairs say of a set of tasks in `most` stations, at most 1,024, on the table's line. A refutation is looked
    /// for in full where the set has each task that lies between two of its own. Takes no memory.
    pub fn find(&mut self, inst: &Instance, set: &TaskSet, most: u32) -> Paired
        requires table { IsTableOf inst.now self.old }
        requires set { IsTaskSet inst.now set.now }
        requires few { most ≤ 1024 }
        ensures truths { IfRefuted result (λ hull two. length hull ≡ 1024) }
        ensures within { IfRefuted result (λ hull two. IsSubset hull set.now) }
        ensures refuted { IfRefuted result (λ hull two.
            IsRefutedByPairs self.old.kind inst.now self.old.cycle hull most two) }
        ensures kept { self.new ≡ self.old }
    {
        let items = set.meet(&self.long);
        let enough = 2 * items.count().saturating_sub(most);
        if enough == 0 {
            return Paired::Open;
        }
        self.begin(&items);
        if self.matching.at_least(&items) >= enough {
            return Paired::Open;
        }
        let loose = self
            .matching
            .loose(&self.rows, &items, enough, &mut self.paths);
        let Some(loose) = loose else {
            return Paired::Open;
        };
        let two = loose.minus(&sharing(&self.rows, &loose));
        self.tested(inst, set, most, &two)
    }

    /// Goes into a frame with this set: its rests begin with the pairs that are known of it. An error where memory is
    /// wanting; then there is no frame to leave.
    pub fn enter(&mut self, set: &TaskSet) -> Result<(), AllocError>
        ensures kept { self.new ≡ self.old }
    {
        self.begin(set);
        self.matching.keep(set);
        self.frames.push(self.matching)?;
        Ok(())
    }

    /// Leaves the deepest frame, where there is one.
    pub fn leave(&mut self)
        ensures kept { self.new ≡ self.old }
    {
        self.frames.pop();
    }

    /// Leaves all frames, as where a search begins after one that ended early.
    pub fn leave_all(&mut self)
        ensures kept { self.new ≡ self.old }
    {
        self.frames.clear();
    }
}
