//! Two passes of one share decide a question each, and the second cites an entry of the first.
ghost use Rattle.std.specs.Prelude.{◌≡◌, ◌≤◌, ◌<◌};
ghost use Rattle.line_instance.specs.Line.{IsTaskSet};
ghost use Rattle.line_rules.specs.declared.types.LineKind.TheVariants.{Straight};
ghost use Rattle.book_share.specs.Calls.{IsPassOf};

use crate::books::{CYCLE, alone, free_tasks, shared};
use book_share::{Desked, Pass, Share};
use lemma_core::Book;
use line_instance::{Instance, TaskSet};
use line_rules::{Entry, LineKind, Mode, Why};
use station_search::{Decided, Reason, Units, decide};
use std::alloc::Global;
use std::sync::Wait;
use std::test::Fail;

/// Seven free tasks.
pub fn seven(alloc: Global) -> Result<Instance, Fail> {
    free_tasks(alloc, vec![in alloc; 7, 7, 4, 4, 2, 2, 2]?)
}

/// The entry that refutes a set in so many stations, and the units that it takes to find it.
pub fn refuted<R: Wait>(
    rt: &R,
    alloc: Global,
    share: &Share,
    mut pass: Pass,
    inst: &Instance,
    set: &TaskSet,
    most: u32,
) -> Option<(u64, u64)>
    requires pass { IsPassOf share.now pass }
    requires about { pass.view.base.about ≡ record { line = inst.now; kind = Straight; cycle = 7 } }
    requires set { IsTaskSet inst.now set.now }
    requires few { most ≤ 1024 }
{
    let mut units = Units {
        left: 1000,
        used: 0,
    };
    let mut desk = Desked {
        rt,
        share,
        pass: &mut pass,
    };
    let decided = decide(
        alloc,
        &mut desk,
        inst,
        LineKind::Straight,
        CYCLE,
        set,
        most,
        &mut units,
    );
    match decided {
        Decided::Refuted(Reason::ByEntry(id)) => Some((id, units.used)),
        _ => None,
    }
}

/// All tasks but one.
pub fn all_but(inst: &Instance, task: u32) -> TaskSet
    requires { task < 1024 }
    ensures { IsTaskSet inst.now result }
{
    inst.all().without(task)
}

/// Whether an entry is by a branch that cites one entry alone, this one.
pub fn cites_only(entry: &Entry, id: u64) -> bool {
    match &entry.why {
        Why::Branch {
            mode: Mode::Fore,
            cites,
        } => cites.len() == 1 && *cites.at(0) == id,
        _ => false,
    }
}

// Whether the book has the entries of the two questions, each of which cites the same entry, the first.
fn has_both(book: &Book, rest: &TaskSet) -> bool {
    if book.len() != 3 {
        return false;
    }
    (book.entry(0).set == *rest) & cites_only(book.entry(1), 0) & cites_only(book.entry(2), 0)
}

#[test]
fn a_pass_cites_an_entry_of_another(rt: HostRuntime) -> Result<(), Fail> {
    let alloc = rt.alloc();
    let inst = seven(alloc)?;
    let (share, mut last) = shared(alloc, &inst, alone(alloc, &inst)?)?;
    let one = share.split(&mut last);
    let two = share.split(&mut last);
    let (first, second) = (all_but(&inst, 1), all_but(&inst, 0));
    let asked = refuted(&rt, alloc, &share, one, &inst, &first, 3) == Some((1, 31));
    let cited = refuted(&rt, alloc, &share, two, &inst, &second, 3) == Some((2, 16));
    let kept = has_both(&share.close(&rt, last), &first.without(0));
    if asked & cited & kept {
        return Ok(());
    }
    Err("another answer")?
}
