//! A helper whose board has the end called before its work, though nobody knows the answer: it tests that once, and does
//! the same work as without.
use crate::books::{CYCLE, book_of, seven};
use book_share::{Share, Started};
use line_instance::Instance;
use line_rules::LineKind;
use lower_bounds::exceeds;
use round_helpers::{AlwaysOpen, Help, Helped, Question, equip, help_at, jobs};
use station_search::Units;
use std::alloc::Global;
use std::sync::Wait;
use std::test::Fail;
use std::thread::Threads;

const MOST: u32 = 4;

// What one helper of 200 units does for the question in four stations, over an empty book, where the end may be called
// before: the units that it uses, and the entries of the book.
fn helped<R: Threads + Wait + Sync>(
    rt: &R,
    alloc: Global,
    inst: &Instance,
    called: bool,
) -> Result<(Helped, u64, u64), Fail> {
    let kind = LineKind::Straight;
    if exceeds(inst, kind, CYCLE, &inst.all(), MOST) {
        return Err("refuted by the bound")?;
    }
    let listed = jobs(alloc, inst, kind, CYCLE, MOST)?;
    let listed = listed.as_slice();
    if listed.len() > 4096 {
        return Err("too many jobs")?;
    }
    let equipment = equip(alloc, listed, MOST, 1)?;
    if called {
        equipment.board.call_end();
    }
    let question = Question {
        kind,
        cycle: CYCLE,
        most: MOST,
        pairs: false,
    };
    let Started::Good(share, pass) = Share::start(alloc, book_of(alloc, inst)?) else {
        return Err("out of memory")?;
    };
    let mut units = [Units { left: 200, used: 0 }];
    let Help { book, helped } = help_at(
        rt,
        alloc,
        inst,
        question,
        listed,
        equipment,
        share,
        pass,
        &mut units,
        &AlwaysOpen,
    );
    Ok((helped, units[0].used, book.len()))
}

#[test]
fn an_end_that_was_called_in_vain_changes_nothing(rt: HostRuntime) -> Result<(), Fail> {
    let alloc = rt.alloc();
    let inst = seven(alloc)?;
    let before = helped(&rt, alloc, &inst, false)?;
    let after = helped(&rt, alloc, &inst, true)?;
    // 1 and 31, 1 and 16 units for the two pieces, and 1 and 17 for the last question.
    assert_eq!(&rt; before, (Helped::Whole, 67, 4));
    assert_eq!(&rt; after, before);
    Ok(())
}
