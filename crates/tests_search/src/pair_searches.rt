//! What no clause says: that refutations are found. Rows on small lines, with their answers as they were worked out by
//! hand.

ghost use Rattle.std.specs.Prelude.{◌≤◌};
ghost use Rattle.pair_search.specs.Sharing.{IsTableOf};

use line_instance::{Instance, Made, Prec, TaskSet, make};
use line_rules::LineKind;
use pair_rule::pairs_hold;
use pair_search::{PairTable, Paired, pair_table};
use std::alloc::Global;
use std::test::Fail;

// A row: a kind of line, a cycle, a set, a number of stations, and the hull and `two` where pairs refute it. Sets are
// written as in certificates: the first task is the highest bit of the first digit.
#[derive(Clone, Copy)]
struct Row(LineKind, u64, u32, u32, Option<(u32, u32)>);

const STRAIGHT: LineKind = LineKind::Straight;

fn line(alloc: Global, times: &[u64], arcs: &[Prec]) -> Result<Instance, Fail> {
    match make(alloc, Vec::from_slice(alloc, times)?, arcs) {
        Made::Good(inst) => Ok(inst),
        _ => Err("no instance")?,
    }
}

// An arc between tasks that are counted from 1.
fn arc(first: u32, then: u32) -> Prec {
    Prec {
        first: first.saturating_sub(1),
        then: then.saturating_sub(1),
    }
}

// A set of so many of the first tasks, at most eight, from its digits.
fn set_of(tasks: u32, digits: u32) -> TaskSet {
    let width = if tasks <= 4 { 4 } else { 8 };
    let mut set = TaskSet::empty();
    for i in 0..width {
        if digits >> (width - 1 - i) & 1 == 1 {
            set.insert(i);
        }
    }
    set
}

// Whether what is found of a row within small ranges is what it says.
fn is_right(alloc: Global, inst: &Instance, row: Row) -> Result<bool, Fail> {
    let Row(kind, cycle, set, most, refuted) = row;
    if cycle < 1 || cycle > 40 || most > 9 {
        return Ok(false);
    }
    let mut table = pair_table(alloc, inst, kind, cycle)?;
    let tasks = inst.tasks();
    let set = inst.all().meet(&set_of(tasks, set));
    let wanted = match refuted {
        Some((hull, two)) => Paired::Refuted {
            hull: set_of(tasks, hull),
            two: set_of(tasks, two),
        },
        None => Paired::Open,
    };
    Ok(table.find(inst, &set, most) == wanted)
}

// The place of the first row that is wrong.
fn first_wrong(alloc: Global, inst: &Instance, rows: &[Row]) -> Result<Option<usize>, Fail> {
    for (k, row) in rows.iter().enumerate() {
        if !is_right(alloc, inst, *row)? {
            return Ok(Some(k));
        }
    }
    Ok(None)
}

#[test]
fn a_long_task_and_three_that_share(rt: HostRuntime) -> Result<(), Fail> {
    let w4 = line(rt.alloc(), &[13, 8, 8, 8], &[])?;
    let rows = [
        Row(STRAIGHT, 20, 0xf, 2, Some((0xf, 0x8))),
        Row(LineKind::U, 20, 0xf, 2, Some((0xf, 0x8))),
        Row(STRAIGHT, 20, 0xf, 3, None),
        Row(STRAIGHT, 20, 0x7, 2, None),
        Row(STRAIGHT, 21, 0xf, 2, None),
    ];
    assert_eq!(rt; first_wrong(rt.alloc(), &w4, &rows)?, None);
    Ok(())
}

#[test]
fn loose_items_beyond_those_left_over(rt: HostRuntime) -> Result<(), Fail> {
    let l4 = line(rt.alloc(), &[7, 9, 12, 12], &[arc(3, 4)])?;
    let rows = [Row(STRAIGHT, 20, 0xf, 2, Some((0x7, 0x7)))];
    assert_eq!(rt; first_wrong(rt.alloc(), &l4, &rows)?, None);
    Ok(())
}

#[test]
fn what_lies_between(rt: HostRuntime) -> Result<(), Fail> {
    let b4 = line(rt.alloc(), &[8, 5, 8, 13], &[arc(1, 2), arc(2, 3)])?;
    let rows = [
        Row(STRAIGHT, 20, 0xf, 2, Some((0xf, 0xb))),
        Row(LineKind::U, 20, 0xf, 2, None),
    ];
    assert_eq!(rt; first_wrong(rt.alloc(), &b4, &rows)?, None);
    let arcs = [arc(2, 3), arc(3, 4), arc(4, 5), arc(4, 6)];
    let h6 = line(rt.alloc(), &[11, 3, 9, 2, 11, 11], &arcs)?;
    let rows = [Row(STRAIGHT, 20, 0x3c, 2, Some((0x3c, 0x2c)))];
    assert_eq!(rt; first_wrong(rt.alloc(), &h6, &rows)?, None);
    Ok(())
}

#[test]
fn a_part_of_the_rest(rt: HostRuntime) -> Result<(), Fail> {
    let arcs = [
        arc(2, 3),
        arc(3, 4),
        arc(2, 6),
        arc(4, 6),
        arc(4, 7),
        arc(5, 7),
    ];
    let n7 = line(rt.alloc(), &[9, 10, 3, 6, 5, 13, 12], &arcs)?;
    let rows = [Row(STRAIGHT, 20, 0x8e, 2, Some((0x86, 0x86)))];
    assert_eq!(rt; first_wrong(rt.alloc(), &n7, &rows)?, None);
    let arcs = [arc(1, 3), arc(3, 4), arc(2, 5), arc(4, 5), arc(5, 6)];
    let u7 = line(rt.alloc(), &[11, 7, 8, 9, 12, 12, 1], &arcs)?;
    let rows = [Row(LineKind::U, 20, 0x1c, 2, Some((0x1c, 0x1c)))];
    assert_eq!(rt; first_wrong(rt.alloc(), &u7, &rows)?, None);
    Ok(())
}

#[test]
fn four_rests_of_one_line(rt: HostRuntime) -> Result<(), Fail> {
    let arcs = [arc(1, 4), arc(4, 5), arc(3, 6), arc(4, 7), arc(5, 7)];
    let n8 = line(rt.alloc(), &[2, 9, 2, 5, 9, 9, 12, 9], &arcs)?;
    let rows = [
        Row(STRAIGHT, 20, 0x4e, 2, Some((0x4e, 0x02))),
        Row(STRAIGHT, 20, 0x4b, 2, Some((0x4b, 0x02))),
        Row(STRAIGHT, 20, 0x47, 2, Some((0x47, 0x02))),
        Row(STRAIGHT, 20, 0x0f, 2, Some((0x0f, 0x02))),
    ];
    assert_eq!(rt; first_wrong(rt.alloc(), &n8, &rows)?, None);
    Ok(())
}

#[test]
fn a_third_and_a_half(rt: HostRuntime) -> Result<(), Fail> {
    let thirds = line(rt.alloc(), &[9, 4, 4, 4], &[])?;
    let halves = line(rt.alloc(), &[6, 6], &[])?;
    let each = line(rt.alloc(), &[13, 12, 8, 7], &[])?;
    let open = [
        is_right(rt.alloc(), &thirds, Row(STRAIGHT, 12, 0xf, 2, None))?,
        is_right(rt.alloc(), &halves, Row(STRAIGHT, 12, 0xc, 1, None))?,
        is_right(rt.alloc(), &each, Row(STRAIGHT, 20, 0xf, 2, None))?,
    ];
    assert_eq!(rt; open, [true, true, true]);
    Ok(())
}

#[test]
fn tasks_that_are_apart(rt: HostRuntime) -> Result<(), Fail> {
    let mut t3 = line(rt.alloc(), &[1, 1, 1], &[])?;
    let before = is_right(rt.alloc(), &t3, Row(STRAIGHT, 2, 0xe, 2, None))?;
    if t3.tasks() != 3 {
        return Err("other tasks")?;
    }
    let pairs = [
        Prec { first: 0, then: 1 },
        Prec { first: 0, then: 2 },
        Prec { first: 1, then: 2 },
    ];
    t3.set_apart(&pairs);
    let rows = [
        Row(STRAIGHT, 2, 0xe, 2, Some((0xe, 0xe))),
        Row(LineKind::U, 2, 0xc, 1, Some((0xc, 0xc))),
    ];
    assert_eq!(rt;
        (before, first_wrong(rt.alloc(), &t3, &rows)?),
        (true, None)
    );
    Ok(())
}

// The next of some numbers that look drawn.
fn drawn(state: u64) -> u64 {
    state
        .wrapping_mul(6_364_136_223_846_793_005)
        .wrapping_add(1_442_695_040_888_963_407)
}

// A line of six tasks that look drawn, with some arcs from a task to a later one.
fn drawn_line(alloc: Global, seed: u64) -> Result<Instance, Fail> {
    let mut state = seed;
    let mut times = Vec::new(alloc);
    for _ in 0..6 {
        state = drawn(state);
        times.push(4 + (state >> 33) % 10)?;
    }
    let mut arcs = Vec::new(alloc);
    for then in 1..6 {
        for first in 0..then {
            state = drawn(state);
            if (state >> 33) % 4 == 0 {
                arcs.push(Prec { first, then })?;
            }
        }
    }
    line(alloc, &times, &arcs)
}

// Whether pairs refute all tasks with some set of the first six as `two`, of tasks above a third of 20.
fn some_two(inst: &Instance, kind: LineKind, most: u32) -> bool
    requires { most ≤ 1024 }
{
    let all = inst.all();
    for digits in 0..64 {
        let mut two = TaskSet::empty();
        for i in 0..6 {
            if digits >> i & 1 == 1 && i < inst.tasks() && 3 * inst.time(i) > 20 {
                two.insert(i);
            }
        }
        if pairs_hold(inst, kind, 20, &all, most, &two) {
            return true;
        }
    }
    false
}

// How many refutations of all tasks are found in each number of stations; an error where one isn't found.
fn found(table: &mut PairTable, inst: &Instance, kind: LineKind) -> Result<u32, Fail>
    requires { IsTableOf inst.now table.old }
{
    let mut refuted = 0;
    for most in 1..6 {
        let is_found = table.find(inst, &inst.all(), most) != Paired::Open;
        if is_found != some_two(inst, kind, most) {
            return Err("not found")?;
        }
        if is_found {
            refuted += 1;
        }
    }
    Ok(refuted)
}

#[test]
fn whatever_is_refuted_is_found(rt: HostRuntime) -> Result<(), Fail> {
    let mut refuted = 0u32;
    for seed in 0..300 {
        let inst = drawn_line(rt.alloc(), seed)?;
        for kind in [LineKind::Straight, LineKind::U] {
            let mut table = pair_table(rt.alloc(), &inst, kind, 20)?;
            refuted = refuted.saturating_add(found(&mut table, &inst, kind)?);
        }
    }
    assert!(rt; refuted > 100);
    Ok(())
}

// How many of the sets of the first six tasks have the same answer from a table with frames as from a fresh one.
fn same_answers(
    alloc: Global,
    table: &mut PairTable,
    inst: &Instance,
    most: u32,
) -> Result<u32, Fail>
    requires table { IsTableOf inst.now table.old }
    requires few { most ≤ 1024 }
    ensures table { IsTableOf inst.now table.new }
{
    let mut same = 0;
    for digits in 0..64 {
        let set = inst.all().meet(&set_of(6, 4 * digits));
        let mut fresh = pair_table(alloc, inst, LineKind::Straight, 20)?;
        if table.find(inst, &set, most) == fresh.find(inst, &set, most) {
            same += 1;
        }
    }
    Ok(same)
}

#[test]
fn frames_change_no_answer(rt: HostRuntime) -> Result<(), Fail> {
    let inst = line(rt.alloc(), &[7, 8, 9, 11, 12, 13], &[])?;
    let mut table = pair_table(rt.alloc(), &inst, STRAIGHT, 20)?;
    let all = inst.all();
    let found = table.find(&inst, &all, 3);
    table.enter(&all)?;
    let two = same_answers(rt.alloc(), &mut table, &inst, 2)?;
    let part = all.meet(&set_of(6, 0xb8));
    table.enter(&part)?;
    let one = same_answers(rt.alloc(), &mut table, &inst, 1)?;
    table.leave();
    let three = same_answers(rt.alloc(), &mut table, &inst, 3)?;
    table.leave();
    table.leave();
    let is_same = table.find(&inst, &all, 3) == found;
    assert_eq!(rt; (two, one, three, is_same), (64, 64, 64, true));
    Ok(())
}
