//! What no clause says of the rule of pairs: rows on small lines, with their answers as they were worked out by hand.

use line_instance::{Instance, Made, Prec, TaskSet, make};
use line_rules::LineKind;
use pair_rule::pairs_hold;
use std::alloc::Global;
use std::test::Fail;

// A row: a kind of line, a cycle, a set, a number of stations, `two`, and whether it follows. Sets are written as in
// certificates: of four tasks the first one is 8, and the last one 1.
#[derive(Clone, Copy)]
struct Row(LineKind, u64, u32, u32, u32, bool);

fn line(alloc: Global, times: Vec<u64>, arcs: &[Prec]) -> Result<Instance, Fail> {
    match make(alloc, times, arcs) {
        Made::Good(inst) => Ok(inst),
        _ => Err("no instance")?,
    }
}

fn set_of(nibble: u32) -> TaskSet {
    let mut set = TaskSet::empty();
    for i in 0..4 {
        if nibble >> (3 - i) & 1 == 1 {
            set.insert(i);
        }
    }
    set
}

// Whether a row within small ranges is right, on the tasks that the line has.
fn is_right(inst: &Instance, row: Row) -> bool {
    let Row(kind, cycle, set, most, two, follows) = row;
    if cycle < 1 || cycle > 40 || most > 9 {
        return false;
    }
    let set = inst.all().meet(&set_of(set));
    pairs_hold(inst, kind, cycle, &set, most, &set_of(two)) == follows
}

// The place of the first row that is wrong.
fn first_wrong(inst: &Instance, rows: &[Row]) -> Option<usize> {
    for (k, row) in rows.iter().enumerate() {
        if !is_right(inst, *row) {
            return Some(k);
        }
    }
    None
}

#[test]
fn a_long_task_and_three_that_share(rt: HostRuntime) -> Result<(), Fail> {
    let w4 = line(rt.alloc(), vec![in rt.alloc(); 13, 8, 8, 8]?, &[])?;
    let rows = [
        Row(LineKind::Straight, 20, 0xf, 2, 0x8, true),
        Row(LineKind::U, 20, 0xf, 2, 0x8, true),
        Row(LineKind::Straight, 19, 0xf, 2, 0x8, true),
        Row(LineKind::Straight, 20, 0xf, 1, 0x8, true),
        Row(LineKind::Straight, 20, 0xf, 3, 0x8, false),
        Row(LineKind::Straight, 20, 0xf, 2, 0xc, false),
        Row(LineKind::Straight, 20, 0xf, 2, 0x0, false),
        Row(LineKind::Straight, 20, 0x7, 2, 0x8, false),
        Row(LineKind::Straight, 21, 0xf, 2, 0x8, false),
    ];
    assert_eq!(rt; first_wrong(&w4, &rows), None);
    Ok(())
}

#[test]
fn what_lies_between(rt: HostRuntime) -> Result<(), Fail> {
    let l4 = line(
        rt.alloc(),
        vec![in rt.alloc(); 7, 9, 12, 12]?,
        &[Prec { first: 2, then: 3 }],
    )?;
    let arcs = [Prec { first: 0, then: 1 }, Prec { first: 1, then: 2 }];
    let b4 = line(rt.alloc(), vec![in rt.alloc(); 8, 5, 8, 13]?, &arcs)?;
    let rows = [
        Row(LineKind::Straight, 20, 0xf, 2, 0xb, true),
        Row(LineKind::U, 20, 0xf, 2, 0xb, false),
        Row(LineKind::Straight, 20, 0xb, 2, 0xb, false),
    ];
    let three = Row(LineKind::Straight, 20, 0xf, 2, 0x7, true);
    assert_eq!(rt;
        (first_wrong(&l4, &[three]), first_wrong(&b4, &rows)),
        (None, None)
    );
    Ok(())
}

#[test]
fn a_third_a_half_and_each_of_two(rt: HostRuntime) -> Result<(), Fail> {
    let thirds = line(rt.alloc(), vec![in rt.alloc(); 9, 4, 4, 4]?, &[])?;
    let halves = line(rt.alloc(), vec![in rt.alloc(); 6, 6]?, &[])?;
    let each = line(rt.alloc(), vec![in rt.alloc(); 13, 12, 8, 7]?, &[])?;
    let third = is_right(&thirds, Row(LineKind::Straight, 12, 0xf, 2, 0x8, false));
    let half = is_right(&halves, Row(LineKind::Straight, 12, 0xc, 1, 0xc, false));
    let some = is_right(&each, Row(LineKind::Straight, 20, 0xf, 2, 0xc, false));
    assert!(rt; third & half & some);
    Ok(())
}

#[test]
fn tasks_that_are_apart(rt: HostRuntime) -> Result<(), Fail> {
    let mut t3 = line(rt.alloc(), vec![in rt.alloc(); 1, 1, 1]?, &[])?;
    let before = is_right(&t3, Row(LineKind::Straight, 2, 0xe, 2, 0xe, false));
    if t3.tasks() != 3 {
        return Err("other tasks")?;
    }
    let pairs = [
        Prec { first: 0, then: 1 },
        Prec { first: 0, then: 2 },
        Prec { first: 1, then: 2 },
    ];
    t3.set_apart(&pairs);
    let rows = [
        Row(LineKind::Straight, 2, 0xe, 2, 0xe, true),
        Row(LineKind::U, 2, 0xc, 1, 0xc, true),
    ];
    assert_eq!(rt; (before, first_wrong(&t3, &rows)), (true, None));
    Ok(())
}
