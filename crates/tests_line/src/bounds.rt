//! What no clause says: bounds that were computed outside, and that each call answers.
ghost use Rattle.line_instance.specs.Line.{IsTaskSet};

use crate::lines::instance;
use line_instance::{Instance, Prec, TaskSet};
use line_rules::LineKind;
use lower_bounds::{bound, exceeds, first_too_long, total_bound, total_time};
use std::alloc::Global;
use std::test::Fail;

fn arc(first: u32, then: u32) -> Prec {
    Prec {
        first: first.saturating_sub(1),
        then: then.saturating_sub(1),
    }
}

// Three tasks of 1, 2 and 1 in a row.
fn chain(alloc: Global) -> Result<Instance, Fail> {
    Ok(instance(alloc, vec![in alloc; 1, 2, 1]?, &[arc(1, 2), arc(2, 3)])?)
}

// Jackson's eleven tasks.
fn jackson(alloc: Global) -> Result<Instance, Fail> {
    let times = vec![in alloc; 6, 2, 5, 7, 1, 2, 3, 6, 5, 5, 4]?;
    let arcs = [
        arc(1, 2),
        arc(1, 3),
        arc(1, 4),
        arc(1, 5),
        arc(2, 6),
        arc(3, 7),
        arc(4, 7),
        arc(5, 7),
        arc(6, 8),
        arc(7, 9),
        arc(8, 10),
        arc(9, 11),
        arc(10, 11),
    ];
    Ok(instance(alloc, times, &arcs)?)
}

// The bound of all tasks without precedences; an error where the cycle is out of range.
fn bound_of(alloc: Global, times: &[u64], cycle: u64) -> Result<u32, Fail> {
    if cycle < 1 || cycle > 1000 {
        return Err("another cycle")?;
    }
    let inst = instance(alloc, Vec::from_slice(alloc, times)?, &[])?;
    Ok(bound(&inst, LineKind::Straight, cycle, &inst.all()))
}

#[test]
fn bounds_a_chain(rt: HostRuntime) -> Result<(), Fail> {
    let inst = chain(rt.alloc())?;
    let all = inst.all();
    let totals = (
        total_time(&inst),
        total_bound(&inst, 2),
        first_too_long(&inst, 1),
    );
    assert_eq!(rt; totals, (4, 2, Some(1)));
    let bounds = [
        bound(&inst, LineKind::Straight, 2, &all),
        bound(&inst, LineKind::U, 2, &all),
        bound(&inst, LineKind::Straight, 1, &all),
    ];
    assert_eq!(rt; bounds, [3, 2, 1025]);
    Ok(())
}

#[test]
fn bounds_the_tasks_of_jackson(rt: HostRuntime) -> Result<(), Fail> {
    let inst = jackson(rt.alloc())?;
    assert_eq!(rt; bound(&inst, LineKind::Straight, 10, &inst.all()), 5);
    assert_eq!(rt; bound(&inst, LineKind::Straight, 7, &inst.all()), 7);
    Ok(())
}

#[test]
fn counts_by_size(rt: HostRuntime) -> Result<(), Fail> {
    let rows: [(&[u64], u64, u32); 8] = [
        (&[7, 7, 6], 12, 3),
        (&[7, 6, 6], 12, 2),
        (&[6, 6, 6, 6, 5], 15, 3),
        (&[5, 5, 5], 15, 1),
        (&[10, 5], 15, 1),
        (&[100, 51, 51, 51], 150, 3),
        (&[0], 1, 1),
        (&[1, 3], 2, 1025),
    ];
    for (times, cycle, stations) in rows {
        let found = bound_of(rt.alloc(), times, cycle)?;
        assert_eq!(rt; found, stations, "at {cycle}");
    }
    Ok(())
}

// The tasks whose bit of the number is set.
fn subset(inst: &Instance, number: u32) -> TaskSet
    ensures { IsTaskSet inst.now result }
{
    let mut set = inst.all();
    let mut left = number;
    for i in 0..inst.tasks() {
        if left % 2 == 0 {
            set.remove(i);
        }
        left /= 2;
    }
    set
}

#[test]
fn bounds_nothing(rt: HostRuntime) -> Result<(), Fail> {
    let inst = chain(rt.alloc())?;
    let none = subset(&inst, 0);
    assert_eq!(rt; bound(&inst, LineKind::Straight, 2, &none), 0);
    assert!(rt; !exceeds(&inst, LineKind::U, 2, &none, 0));
    Ok(())
}

#[test]
fn exceeds_what_the_bound_exceeds(rt: HostRuntime) -> Result<(), Fail> {
    let times = vec![in rt.alloc(); 6, 4, 3, 9, 2, 8]?;
    let inst = instance(
        rt.alloc(),
        times,
        &[arc(1, 3), arc(2, 3), arc(3, 5), arc(4, 6)],
    )?;
    for cycle in [8, 9, 12] {
        for number in 0..64 {
            let set = subset(&inst, number);
            for kind in [LineKind::Straight, LineKind::U] {
                let least = bound(&inst, kind, cycle, &set);
                for most in [0, 1, 2, 3, 4, 5, 1024, 1025] {
                    assert!(rt; exceeds(&inst, kind, cycle, &set, most) == (least > most));
                }
            }
        }
    }
    Ok(())
}
