//! What no clause says: outside instances, and that each call can succeed.
ghost use Rattle.std.specs.Prelude.{◌≡◌, IfOk};
ghost use Rattle.line_instance.specs.Line.{tasks};

use line_instance::{Instance, Made, Prec, Ring, TaskSet, make};
use std::alloc::Global;
use std::test::Fail;

fn arc(first: u32, then: u32) -> Prec {
    Prec { first, then }
}

// The answer in words.
fn told(made: &Made) -> &'static str {
    match made {
        Made::Good(_) => "good",
        Made::NoTasks => "no tasks",
        Made::TooManyTasks(_) => "too many tasks",
        Made::BadTime(_) => "bad time",
        Made::BadArc(_) => "bad arc",
        Made::Cycle(_) => "cycle",
        Made::NoMemory => "no memory",
    }
}

fn good(made: Made) -> Result<Instance, &'static str> {
    match made {
        Made::Good(inst) => Ok(inst),
        other => Err(told(&other)),
    }
}

// Three tasks of 1, 2 and 1 in a row.
fn chain(alloc: Global) -> Result<Instance, Fail>
    ensures { IfOk result (λ c. tasks c ≡ 3) }
{
    let times = vec![in alloc; 1, 2, 1]?;
    let chain = good(make(alloc, times, &[arc(0, 1), arc(1, 2)]))?;
    if chain.tasks() == 3 {
        return Ok(chain);
    }
    Err("other tasks")?
}

#[test]
fn a_chain_has_its_times_and_ranks(rt: HostRuntime) -> Result<(), Fail> {
    let chain = chain(rt.alloc())?;
    let times = [chain.time(1), chain.sum(&chain.all())];
    let ranks = [chain.at_rank(2), chain.rank_of(1)];
    assert_eq!(rt; (times, ranks), ([2, 4], [2, 1]));
    Ok(())
}

#[test]
fn a_chain_has_its_order(rt: HostRuntime) -> Result<(), Fail> {
    let chain = chain(rt.alloc())?;
    let before = *chain.before(2) == TaskSet::full_to(2);
    let after = *chain.after(0) == TaskSet::from_members(&[1, 2]);
    let covers = chain.covers(0, 1) & !chain.covers(0, 2);
    assert!(rt; before & after & covers);
    Ok(())
}

#[test]
fn refuses_each_fault(rt: HostRuntime) -> Result<(), Fail> {
    let alloc = rt.alloc();
    let many = vec![in alloc; 1; 1025]?;
    let long = vec![in alloc; 1, 200_000_000_000_001]?;
    let two = vec![in alloc; 1, 1]?;
    let one = vec![in alloc; 1]?;
    let counts = (told(&make(alloc, Vec::new(alloc), &[])) == "no tasks")
        & (told(&make(alloc, many, &[])) == "too many tasks");
    let others = (told(&make(alloc, long, &[arc(0, 2)])) == "bad time")
        & matches!(make(alloc, two, &[arc(0, 1), arc(2, 0)]), Made::BadArc(1))
        & (told(&make(alloc, one, &[arc(0, 0)])) == "cycle");
    assert_eq!(rt; (counts, others), (true, true));
    Ok(())
}

#[test]
fn shows_the_ring_from_its_least_task(rt: HostRuntime) -> Result<(), Fail> {
    let times = vec![in rt.alloc(); 1, 1, 1]?;
    let Made::Cycle(ring) = make(rt.alloc(), times, &[arc(2, 0), arc(0, 1), arc(1, 2)]) else {
        return Err("no ring")?;
    };
    if ring.len() != 3 {
        return Err("another ring")?;
    }
    assert_eq!(rt; (ring.at(0), ring.at(1), ring.at(2)), (0, 1, 2));
    Ok(())
}

#[test]
fn keeps_partners_and_copies_them(rt: HostRuntime) -> Result<(), Fail> {
    let times = vec![in rt.alloc(); 2, 2, 1, 3]?;
    let mut pair = good(make(rt.alloc(), times, &[arc(0, 3), arc(1, 3)]))?;
    if pair.tasks() != 4 {
        return Err("other tasks")?;
    }
    let partners = [pair.partner(0, 0), pair.partner(0, 1), pair.partner(0, 2)];
    pair.set_apart(&[Prec { first: 3, then: 1 }]);
    let copy = pair.copy(rt.alloc())?;
    if copy.tasks() != 4 {
        return Err("another copy")?;
    }
    let apart = copy.apart(1).has(3) & copy.apart(3).has(1);
    let later = [pair.partner(0, 0), copy.partner(0, 0)];
    assert_eq!(rt;
        (partners, apart, later),
        ([Some(1), Some(2), None], true, [Some(2), Some(2)])
    );
    Ok(())
}

#[test]
fn lists_the_tasks_of_a_ring(rt: HostRuntime) -> Result<(), Fail> {
    let mut ring = Ring::from_vec(vec![in rt.alloc(); 4]?);
    ring.push(7)?;
    let copy = ring.copy()?;
    assert_eq!(rt; copy.len(), 2);
    if copy.len() == 2 {
        assert_eq!(rt; copy.at(1), 7);
    }
    Ok(())
}
