//! What no clause says: the loads of small lines that were listed outside, by the walk and load by load.
ghost use Rattle.line_instance.specs.Line.{IsTaskSet};

use crate::lines::instance;
use line_instance::{Instance, Prec, TaskSet};
use line_rules::Mode;
use std::alloc::{AllocError, Global};
use std::test::Fail;
use u_load::{first_load, is_full, next_load, resume, walk};

// The loads that a walk gives, with their sums.
fn walked(alloc: Global, inst: &Instance, cycle: u64, set: &TaskSet) -> Result<String, AllocError>
    requires { IsTaskSet inst.now set.now }
{
    let mut text = String::new(alloc);
    let mut walk = walk(inst, cycle, set, Mode::Both);
    'steps: for _ in 0..100 {
        if let Some(load) = walk.step(inst) {
            let full = if walk.full(inst) { " full" } else { "" };
            let (front, back, sum) = (load.front, load.back, walk.sum());
            let line = format!(in alloc; "{front} {back} {sum}{full}|")?;
            text.push_str(line.as_str())?;
        }
    }
    Ok(text)
}

// The same, load by load.
fn found(alloc: Global, inst: &Instance, cycle: u64, set: &TaskSet) -> Result<String, AllocError>
    requires { IsTaskSet inst.now set.now }
{
    let mut text = String::new(alloc);
    let mut next = first_load(inst, cycle, set, Mode::Both);
    'steps: for _ in 0..100 {
        if let Some(load) = next {
            let whole = is_full(inst, cycle, set, Mode::Both, &load);
            let full = if whole { " full" } else { "" };
            let (front, back) = (load.front, load.back);
            let sum = inst.sum(&front) + inst.sum(&back);
            let line = format!(in alloc; "{front} {back} {sum}{full}|")?;
            text.push_str(line.as_str())?;
            next = next_load(inst, cycle, set, Mode::Both, &load);
        }
    }
    Ok(text)
}

fn loads_in(text: &str) -> usize {
    text.split('|').count().saturating_sub(1)
}

#[test]
fn lists_the_loads_of_five_tasks(rt: HostRuntime) -> Result<(), Fail> {
    let alloc = rt.alloc();
    let inst = instance(alloc, vec![in alloc; 4, 4, 2, 2, 2]?, &[])?;
    let all = inst.all();
    assert_eq!(rt; walk(&inst, 7, &all, Mode::Both).sum(), 0);
    let text = walked(alloc, &inst, 7, &all)?;
    assert_eq!(rt; loads_in(text.as_str()), 54);
    assert_eq!(rt; found(alloc, &inst, 7, &all)?.as_str(), text.as_str());
    Ok(())
}

// A chain of two tasks, of 0 and 2, and a task of 1 that may stand at either side.
const SEVENTEEN: &str =
    "{} {1} 2|{} {0, 1} 2|{} {2} 1|{} {1, 2} 3|{} {0, 1, 2} 3 full|{2} {} 1|{2} {1} 3|{2} {0, 1} 3 full|{0} {} 0|\
    {0} {1} 2|{0} {2} 1|{0} {1, 2} 3 full|{0, 2} {} 1|{0, 2} {1} 3 full|{0, 1} {} 2|{0, 1} {2} 3 full|\
    {0, 1, 2} {} 3 full|";

#[test]
fn lists_the_loads_of_a_chain_and_a_task(rt: HostRuntime) -> Result<(), Fail> {
    let alloc = rt.alloc();
    let arcs = [Prec { first: 0, then: 1 }];
    let inst = instance(alloc, vec![in alloc; 0, 2, 1]?, &arcs)?;
    let all = inst.all();
    let text = walked(alloc, &inst, 3, &all)?;
    assert_eq!(rt; text.as_str(), SEVENTEEN);
    assert_eq!(rt; found(alloc, &inst, 3, &all)?.as_str(), text.as_str());
    if let Some(load) = first_load(&inst, 3, &all, Mode::Both) {
        let mut walk = resume(&inst, 3, &all, Mode::Both, &load);
        assert_eq!(rt; walk.sum(), 2);
        assert!(rt; walk.step(&inst).is_some());
        assert_eq!(rt; walk.sum(), 2);
    }
    Ok(())
}
