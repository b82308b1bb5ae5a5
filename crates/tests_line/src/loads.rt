//! What no clause says: the loads of small lines that were listed outside, and that the walk, the plain form and a
//! listing by the definition agree on lines drawn at random.
ghost use Rattle.std.specs.Prelude.{◌<◌};
ghost use Rattle.line_instance.specs.Line.{IsTaskSet};

use crate::lines::instance;
use line_instance::{Instance, Prec, TaskSet};
use line_rules::{Load, Mode};
use station_load::steps::begin;
use station_load::{first_load, is_full, next_load, places, resume, walk};
use std::alloc::{AllocError, Global};
use std::test::Fail;

// Five tasks of 4, 4, 2, 2 and 2.
fn five(alloc: Global) -> Result<Instance, Fail> {
    Ok(instance(alloc, vec![in alloc; 4, 4, 2, 2, 2]?, &[])?)
}

// The fifteen loads of the five tasks at 7 in front, with their sums; the full ones are marked.
const FIFTEEN: &str =
    "{4} 2|{3} 2|{3, 4} 4|{2} 2|{2, 4} 4|{2, 3} 4|{2, 3, 4} 6 full|{1} 4|{1, 4} 6 full|{1, 3} 6 full|{1, 2} 6 full|\
    {0} 4|{0, 4} 6 full|{0, 3} 6 full|{0, 2} 6 full|";

// The loads that a walk in front gives, with their sums.
fn walked(alloc: Global, inst: &Instance, cycle: u64, set: &TaskSet) -> Result<String, AllocError>
    requires { IsTaskSet inst.now set.now }
{
    let mut text = String::new(alloc);
    let mut walk = walk(inst, cycle, set, Mode::Fore);
    'steps: for _ in 0..20 {
        if let Some(load) = walk.step(inst) {
            let full = if walk.full(inst) { " full" } else { "" };
            let line = format!(in alloc; "{} {}{full}|", load.front, walk.sum())?;
            text.push_str(line.as_str())?;
        }
    }
    Ok(text)
}

// The same, load by load.
fn found(alloc: Global, inst: &Instance, cycle: u64, set: &TaskSet) -> Result<String, AllocError>
    requires { IsTaskSet inst.now set.now }
{
    let mut text = String::new(alloc);
    let mut next = first_load(inst, cycle, set, Mode::Fore);
    'steps: for _ in 0..20 {
        if let Some(load) = next {
            let whole = is_full(inst, cycle, set, Mode::Fore, &load);
            let full = if whole { " full" } else { "" };
            let line = format!(in alloc; "{} {}{full}|", load.front, inst.sum(&load.front))?;
            text.push_str(line.as_str())?;
            next = next_load(inst, cycle, set, Mode::Fore, &load);
        }
    }
    Ok(text)
}

// The same, by a walk that is resumed after each load.
fn resumed(alloc: Global, inst: &Instance, cycle: u64, set: &TaskSet) -> Result<String, AllocError>
    requires { IsTaskSet inst.now set.now }
{
    let mut text = String::new(alloc);
    let mut next = first_load(inst, cycle, set, Mode::Fore);
    'steps: for _ in 0..20 {
        if let Some(load) = next {
            let mut walk = resume(inst, cycle, set, Mode::Fore, &load);
            let full = if walk.full(inst) { " full" } else { "" };
            let line = format!(in alloc; "{} {}{full}|", load.front, walk.sum())?;
            text.push_str(line.as_str())?;
            next = walk.step(inst);
        }
    }
    Ok(text)
}

#[test]
fn lists_the_fifteen_loads(rt: HostRuntime) -> Result<(), Fail> {
    let inst = five(rt.alloc())?;
    let all = inst.all();
    assert_eq!(rt; walk(&inst, 7, &all, Mode::Fore).sum(), 0);
    assert_eq!(rt; walked(rt.alloc(), &inst, 7, &all)?.as_str(), FIFTEEN);
    assert_eq!(rt; found(rt.alloc(), &inst, 7, &all)?.as_str(), FIFTEEN);
    assert_eq!(rt; resumed(rt.alloc(), &inst, 7, &all)?.as_str(), FIFTEEN);
    Ok(())
}

// A generator of numbers by a product and a sum; its upper half serves.
fn drawn(state: u64) -> u64 {
    state
        .wrapping_mul(6_364_136_223_846_793_005)
        .wrapping_add(1_442_695_040_888_963_407)
}

fn times_of(alloc: Global, tasks: u32, seed: u64) -> Result<Vec<u64>, AllocError> {
    let mut times = Vec::new(alloc);
    let mut state = seed;
    for _ in 0..tasks {
        state = drawn(state);
        times.push((state >> 33) % 5)?;
    }
    Ok(times)
}

// About a quarter of the arcs that lead from a lower place to a higher one, where the places aren't in the order of the
// tasks.
fn arcs_of(alloc: Global, tasks: u32, seed: u64) -> Result<Vec<Prec>, AllocError> {
    let mut arcs = Vec::new(alloc);
    let mut state = seed;
    for i in 0..u64::from(tasks) {
        for j in 0..u64::from(tasks) {
            state = drawn(state);
            if (state >> 33) % 4 == 0 && (5 * (i % 7) + 3) % 7 < (5 * (j % 7) + 3) % 7 {
                arcs.push(Prec {
                    first: (i % 7) as u32,
                    then: (j % 7) as u32,
                })?;
            }
        }
    }
    Ok(arcs)
}

// An instance of at most six tasks, with two of them apart where there are three.
fn random(alloc: Global, seed: u64) -> Result<Instance, Fail> {
    let tasks = 1 + (seed % 6) as u32;
    let times = times_of(alloc, tasks, seed)?;
    let arcs = arcs_of(alloc, tasks, drawn(seed))?;
    let mut inst = instance(alloc, times, &arcs)?;
    if inst.tasks() >= 3 && seed % 2 == 0 {
        inst.set_apart(&[Prec { first: 0, then: 2 }]);
    }
    Ok(inst)
}

// The pair of a number: its bits are the truths of the pair, the last place in the lowest bit.
fn pair_of(inst: &Instance, mode: Mode, number: u64) -> Load {
    let tasks = inst.tasks();
    let mut load = Load {
        front: TaskSet::empty(),
        back: TaskSet::empty(),
    };
    let mut left = number;
    if !matches!(mode, Mode::Fore) {
        for rank in 0..tasks {
            if left % 2 == 1 {
                load.back.insert(inst.at_rank(rank));
            }
            left /= 2;
        }
    }
    if !matches!(mode, Mode::Back) {
        for rank in 0..tasks {
            if left % 2 == 1 {
                load.front.insert(inst.at_rank(tasks - 1 - rank));
            }
            left /= 2;
        }
    }
    load
}

// Whether a task of the set may stand beside another one in the pair, task by task.
fn stands(inst: &Instance, set: &TaskSet, load: &Load, i: u32, j: u32) -> bool
    requires first { i < 1024 }
    requires second { j < 1024 }
{
    if i >= inst.tasks() || j >= inst.tasks() {
        return false;
    }
    let taken = load.front.union(&load.back);
    let parted = taken.has(i) && taken.has(j) && inst.apart(j).has(i);
    let early = inst.before(j).has(i) && set.has(i) && load.front.has(j) && !load.front.has(i);
    let late = inst.before(j).has(i) && set.has(j) && load.back.has(i) && !load.back.has(j);
    !parted && !early && !late
}

// Whether the pair is a load, by the definition.
fn is_load(inst: &Instance, cycle: u64, set: &TaskSet, load: &Load) -> bool {
    let taken = load.front.union(&load.back);
    if taken.is_empty() || !taken.is_subset(set) || !load.front.meet(&load.back).is_empty() {
        return false;
    }
    let mut sum = 0u64;
    let tasks = inst.tasks();
    for i in 0..tasks {
        if taken.has(i) {
            sum = sum.saturating_add(inst.time(i));
        }
        for j in 0..tasks {
            if !stands(inst, set, load, i, j) {
                return false;
            }
        }
    }
    sum <= cycle
}

// Whether no further task makes the pair a load, by the definition.
fn is_whole(inst: &Instance, cycle: u64, set: &TaskSet, mode: Mode, load: &Load) -> bool {
    let tasks = inst.tasks();
    for i in 0..tasks {
        if load.front.has(i) || load.back.has(i) {
            continue;
        }
        let front = Load {
            front: load.front.with(i),
            back: load.back,
        };
        let back = Load {
            front: load.front,
            back: load.back.with(i),
        };
        if !matches!(mode, Mode::Back) && is_load(inst, cycle, set, &front) {
            return false;
        }
        if !matches!(mode, Mode::Fore) && is_load(inst, cycle, set, &back) {
            return false;
        }
    }
    true
}

fn same(a: &Load, b: &Load) -> bool {
    a.front == b.front && a.back == b.back
}

// Whether the walk and the plain form list what is a load of all pairs below a number, in order, and then end.
fn agree(inst: &Instance, cycle: u64, set: &TaskSet, mode: Mode, pairs: u64) -> bool
    requires { IsTaskSet inst.now set.now }
{
    let mut walk = begin(inst, cycle, set, mode);
    let mut plain = places::first(inst, cycle, set, mode);
    for number in 0..pairs {
        let load = pair_of(inst, mode, number);
        if !is_load(inst, cycle, set, &load) {
            continue;
        }
        let Some(given) = walk.step(inst) else {
            return false;
        };
        let Some(found) = plain else {
            return false;
        };
        let whole = is_whole(inst, cycle, set, mode, &load);
        if !same(&given, &load) || !same(&found, &load) {
            return false;
        }
        if walk.full(inst) != whole || places::full(inst, cycle, set, mode, &found) != whole {
            return false;
        }
        plain = places::next(inst, cycle, set, mode, &found);
    }
    plain.is_none() && walk.step(inst).is_none() && walk.step(inst).is_none()
}

#[test]
fn lists_all_loads_of_random_lines(rt: HostRuntime) -> Result<(), Fail> {
    for seed in 0..36u64 {
        let inst = random(rt.alloc(), seed)?;
        let all = inst.all();
        let set = if seed % 5 == 4 { all.without(1) } else { all };
        let cycle = 3 + seed % 4;
        let sets = 1u64 << inst.tasks().min(6);
        assert!(rt;
            agree(&inst, cycle, &set, Mode::Fore, sets),
            "in front, {seed}"
        );
        assert!(rt;
            agree(&inst, cycle, &set, Mode::Back, sets),
            "at the back, {seed}"
        );
        assert!(rt;
            agree(&inst, cycle, &set, Mode::Both, sets * sets),
            "at both, {seed}"
        );
    }
    Ok(())
}
