//! Threads that publish and look at random. The log is one interleaving of what they did, and each answer is the book's
//! at one place of it: for a publish at its own, for a look between the glances before and after it. Some publishes
//! wait for nobody, and where another thread has the turn the entry comes back.
ghost use Rattle.std.specs.Prelude.{◌≡◌, ◌+◌, ◌≤◌, ◌<◌};
ghost use Rattle.std.specs.Thread.{IsSync};
ghost use Rattle.line_rules.specs.declared.types.LineKind.TheVariants.{Straight};
ghost use Rattle.book_share.specs.Calls.{IsPassOf};

use crate::books::{alone, free_tasks, publish, shared, try_publish};
use book_share::{Pass, Share, TryPublished};
use lemma_core::{Book, LogItem, Looked, Published};
use line_instance::{Instance, TaskSet};
use std::alloc::{AllocError, Global};
use std::sync::Wait;
use std::test::Fail;
use std::thread::{Threads, join};

/// How many calls each thread makes.
const CALLS: u32 = 24;

/// How many tasks the line has, each as long as the cycle.
const TASKS: u32 = 13;

/// How many tasks are in each set; so many workers are told apart by their numbers of stations.
const FIXED: u32 = 9;

/// A call of a worker, and what it was answered.
#[derive(Drop)]
struct Called {
    worker: u32,
    set: TaskSet,
    answer: Answer,
}

#[derive(Clone, Copy, PartialEq, Eq)]
enum Answer {
    /// To the entry of the set in as many stations as the worker's number.
    Published(Published),
    /// That another thread had the turn; and whether the entry came back as it was.
    Busy { back: bool },
    /// To a look for it, made between two glances at the number of events.
    Looked { found: Looked, from: u64, to: u64 },
}

// A generator of numbers by a product and a sum.
fn next(state: u64) -> u64 {
    state
        .wrapping_mul(6_364_136_223_846_793_005)
        .wrapping_add(1_442_695_040_888_963_407)
}

// The first nine tasks and some of the others.
fn set_of(state: u64) -> TaskSet {
    let mut set = TaskSet::full_to(FIXED);
    for task in FIXED..TASKS {
        if (state >> (20 + task)) % 2 == 0 {
            set.insert(task);
        }
    }
    set
}

// The answer to a publish that waits for nobody.
fn tried(answer: TryPublished, set: &TaskSet, most: u32) -> Answer {
    match answer {
        TryPublished::Known(id) => Answer::Published(Published::Known(id)),
        TryPublished::Added(id) => Answer::Published(Published::Added(id)),
        TryPublished::NoMemory => Answer::Published(Published::NoMemory),
        TryPublished::Busy(step) => Answer::Busy {
            back: (step.set == *set) & (step.most == most),
        },
    }
}

// Publishes an entry in one of two ways or looks for one, by the number `state`.
fn call<R: Wait>(
    rt: &R,
    share: &Share,
    pass: &mut Pass,
    inst: &Instance,
    worker: u32,
    state: u64,
) -> Option<Called>
    requires pass { IsPassOf share.now pass.old }
    requires about { pass.old.view.base.about ≡ record { line = inst.now; kind = Straight; cycle = 7 } }
    ensures pass { IsPassOf share.now pass.new }
    ensures base { pass.new.view.base ≡ pass.old.view.base }
{
    let set = set_of(state);
    let kind = (state >> 60) % 3;
    let answer = if kind == 0 {
        Answer::Published(publish(rt, share, pass, inst, set, worker)?)
    } else if kind == 1 {
        tried(try_publish(share, pass, inst, set, worker)?, &set, worker)
    } else {
        let from = share.glance(pass);
        let found = share.look(rt, pass, &set, worker);
        let to = share.glance(pass);
        Answer::Looked { found, from, to }
    };
    Some(Called {
        worker,
        set,
        answer,
    })
}

// One thread's calls.
fn work<R: Wait>(
    rt: &R,
    alloc: Global,
    share: &Share,
    mut pass: Pass,
    inst: &Instance,
    worker: u32,
    seed: u64,
) -> (Pass, Vec<Called>)
    requires pass { IsPassOf share.now pass }
    requires about { pass.view.base.about ≡ record { line = inst.now; kind = Straight; cycle = 7 } }
    ensures { IsPassOf share.now result.0 }
{
    let mut calls = Vec::new(alloc);
    let mut state = next(seed ^ u64::from(worker));
    for _ in 0..CALLS {
        state = next(state);
        let called = call(rt, share, &mut pass, inst, worker, state);
        if let Some(called) = called {
            let _missing = calls.push(called).is_err();
        }
    }
    (pass, calls)
}

// The calls of `count` workers from `first` on, each in a thread of its own.
fn in_threads<R: Threads + Wait + Sync>(
    rt: &R,
    alloc: Global,
    share: &Share,
    mut pass: Pass,
    inst: &Instance,
    first: u32,
    count: u32,
    seed: u64,
) -> (Pass, Vec<Called>)
    requires pass { IsPassOf share.now pass }
    requires about { pass.view.base.about ≡ record { line = inst.now; kind = Straight; cycle = 7 } }
    requires few { first + count ≤ 8 }
    ensures { IsPassOf share.now result.0 }
{
    if count <= 1 {
        return work(rt, alloc, share, pass, inst, first, seed);
    }
    let half = count / 2;
    let other = share.split(&mut pass);
    let ((mut one, mut calls), (two, mut more)) = join(
        rt,
        || -> (Pass, Vec<Called>)
            requires { IsSync R.row × IsPassOf share.now pass
                × (pass.view.base.about ≡ record { line = inst.now; kind = Straight; cycle = 7 }) × (first + half ≤ 8) }
            ensures { IsPassOf share.entry.now result.0 }
        { in_threads(rt, alloc, share, pass, inst, first, half, seed) },
        || -> (Pass, Vec<Called>)
            requires { IsSync R.row × IsPassOf share.now other
                × (other.view.base.about ≡ record { line = inst.now; kind = Straight; cycle = 7 }) × (first + count ≤ 8)
                × (half < count) }
            ensures { IsPassOf share.entry.now result.0 }
        {
            in_threads(
                rt,
                alloc,
                share,
                other,
                inst,
                first + half,
                count - half,
                seed,
            )
        },
    );
    share.join(&mut one, two);
    let _missing = calls.append(&mut more).is_err();
    (one, calls)
}

// The last entry below `below` that answers the question, searched from the end.
fn last_answer(book: &Book, below: u64, set: &TaskSet, most: u32) -> Option<u64> {
    for id in (0..below.min(book.len())).rev() {
        let entry = book.entry(id);
        if entry.set == *set && entry.most >= most {
            return Some(id);
        }
    }
    None
}

// How many entries there are before each event, and after the last.
fn entries_before(alloc: Global, book: &Book) -> Result<Vec<u64>, AllocError> {
    let mut counts = Vec::new(alloc);
    let mut entries = 0u64;
    for place in 0..book.log_len() {
        counts.push(entries)?;
        if let LogItem::Added(_) = book.log_at(place) {
            entries = entries.wrapping_add(1);
        }
    }
    counts.push(entries)?;
    Ok(counts)
}

// The worker whose publish stands at a place of the log: the stations that it asked for.
fn worker_at(book: &Book, place: u64) -> Option<u32> {
    if place >= book.log_len() {
        return None;
    }
    match book.log_at(place) {
        LogItem::Added(id) if id < book.len() => Some(book.entry(id).most),
        LogItem::Known { most, .. } => Some(most),
        _ => None,
    }
}

// The first place from `from` on that is a worker's.
fn next_place(book: &Book, from: u64, worker: u32) -> Option<u64> {
    (from..book.log_len()).find(|place| worker_at(book, *place) == Some(worker))
}

// Whether the log's item at a place is what the book answered there to a worker's publish.
fn is_published(
    book: &Book,
    counts: &[u64],
    place: u64,
    called: &Called,
    published: Published,
) -> bool {
    let Some(below) = counts.get(place as usize) else {
        return false;
    };
    let known = last_answer(book, *below, &called.set, called.worker);
    if place >= book.log_len() {
        return false;
    }
    match (published, book.log_at(place)) {
        (Published::Known(id), LogItem::Known { id: logged, .. }) => {
            id == logged && known == Some(id)
        }
        (Published::Added(id), LogItem::Added(logged)) => {
            id == logged && id == *below && known == None
        }
        _ => false,
    }
}

// Whether a look found what the book finds after some number of events from `from` to `to`.
fn is_found(
    book: &Book,
    counts: &[u64],
    called: &Called,
    looked: Looked,
    from: u64,
    to: u64,
) -> bool {
    let wanted = match looked {
        Looked::Found { id, .. } => Some(id),
        Looked::Absent => None,
    };
    (from..=to).any(|place| match counts.get(place as usize) {
        Some(below) => last_answer(book, *below, &called.set, called.worker) == wanted,
        None => false,
    })
}

// Whether a worker's calls are answered by the book in their order, and its publishes are all that the log has of it.
fn agrees(book: &Book, counts: &[u64], calls: &[Called], worker: u32) -> bool {
    let mut from = 0;
    for called in calls {
        if called.worker != worker {
            continue;
        }
        match called.answer {
            Answer::Published(published) => {
                let Some(place) = next_place(book, from, worker) else {
                    return false;
                };
                if !is_published(book, counts, place, called, published) {
                    return false;
                }
                from = place.saturating_add(1);
            }
            Answer::Busy { back } => {
                if !back {
                    return false;
                }
            }
            Answer::Looked {
                found,
                from: low,
                to,
            } => {
                if !is_found(book, counts, called, found, low, to) {
                    return false;
                }
            }
        }
    }
    next_place(book, from, worker) == None
}

// Whether the calls of so many workers are answered by the book.
fn all_agree(
    alloc: Global,
    book: &Book,
    calls: &[Called],
    workers: u32,
) -> Result<bool, AllocError> {
    let counts = entries_before(alloc, book)?;
    for worker in 0..workers {
        if !agrees(book, counts.as_slice(), calls, worker) {
            return Ok(false);
        }
    }
    Ok(true)
}

// The calls of so many workers, each in a thread of its own, and the book that they leave.
fn played<R: Threads + Wait + Sync>(
    rt: &R,
    alloc: Global,
    inst: &Instance,
    workers: u32,
    seed: u64,
) -> Result<(Book, Vec<Called>), Fail>
    requires { workers ≤ 8 }
{
    let (share, pass) = shared(alloc, inst, alone(alloc, inst)?)?;
    let (pass, calls) = in_threads(rt, alloc, &share, pass, inst, 0, workers, seed);
    Ok((share.close(rt, pass), calls))
}

// One run of so many workers: how many calls were made, where all agree.
fn run<R: Threads + Wait + Sync>(
    rt: &R,
    alloc: Global,
    inst: &Instance,
    workers: u32,
    seed: u64,
) -> Result<u64, Fail>
    requires { workers ≤ 8 }
{
    let (book, calls) = played(rt, alloc, inst, workers, seed)?;
    if all_agree(alloc, &book, calls.as_slice(), workers)? {
        return Ok(calls.len() as u64);
    }
    Err("an answer that isn't the book's")?
}

#[test]
fn threads_have_one_history(rt: HostRuntime) -> Result<(), Fail> {
    let alloc = rt.alloc();
    let inst = free_tasks(alloc, vec![in alloc; 7; TASKS as usize]?)?;
    for seed in 0..100 {
        for workers in [2u32, 4, 8] {
            let calls = run(&rt, alloc, &inst, workers, seed)?;
            if calls != u64::from(workers * CALLS) {
                return Err("a call is missing")?;
            }
        }
    }
    Ok(())
}
