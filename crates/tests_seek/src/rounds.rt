//! What no clause says: small runs as they were worked out outside, with the entries that they publish and the units
//! that they need.
ghost use Rattle.std.specs.Prelude.{◌+◌, ◌^◌, ◌<◌, ◌≤◌, IfOk};
ghost use Rattle.line_rules.specs.Ranges.{IsCycle};
ghost use Rattle.round_helpers.specs.Helping.{IsTeam};

use crate::books::{CYCLE, book_of, instance, seven};
use lemma_core::Book;
use line_instance::{Instance, Prec};
use line_rules::{Entry, LineKind, Why};
use round_run::{AlwaysOpen, Outcome, Plan, Purse, Verdict, decide_round, fill, jobs, solve};
use std::alloc::{AllocError, Global};
use std::sync::Wait;
use std::test::Fail;
use std::thread::Threads;

fn five(alloc: Global) -> Result<Instance, Fail> {
    instance(alloc, vec![in alloc; 4, 4, 2, 2, 2]?, &[])
}

// An entry as a text: its set, its stations, and whether it stands by Bound, Branch or Swap.
fn entry_text(alloc: Global, entry: &Entry) -> Result<String, AllocError> {
    let (set, most) = (entry.set, entry.most);
    let why = match &entry.why {
        Why::Bound => "bound",
        Why::Branch { .. } => "branch",
        Why::Swap { .. } => "swap",
        Why::Pairs { .. } => "pairs",
    };
    format!(in alloc; "{why} {set} {most}|")
}

// The stations of a book's best balance and its entries, as a text.
fn book_text(alloc: Global, book: &Book) -> Result<String, AllocError> {
    let least = book.least();
    let mut text = format!(in alloc; "{least}|")?;
    for entry in book.entries().as_slice() {
        let one = entry_text(alloc, entry)?;
        text.push_str(one.as_str())?;
    }
    Ok(text)
}

fn outcome_text(alloc: Global, outcome: &Outcome) -> Result<String, AllocError> {
    match outcome {
        Outcome::TooLong(task) => format!(in alloc; "too long {task}"),
        Outcome::Solved { book } => {
            let text = book_text(alloc, book)?;
            format!(in alloc; "solved {text}")
        }
        Outcome::Stopped {
            cause,
            lower,
            book,
            trail,
        } => {
            let text = book_text(alloc, book)?;
            let many = trail.len();
            format!(in alloc; "{cause:?} {lower} {many} {text}")
        }
        Outcome::NoMemory => format!(in alloc; "no memory"),
    }
}

// What a run over an instance comes to.
fn solved<R: Threads + Wait + Sync>(
    rt: &R,
    alloc: Global,
    inst: &Instance,
    kind: LineKind,
    cycle: u64,
    units: u32,
) -> Result<String, Fail>
    requires { IsCycle cycle }
{
    if units < 1 || units > 3_000_000 {
        return Err("out of range")?;
    }
    let plan = Plan {
        helpers: 0,
        units: u64::from(units),
        pairs: false,
        seek: 0,
    };
    let outcome = solve(rt, alloc, inst, kind, cycle, &plan, &AlwaysOpen);
    Ok(outcome_text(alloc, &outcome)?)
}

#[test]
fn solves_five_tasks_with_fifteen_units(rt: HostRuntime) -> Result<(), Fail> {
    let alloc = rt.alloc();
    let inst = five(alloc)?;
    assert_eq!(&rt;
        solved(&rt, alloc, &inst, LineKind::Straight, CYCLE, 15)?.as_str(),
        "solved 3|branch {0, 1, 2, 3, 4} 2|"
    );
    assert_eq!(&rt;
        solved(&rt, alloc, &inst, LineKind::Straight, CYCLE, 14)?.as_str(),
        "Units 2 1 3|bound {0, 1, 2, 3, 4} 1|"
    );
    assert_eq!(&rt;
        solved(&rt, alloc, &inst, LineKind::Straight, 3, 15)?.as_str(),
        "too long 0"
    );
    Ok(())
}

#[test]
fn solves_a_chain_without_a_search(rt: HostRuntime) -> Result<(), Fail> {
    let alloc = rt.alloc();
    let arcs = [Prec { first: 0, then: 1 }, Prec { first: 1, then: 2 }];
    let inst = instance(alloc, vec![in alloc; 1, 2, 1]?, &arcs)?;
    assert_eq!(&rt;
        solved(&rt, alloc, &inst, LineKind::Straight, 2, 1)?.as_str(),
        "solved 3|bound {0, 1, 2} 2|"
    );
    assert_eq!(&rt;
        solved(&rt, alloc, &inst, LineKind::U, 2, 1000)?.as_str(),
        "solved 2|bound {0, 1, 2} 1|"
    );
    Ok(())
}

#[test]
fn solves_six_tasks_in_two_entries(rt: HostRuntime) -> Result<(), Fail> {
    let alloc = rt.alloc();
    let inst = instance(alloc, vec![in alloc; 7, 4, 4, 2, 2, 2]?, &[])?;
    assert_eq!(&rt;
        solved(&rt, alloc, &inst, LineKind::Straight, CYCLE, 1000)?.as_str(),
        "solved 4|branch {1, 2, 3, 4, 5} 2|branch {0, 1, 2, 3, 4, 5} 3|"
    );
    Ok(())
}

// A purse with so many units for the closing pass, and for each of some helpers.
fn purse_of(alloc: Global, units: u32, helpers: u32, each: u32) -> Result<Purse, Fail>
    requires { helpers ≤ 64 }
    ensures team { IfOk result (λ p. IsTeam p.helper.items) }
    ensures units { IfOk result (λ p. p.closing.used + p.closing.left < 2 ^ 64) }
{
    let plan = Plan {
        helpers,
        units: u64::from(each.min(40_000)) * u64::from(helpers) + 1,
        pairs: false,
        seek: 0,
    };
    let mut purse = fill(alloc, &plan)?;
    purse.closing.left = u64::from(units);
    Ok(purse)
}

// The answer to a question over an empty book, as a text.
fn round_text<R: Threads + Wait + Sync>(
    rt: &R,
    alloc: Global,
    inst: &Instance,
    most: u32,
    purse: Purse,
) -> Result<String, Fail>
    requires some { 1 ≤ most }
    requires few { most ≤ 1024 }
    requires team { IsTeam purse.helper.items }
    requires units { purse.closing.used + purse.closing.left < 2 ^ 64 }
{
    let mut purse = purse;
    let book = book_of(alloc, inst)?;
    let round = decide_round(rt, alloc, inst, book, most, false, &mut purse, &AlwaysOpen);
    let verdict = match &round.verdict {
        Verdict::Refuted => "refuted",
        Verdict::Found => "found",
        Verdict::Spent(_) => "spent",
        Verdict::NoMemory(_) => "no memory",
    };
    let (helped, from, used) = (round.helped, round.closing_from, purse.closing.used);
    let mut text = book_text(alloc, &round.book)?;
    for units in &purse.helper {
        let one = format!(in alloc; " helper {}", units.used)?;
        text.push_str(one.as_str())?;
    }
    Ok(format!(in alloc; "{helped:?} {verdict} from {from} used {used} {text}")?)
}

// What refutes seven tasks in four stations, over an empty book whose best balance has seven.
const SEVEN: &str =
    "Unneeded refuted from 0 used 48 7|branch {2, 3, 4, 5, 6} 2|branch {0, 2, 3, 4, 5, 6} 3|\
    swap {1, 2, 3, 4, 5, 6} 3|branch {0, 1, 2, 3, 4, 5, 6} 4|";

// The same after a helper did both jobs of the question, with 1 and 31, and 1 and 16 units, and the last question, with
// 1 and 17.
const A_ROUND: &str =
    "Whole refuted from 4 used 0 7|branch {2, 3, 4, 5, 6} 2|branch {0, 2, 3, 4, 5, 6} 3|\
    branch {1, 2, 3, 4, 5, 6} 3|branch {0, 1, 2, 3, 4, 5, 6} 4| helper 67";

#[test]
fn decides_questions_over_an_empty_book(rt: HostRuntime) -> Result<(), Fail> {
    let alloc = rt.alloc();
    let inst = seven(alloc)?;
    let purse = purse_of(alloc, 48, 0, 0)?;
    assert_eq!(&rt; round_text(&rt, alloc, &inst, 4, purse)?.as_str(), SEVEN);
    let purse = purse_of(alloc, 48, 0, 0)?;
    assert_eq!(&rt;
        round_text(&rt, alloc, &inst, 3, purse)?.as_str(),
        "Unneeded refuted from 0 used 0 7|bound {0, 1, 2, 3, 4, 5, 6} 3|"
    );
    let purse = purse_of(alloc, 1000, 0, 0)?;
    let text = round_text(&rt, alloc, &five(alloc)?, 3, purse)?;
    assert!(&rt; text.as_str().starts_with("Unneeded found from 0 "));
    assert!(&rt; text.as_str().ends_with(" 3|"));
    Ok(())
}

#[test]
fn has_a_helper_answer_a_round(rt: HostRuntime) -> Result<(), Fail> {
    let alloc = rt.alloc();
    let inst = seven(alloc)?;
    let purse = purse_of(alloc, 17, 1, 200)?;
    assert_eq!(&rt; round_text(&rt, alloc, &inst, 4, purse)?.as_str(), A_ROUND);
    let purse = purse_of(alloc, 48, 2, 0)?;
    let text = round_text(&rt, alloc, &inst, 4, purse)?;
    assert!(&rt; text.as_str().starts_with("Cut(1) refuted from 0 used 48 "));
    Ok(())
}

// A line of thirty tasks, each behind the one of half its number. It needs 14 stations, and its times show 13.
fn thirty(alloc: Global) -> Result<Instance, Fail> {
    let mut times = Vec::new(alloc);
    let mut arcs = Vec::new(alloc);
    for task in 0..30u32 {
        times.push(2 + u64::from(task.wrapping_mul(4 * task + 2) % 5))?;
        if task > 0 {
            arcs.push(Prec {
                first: task / 2,
                then: task,
            })?;
        }
    }
    instance(alloc, times, arcs.as_slice())
}

// Whether 1 to 8 helpers in turn, with so many units each, refute the question in so many rounds, and leave nothing to
// the closing pass.
fn always_refute<R: Threads + Wait + Sync>(
    rt: &R,
    alloc: Global,
    inst: &Instance,
    most: u32,
    each: u32,
    rounds: u32,
) -> Result<bool, Fail>
    requires some { 1 ≤ most }
    requires few { most ≤ 1024 }
{
    for round in 0..rounds {
        let purse = purse_of(alloc, 48, 1 + round % 8, each)?;
        let text = round_text(rt, alloc, inst, most, purse)?;
        let refuted = text.as_str().starts_with("Whole refuted from ");
        if !refuted || !text.as_str().contains(" used 0 ") {
            return Ok(false);
        }
    }
    Ok(true)
}

#[test]
fn helpers_answer_a_round_in_any_order(rt: HostRuntime) -> Result<(), Fail> {
    let alloc = rt.alloc();
    assert!(&rt; always_refute(&rt, alloc, &seven(alloc)?, 4, 300, 200)?);
    Ok(())
}

#[test]
fn helpers_answer_a_longer_round_in_any_order(rt: HostRuntime) -> Result<(), Fail> {
    let alloc = rt.alloc();
    assert!(&rt; always_refute(&rt, alloc, &thirty(alloc)?, 13, 40_000, 16)?);
    Ok(())
}

// Of one task the only job leaves nothing, so its balance is found. Where the bound refutes what each load leaves, there
// is no job: the helper's last question takes 1 and 15 units.
#[test]
fn a_helper_answers_small_questions(rt: HostRuntime) -> Result<(), Fail> {
    let alloc = rt.alloc();
    let one = instance(alloc, vec![in alloc; 5]?, &[])?;
    let purse = purse_of(alloc, 48, 1, 200)?;
    assert_eq!(&rt;
        round_text(&rt, alloc, &one, 1, purse)?.as_str(),
        "Whole found from 0 used 0 1| helper 1"
    );
    let purse = purse_of(alloc, 48, 1, 200)?;
    assert_eq!(&rt;
        round_text(&rt, alloc, &five(alloc)?, 2, purse)?.as_str(),
        "Whole refuted from 1 used 0 5|branch {0, 1, 2, 3, 4} 2| helper 16"
    );
    Ok(())
}

#[test]
fn lists_two_jobs_of_seven_tasks(rt: HostRuntime) -> Result<(), Fail> {
    let alloc = rt.alloc();
    let inst = seven(alloc)?;
    let mut text = String::new(alloc);
    for job in &jobs(alloc, &inst, LineKind::Straight, CYCLE, 4)? {
        let (set, front) = (job.set, job.load.front);
        let one = format!(in alloc; "{front} {set}|")?;
        text.push_str(one.as_str())?;
    }
    assert_eq!(&rt;
        text.as_str(),
        "{1} {0, 2, 3, 4, 5, 6}|{0} {1, 2, 3, 4, 5, 6}|"
    );
    Ok(())
}
