//! What no clause says: small searches as they were worked out outside, with their units and entries, and searches that
//! stop at each budget.
ghost use Rattle.std.specs.Prelude.{◌<◌, ◌≤◌, All, IfOk};
ghost use Rattle.line_instance.specs.Line.{IsTaskSet};
ghost use Rattle.line_rules.specs.Ranges.{IsCycle};
ghost use Rattle.lemma_core.specs.Machine.{About};
ghost use Rattle.lemma_core.specs.Books.{MayBeBest, desk_of};
ghost use Rattle.station_search.specs.Decide.{IsFor};

mod pairs;
mod sharing;
mod stops;

use lemma_core::Book;
use line_instance::{Instance, Made, Prec, TaskSet, make};
use line_rules::{
    Balance, BalanceCheck, Cites, Entry, LineKind, Loads, Mode, Places, Seatplace, Side, Why,
    check_balance,
};
use station_search::{Decided, Reason, Units, balance_of, choose_mode, decide};
use std::alloc::{AllocError, Global};
use std::test::Fail;

const CYCLE: u64 = 7;

fn instance(alloc: Global, times: Vec<u64>, arcs: &[Prec]) -> Result<Instance, Fail> {
    match make(alloc, times, arcs) {
        Made::Good(inst) => Ok(inst),
        _ => Err("no instance")?,
    }
}

// Each task at a station of its own.
fn alone(alloc: Global, tasks: u32) -> Result<Balance, AllocError> {
    let mut place = Vec::new(alloc);
    for task in 0..tasks.min(1024) {
        place.push(Seatplace {
            station: task + 1,
            side: Side::Front,
        })?;
    }
    Ok(Balance {
        stations: tasks,
        place: Places::from_vec(place),
    })
}

// The balance, where it may be the best of a book.
fn tested(inst: &Instance, kind: LineKind, cycle: u64, best: Balance) -> Result<Balance, Fail>
    ensures { IfOk result (λ b. MayBeBest (record { line = inst.now; kind = kind; cycle = cycle }) b) }
{
    let few = best.place.len() <= inst.tasks() as usize && best.stations <= inst.tasks();
    if few && check_balance(inst, kind, cycle, &best) == BalanceCheck::Right {
        return Ok(best);
    }
    Err("no balance")?
}

// An empty book of an instance at a cycle.
fn book_at(alloc: Global, inst: &Instance, kind: LineKind, cycle: u64) -> Result<Book, Fail>
    ensures { IfOk result (λ b. IsFor (desk_of b) inst.now kind cycle) }
{
    let best = tested(inst, kind, cycle, alone(alloc, inst.tasks())?)?;
    Ok(Book::make(alloc, inst.copy(alloc)?, kind, cycle, best))
}

// An empty book of an instance.
fn book_of(alloc: Global, inst: &Instance, kind: LineKind) -> Result<Book, Fail>
    ensures { IfOk result (λ b. IsFor (desk_of b) inst.now kind 7) }
{
    book_at(alloc, inst, kind, CYCLE)
}

// The cites as a text.
fn cites_text(alloc: Global, cites: &Cites) -> Result<String, AllocError> {
    let mut text = String::new(alloc);
    for cite in cites.as_slice() {
        let one = format!(in alloc; " {cite}")?;
        text.push_str(one.as_str())?;
    }
    Ok(text)
}

// An entry as a text: what it says, and why.
fn entry_text(alloc: Global, entry: &Entry) -> Result<String, AllocError> {
    let (set, most) = (entry.set, entry.most);
    match &entry.why {
        Why::Bound => format!(in alloc; "bound {set} {most}|"),
        Why::Branch { mode, cites } => {
            let text = cites_text(alloc, cites)?;
            format!(in alloc; "branch {mode:?} {set} {most}{text}|")
        }
        Why::Swap {
            cite,
            out_task,
            in_task,
        } => { format!(in alloc; "swap {set} {most} {cite} {out_task} {in_task}|") }
        Why::Pairs { two } => {
            let two = *two.set();
            format!(in alloc; "pairs {set} {most} {two}|")
        }
    }
}

// The entries of a book as a text.
fn entries_text(alloc: Global, book: &Book) -> Result<String, AllocError> {
    let mut text = String::new(alloc);
    for entry in book.entries().as_slice() {
        let one = entry_text(alloc, entry)?;
        text.push_str(one.as_str())?;
    }
    Ok(text)
}

// An answer as a text.
fn answer_text(alloc: Global, decided: &Decided) -> Result<String, AllocError> {
    match decided {
        Decided::Refuted(Reason::ByBound) => format!(in alloc; "bound"),
        Decided::Refuted(Reason::ByEntry(id)) => format!(in alloc; "entry {id}"),
        Decided::Found(loads) => {
            let many = loads.len();
            format!(in alloc; "found {many}")
        }
        Decided::Spent(frames) => {
            let many = frames.len();
            format!(in alloc; "spent {many}")
        }
        Decided::NoMemory(_) => format!(in alloc; "no memory"),
    }
}

// The answer on a set of tasks with so many units, the units that it takes, and the entries of the book after it.
fn asked(
    alloc: Global,
    book: &mut Book,
    inst: &Instance,
    kind: LineKind,
    set: &TaskSet,
    most: u32,
    left: u32,
) -> Result<String, AllocError>
    requires desk { IsFor (desk_of book.old) inst.now kind 7 }
    requires set { IsTaskSet inst.now set.now }
    requires few { most ≤ 1024 }
{
    let mut units = Units {
        left: u64::from(left),
        used: 0,
    };
    let decided = decide(alloc, book, inst, kind, CYCLE, set, most, &mut units);
    let answer = answer_text(alloc, &decided)?;
    let entries = entries_text(alloc, book)?;
    let used = units.used;
    format!(in alloc; "{answer} used {used}|{entries}")
}

// The answer on all tasks of an instance, by an empty book.
fn answer(
    alloc: Global,
    inst: &Instance,
    kind: LineKind,
    most: u32,
    left: u32,
) -> Result<String, Fail>
    requires { most ≤ 1024 }
{
    let mut book = book_of(alloc, inst, kind)?;
    let all = inst.all();
    Ok(asked(alloc, &mut book, inst, kind, &all, most, left)?)
}

fn five(alloc: Global) -> Result<Instance, Fail> {
    instance(alloc, vec![in alloc; 4, 4, 2, 2, 2]?, &[])
}

fn six(alloc: Global) -> Result<Instance, Fail> {
    instance(alloc, vec![in alloc; 7, 4, 4, 2, 2, 2]?, &[])
}

fn seven(alloc: Global) -> Result<Instance, Fail> {
    instance(alloc, vec![in alloc; 7, 7, 4, 4, 2, 2, 2]?, &[])
}

#[test]
fn refutes_five_tasks(rt: HostRuntime) -> Result<(), Fail> {
    let alloc = rt.alloc();
    let inst = five(alloc)?;
    let straight = answer(alloc, &inst, LineKind::Straight, 2, 1000)?;
    assert_eq!(rt;
        straight.as_str(),
        "entry 0 used 15|branch Fore {0, 1, 2, 3, 4} 2|"
    );
    let u = answer(alloc, &inst, LineKind::U, 2, 1000)?;
    assert_eq!(rt;
        u.as_str(),
        "entry 0 used 54|branch Both {0, 1, 2, 3, 4} 2|"
    );
    let one = answer(alloc, &inst, LineKind::Straight, 1, 1000)?;
    assert_eq!(rt; one.as_str(), "bound used 0|");
    Ok(())
}

#[test]
fn refutes_five_tasks_of_which_three_are_apart(rt: HostRuntime) -> Result<(), Fail> {
    let alloc = rt.alloc();
    let mut inst = five(alloc)?;
    if inst.tasks() == 5 {
        let pairs = [
            Prec { first: 2, then: 3 },
            Prec { first: 3, then: 4 },
            Prec { first: 2, then: 4 },
        ];
        inst.set_apart(&pairs);
    }
    let text = answer(alloc, &inst, LineKind::Straight, 2, 1000)?;
    assert_eq!(rt;
        text.as_str(),
        "entry 0 used 11|branch Fore {0, 1, 2, 3, 4} 2|"
    );
    Ok(())
}

#[test]
fn refutes_six_tasks(rt: HostRuntime) -> Result<(), Fail> {
    let alloc = rt.alloc();
    let text = answer(alloc, &six(alloc)?, LineKind::Straight, 3, 1000)?;
    assert_eq!(rt;
        text.as_str(),
        "entry 1 used 31|branch Fore {1, 2, 3, 4, 5} 2|branch Fore {0, 1, 2, 3, 4, 5} 3 0|"
    );
    Ok(())
}

// What refutes seven tasks in four stations: the third entry is by Swap.
const SEVEN: &str =
    "entry 3 used 48|branch Fore {2, 3, 4, 5, 6} 2|branch Fore {0, 2, 3, 4, 5, 6} 3 0|\
    swap {1, 2, 3, 4, 5, 6} 3 1 1 0|branch Fore {0, 1, 2, 3, 4, 5, 6} 4 1 2|";

#[test]
fn refutes_seven_tasks_with_a_swap(rt: HostRuntime) -> Result<(), Fail> {
    let alloc = rt.alloc();
    let text = answer(alloc, &seven(alloc)?, LineKind::Straight, 4, 48)?;
    assert_eq!(rt; text.as_str(), SEVEN);
    Ok(())
}

#[test]
fn stops_at_each_budget(rt: HostRuntime) -> Result<(), Fail> {
    let alloc = rt.alloc();
    let inst = seven(alloc)?;
    for left in 0..48 {
        let text = answer(alloc, &inst, LineKind::Straight, 4, left)?;
        let used = format!(in alloc; " used {left}|")?;
        assert!(rt; text.as_str().starts_with("spent "));
        assert!(rt; text.as_str().contains(used.as_str()));
    }
    Ok(())
}

#[test]
fn finds_a_chain_of_1024_tasks(rt: HostRuntime) -> Result<(), Fail> {
    let alloc = rt.alloc();
    let mut arcs = Vec::new(alloc);
    for task in 1..1024 {
        arcs.push(Prec {
            first: task - 1,
            then: task,
        })?;
    }
    let inst = instance(alloc, vec![in alloc; 0; 1024]?, &arcs)?;
    let text = answer(alloc, &inst, LineKind::Straight, 1, 5000)?;
    assert_eq!(rt; text.as_str(), "found 1 used 1024|");
    Ok(())
}

// The best number of stations that a search finds for all tasks in so many stations, where its balance is right.
fn stations_found(
    alloc: Global,
    inst: &Instance,
    kind: LineKind,
    most: u32,
) -> Result<Option<u32>, Fail>
    requires { most ≤ 1024 }
{
    let mut book = book_of(alloc, inst, kind)?;
    let all = inst.all();
    let mut units = Units {
        left: 5000,
        used: 0,
    };
    match decide(alloc, &mut book, inst, kind, CYCLE, &all, most, &mut units) {
        Decided::Found(loads) => {
            let balance = balance_of(alloc, inst, kind, most, &loads)?;
            let right = check_balance(inst, kind, CYCLE, &balance) == BalanceCheck::Right;
            Ok(right.then_some(balance.stations))
        }
        _ => Ok(None),
    }
}

#[test]
fn finds_right_balances(rt: HostRuntime) -> Result<(), Fail> {
    let alloc = rt.alloc();
    let inst = five(alloc)?;
    assert_eq!(rt;
        stations_found(alloc, &inst, LineKind::Straight, 3)?,
        Some(3)
    );
    assert_eq!(rt; stations_found(alloc, &inst, LineKind::U, 3)?, Some(3));
    assert_eq!(rt; stations_found(alloc, &inst, LineKind::U, 2)?, None);
    let arcs = [Prec { first: 0, then: 2 }, Prec { first: 1, then: 2 }];
    let back = instance(alloc, vec![in alloc; 4, 4, 3, 3]?, &arcs)?;
    assert_eq!(rt;
        choose_mode(&back, LineKind::Straight, &back.all()),
        Mode::Back
    );
    assert_eq!(rt;
        stations_found(alloc, &back, LineKind::Straight, 3)?,
        Some(3)
    );
    Ok(())
}

// The answer on a set of these tasks, by an empty book.
fn answer_on(
    alloc: Global,
    inst: &Instance,
    members: &[u32],
    most: u32,
    left: u32,
) -> Result<String, Fail>
    requires members { All (λ i. i < 1024) members.now }
    requires few { most ≤ 1024 }
{
    let set = TaskSet::from_members(members);
    if !set.is_subset(&inst.all()) {
        return Err("no set of tasks")?;
    }
    let mut book = book_of(alloc, inst, LineKind::Straight)?;
    Ok(asked(alloc, &mut book, inst, LineKind::Straight, &set, most, left)?)
}

#[test]
fn finds_small_sets(rt: HostRuntime) -> Result<(), Fail> {
    let alloc = rt.alloc();
    let inst = seven(alloc)?;
    assert_eq!(rt;
        answer_on(alloc, &inst, &[], 0, 0)?.as_str(),
        "found 0 used 0|"
    );
    assert_eq!(rt;
        answer_on(alloc, &inst, &[0], 1, 1)?.as_str(),
        "found 1 used 1|"
    );
    assert_eq!(rt;
        answer_on(alloc, &inst, &[6], 1, 0)?.as_str(),
        "spent 1 used 0|"
    );
    assert_eq!(rt;
        answer_on(alloc, &inst, &[3], 0, 1)?.as_str(),
        "bound used 0|"
    );
    Ok(())
}
