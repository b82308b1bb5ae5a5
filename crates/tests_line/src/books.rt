//! What no clause says: that each call answers where there is memory, three events as worked by hand, and that the
//! index and the search through all entries find the same.
ghost use Rattle.std.specs.Prelude.{◌≡◌, ◌≤◌, List, IfOk, IfSome};
ghost use Rattle.line_instance.specs.Line.{IsTaskSet};
ghost use Rattle.line_rules.specs.Entries.{Follows};
ghost use Rattle.line_rules.specs.declared.types.Entry.{Entry as Lemma};
ghost use Rattle.lemma_core.specs.Own.{IsStatable};
ghost use Rattle.lemma_core.specs.Laws.{AllMayCome};
ghost use Rattle.lemma_core.specs.Books.{IsReserved, MayBeBest};

use lemma_core::{Book, Desk, Event, LogItem, Looked, Offered, Published, Reply, run_events};
use line_instance::{Instance, Made, TaskSet, make};
use line_rules::{
    Balance, BalanceCheck, Entry, LineKind, Places, Seatplace, Side, Why, check_balance,
};
use std::alloc::Global;
use std::test::Fail;

const CYCLE: u64 = 7;

// Five free tasks.
fn five(alloc: Global) -> Result<Instance, Fail> {
    match make(alloc, vec![in alloc; 4, 4, 2, 2, 2]?, &[]) {
        Made::Good(inst) => Ok(inst),
        _ => Err("no instance")?,
    }
}

// That the set has no balance in so many stations, where its times are more than they hold.
fn entry_of(inst: &Instance, set: TaskSet, most: u32, cycle: u64) -> Option<Entry>
    ensures follows { IfSome result (λ e. (kind : _) (es : List Lemma) → Follows kind inst.now es e) }
    ensures range { IfSome result IsStatable }
{
    let all = inst.all();
    let truths = set.capacity();
    if !set.is_subset(&all) {
        return None;
    }
    if set.count() == 0 {
        return None;
    }
    if most > truths {
        return None;
    }
    if cycle == 0 {
        return None;
    }
    if cycle > 1000 {
        return None;
    }
    if inst.sum(&set) <= u64::from(most) * cycle {
        return None;
    }
    Some(Entry {
        set,
        most,
        cycle,
        why: Why::Bound,
    })
}

// Places at these stations.
fn balance(alloc: Global, stations: u32, at: &[u32]) -> Result<Balance, Fail> {
    let mut place = Vec::new(alloc);
    for station in at {
        place.push(Seatplace {
            station: *station,
            side: Side::Front,
        })?;
    }
    Ok(Balance {
        stations,
        place: Places::from_vec(place),
    })
}

// The balance, where it may be the best of a book.
fn tested(inst: &Instance, cycle: u64, best: Balance) -> Result<Balance, Fail>
    ensures { IfOk result (λ b. MayBeBest (record { line = inst.now; kind = LineKind.Straight; cycle = cycle }) b) }
{
    let few = best.place.len() <= inst.tasks() as usize && best.stations <= inst.tasks();
    if few && check_balance(inst, LineKind::Straight, cycle, &best) == BalanceCheck::Right {
        return Ok(best);
    }
    Err("no balance")?
}

// An empty book of the five tasks, whose best balance has five stations, with room for offers.
fn book_of_five(alloc: Global) -> Result<Book, Fail>
    ensures { IfOk result IsReserved }
{
    let inst = five(alloc)?;
    let best = tested(&inst, CYCLE, balance(alloc, 5, &[1, 2, 3, 4, 5])?)?;
    let mut book = Book::make(alloc, inst, LineKind::Straight, CYCLE, best);
    book.reserve_offers()?;
    Ok(book)
}

fn publish(book: &mut Book, set: TaskSet, most: u32, cycle: u64) -> Option<Published>
    ensures { IsReserved book.old → IsReserved book.new }
{
    match entry_of(book.instance(), set, most, cycle) {
        Some(step) => Some(book.publish(step)),
        None => None,
    }
}

fn offer(book: &mut Book, best: Balance) -> Result<Offered, Fail>
    requires { IsReserved book.old }
    ensures { IsReserved book.new }
{
    let few = best.place.len() <= book.instance().tasks() as usize && best.stations <= 1024;
    if few
        && check_balance(book.instance(), book.kind(), book.cycle(), &best) == BalanceCheck::Right
    {
        return Ok(book.offer(best));
    }
    Err("no balance")?
}

fn logged(book: &Book, k: u64) -> Result<LogItem, Fail> {
    if k < book.log_len() {
        return Ok(book.log_at(k));
    }
    Err("no item")?
}

// The book at cycle 8, where the balance may be its best there.
fn reopened(book: Book, best: Balance) -> Option<Book> {
    let (inst, kind) = (book.instance(), book.kind());
    let few = best.place.len() <= inst.tasks() as usize && best.stations <= inst.tasks();
    if !few || best.stations > 1024 || check_balance(inst, kind, 8, &best) != BalanceCheck::Right {
        return None;
    }
    Some(book.reopen(8, best))
}

// A book may go to another thread.
fn sent<T: Send>(value: T) -> T {
    value
}

// What a desk answers, whichever it is.
fn asked<D: Desk>(desk: &mut D, set: &TaskSet, most: u32) -> (Looked, u32) {
    (desk.look(set, most), desk.least())
}

// An entry of all tasks and one station, and looks for one station and for two.
fn three_events(alloc: Global, book: &Book) -> Result<Vec<Event>, Fail>
    ensures { IfOk result (λ v. AllMayCome book.now.about book.now.state v.items) }
{
    let all = book.instance().all();
    let Some(step) = entry_of(book.instance(), all, 1, CYCLE) else {
        return Err("no entry")?;
    };
    Ok(vec![in alloc;
        Event::Publish(step),
        Event::Look { set: all, most: 1 },
        Event::Look { set: all, most: 2 },
    ]?)
}

#[test]
fn does_three_events(rt: HostRuntime) -> Result<(), Fail> {
    let mut book = book_of_five(rt.alloc())?;
    let events = three_events(rt.alloc(), &book)?;
    let mut replies = Vec::new(rt.alloc());
    run_events(&mut book, events, &mut replies)?;
    let want = [
        Reply::Added(0),
        Reply::Looked(Looked::Found { id: 0, most: 1 }),
        Reply::Looked(Looked::Absent),
    ];
    assert_eq!(rt; replies.as_slice(), want.as_slice());
    Ok(())
}

// The book of the five tasks, and what it answers to three entries of all tasks and one station, at cycles 7, 6 and 8.
fn book_of_two_entries(alloc: Global) -> Result<(Book, [Option<Published>; 3]), Fail> {
    let mut book = book_of_five(alloc)?;
    let all = book.instance().all();
    let first = publish(&mut book, all, 1, CYCLE);
    let second = publish(&mut book, all, 1, 6);
    let third = publish(&mut book, all, 1, 8);
    Ok((book, [first, second, third]))
}

#[test]
fn publishes_what_is_new(rt: HostRuntime) -> Result<(), Fail> {
    let (book, answers) = book_of_two_entries(rt.alloc())?;
    drop(book);
    let want = [
        Some(Published::Added(0)),
        Some(Published::Known(0)),
        Some(Published::Added(1)),
    ];
    assert_eq!(rt; answers.as_slice(), want.as_slice());
    Ok(())
}

#[test]
fn finds_the_last_entry_that_answers(rt: HostRuntime) -> Result<(), Fail> {
    let (mut book, _answers) = book_of_two_entries(rt.alloc())?;
    let all = book.instance().all();
    let want = (Looked::Found { id: 1, most: 1 }, 5);
    assert_eq!(rt; asked(&mut book, &all, 1), want);
    Ok(())
}

#[test]
fn finds_no_entry_for_more_stations(rt: HostRuntime) -> Result<(), Fail> {
    let (mut book, _answers) = book_of_two_entries(rt.alloc())?;
    let all = book.instance().all();
    assert_eq!(rt; asked(&mut book, &all, 2), (Looked::Absent, 5));
    Ok(())
}

#[test]
fn keeps_the_entries(rt: HostRuntime) -> Result<(), Fail> {
    let (book, _answers) = book_of_two_entries(rt.alloc())?;
    if book.len() != 2 || book.entries().len() != 2 {
        return Err("other entries")?;
    }
    assert_eq!(rt; (book.entry(1).cycle, book.entries().at(0).cycle), (8, 7));
    Ok(())
}

#[test]
fn logs_what_was_known(rt: HostRuntime) -> Result<(), Fail> {
    let (book, _answers) = book_of_two_entries(rt.alloc())?;
    assert_eq!(rt; logged(&book, 1)?, LogItem::Known { id: 0, most: 1 });
    Ok(())
}

// The book of the five tasks, and what it answers to balances in three stations and in four.
fn book_of_three_stations(alloc: Global) -> Result<(Book, (Offered, Offered)), Fail> {
    let mut book = book_of_five(alloc)?;
    let first = offer(&mut book, balance(alloc, 3, &[1, 2, 1, 2, 3])?)?;
    let second = offer(&mut book, balance(alloc, 4, &[1, 2, 3, 3, 4])?)?;
    Ok((book, (first, second)))
}

#[test]
fn takes_the_better_balance(rt: HostRuntime) -> Result<(), Fail> {
    let (book, answers) = book_of_three_stations(rt.alloc())?;
    drop(book);
    assert_eq!(rt; answers, (Offered::Better, Offered::NotBetter));
    Ok(())
}

#[test]
fn keeps_the_better_balance(rt: HostRuntime) -> Result<(), Fail> {
    let (book, _answers) = book_of_three_stations(rt.alloc())?;
    assert_eq!(rt; (book.least(), book.opening(), book.log_len()), (3, 5, 1));
    Ok(())
}

#[test]
fn logs_the_better_balance(rt: HostRuntime) -> Result<(), Fail> {
    let (book, _answers) = book_of_three_stations(rt.alloc())?;
    assert_eq!(rt; logged(&book, 0)?, LogItem::Offered { stations: 3 });
    Ok(())
}

// A book with an entry of all tasks, opened again at cycle 8 with a balance in two stations.
fn book_opened_again(alloc: Global) -> Result<Book, Fail> {
    let (book, _answers) = book_of_two_entries(alloc)?;
    let two = balance(alloc, 2, &[1, 2, 1, 2, 1])?;
    let Some(book) = reopened(sent(book), two) else {
        return Err("no balance")?;
    };
    Ok(book)
}

#[test]
fn opens_again_with_its_entries(rt: HostRuntime) -> Result<(), Fail> {
    let book = book_opened_again(rt.alloc())?;
    assert_eq!(rt; (book.len(), book.log_len(), book.opening_len()), (2, 0, 2));
    Ok(())
}

#[test]
fn opens_again_at_another_cycle(rt: HostRuntime) -> Result<(), Fail> {
    let book = book_opened_again(rt.alloc())?;
    assert_eq!(rt;
        (book.opening(), book.cycle(), book.best().stations),
        (2, 8, 2)
    );
    Ok(())
}

#[test]
fn gives_its_parts(rt: HostRuntime) -> Result<(), Fail> {
    let (entries, best) = book_opened_again(rt.alloc())?.into_parts();
    assert_eq!(rt; (entries.len(), best.place.len()), (2, 5));
    Ok(())
}

// The next of a row of numbers that look random.
fn next(state: u64) -> u64 {
    state
        .wrapping_mul(6_364_136_223_846_793_005)
        .wrapping_add(1_442_695_040_888_963_407)
}

// How many of the looks for the set, by up to three stations, find something; none where the index and the search
// don't agree.
fn found_alike(book: &Book, set: &TaskSet) -> Option<u32> {
    let mut found = 0u32;
    for most in 0..4 {
        let look = book.look(set, most);
        if look != book.look_plain(set, most) {
            return None;
        }
        if look != Looked::Absent {
            found = found.wrapping_add(1);
        }
    }
    Some(found)
}

// Publishes an entry of a set of two of the five tasks, where its number gives one, and counts what is found of it.
fn found_of(book: &mut Book, state: u64) -> Option<u32> {
    let set = TaskSet::from_members(&[(state >> 33) as u32 % 5, (state >> 40) as u32 % 5]);
    let (most, cycle) = ((state >> 50) as u32 % 3, 1 + (state >> 55) % 12);
    if publish(book, set, most, cycle).is_none() {
        return Some(0);
    }
    found_alike(book, &set)
}

#[test]
fn finds_by_the_index_what_a_search_finds(rt: HostRuntime) -> Result<(), Fail> {
    let mut book = book_of_five(rt.alloc())?;
    let mut state = 1;
    let mut found = 0u32;
    for _ in 0..400 {
        state = next(state);
        found = found.wrapping_add(found_of(&mut book, state).ok_or("not alike")?);
    }
    assert!(rt; book.len() > 10 && found > 100);
    Ok(())
}

// Publishes the entries of a hundred sets, so that the tables of the index grow, and tells whether each set is found
// alike.
#[test]
fn finds_alike_after_the_tables_grew(rt: HostRuntime) -> Result<(), Fail> {
    let mut book = book_of_five(rt.alloc())?;
    let mut state = 1;
    for k in 0..100 {
        state = next(state);
        let set = TaskSet::from_members(&[
            k % 5,
            (state >> 40) as u32 % 5,
            (state >> 50) as u32 % 5,
        ]);
        let _added = publish(&mut book, set, 0, 1 + u64::from(k));
        let _found = found_alike(&book, &set).ok_or("not alike")?;
    }
    assert!(rt; book.len() > 64);
    Ok(())
}
