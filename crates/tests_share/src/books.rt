//! Lines of free tasks, books of them that are shared, and calls on a share with entries by the bound.
ghost use Rattle.std.specs.Prelude.{◌≡◌, ◌≤◌, List, IfOk, IfSome};
ghost use Rattle.line_rules.specs.Entries.{Follows};
ghost use Rattle.line_rules.specs.declared.types.Entry.{Entry as Lemma};
ghost use Rattle.line_rules.specs.declared.types.LineKind.TheVariants.{Straight};
ghost use Rattle.lemma_core.specs.Books.{IsReserved, MayBeBest};
ghost use Rattle.lemma_core.specs.Own.{IsStatable};
ghost use Rattle.book_share.specs.Calls.{IsPassOf};

use book_share::{Pass, Share, Started, TryPublished};
use lemma_core::{Book, Offered, Published};
use line_instance::{Instance, Made, TaskSet, make};
use line_rules::{
    Balance, BalanceCheck, Entry, LineKind, Places, Seatplace, Side, Why, check_balance,
};
use lower_bounds::exceeds;
use std::alloc::Global;
use std::sync::Wait;
use std::test::Fail;

/// The cycle of all books here.
pub const CYCLE: u64 = 7;

/// Free tasks of these times.
pub fn free_tasks(alloc: Global, times: Vec<u64>) -> Result<Instance, Fail> {
    match make(alloc, times, &[]) {
        Made::Good(inst) => Ok(inst),
        _ => Err("no instance")?,
    }
}

// That the set has no balance in so many stations, where its bound says so.
fn entry_of(inst: &Instance, set: TaskSet, most: u32) -> Option<Entry>
    ensures follows { IfSome result (λ e. (es : List Lemma) → Follows Straight inst.now es e) }
    ensures range { IfSome result IsStatable }
{
    let _truths = set.capacity();
    if !set.is_subset(&inst.all()) || most > 1024 {
        return None;
    }
    if !exceeds(inst, LineKind::Straight, CYCLE, &set, most) {
        return None;
    }
    Some(Entry {
        set,
        most,
        cycle: CYCLE,
        why: Why::Bound,
    })
}

/// Places at these stations.
pub fn balance(alloc: Global, stations: u32, at: &[u32]) -> Result<Balance, Fail> {
    let mut place = Vec::new(alloc);
    for station in at {
        place.push(Seatplace {
            station: *station,
            side: Side::Front,
        })?;
    }
    Ok(Balance {
        stations,
        place: Places::from_vec(place),
    })
}

/// Each task at a station of its own.
pub fn alone(alloc: Global, inst: &Instance) -> Result<Balance, Fail> {
    let mut stations = Vec::new(alloc);
    for task in 0..inst.tasks() {
        stations.push(task + 1)?;
    }
    balance(alloc, inst.tasks(), stations.as_slice())
}

/// The balance, where it may be the best of a book.
pub fn tested(inst: &Instance, best: Balance) -> Result<Balance, Fail>
    ensures { IfOk result (λ b. MayBeBest (record { line = inst.now; kind = Straight; cycle = 7 }) b) }
{
    let few = best.place.len() <= inst.tasks() as usize && best.stations <= inst.tasks();
    if few && check_balance(inst, LineKind::Straight, CYCLE, &best) == BalanceCheck::Right {
        return Ok(best);
    }
    Err("no balance")?
}

// An empty book of the instance with this best balance, and room for offers.
fn book_of(alloc: Global, inst: &Instance, best: Balance) -> Result<Book, Fail>
    ensures about { IfOk result (λ b. b.about ≡ record { line = inst.now; kind = Straight; cycle = 7 }) }
    ensures reserved { IfOk result IsReserved }
{
    let best = tested(inst, best)?;
    let mut book = Book::make(alloc, inst.copy(alloc)?, LineKind::Straight, CYCLE, best);
    book.reserve_offers()?;
    Ok(book)
}

/// A share of such a book, and its first pass.
pub fn shared(alloc: Global, inst: &Instance, best: Balance) -> Result<(Share, Pass), Fail>
    ensures pass { IfOk result (λ r. IsPassOf r.0 r.1) }
    ensures about { IfOk result (λ r. r.1.view.base.about ≡ record { line = inst.now; kind = Straight; cycle = 7 }) }
{
    match Share::start(alloc, book_of(alloc, inst, best)?) {
        Started::Good(share, pass) => Ok((share, pass)),
        Started::NoMemory(_) => Err("out of memory")?,
    }
}

/// Publishes that a set needs more than `most` stations, where its bound says so.
pub fn publish<R: Wait>(
    rt: &R,
    share: &Share,
    pass: &mut Pass,
    inst: &Instance,
    set: TaskSet,
    most: u32,
) -> Option<Published>
    requires pass { IsPassOf share.now pass.old }
    requires about { pass.old.view.base.about ≡ record { line = inst.now; kind = Straight; cycle = 7 } }
    ensures pass { IsPassOf share.now pass.new }
    ensures base { pass.new.view.base ≡ pass.old.view.base }
{
    let step = entry_of(inst, set, most)?;
    Some(share.publish(rt, pass, step))
}

/// The same, which waits for nobody.
pub fn try_publish(
    share: &Share,
    pass: &mut Pass,
    inst: &Instance,
    set: TaskSet,
    most: u32,
) -> Option<TryPublished>
    requires pass { IsPassOf share.now pass.old }
    requires about { pass.old.view.base.about ≡ record { line = inst.now; kind = Straight; cycle = 7 } }
    ensures pass { IsPassOf share.now pass.new }
    ensures base { pass.new.view.base ≡ pass.old.view.base }
{
    let step = entry_of(inst, set, most)?;
    Some(share.try_publish(pass, step))
}

/// Offers a balance that may be the best of the share's book.
pub fn offer<R: Wait>(
    rt: &R,
    share: &Share,
    pass: &mut Pass,
    inst: &Instance,
    best: Balance,
) -> Offered
    requires pass { IsPassOf share.now pass.old }
    requires about { pass.old.view.base.about ≡ record { line = inst.now; kind = Straight; cycle = 7 } }
    requires best { MayBeBest (record { line = inst.now; kind = Straight; cycle = 7 }) best }
    ensures pass { IsPassOf share.now pass.new }
    ensures base { pass.new.view.base ≡ pass.old.view.base }
{
    share.offer(rt, pass, best)
}
