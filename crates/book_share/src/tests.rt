//! A turn that another pass holds, which only this crate can hold. The other calls are tested in a crate of tests.
ghost use Rattle.std.specs.Prelude.{◌≡◌, List, IfOk};
ghost use Rattle.line_rules.specs.Entries.{Follows};
ghost use Rattle.line_rules.specs.declared.types.Entry.{Entry as Lemma};
ghost use Rattle.line_rules.specs.declared.types.LineKind.TheVariants.{Straight};
ghost use Rattle.lemma_core.specs.Books.{IsReserved, MayBeBest};
ghost use Rattle.lemma_core.specs.Own.{IsStatable};
ghost use Rattle.book_share.specs.Calls.{IsPassOf};

use crate::{Pass, Share, Started, TryLooked, TryPublished, turns};
use lemma_core::Book;
use line_instance::{Instance, Made, make};
use line_rules::{
    Balance, BalanceCheck, Entry, LineKind, Places, Seatplace, Side, Why, check_balance,
};
use std::alloc::Global;
use std::test::Fail;

const CYCLE: u64 = 7;

// That all tasks have no balance in no station.
fn in_none(inst: &Instance) -> Entry
    ensures follows { (es : List Lemma) → Follows Straight inst.now es result }
    ensures range { IsStatable result }
{
    let _tasks = inst.tasks();
    Entry {
        set: inst.all(),
        most: 0,
        cycle: CYCLE,
        why: Why::Bound,
    }
}

// The balance of one task, where it may be the best of a book.
fn in_one(alloc: Global, inst: &Instance) -> Result<Balance, Fail>
    ensures { IfOk result (λ b. MayBeBest (record { line = inst.now; kind = Straight; cycle = 7 }) b) }
{
    let mut place = Vec::new(alloc);
    place.push(Seatplace {
        station: 1,
        side: Side::Front,
    })?;
    let best = Balance {
        stations: 1,
        place: Places::from_vec(place),
    };
    let few = best.place.len() <= inst.tasks() as usize && best.stations <= inst.tasks();
    if few && check_balance(inst, LineKind::Straight, CYCLE, &best) == BalanceCheck::Right {
        return Ok(best);
    }
    Err("no balance")?
}

// An empty book of the instance, with room for offers.
fn book_of(alloc: Global, inst: &Instance) -> Result<Book, Fail>
    ensures about { IfOk result (λ b. b.about ≡ record { line = inst.now; kind = Straight; cycle = 7 }) }
    ensures reserved { IfOk result IsReserved }
{
    let best = in_one(alloc, inst)?;
    let mut book = Book::make(alloc, inst.copy(alloc)?, LineKind::Straight, CYCLE, best);
    book.reserve_offers()?;
    Ok(book)
}

// A share of such a book, and its first pass.
fn shared(alloc: Global, inst: &Instance) -> Result<(Share, Pass), Fail>
    ensures pass { IfOk result (λ r. IsPassOf r.0 r.1) }
    ensures about { IfOk result (λ r. r.1.view.base.about ≡ record { line = inst.now; kind = Straight; cycle = 7 }) }
{
    match Share::start(alloc, book_of(alloc, inst)?) {
        Started::Good(share, pass) => Ok((share, pass)),
        Started::NoMemory(_) => Err("out of memory")?,
    }
}

// Publishes that all tasks have no balance in no station, and waits for nobody.
fn try_publish(share: &Share, pass: &mut Pass, inst: &Instance) -> TryPublished
    requires pass { IsPassOf share.now pass.old }
    requires about { pass.old.view.base.about ≡ record { line = inst.now; kind = Straight; cycle = 7 } }
    ensures pass { IsPassOf share.now pass.new }
    ensures base { pass.new.view.base ≡ pass.old.view.base }
{
    share.try_publish(pass, in_none(inst))
}

// While the second pass has the turn, the first one's look and publish are busy, and the entry comes back.
fn meets_a_held_turn(share: &Share, pass: &mut Pass, other: &mut Pass, inst: &Instance) -> bool
    requires passes { IsPassOf share.now pass.old × IsPassOf share.now other.old }
    requires about { pass.old.view.base.about ≡ record { line = inst.now; kind = Straight; cycle = 7 } }
    ensures passes { IsPassOf share.now pass.new × IsPassOf share.now other.new }
    ensures base { pass.new.view.base ≡ pass.old.view.base }
{
    let all = inst.all();
    let Some(book) = turns::take(&share.table, &mut other.seat) else {
        return false;
    };
    let busy = share.try_look(pass, &all, 0) == TryLooked::Busy;
    let back = match try_publish(share, pass, inst) {
        TryPublished::Busy(step) => (step.set == all) & (step.most == 0),
        _ => false,
    };
    turns::look(
        &share.table,
        &mut other.seat,
        book,
        &mut other.memo,
        &all,
        0,
    );
    busy & back
}

#[test]
fn a_held_turn_is_busy(rt: HostRuntime) -> Result<(), Fail> {
    let alloc = rt.alloc();
    let Made::Good(inst) = make(alloc, vec![in alloc; 1]?, &[]) else {
        return Err("no instance")?;
    };
    let (share, mut pass) = shared(alloc, &inst)?;
    let mut other = share.split(&mut pass);
    let added = matches!(
        try_publish(&share, &mut pass, &inst),
        TryPublished::Added(0)
    );
    let met = meets_a_held_turn(&share, &mut pass, &mut other, &inst);
    let found = share.try_look(&mut pass, &inst.all(), 0) == TryLooked::Found { id: 0, most: 0 };
    let known = matches!(
        try_publish(&share, &mut pass, &inst),
        TryPublished::Known(0)
    );
    if added & met & found & known {
        return Ok(());
    }
    Err("another answer")?
}
