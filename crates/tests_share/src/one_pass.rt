//! One pass as worked by hand, calls that find the turn free, and an offer that another pass hears of.
ghost use Rattle.std.specs.Prelude.{◌≡◌};
ghost use Rattle.line_rules.specs.declared.types.LineKind.TheVariants.{Straight};
ghost use Rattle.lemma_core.specs.Books.{MayBeBest};
ghost use Rattle.book_share.specs.Calls.{IsPassOf};

use crate::books::{balance, free_tasks, offer, publish, shared, tested, try_publish};
use book_share::{Pass, Share, TryLooked, TryPublished};
use lemma_core::{Book, LogItem, Looked, Offered, Published};
use line_instance::Instance;
use line_rules::Balance;
use std::alloc::Global;
use std::sync::Wait;
use std::test::Fail;

// Five free tasks of 4, 4, 2, 2 and 2.
fn five(alloc: Global) -> Result<Instance, Fail> {
    free_tasks(alloc, vec![in alloc; 4, 4, 2, 2, 2]?)
}

// In two stations with a third one for the last task.
fn in_three(alloc: Global) -> Result<Balance, Fail> {
    balance(alloc, 3, &[1, 2, 1, 2, 3])
}

// All tasks are published as one that needs more than one station, twice, and looked up in one and in two.
fn publishes_and_looks<R: Wait>(rt: &R, share: &Share, pass: &mut Pass, inst: &Instance) -> bool
    requires pass { IsPassOf share.now pass.old }
    requires about { pass.old.view.base.about ≡ record { line = inst.now; kind = Straight; cycle = 7 } }
    ensures pass { IsPassOf share.now pass.new }
    ensures base { pass.new.view.base ≡ pass.old.view.base }
{
    let all = inst.all();
    let first = publish(rt, share, pass, inst, all, 1) == Some(Published::Added(0));
    let found = share.look(rt, pass, &all, 1) == Looked::Found { id: 0, most: 1 };
    let absent = share.look(rt, pass, &all, 2) == Looked::Absent;
    let again = publish(rt, share, pass, inst, all, 1) == Some(Published::Known(0));
    first & found & absent & again
}

// Whether a book has one entry and these two events.
fn has_added_and_known(book: &Book) -> bool {
    if book.len() != 1 || book.log_len() != 2 {
        return false;
    }
    let known = LogItem::Known { id: 0, most: 1 };
    (book.log_at(0) == LogItem::Added(0)) & (book.log_at(1) == known)
}

// Publishes and looks, is split and joined, and offers a balance that is no better.
fn does_each<R: Wait>(rt: &R, share: Share, mut pass: Pass, inst: &Instance, best: Balance) -> bool
    requires pass { IsPassOf share pass }
    requires about { pass.view.base.about ≡ record { line = inst.now; kind = Straight; cycle = 7 } }
    requires best { MayBeBest (record { line = inst.now; kind = Straight; cycle = 7 }) best }
{
    let published = publishes_and_looks(rt, &share, &mut pass, inst);
    let other = share.split(&mut pass);
    share.join(&mut pass, other);
    let offered = offer(rt, &share, &mut pass, inst, best) == Offered::NotBetter;
    let least = share.least(&mut pass) == 3;
    let events = share.glance(&mut pass) == 2;
    let kept = has_added_and_known(&share.close(rt, pass));
    published & offered & least & events & kept
}

#[test]
fn a_pass_works_alone(rt: HostRuntime) -> Result<(), Fail> {
    let alloc = rt.alloc();
    let inst = five(alloc)?;
    let three = tested(&inst, in_three(alloc)?)?;
    let (share, pass) = shared(alloc, &inst, in_three(alloc)?)?;
    if does_each(&rt, share, pass, &inst, three) {
        return Ok(());
    }
    Err("another answer")?
}

#[test]
fn a_free_turn_is_had(rt: HostRuntime) -> Result<(), Fail> {
    let alloc = rt.alloc();
    let inst = five(alloc)?;
    let (share, mut pass) = shared(alloc, &inst, in_three(alloc)?)?;
    let all = inst.all();
    let first = try_publish(&share, &mut pass, &inst, all, 1);
    let added = matches!(first, Some(TryPublished::Added(0)));
    let found = share.try_look(&mut pass, &all, 1) == TryLooked::Found { id: 0, most: 1 };
    let again = try_publish(&share, &mut pass, &inst, all, 1);
    let known = matches!(again, Some(TryPublished::Known(0)));
    if added & found & known {
        return Ok(());
    }
    Err("another answer")?
}

// Offers a better balance, of which another pass hears.
fn lowers<R: Wait>(rt: &R, share: Share, mut pass: Pass, inst: &Instance, best: Balance) -> bool
    requires pass { IsPassOf share pass }
    requires about { pass.view.base.about ≡ record { line = inst.now; kind = Straight; cycle = 7 } }
    requires best { MayBeBest (record { line = inst.now; kind = Straight; cycle = 7 }) best }
{
    let mut other = share.split(&mut pass);
    let before = share.least(&mut other) == 5;
    let better = offer(rt, &share, &mut pass, inst, best) == Offered::Better;
    let after = share.least(&mut other) == 3;
    let events = share.glance(&mut other) == 1;
    share.join(&mut other, pass);
    let kept = share.close(rt, other).least() == 3;
    before & better & after & events & kept
}

#[test]
fn a_better_offer_lowers_the_least(rt: HostRuntime) -> Result<(), Fail> {
    let alloc = rt.alloc();
    let inst = five(alloc)?;
    let best = tested(&inst, in_three(alloc)?)?;
    let alone = balance(alloc, 5, &[1, 2, 3, 4, 5])?;
    let (share, pass) = shared(alloc, &inst, alone)?;
    if lowers(&rt, share, pass, &inst, best) {
        return Ok(());
    }
    Err("another answer")?
}
