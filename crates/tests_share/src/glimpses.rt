//! Glimpses: what they tell before a turn, of a pass's own entries, of those of another, and after a join.
ghost use Rattle.std.specs.Prelude.{◌≡◌};
ghost use Rattle.line_rules.specs.declared.types.LineKind.TheVariants.{Straight};
ghost use Rattle.book_share.specs.Calls.{IsPassOf};

use crate::books::{alone, free_tasks, publish, shared};
use book_share::{Glimpsed, Pass, Share};
use lemma_core::{Looked, Published};
use line_instance::Instance;
use std::alloc::Global;
use std::sync::Wait;
use std::test::Fail;

// Three free tasks, of which no two fit into one station.
fn three(alloc: Global) -> Result<Instance, Fail> {
    free_tasks(alloc, vec![in alloc; 4, 4, 4]?)
}

// Nothing is known before a turn. After one, a set that no entry has is absent.
fn is_absent_after_a_turn<R: Wait>(rt: &R, share: &Share, pass: &mut Pass, inst: &Instance) -> bool
    requires pass { IsPassOf share.now pass.old }
    requires about { pass.old.view.base.about ≡ record { line = inst.now; kind = Straight; cycle = 7 } }
    ensures pass { IsPassOf share.now pass.new }
    ensures base { pass.new.view.base ≡ pass.old.view.base }
{
    let all = inst.all();
    let before = share.glimpse(pass, &all, 1) == Glimpsed::Unknown;
    let looked = share.look(rt, pass, &all, 1) == Looked::Absent;
    let after = share.glimpse(pass, &all, 1) == Glimpsed::Absent;
    before & looked & after
}

// An entry of its own is found in as many stations and in fewer. In more nothing is known, and another set is absent.
fn finds_its_own<R: Wait>(rt: &R, share: &Share, pass: &mut Pass, inst: &Instance) -> bool
    requires pass { IsPassOf share.now pass.old }
    requires about { pass.old.view.base.about ≡ record { line = inst.now; kind = Straight; cycle = 7 } }
    ensures pass { IsPassOf share.now pass.new }
    ensures base { pass.new.view.base ≡ pass.old.view.base }
{
    let all = inst.all();
    let added = publish(rt, share, pass, inst, all, 2) == Some(Published::Added(0));
    let same = share.glimpse(pass, &all, 2) == Glimpsed::Found(0);
    let fewer = share.glimpse(pass, &all, 1) == Glimpsed::Found(0);
    let more = share.glimpse(pass, &all, 3) == Glimpsed::Unknown;
    let other = share.glimpse(pass, &inst.all().without(0), 1) == Glimpsed::Absent;
    added & same & fewer & more & other
}

// What another pass publishes is absent until a turn of its own, and then found.
fn finds_after_a_turn<R: Wait>(
    rt: &R,
    share: &Share,
    pass: &mut Pass,
    other: &mut Pass,
    inst: &Instance,
) -> bool
    requires passes { IsPassOf share.now pass.old × IsPassOf share.now other.old }
    requires about { other.old.view.base.about ≡ record { line = inst.now; kind = Straight; cycle = 7 } }
    ensures passes { IsPassOf share.now pass.new × IsPassOf share.now other.new }
{
    let two = inst.all().without(0);
    let added = publish(rt, share, other, inst, two, 1) == Some(Published::Added(1));
    let before = share.glimpse(pass, &two, 1) == Glimpsed::Absent;
    let looked = share.look(rt, pass, &inst.all(), 3) == Looked::Absent;
    let after = share.glimpse(pass, &two, 1) == Glimpsed::Found(1);
    added & before & looked & after
}

#[test]
fn glimpses_follow_the_turns(rt: HostRuntime) -> Result<(), Fail> {
    let alloc = rt.alloc();
    let inst = three(alloc)?;
    let (share, mut pass) = shared(alloc, &inst, alone(alloc, &inst)?)?;
    pass.keep_memo(alloc);
    let mut other = share.split(&mut pass);
    let absent = is_absent_after_a_turn(&rt, &share, &mut pass, &inst);
    let own = finds_its_own(&rt, &share, &mut pass, &inst);
    let unkept = share.glimpse(&other, &inst.all(), 1) == Glimpsed::Unknown;
    let met = finds_after_a_turn(&rt, &share, &mut pass, &mut other, &inst);
    share.join(&mut pass, other);
    let joined = share.glimpse(&pass, &inst.all(), 1) == Glimpsed::Unknown;
    if absent & own & unkept & met & joined {
        return Ok(());
    }
    Err("another glimpse")?
}
