//! Searches that ask the pairs, as they were worked out outside: their answers, units and entries in order, and those of
//! the same searches without a table. The tasks of a set are counted from 0.
ghost use Rattle.std.specs.Prelude.{◌≤◌};
ghost use Rattle.line_rules.specs.Ranges.{IsCycle};

use super::{answer_text, book_at, entries_text, instance};
use line_instance::{Instance, Prec};
use line_rules::LineKind;
use station_search::{Units, decide_in, table_for};
use std::alloc::Global;
use std::test::Fail;

const STRAIGHT: LineKind = LineKind::Straight;

const U: LineKind = LineKind::U;

/// The answer on all tasks of an instance, by an empty book, with a table of pairs or without one.
fn answer(
    alloc: Global,
    inst: &Instance,
    kind: LineKind,
    cycle: u64,
    most: u32,
    left: u64,
    is_paired: bool,
) -> Result<String, Fail>
    requires cycle { IsCycle cycle }
    requires few { most ≤ 1024 }
{
    let mut book = book_at(alloc, inst, kind, cycle)?;
    let mut pairs = table_for(alloc, inst, kind, cycle, is_paired)?;
    let all = inst.all();
    let mut units = Units { left, used: 0 };
    let decided = decide_in(
        alloc, &mut book, inst, kind, cycle, &all, most, None, &mut pairs, &mut units,
    );
    let answer = answer_text(alloc, &decided)?;
    let entries = entries_text(alloc, &book)?;
    let used = units.used;
    Ok(format!(in alloc; "{answer} used {used}|{entries}")?)
}

/// Whether a search at cycle 20 with pairs answers so.
fn is_so(
    alloc: Global,
    inst: &Instance,
    kind: LineKind,
    most: u32,
    left: u64,
    text: &str,
) -> Result<bool, Fail>
    requires { most ≤ 1024 }
{
    let answer = answer(alloc, inst, kind, 20, most, left, true)?;
    Ok(answer.as_str() == text)
}

/// Whether a search at cycle 20 without a table answers so, to begin with.
fn is_plain(alloc: Global, inst: &Instance, most: u32, left: u64, text: &str) -> Result<bool, Fail>
    requires { most ≤ 1024 }
{
    let answer = answer(alloc, inst, STRAIGHT, 20, most, left, false)?;
    Ok(answer.as_str().starts_with(text))
}

/// A line with arcs between tasks that are counted from 1.
fn line(alloc: Global, times: &[u64], arcs: &[(u32, u32)]) -> Result<Instance, Fail> {
    let mut precs = Vec::new(alloc);
    for (first, then) in arcs {
        precs.push(Prec {
            first: first.saturating_sub(1),
            then: then.saturating_sub(1),
        })?;
    }
    instance(alloc, Vec::from_slice(alloc, times)?, &precs)
}

fn h6(alloc: Global) -> Result<Instance, Fail> {
    line(
        alloc,
        &[11, 3, 9, 2, 11, 11],
        &[(2, 3), (3, 4), (4, 5), (4, 6)],
    )
}

#[test]
fn a_question_is_refuted_with_its_own_set(rt: HostRuntime) -> Result<(), Fail> {
    let alloc = rt.alloc();
    let w4 = line(alloc, &[13, 8, 8, 8], &[])?;
    let text = "entry 0 used 0|pairs {0, 1, 2, 3} 2 {0}|";
    let paired = is_so(alloc, &w4, STRAIGHT, 2, 0, text)? & is_so(alloc, &w4, U, 2, 0, text)?;
    // Without a table each load is listed: three tasks of 8 give six, and 13 is the seventh.
    let text = "entry 0 used 7|branch Fore {0, 1, 2, 3} 2|";
    let plain = is_plain(alloc, &w4, 2, 8, text)? & is_plain(alloc, &w4, 2, 6, "spent 1 used 6|")?;
    let l4 = line(alloc, &[7, 9, 12, 12], &[(3, 4)])?;
    let text = "entry 0 used 0|pairs {0, 1, 2, 3} 2 {1, 2, 3}|";
    assert!(rt; paired & plain & is_so(alloc, &l4, STRAIGHT, 2, 0, text)?);
    Ok(())
}

#[test]
fn what_lies_between_counts_on_a_straight_line(rt: HostRuntime) -> Result<(), Fail> {
    let alloc = rt.alloc();
    let b4 = line(alloc, &[8, 5, 8, 13], &[(1, 2), (2, 3)])?;
    let text = "entry 0 used 0|pairs {0, 1, 2, 3} 2 {0, 2, 3}|";
    let straight = is_so(alloc, &b4, STRAIGHT, 2, 0, text)?;
    let u = answer(alloc, &b4, U, 20, 2, 100, true)?;
    assert!(rt; straight & u.as_str().starts_with("found 2 used "));
    Ok(())
}

#[test]
fn a_rest_is_refuted_by_its_hull(rt: HostRuntime) -> Result<(), Fail> {
    let alloc = rt.alloc();
    let h6 = h6(alloc)?;
    let text = "entry 1 used 5|pairs {2, 3, 4, 5} 2 {2, 4, 5}|branch Fore {0, 1, 2, 3, 4, 5} 3 0|";
    let whole = is_so(alloc, &h6, STRAIGHT, 3, 5, text)?;
    let spent = is_so(alloc, &h6, STRAIGHT, 3, 4, "spent 1 used 4|")?;
    let plain = is_plain(alloc, &h6, 3, 7, "entry ")? & is_plain(alloc, &h6, 3, 6, "spent ")?;
    assert!(rt; whole & spent & plain);
    Ok(())
}

#[test]
fn a_stop_keeps_what_pairs_refuted(rt: HostRuntime) -> Result<(), Fail> {
    let alloc = rt.alloc();
    let arcs = [(2, 3), (3, 4), (2, 6), (4, 6), (4, 7), (5, 7)];
    let n7 = line(alloc, &[9, 10, 3, 6, 5, 13, 12], &arcs)?;
    let text = "spent 2 used 13|pairs {0, 5, 6} 2 {0, 5, 6}|";
    let spent = is_so(alloc, &n7, STRAIGHT, 3, 13, text)?;
    let text = "entry 2 used 14|pairs {0, 5, 6} 2 {0, 5, 6}|branch Fore {2, 3, 4, 5, 6} 2|\
        branch Fore {0, 1, 2, 3, 4, 5, 6} 3 0 0 1|";
    assert!(rt; spent & is_so(alloc, &n7, STRAIGHT, 3, 14, text)?);
    Ok(())
}

#[test]
fn the_pairs_are_asked_before_a_swap(rt: HostRuntime) -> Result<(), Fail> {
    let alloc = rt.alloc();
    let arcs = [(1, 4), (4, 5), (3, 6), (4, 7), (5, 7)];
    let n8 = line(alloc, &[2, 9, 2, 5, 9, 9, 12, 9], &arcs)?;
    let text = "entry 8 used 40|branch Fore {0, 1, 3, 4, 6} 2|swap {0, 3, 4, 5, 6} 2 0 5 1|\
        swap {0, 3, 4, 6, 7} 2 0 7 1|pairs {1, 4, 5, 6} 2 {6}|pairs {1, 4, 6, 7} 2 {6}|\
        pairs {1, 5, 6, 7} 2 {6}|branch Fore {2, 3, 4, 5, 6} 2|pairs {4, 5, 6, 7} 2 {6}|\
        branch Fore {0, 1, 2, 3, 4, 5, 6, 7} 3 0 1 2 3 4 5 6 7|";
    assert!(rt; is_so(alloc, &n8, STRAIGHT, 3, 40, text)?);
    Ok(())
}

#[test]
fn pairs_on_a_u_line(rt: HostRuntime) -> Result<(), Fail> {
    let alloc = rt.alloc();
    let arcs = [(1, 3), (3, 4), (2, 5), (4, 5), (5, 6)];
    let u7 = line(alloc, &[11, 7, 8, 9, 12, 12, 1], &arcs)?;
    let text = "entry 2 used 23|branch Both {0, 2, 3, 4} 2|pairs {3, 4, 5} 2 {3, 4, 5}|\
        branch Both {0, 1, 2, 3, 4, 5, 6} 3 0 0 1 1|";
    let whole = is_so(alloc, &u7, U, 3, 23, text)?;
    let spent = answer(alloc, &u7, U, 20, 3, 22, true)?;
    assert!(rt; whole & spent.as_str().starts_with("spent "));
    Ok(())
}

#[test]
fn tasks_that_are_apart(rt: HostRuntime) -> Result<(), Fail> {
    let alloc = rt.alloc();
    let mut t3 = line(alloc, &[1, 1, 1], &[])?;
    if t3.tasks() != 3 {
        return Err("other tasks")?;
    }
    let pairs = [(0, 1), (0, 2), (1, 2)].map(|(first, then)| Prec { first, then });
    t3.set_apart(&pairs);
    let two = answer(alloc, &t3, STRAIGHT, 2, 2, 0, true)?;
    // A question of one station isn't asked.
    let one = answer(alloc, &t3, STRAIGHT, 3, 1, 0, true)?;
    assert!(rt;
        (two.as_str() == "entry 0 used 0|pairs {0, 1, 2} 2 {0, 1, 2}|")
            & (one.as_str() == "spent 1 used 0|")
    );
    Ok(())
}
