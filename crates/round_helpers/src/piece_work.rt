//! What one helper does: it takes one piece after the other, settles its job, and asks the whole question at last.
//!
//! A piece is a job of the question: the rest of a load, for one station less. A balance of it is offered with the job's
//! own load. Where all deques are empty the helper's last question follows, which is that of the round: there it joins
//! those that are still at their pieces. It ends where it knows the answer, which it then calls, where it is told so, or
//! where units or memory end. A piece costs a unit, so does the last question, and so does each load that is listed.
ghost use Rattle.std.specs.Prelude.{◌≡◌, ◌+◌, ◌-◌, ◌^◌, ◌<◌, ◌≤◌, ℕ, true, false, IfSome};
ghost use Rattle.line_rules.specs.Balance.{all_tasks};
ghost use Rattle.line_rules.specs.Bounds.{bound};
ghost use Rattle.line_rules.specs.Ranges.{IsCycle};
ghost use Rattle.lemma_core.specs.Desks.{Keeps, Waits};
ghost use Rattle.station_search.specs.Decide.{IsFor, IsPairing};
ghost use Rattle.steal_pool.specs.Hands.{IsHandOf};
ghost use Rattle.round_helpers.specs.Jobs.{AreJobs};
ghost use Rattle.round_helpers.specs.inner.Works.{Works, IsEnd};
ghost use Rattle.round_helpers.specs.declared.question_work.End.TheVariants.{Answered};

use crate::job_list::Job;
use crate::question_work::{End, Question, Shared, offer_job, offer_loads, settle, test_end};
use line_instance::Instance;
use station_search::{PairTable, Units, table_for};
use std::alloc::Global;
use std::sync::Wait;
use steal_pool::{Hand, Piece, Pool, Took};

// Takes a unit for a piece or for the last question, where one is left.
fn pay(units: &mut Units) -> bool
    requires { units.old.used + units.old.left < 2 ^ 64 }
    ensures units { units.new.used + units.new.left ≡ units.old.used + units.old.left }
    ensures paid { result ≡ true → units.new.used ≡ units.old.used + 1 }
    ensures spent { result ≡ false → (units.new ≡ units.old) × (units.old.left ≡ 0) }
{
    if units.left == 0 {
        return false;
    }
    units.left -= 1;
    units.used += 1;
    true
}

// The end of a helper that knows the answer, which it calls.
fn answered<D: Shared>(desk: &mut D) -> End
    ensures waits { Waits (D.desk desk.old) (D.desk desk.new) }
    ensures end { result ≡ Answered }
{
    desk.call_end();
    End::Answered
}

// Does a piece: pays for it, settles its job, and offers what is found. Some answer ends the helper's work.
fn do_piece<R: Wait, D: Shared>(
    rt: &R,
    alloc: Global,
    desk: &mut D,
    inst: &Instance,
    question: Question,
    jobs: &[Job],
    piece: &Piece,
    pairs: &mut Option<PairTable>,
    units: &mut Units,
) -> Option<End>
    requires desk { IsFor (D.desk desk.old) inst.now question.kind question.cycle }
    requires roomy { (D.desk desk.old).roomy ≡ true }
    requires cycle { IsCycle question.cycle }
    requires jobs { AreJobs question.kind inst.now question.cycle question.most jobs.now }
    requires some { 1 ≤ question.most }
    requires few { question.most ≤ 1024 }
    requires pairs { IfSome pairs.old (IsPairing inst.now question.kind question.cycle) }
    requires units { units.old.used + units.old.left < 2 ^ 64 }
    ensures keeps { Keeps (D.desk desk.old) (D.desk desk.new) }
    ensures pairs { pairs.new ≡ pairs.old }
    ensures units { units.new.used + units.new.left ≡ units.old.used + units.old.left }
    ensures spent { units.old.used ≤ units.new.used }
    ensures works { let used = units.new.used - units.old.used in
        Works inst.now question.cycle (D.desk desk.old) (D.desk desk.new) used used }
    ensures ends { IfSome result (IsEnd (D.desk desk.new) inst.now question units.new.left) }
{
    if !pay(units) {
        return Some(End::Spent);
    }
    // The number of a piece is its job's.
    let k = piece.number as usize;
    if k >= jobs.len() {
        return None;
    }
    let job = &jobs[k];
    let most = question.most - 1;
    match settle(
        rt, alloc, desk, inst, question, &job.set, most, pairs, units,
    ) {
        Err(end) => Some(end),
        Ok(None) => None,
        Ok(Some(loads)) => match offer_job(alloc, desk, inst, question, job, loads) {
            Ok(()) => Some(answered(desk)),
            Err(_) => Some(End::NoMemory),
        },
    }
}

// The last question of a helper, which is that of the round; the bound leaves it open.
fn ask_last<R: Wait, D: Shared>(
    rt: &R,
    alloc: Global,
    desk: &mut D,
    inst: &Instance,
    question: Question,
    pairs: &mut Option<PairTable>,
    units: &mut Units,
) -> End
    requires desk { IsFor (D.desk desk.old) inst.now question.kind question.cycle }
    requires roomy { (D.desk desk.old).roomy ≡ true }
    requires cycle { IsCycle question.cycle }
    requires bounded { bound question.kind inst.now question.cycle (all_tasks inst.now) ≤ question.most }
    requires few { question.most ≤ 1024 }
    requires pairs { IfSome pairs.old (IsPairing inst.now question.kind question.cycle) }
    requires units { units.old.used + units.old.left < 2 ^ 64 }
    ensures keeps { Keeps (D.desk desk.old) (D.desk desk.new) }
    ensures units { units.new.used + units.new.left ≡ units.old.used + units.old.left }
    ensures spent { units.old.used ≤ units.new.used }
    ensures works { let used = units.new.used - units.old.used in
        Works inst.now question.cycle (D.desk desk.old) (D.desk desk.new) used used }
    ensures ends { IsEnd (D.desk desk.new) inst.now question units.new.left result }
{
    if !pay(units) {
        return End::Spent;
    }
    let all = inst.all();
    match settle(
        rt,
        alloc,
        desk,
        inst,
        question,
        &all,
        question.most,
        pairs,
        units,
    ) {
        Err(end) => end,
        Ok(None) => answered(desk),
        Ok(Some(loads)) => match offer_loads(alloc, desk, inst, question, &loads) {
            Ok(()) => answered(desk),
            Err(_) => End::NoMemory,
        },
    }
}

// The end of the helper's work, where it is told of the end and the test agrees.
fn told_end<D: Shared>(desk: &mut D, inst: &Instance, question: Question) -> Option<End>
    requires desk { IsFor (D.desk desk.old) inst.now question.kind question.cycle }
    ensures keeps { Keeps (D.desk desk.old) (D.desk desk.new) }
    ensures works { Works inst.now question.cycle (D.desk desk.old) (D.desk desk.new) 0 0 }
    ensures ends { IfSome result (λ end. (left : ℕ) → IsEnd (D.desk desk.new) inst.now question left end) }
{
    if !desk.is_ended() {
        return None;
    }
    test_end(desk, inst, question)
}

/// Takes and does pieces, until all deques are empty, and then asks the last question. It ends before where it knows
/// the answer, is told so, or units or memory end. Where the question asks the pairs, it does so by a table of its own.
pub fn do_pieces<R: Wait, D: Shared>(
    rt: &R,
    alloc: Global,
    desk: &mut D,
    inst: &Instance,
    question: Question,
    jobs: &[Job],
    pool: &Pool,
    hand: &mut Hand,
    units: &mut Units,
) -> End
    requires desk { IsFor (D.desk desk.old) inst.now question.kind question.cycle }
    requires roomy { (D.desk desk.old).roomy ≡ true }
    requires cycle { IsCycle question.cycle }
    requires jobs { AreJobs question.kind inst.now question.cycle question.most jobs.now }
    requires hand { IsHandOf pool.now hand.old }
    requires bounded { bound question.kind inst.now question.cycle (all_tasks inst.now) ≤ question.most }
    requires some { 1 ≤ question.most }
    requires few { question.most ≤ 1024 }
    requires units { units.old.used + units.old.left < 2 ^ 64 }
    ensures keeps { Keeps (D.desk desk.old) (D.desk desk.new) }
    ensures units { units.new.used + units.new.left ≡ units.old.used + units.old.left }
    ensures spent { units.old.used ≤ units.new.used }
    ensures works { let used = units.new.used - units.old.used in
        Works inst.now question.cycle (D.desk desk.old) (D.desk desk.new) used used }
    ensures ends { IsEnd (D.desk desk.new) inst.now question units.new.left result }
{
    let Ok(mut pairs) = table_for(alloc, inst, question.kind, question.cycle, question.pairs) else {
        return End::NoMemory;
    };
    'working: for _ in rt.forever() {
        if let Some(end) = told_end(desk, inst, question) {
            return end;
        }
        let Took::Got(piece) = pool.take(rt, hand) else {
            return ask_last(rt, alloc, desk, inst, question, &mut pairs, units);
        };
        let ended = do_piece(
            rt, alloc, desk, inst, question, jobs, &piece, &mut pairs, units,
        );
        if let Some(end) = ended {
            return end;
        }
    }
    unreachable!()
}
