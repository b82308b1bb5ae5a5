//! A team: the helpers of a question, each with a pass of the share, a hand of the pool and units of its own.
//!
//! The first pass is split, once for each helper. Then the helpers work in threads, one each, and afterwards their
//! passes are joined into the first one again, so that it has seen what any of them has and has all their places.
ghost use Rattle.std.specs.Prelude.{◌≡◌, ℕ, ◌+◌, ◌-◌, ◌^◌, ◌<◌, ◌≤◌, List, [], true, false, Some, slice_get, length, vec_len, vec_capacity};
ghost use Rattle.line_instance.specs.Line.{Line};
ghost use Rattle.book_share.specs.Calls.{IsPassOf};
ghost use Rattle.round_helpers.specs.inner.Seats.{IsBare, AreReady, HasWorked, HaveAllWorked, HasJoined};
ghost use Rattle.round_helpers.specs.inner.Teams.{MayWork, MayAllWork, ArePassesOf, AreJoinable, AreSettled, settled};
ghost use Rattle.round_helpers.specs.inner.Teams.{IsTold, NoneEnded};
ghost use Rattle.round_helpers.specs.declared.question_work.End.TheVariants as ends;
ghost use Rattle.round_helpers.specs.declared.teams.Helper.{Helper as Helping};

use crate::gates::Gate;
use crate::helper_desk::HelperDesk;
use crate::helping::Helped;
use crate::job_list::Job;
use crate::piece_work::do_pieces;
use crate::question_work::{End, Question};
use book_share::{Pass, Share};
use claim_board::Board;
use line_instance::Instance;
use station_search::Units;
use std::alloc::Global;
use std::sync::Wait;
use std::thread::{self, Threads};
use steal_pool::{Hand, Hands, Pool};

/// A helper: its pass, its hand, its units, which count what it uses from 0, and how its work ended.
#[derive(Drop)]
pub struct Helper {
    pub pass: Pass,
    pub hand: Hand,
    pub units: Units,
    pub end: End,
}

// A helper before its work, with a pass and a hand of its own and so many units.
fn ready(pass: Pass, hand: Hand, left: u64) -> Helper
    ensures pass { result.pass ≡ pass }
    ensures hand { result.hand ≡ hand }
    ensures left { result.units.left ≡ left }
    ensures used { result.units.used ≡ 0 }
{
    Helper {
        pass,
        hand,
        units: Units { left, used: 0 },
        end: End::NoMemory,
    }
}

/// Splits a pass off for each helper, with its hand and the units that are left to it. There is room for them.
pub fn split_off(
    share: &Share,
    pass: &mut Pass,
    units: &[Units],
    hands: Hands,
    helpers: Vec<Helper>,
) -> Vec<Helper>
    requires bare { IsBare share.now pass.old.view.base pass.old.view.seen 1024 pass.old }
    requires few { length units.now ≤ 64 }
    requires hands { length hands ≡ length units.now }
    requires none { helpers.items ≡ [] }
    requires room { length units.now ≤ vec_capacity helpers }
    ensures bare { IsBare share.now pass.old.view.base pass.old.view.seen (1024 - length units.now) pass.new }
    ensures count { vec_len result ≡ length units.now }
    ensures ready { AreReady share.now pass.old.view.base pass.old.view.seen units.now hands result.items }
{
    let mut helpers = helpers;
    for hand in hands.into_vec() {
        let own = share.split(pass);
        let left = units[helpers.len()].left;
        helpers.push_reserved(ready(own, hand, left));
    }
    helpers
}

// One helper's work.
fn work<R: Wait, G: Gate>(
    rt: &R,
    alloc: Global,
    share: &Share,
    inst: &Instance,
    question: Question,
    jobs: &[Job],
    pool: &Pool,
    board: &Board,
    gate: &G,
    place: usize,
    helper: &mut Helper,
)
    requires may { MayWork share.now inst.now question jobs.now pool.now place helper.old }
    ensures worked { HasWorked share.now helper.old.pass.view.base helper.old.pass.view.seen inst.now question
        helper.old.units.left helper.new }
{
    let _left = helper.units.left;
    helper.pass.keep_memo(alloc);
    // Helpers are numbered from 1.
    let mut desk = HelperDesk {
        rt,
        share,
        pass: &mut helper.pass,
        board,
        gate,
        helper: place as u32 + 1,
        publishes: 0,
        asks: true,
    };
    let end = do_pieces(
        rt,
        alloc,
        &mut desk,
        inst,
        question,
        jobs,
        pool,
        &mut helper.hand,
        &mut helper.units,
    );
    helper.end = end;
}

// Has the helpers work, each in a thread of its own.
fn work_in_threads<R: Threads + Wait + Sync, G: Gate>(
    rt: &R,
    alloc: Global,
    share: &Share,
    inst: &Instance,
    question: Question,
    jobs: &[Job],
    pool: &Pool,
    board: &Board,
    gate: &G,
    helpers: &mut [Helper],
)
    requires some { 0 < length helpers.old }
    requires few { length helpers.old ≤ 64 }
    requires each { MayAllWork share.now inst.now question jobs.now pool.now helpers.old }
    ensures count { length helpers.new ≡ length helpers.old }
    ensures each { HaveAllWorked share.now inst.now question helpers.old helpers.new }
{
    let count = helpers.len();
    let shift = |place: usize, helper: &mut Helper|
        requires { MayWork share.now inst.now question jobs.now pool.now place helper.now }
        ensures { HasWorked share.entry.now helper.entry.now.pass.view.base helper.entry.now.pass.view.seen
            inst.entry.now question helper.entry.now.units.left helper.exit.now }
    {
        work(
            rt, alloc, share, inst, question, jobs, pool, board, gate, place, helper,
        )
    };
    thread::for_each_mut(rt, helpers, count, &shift);
}

/// The helpers after their work, each in a thread of its own.
pub fn worked<R: Threads + Wait + Sync, G: Gate>(
    rt: &R,
    alloc: Global,
    share: &Share,
    inst: &Instance,
    question: Question,
    jobs: &[Job],
    pool: &Pool,
    board: &Board,
    gate: &G,
    helpers: Vec<Helper>,
) -> Vec<Helper>
    requires some { 0 < length helpers.items }
    requires few { length helpers.items ≤ 64 }
    requires each { MayAllWork share.now inst.now question jobs.now pool.now helpers.items }
    ensures count { length result.items ≡ length helpers.items }
    ensures each { HaveAllWorked share.now inst.now question helpers.items result.items }
{
    let mut helpers = helpers;
    work_in_threads(
        rt,
        alloc,
        share,
        inst,
        question,
        jobs,
        pool,
        board,
        gate,
        &mut helpers,
    );
    helpers
}

/// Joins the passes of helpers into the first one, which has no own places.
pub fn join_all(share: &Share, pass: &mut Pass, helpers: Vec<Helper>)
    requires pass { IsPassOf share.now pass.old }
    requires none { pass.old.view.own ≡ [] }
    requires each { ArePassesOf share.now helpers.items }
    ensures pass { IsPassOf share.now pass.new }
    ensures joined { (line : Line) (X : ℕ) → AreJoinable pass.old.view.base pass.old.view.seen line X helpers.items
        → HasJoined share.now pass.old.view.base pass.old.view.seen pass.old.view.parts line X helpers.items pass.new }
{
    for helper in helpers {
        let Helper { pass: other, .. } = helper;
        share.join(pass, other);
    }
}

/// Takes over what helpers have left, and counts what they used.
pub fn settle(helpers: &[Helper], units: &mut [Units])
    requires same { length helpers.now ≡ length units.old }
    requires sums { AreSettled units.old helpers.now }
    ensures { units.new ≡ settled units.old helpers.now }
{
    for k in 0..helpers.len() {
        units[k] = Units {
            left: helpers[k].units.left,
            used: units[k].used + helpers[k].units.used,
        };
    }
}

// Whether a helper knows that the question is answered.
fn is_answered(helpers: &[Helper]) -> bool
    ensures some { result ≡ true
        → (k : ℕ) × (h : Helping) × (slice_get helpers.now k ≡ Some h) × (h.end ≡ ends.Answered) }
    ensures none { result ≡ false → NoneEnded ends.Answered (length helpers.now) helpers.now }
{
    for k in 0..helpers.len() {
        match helpers[k].end {
            End::Answered => return true,
            End::Told | End::Spent | End::NoMemory => {}
        }
    }
    false
}

/// What helpers did, by how their work ended: one knows that the question is answered; or else the first one whose
/// units ended tells it; or else memory was wanting.
pub fn tell(helpers: &[Helper]) -> Helped
    requires { length helpers.now ≤ 64 }
    ensures { IsTold helpers.now result }
{
    if is_answered(helpers) {
        return Helped::Whole;
    }
    for k in 0..helpers.len() {
        match helpers[k].end {
            End::Spent => return Helped::Cut(k as u32 + 1),
            End::Answered | End::Told | End::NoMemory => {}
        }
    }
    Helped::NoMemory
}
