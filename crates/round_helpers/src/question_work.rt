//! How one helper asks a question beside the others, and offers what it finds.
//!
//! A question is whether a set of tasks has a balance in so many stations. The helper's search puts off what another
//! one is at, and may be told that the question of the round is answered. It believes that only after a test: an entry
//! of the book answers it, or the least count of a balance is low enough. Where the test fails, it decides the same
//! again, and asks for the end no more. It works over any desk beside others. Each load that a search lists costs a
//! unit.
ghost use Rattle.std.specs.Prelude.{◌≡◌, ◌+◌, ◌-◌, ◌^◌, ◌<◌, ◌≤◌, ℕ, true, length, Some, IfSome, IfOk, IfErr, OnOk};
ghost use Rattle.line_instance.specs.Line.{IsTaskSet};
ghost use Rattle.line_rules.specs.Balance.{all_tasks};
ghost use Rattle.line_rules.specs.Ranges.{IsCycle};
ghost use Rattle.line_rules.specs.Seats.{AreSeated, around};
ghost use Rattle.lemma_core.specs.Desks.{Keeps, Waits, entries};
ghost use Rattle.station_search.specs.Decide.{IsFor, IsPairing};
ghost use Rattle.station_search.specs.Beside.{DecidesBeside, most_added};
ghost use Rattle.round_helpers.specs.Jobs.{IsJobOf};
ghost use Rattle.round_helpers.specs.inner.Works.{Works, IsEnd, IsSettled, fewest_seen};

use crate::job_list::Job;
use lemma_core::{Looked, Offered};
use line_instance::{Instance, TaskSet};
use line_rules::{LineKind, Load, Loads, Mode};
use station_search::{
    Beside, DecidedBeside, PairTable, Units, balance_of, choose_mode, decide_beside,
};
use std::alloc::{AllocError, Global};
use std::sync::Wait;

/// The question whether all tasks have a balance in `most` stations.
#[derive(Clone, Copy, Debug, PartialEq, Eq)]
pub struct Question {
    pub kind: LineKind,
    pub cycle: u64,
    pub most: u32,
    /// Whether the searches ask the pairs.
    pub pairs: bool,
}

/// How the work of a helper ends.
#[derive(Clone, Copy, Debug, PartialEq, Eq)]
pub enum End {
    /// The question of the round is answered: an entry refutes it, or a balance of it was offered.
    Answered,
    /// It was told that the question is answered, and the least count of a balance is low enough.
    Told,
    /// The units ended.
    Spent,
    /// Out of memory.
    NoMemory,
}

/// A desk of one of several helpers at a question, with the calls of the end.
pub trait Shared: Beside {
    /// Says that the question of the round is answered.
    fn call_end(&mut self)
        ensures waits { Waits (Self.desk self.old) (Self.desk self.new) };

    /// From here on the helper isn't told of the end.
    fn stop_asking(&mut self)
        ensures waits { Waits (Self.desk self.old) (Self.desk self.new) };
}

/// What a question of a helper comes to: refuted, or the loads of a balance.
pub type Settled = Option<Loads>;

// The loads of a rest, with the job's own load at its end of the line.
fn around(mode: Mode, load: Load, loads: Loads) -> Result<Loads, AllocError>
    ensures { IfOk result (λ v. v ≡ around mode (Some load) loads) }
{
    let mut items = loads.into_vec();
    match mode {
        Mode::Back => items.push(load)?,
        Mode::Fore | Mode::Both => items.insert(0, load)?,
    }
    Ok(Loads::from_vec(items))
}

/// Offers the balance of loads of all tasks.
pub fn offer_loads<D: Shared>(
    alloc: Global,
    desk: &mut D,
    inst: &Instance,
    question: Question,
    loads: &Loads,
) -> Result<(), AllocError>
    requires desk { IsFor (D.desk desk.old) inst.now question.kind question.cycle }
    requires roomy { (D.desk desk.old).roomy ≡ true }
    requires few { length loads.now ≤ 1024 }
    requires seated { AreSeated question.kind inst.now question.cycle (all_tasks inst.now) loads.now }
    ensures keeps { Keeps (D.desk desk.old) (D.desk desk.new) }
    ensures works { Works inst.now question.cycle (D.desk desk.old) (D.desk desk.new) 0 0 }
    ensures found { OnOk result (fewest_seen (D.desk desk.new) ≤ length loads.now) }
{
    let stations = loads.len() as u32;
    let balance = balance_of(alloc, inst, question.kind, stations, loads)?;
    match desk.offer(balance) {
        Offered::Better => Ok(()),
        Offered::NotBetter => Ok(()),
    }
}

/// Offers the balance of the loads that were found for the rest of a job, with the job's own load beside them.
pub fn offer_job<D: Shared>(
    alloc: Global,
    desk: &mut D,
    inst: &Instance,
    question: Question,
    job: &Job,
    loads: Loads,
) -> Result<(), AllocError>
    requires desk { IsFor (D.desk desk.old) inst.now question.kind question.cycle }
    requires roomy { (D.desk desk.old).roomy ≡ true }
    requires job { IsJobOf question.kind inst.now question.cycle question.most job.now }
    requires few { length loads ≤ 1023 }
    requires seated { AreSeated question.kind inst.now question.cycle job.now.set loads }
    ensures keeps { Keeps (D.desk desk.old) (D.desk desk.new) }
    ensures works { Works inst.now question.cycle (D.desk desk.old) (D.desk desk.new) 0 0 }
    ensures found { OnOk result (fewest_seen (D.desk desk.new) ≤ length loads + 1) }
{
    let all = inst.all();
    let loads = around(choose_mode(inst, question.kind, &all), job.load, loads)?;
    offer_loads(alloc, desk, inst, question, &loads)
}

// Asks a question once. Its units are taken from those of the helper.
fn ask<D: Shared>(
    alloc: Global,
    desk: &mut D,
    inst: &Instance,
    question: Question,
    set: &TaskSet,
    most: u32,
    pairs: &mut Option<PairTable>,
    units: &mut Units,
) -> DecidedBeside
    requires desk { IsFor (D.desk desk.old) inst.now question.kind question.cycle }
    requires set { IsTaskSet inst.now set.now }
    requires cycle { IsCycle question.cycle }
    requires few { most ≤ 1024 }
    requires pairs { IfSome pairs.old (IsPairing inst.now question.kind question.cycle) }
    requires units { units.old.used + units.old.left < 2 ^ 64 }
    ensures keeps { Keeps (D.desk desk.old) (D.desk desk.new) }
    ensures pairs { pairs.new ≡ pairs.old }
    ensures units { units.new.used + units.new.left ≡ units.old.used + units.old.left }
    ensures spent { units.old.used ≤ units.new.used }
    ensures works { let used = units.new.used - units.old.used in
        Works inst.now question.cycle (D.desk desk.old) (D.desk desk.new) used (most_added used result) }
    ensures decides { DecidesBeside question.kind inst.now question.cycle (entries (D.desk desk.new)) set.now most
        units.new.left result }
{
    // They are counted from 0.
    let mut own = Units {
        left: units.left,
        used: 0,
    };
    let decided = decide_beside(
        alloc,
        desk,
        inst,
        question.kind,
        question.cycle,
        set,
        most,
        pairs,
        &mut own,
    );
    units.left = own.left;
    units.used += own.used;
    decided
}

/// Tests whether the question of the round is answered: by an entry of the book, or by the least count of a balance.
pub fn test_end<D: Shared>(desk: &mut D, inst: &Instance, question: Question) -> Option<End>
    requires desk { IsFor (D.desk desk.old) inst.now question.kind question.cycle }
    ensures waits { Waits (D.desk desk.old) (D.desk desk.new) }
    ensures ends { IfSome result (λ end. (left : ℕ) → IsEnd (D.desk desk.new) inst.now question left end) }
{
    match desk.look(&inst.all(), question.most) {
        Looked::Found { .. } => return Some(End::Answered),
        Looked::Absent => {}
    }
    if desk.least() <= question.most {
        return Some(End::Told);
    }
    desk.stop_asking();
    None
}

/// Settles a question: it is refuted, or has a balance in at most `most` stations. The error tells how the helper's
/// work ends: the question of the round is answered, or units or memory ended.
pub fn settle<R: Wait, D: Shared>(
    rt: &R,
    alloc: Global,
    desk: &mut D,
    inst: &Instance,
    question: Question,
    set: &TaskSet,
    most: u32,
    pairs: &mut Option<PairTable>,
    units: &mut Units,
) -> Result<Settled, End>
    requires desk { IsFor (D.desk desk.old) inst.now question.kind question.cycle }
    requires set { IsTaskSet inst.now set.now }
    requires cycle { IsCycle question.cycle }
    requires few { most ≤ 1024 }
    requires pairs { IfSome pairs.old (IsPairing inst.now question.kind question.cycle) }
    requires units { units.old.used + units.old.left < 2 ^ 64 }
    ensures keeps { Keeps (D.desk desk.old) (D.desk desk.new) }
    ensures pairs { pairs.new ≡ pairs.old }
    ensures units { units.new.used + units.new.left ≡ units.old.used + units.old.left }
    ensures spent { units.old.used ≤ units.new.used }
    ensures works { let used = units.new.used - units.old.used in
        Works inst.now question.cycle (D.desk desk.old) (D.desk desk.new) used (used + 1) }
    ensures settled { IfOk result (IsSettled (D.desk desk.new) inst.now question set.now most) }
    ensures ends { IfErr result (IsEnd (D.desk desk.new) inst.now question units.new.left) }
{
    'asking: for _ in rt.forever() {
        match ask(alloc, desk, inst, question, set, most, pairs, units) {
            DecidedBeside::Refuted(_) => return Ok(None),
            DecidedBeside::Found(loads) => return Ok(Some(loads)),
            DecidedBeside::Spent => return Err(End::Spent),
            DecidedBeside::NoMemory => return Err(End::NoMemory),
            DecidedBeside::Ended => {}
        }
        if let Some(end) = test_end(desk, inst, question) {
            return Err(end);
        }
    }
    unreachable!()
}
