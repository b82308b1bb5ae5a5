//! The check of a certificate of a product, in the order of its parts.
ghost use Rattle.std.specs.Prelude.{◌≡◌, ◌*◌, ◌≤◌, ◌↔◌, length, Some, IsTrue, IsNone, IfSome};
ghost use Rattle.line_instance.specs.Line.{tasks};
ghost use Rattle.line_rules.specs.Balance.{IsRight};
ghost use Rattle.line_rules.specs.Checked.{IsLeastWhere};
ghost use Rattle.line_check.specs.Verdicts.{AreDone};
ghost use Rattle.line_rules.specs.Products.{IsSayable};
ghost use Rattle.effic_check.specs.Accepted.{NoneApart, IsAsked, IsClosed, MayBegin, ShowsUpper};
ghost use Rattle.effic_check.specs.Verdict.{AreClosed, BalanceFails, IsAllowed, IsFound, IsLeftOpen};
ghost use Rattle.effic_check.specs.Verdict.{IsAcceptedSo, IsRejectedSo, IsTrueOf, IsVerdict};

use crate::verdict::{EfficPlace, EfficVerified};
use line_check::{FrameFault, FramesFound, ListFound, check_entries, check_frames, has_answer};
use line_instance::Instance;
use line_rules::{BalanceCheck, EfficCert, Trail, check_balance};

/// The greatest cycle that an entry may have.
const MAX_CYCLE: u128 = 1_000_000_000_000_000_000;

/// The product of stations and a cycle.
fn product(stations: u32, cycle: u64) -> u128
    ensures { result ≡ stations * cycle }
{
    u128::from(stations) * u128::from(cycle)
}

/// Whether so many stations are asked for.
fn is_asked(cert: &EfficCert, stations: u32) -> bool
    ensures { IsTrue result ↔ IsAsked cert.now stations }
{
    cert.least_m <= stations && stations <= cert.most_m
}

/// The first rule of its line that the balance breaks at the cycle, if it breaks one.
fn rule_fault(inst: &Instance, cert: &EfficCert) -> Option<EfficPlace>
    requires sayable { IsSayable cert.now }
    requires tasks { cert.now.tasks ≡ tasks inst.now }
    requires none { NoneApart inst.now }
    ensures none { IsNone result → IsRight cert.now.kind inst.now cert.now.cycle cert.now.balance }
    ensures some { IfSome result (λ p. IsAsked cert.now cert.now.balance.stations
        → BalanceFails inst.now cert.now p) }
{
    match check_balance(inst, cert.kind, cert.cycle, &cert.balance) {
        BalanceCheck::Right => None,
        BalanceCheck::StationRange(task) => Some(EfficPlace::Station(task)),
        BalanceCheck::SideWrong(task) => Some(EfficPlace::Side(task)),
        BalanceCheck::Overfull(station, time) => Some(EfficPlace::Overfull(station, time)),
        BalanceCheck::Broken(i, j) => Some(EfficPlace::Broken(i, j)),
        // There is a place for each task, and no two tasks are apart.
        BalanceCheck::Unplaced(_) => None,
        BalanceCheck::Together(_, _) => None,
    }
}

/// The first thing that keeps the balance from showing the upper bound, if it doesn't.
fn balance_fault(inst: &Instance, cert: &EfficCert) -> Option<EfficPlace>
    requires sayable { IsSayable cert.now }
    requires tasks { cert.now.tasks ≡ tasks inst.now }
    requires none { NoneApart inst.now }
    ensures none { IsNone result → ShowsUpper inst.now cert.now }
    ensures some { IfSome result (BalanceFails inst.now cert.now) }
{
    let stations = cert.balance.stations;
    if !is_asked(cert, stations) {
        return Some(EfficPlace::Stations(stations));
    }
    if let Some(place) = rule_fault(inst, cert) {
        return Some(place);
    }
    if cert.upper != product(stations, cert.cycle) {
        return Some(EfficPlace::Upper(cert.upper));
    }
    None
}

/// Whether no product of so many stations below the lower bound is left open.
fn is_closed(inst: &Instance, cert: &EfficCert, stations: u32) -> bool
    requires sayable { IsSayable cert.now }
    requires tasks { cert.now.tasks ≡ tasks inst.now }
    requires some { 1 ≤ stations }
    ensures { IsTrue result ↔ IsClosed inst.now cert.now.entries cert.now.lower stations }
{
    let cycle = (cert.lower - 1) / u128::from(stations);
    if cycle == 0 {
        return true;
    }
    if cycle > MAX_CYCLE {
        return false;
    }
    has_answer(
        &cert.entries,
        &inst.all(),
        u64::from(stations),
        cycle as u64,
    )
}

/// The least number of stations at which a product below the lower bound is left open, if there is one.
fn left_open(inst: &Instance, cert: &EfficCert) -> Option<u32>
    requires sayable { IsSayable cert.now }
    requires tasks { cert.now.tasks ≡ tasks inst.now }
    ensures none { IsNone result → AreClosed inst.now cert.now }
    ensures some { IfSome result (IsLeastWhere (IsLeftOpen inst.now cert.now)) }
{
    for stations in cert.least_m..cert.most_m + 1 {
        if !is_closed(inst, cert, stations) {
            return Some(stations);
        }
    }
    None
}

/// Whether a trail at a cycle may begin with the question of so many stations.
fn may_begin(cert: &EfficCert, cycle: u64, stations: u32) -> bool
    ensures { IsTrue result ↔ MayBegin cert.now cycle stations }
{
    if !is_asked(cert, stations) {
        return false;
    }
    product(stations, cycle) < cert.upper
}

/// Whether the first frame of the trail asks a question that it may begin with.
fn is_allowed(cert: &EfficCert, trail: &Trail) -> bool
    requires some { 1 ≤ length trail.now.frames }
    ensures { IsTrue result ↔ IsAllowed cert.now trail.now }
{
    let first = trail.frames.at(0);
    may_begin(cert, trail.cycle, first.most)
}

/// What is found of the trail, where all before it holds.
fn check_trail(
    inst: &Instance,
    cert: &EfficCert,
    trail: &Trail,
    units: u64,
    steps: u64,
) -> EfficVerified
    requires sayable { IsSayable cert.now }
    requires tasks { cert.now.tasks ≡ tasks inst.now }
    requires trail { cert.now.trail ≡ Some trail.now }
    requires shown { ShowsUpper inst.now cert.now }
    requires done { AreDone cert.now.kind inst.now cert.now.entries steps units }
    requires closed { AreClosed inst.now cert.now }
    ensures { IsFound inst.now cert.now steps result }
{
    if !is_allowed(cert, trail) {
        return EfficVerified::Refused(EfficPlace::Frame {
            frame: 0,
            why: FrameFault::Allowed,
        });
    }
    match check_frames(inst, cert.kind, &cert.entries, trail, steps - units) {
        FramesFound::Right { units: more } => EfficVerified::Accepted {
            lower: cert.lower,
            upper: cert.upper,
            units: units + more,
        },
        FramesFound::Refused { frame, why } => {
            EfficVerified::Refused(EfficPlace::Frame { frame, why })
        }
        FramesFound::StepsEnded => EfficVerified::StepsEnded(steps),
    }
}

/// What is found of a certificate of as many tasks as the line has.
fn judge(inst: &Instance, cert: &EfficCert, steps: u64) -> EfficVerified
    requires sayable { IsSayable cert.now }
    requires tasks { cert.now.tasks ≡ tasks inst.now }
    requires none { NoneApart inst.now }
    ensures { IsFound inst.now cert.now steps result }
{
    if let Some(place) = balance_fault(inst, cert) {
        return EfficVerified::Refused(place);
    }
    let units = match check_entries(inst, cert.kind, &cert.entries, steps) {
        ListFound::Right { units } => units,
        ListFound::Refused { entry, why } => {
            return EfficVerified::Refused(EfficPlace::Entry { entry, why });
        }
        ListFound::StepsEnded => return EfficVerified::StepsEnded(steps),
    };
    if let Some(stations) = left_open(inst, cert) {
        return EfficVerified::Refused(EfficPlace::Goal(stations));
    }
    match &cert.trail {
        None => EfficVerified::Accepted {
            lower: cert.lower,
            upper: cert.upper,
            units,
        },
        Some(trail) => check_trail(inst, cert, trail, units, steps),
    }
}

/// Checks a certificate against a line without pairs that are apart: its balance, its entries, its lower bound and its
/// trail, in this order, up to the first check that fails. At most `steps` loads are walked, 1 to 20,000,000. What is
/// accepted is true of the line. Takes no memory.
pub fn verify_effic(inst: &Instance, cert: &EfficCert, steps: u64) -> EfficVerified
    requires sayable { IsSayable cert.now }
    requires none { NoneApart inst.now }
    requires some { 1 ≤ steps }
    requires few { steps ≤ 20000000 }
    ensures verdict { IsVerdict inst.now cert.now steps result }
    ensures accepted { IsAcceptedSo inst.now cert.now steps result }
    ensures rejected { IsRejectedSo inst.now cert.now steps result }
    ensures true_bounds { IsTrueOf inst.now cert.now result }
{
    let tasks = inst.tasks();
    if cert.tasks != tasks {
        return EfficVerified::Refused(EfficPlace::Tasks {
            said: cert.tasks,
            real: tasks,
        });
    }
    judge(inst, cert, steps)
}
