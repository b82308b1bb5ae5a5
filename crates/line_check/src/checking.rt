//! The check of a certificate, in the order of its parts: the balance, the entries, the lower bound, and the trail.
//!
//! The parts are tested in a fixed order, and the first test that fails is told with its values: so a certificate has
//! one refusal. Nearly all of the cost is in the entries, one unit for each load that is walked. Each entry needs only
//! those before it, so entries may be checked side by side beforehand, and what was found is handed in
//! (`verify_found`). The steps limit the loads, so that the check ends soon whatever a text claims.
ghost use Rattle.std.specs.Prelude.{◌≡◌, ℕ, ◌<◌, ◌≤◌, ◌↔◌, length, slice_get, Some, IsTrue, IsNone, IfSome};
ghost use Rattle.line_instance.specs.Line.{tasks};
ghost use Rattle.line_rules.specs.Accepted.{Refutes, MayBegin, upper_stations, upper_cycle};
ghost use Rattle.line_rules.specs.Entries.{Answers, HasAnswer};
ghost use Rattle.line_rules.specs.Ranges.{IsInRange, IsCycle, IsPlacing, AreBounds, AreEntries, IsTrailLike};
ghost use Rattle.line_rules.specs.Ranges.{IsTrailOrNone};
ghost use Rattle.line_check.specs.Certificates.{IsShown, BalanceFails, IsAllowed, IsBoundsVerdict, IsTaskVerdict};
ghost use Rattle.line_check.specs.Certificates.{IsVerdict, IsAcceptedSo, IsRejectedSo, IsTrueOf, NeedsEntries};
ghost use Rattle.line_check.specs.Certificates.{AreFoundOf};
ghost use Rattle.line_check.specs.Verdicts.{IsListChecked, IsListRejected};
ghost use Rattle.line_check.specs.Lists.{AreFound};

use crate::entries::is_same;
use crate::frames::check_frames;
use crate::lists::check_entries;
use crate::types::{FrameFault, FramesFound, ListChecked, ListFound, Place, Verified};
use line_instance::{Instance, TaskSet};
use line_rules::{
    Ask, Balance, BalanceCheck, Certificate, Claim, Entries, Entry, LineKind, Trail, check_balance,
};

/// Checks a list of entries and a trail beside it: that each entry follows from those before it, and that the trail is
/// a valid one. That the first frame lies within the bounds of a certificate isn't asked. At most `steps` loads are
/// walked. Takes no memory.
pub fn verify_list(
    inst: &Instance,
    kind: LineKind,
    entries: &Entries,
    trail: &Option<Trail>,
    steps: u64,
) -> ListChecked
    requires entries { AreEntries (tasks inst.now) entries.now }
    requires trail { IsTrailOrNone (tasks inst.now) (length entries.now) trail.now }
    ensures verdict { IsListChecked kind inst.now entries.now trail.now steps result }
    ensures rejected { IsListRejected kind inst.now entries.now trail.now steps result }
{
    let found = check_entries(inst, kind, entries, steps);
    verify_list_found(inst, kind, entries, trail, steps, found)
}

/// Checks a list as [`verify_list`] does, where its entries were checked before, as by
/// [`check_entry`](crate::check_entry) side by side: `found` is what the check of the entries in their order, with so
/// many steps, finds.
pub fn verify_list_found(
    inst: &Instance,
    kind: LineKind,
    entries: &Entries,
    trail: &Option<Trail>,
    steps: u64,
    found: ListFound,
) -> ListChecked
    requires trail { IsTrailOrNone (tasks inst.now) (length entries.now) trail.now }
    requires found { AreFound kind inst.now entries.now steps found }
    ensures verdict { IsListChecked kind inst.now entries.now trail.now steps result }
    ensures rejected { IsListRejected kind inst.now entries.now trail.now steps result }
{
    let _tasks = inst.tasks();
    judge_list(inst, kind, entries, trail, steps, found)
}

/// What is found of a list and a trail.
fn judge_list(
    inst: &Instance,
    kind: LineKind,
    entries: &Entries,
    trail: &Option<Trail>,
    steps: u64,
    found: ListFound,
) -> ListChecked
    requires trail { IsTrailOrNone (tasks inst.now) (length entries.now) trail.now }
    requires found { AreFound kind inst.now entries.now steps found }
    ensures { IsListChecked kind inst.now entries.now trail.now steps result }
{
    let units = match found {
        ListFound::Right { units } => units,
        ListFound::Refused { entry, why } => {
            return ListChecked::Refused(Place::Entry { entry, why });
        }
        ListFound::StepsEnded => return ListChecked::StepsEnded(steps),
    };
    match trail {
        None => ListChecked::Right { units },
        Some(trail) => match check_frames(inst, kind, entries, trail, steps - units) {
            FramesFound::Right { units: more } => ListChecked::Right {
                units: units + more,
            },
            FramesFound::Refused { frame, why } => {
                ListChecked::Refused(Place::Frame { frame, why })
            }
            FramesFound::StepsEnded => ListChecked::StepsEnded(steps),
        },
    }
}

/// Whether an entry answers a question.
fn answers(entry: &Entry, set: &TaskSet, most: u64, cycle: u64) -> bool
    ensures { IsTrue result ↔ Answers entry.now set.now most cycle }
{
    if !is_same(&entry.set, set) {
        return false;
    }
    if u64::from(entry.most) < most {
        return false;
    }
    entry.cycle >= cycle
}

/// Whether an entry of a list answers a question: whether it is of that set, for as many stations or more, at that
/// cycle or a greater one. One pass over the entries.
pub fn has_answer(entries: &Entries, set: &TaskSet, most: u64, cycle: u64) -> bool
    ensures some { IsTrue result → HasAnswer entries.now set.now most cycle }
    ensures none { HasAnswer entries.now set.now most cycle → IsTrue result }
{
    for k in 0..entries.len() {
        if answers(entries.at(k), set, most, cycle) {
            return true;
        }
    }
    false
}

/// Whether an entry refutes all tasks one below a lower bound.
fn refutes_below(inst: &Instance, entries: &Entries, ask: Ask, lower: u64) -> bool
    requires some { 1 ≤ lower }
    ensures { IsTrue result ↔ Refutes inst.now entries.now ask lower }
{
    let all = inst.all();
    match ask {
        Ask::Stations { cycle } => has_answer(entries, &all, lower - 1, cycle),
        Ask::Cycle { stations } => has_answer(entries, &all, u64::from(stations), lower - 1),
    }
}

/// Whether a trail at a cycle may begin with the question of all tasks in `most` stations.
fn may_begin(ask: Ask, lower: u64, upper: u64, cycle: u64, most: u32) -> bool
    ensures { IsTrue result ↔ MayBegin ask lower upper cycle most }
{
    let stations = u64::from(most);
    match ask {
        Ask::Stations { cycle: asked } => cycle == asked && lower <= stations && stations < upper,
        Ask::Cycle { stations: asked } => most == asked && lower <= cycle && cycle < upper,
    }
}

/// Whether the first frame of a trail asks a question that the bounds leave open.
fn is_allowed(ask: Ask, lower: u64, upper: u64, trail: &Trail) -> bool
    requires some { 1 ≤ length trail.now.frames }
    ensures { IsTrue result ↔ IsAllowed ask lower upper trail.now }
{
    let first = trail.frames.at(0);
    may_begin(ask, lower, upper, trail.cycle, first.most)
}

/// The stations and the cycle of a balance that shows an upper bound.
fn upper_stations(ask: Ask, upper: u64) -> u64
    ensures { result ≡ upper_stations ask upper }
{
    match ask {
        Ask::Stations { .. } => upper,
        Ask::Cycle { stations } => u64::from(stations),
    }
}

fn upper_cycle(ask: Ask, upper: u64) -> u64
    ensures { result ≡ upper_cycle ask upper }
{
    match ask {
        Ask::Stations { cycle } => cycle,
        Ask::Cycle { .. } => upper,
    }
}

/// The first thing that is wrong with the balance of a certificate, if it doesn't show the upper bound; the upper bound
/// is tested alone, and nothing else of the certificate. Takes no memory.
pub fn balance_fault(
    inst: &Instance,
    kind: LineKind,
    ask: Ask,
    upper: u64,
    balance: &Balance,
) -> Option<Place>
    requires range { IsPlacing kind (tasks inst.now) balance.now }
    ensures none { IsNone result → IsShown kind inst.now ask upper balance.now }
    ensures some { IfSome result (BalanceFails kind inst.now ask upper balance.now) }
{
    if u64::from(balance.stations) != upper_stations(ask, upper) {
        return Some(Place::Stations(balance.stations));
    }
    match check_balance(inst, kind, upper_cycle(ask, upper), balance) {
        BalanceCheck::Right => None,
        BalanceCheck::Unplaced(_) => None,
        BalanceCheck::StationRange(task) => Some(Place::Station(task)),
        BalanceCheck::SideWrong(task) => Some(Place::Side(task)),
        BalanceCheck::Overfull(station, time) => Some(Place::Overfull(station, time)),
        BalanceCheck::Broken(i, j) => Some(Place::Broken(i, j)),
        BalanceCheck::Together(i, j) => Some(Place::Together(i, j)),
    }
}

/// Whether the balance of a certificate shows the upper bound.
fn is_shown(inst: &Instance, kind: LineKind, ask: Ask, upper: u64, balance: &Balance) -> bool
    requires range { IsPlacing kind (tasks inst.now) balance.now }
    ensures { IsTrue result ↔ IsShown kind inst.now ask upper balance.now }
{
    let _tasks = inst.tasks();
    let fault = balance_fault(inst, kind, ask, upper, balance);
    fault.is_none()
}

/// Checks the claim that a task is too long.
fn check_task(inst: &Instance, cycle: u64, task: u32) -> Verified
    requires { task < tasks inst.now }
    ensures { IsTaskVerdict inst.now cycle task result }
{
    let time = inst.time(task);
    if time <= cycle {
        return Verified::Refused(Place::Infeasible { task, time });
    }
    for least in 0..task {
        if inst.time(least) > cycle {
            return Verified::Refused(Place::Earlier { task, least });
        }
    }
    Verified::TooLong(task)
}

/// Checks the claim of bounds, where the entries were checked before.
fn check_bounds(
    inst: &Instance,
    kind: LineKind,
    ask: Ask,
    lower: u64,
    upper: u64,
    balance: &Balance,
    entries: &Entries,
    trail: &Option<Trail>,
    steps: u64,
    found: ListFound,
) -> Verified
    requires range { AreBounds kind (tasks inst.now) lower upper balance.now entries.now trail.now }
    requires found { IsShown kind inst.now ask upper balance.now → AreFound kind inst.now entries.now steps found }
    ensures { IsBoundsVerdict kind inst.now ask lower upper balance.now entries.now trail.now steps result }
{
    if let Some(place) = balance_fault(inst, kind, ask, upper, balance) {
        return Verified::Refused(place);
    }
    let units = match found {
        ListFound::Right { units } => units,
        ListFound::Refused { entry, why } => {
            return Verified::Refused(Place::Entry { entry, why });
        }
        ListFound::StepsEnded => return Verified::StepsEnded(steps),
    };
    if lower > 1 && !refutes_below(inst, entries, ask, lower) {
        return Verified::Refused(Place::Goal);
    }
    match trail {
        None => Verified::Accepted {
            lower,
            upper,
            units,
        },
        Some(trail) => {
            if !is_allowed(ask, lower, upper, trail) {
                return Verified::Refused(Place::Frame {
                    frame: 0,
                    why: FrameFault::Allowed,
                });
            }
            match check_frames(inst, kind, entries, trail, steps - units) {
                FramesFound::Right { units: more } => Verified::Accepted {
                    lower,
                    upper,
                    units: units + more,
                },
                FramesFound::Refused { frame, why } => {
                    Verified::Refused(Place::Frame { frame, why })
                }
                FramesFound::StepsEnded => Verified::StepsEnded(steps),
            }
        }
    }
}

/// What is found of a certificate.
fn judge(inst: &Instance, cert: &Certificate, steps: u64, found: ListFound) -> Verified
    requires range { IsInRange cert.now }
    requires found { NeedsEntries inst.now cert.now → AreFoundOf inst.now cert.now steps found }
    ensures { IsVerdict inst.now cert.now steps result }
{
    let tasks = inst.tasks();
    if cert.tasks != tasks {
        return Verified::Refused(Place::Tasks {
            said: cert.tasks,
            real: tasks,
        });
    }
    match &cert.claim {
        Claim::TooLong { task } => match cert.ask {
            Ask::Stations { cycle } => check_task(inst, cycle, *task),
            Ask::Cycle { .. } => Verified::TooLong(*task),
        },
        Claim::Bounds {
            lower,
            upper,
            balance,
            entries,
            trail,
        } => check_bounds(
            inst, cert.kind, cert.ask, *lower, *upper, balance, entries, trail, steps, found,
        ),
    }
}

/// Whether the check of a certificate comes to its entries: it is of as many tasks as the line has, and claims bounds
/// of which its balance shows the upper one.
pub fn needs_entries(inst: &Instance, cert: &Certificate) -> bool
    requires range { IsInRange cert.now }
    ensures { IsTrue result ↔ NeedsEntries inst.now cert.now }
{
    let tasks = inst.tasks();
    if cert.tasks != tasks {
        return false;
    }
    match &cert.claim {
        Claim::TooLong { .. } => false,
        Claim::Bounds { upper, balance, .. } => {
            is_shown(inst, cert.kind, cert.ask, *upper, balance)
        }
    }
}

/// What is found of the entries of a certificate, where the check comes to them.
fn entries_found(inst: &Instance, cert: &Certificate, steps: u64) -> ListFound
    requires range { IsInRange cert.now }
    ensures { NeedsEntries inst.now cert.now → AreFoundOf inst.now cert.now steps result }
{
    if !needs_entries(inst, cert) {
        return ListFound::StepsEnded;
    }
    match &cert.claim {
        Claim::TooLong { .. } => ListFound::StepsEnded,
        Claim::Bounds { entries, .. } => check_entries(inst, cert.kind, entries, steps),
    }
}

/// Checks a certificate against a line: its balance, its entries, its lower bound and its trail, in this order, up to
/// the first check that fails. At most `steps` loads are walked, 1 to 20,000,000. What is accepted is true of the line.
/// Takes no memory.
pub fn verify(inst: &Instance, cert: &Certificate, steps: u64) -> Verified
    requires range { IsInRange cert.now }
    requires some { 1 ≤ steps }
    requires few { steps ≤ 20000000 }
    ensures verdict { IsVerdict inst.now cert.now steps result }
    ensures accepted { IsAcceptedSo inst.now cert.now steps result }
    ensures rejected { IsRejectedSo inst.now cert.now steps result }
    ensures true_bounds { IsTrueOf inst.now cert.now result }
{
    verify_found(inst, cert, steps, entries_found(inst, cert, steps))
}

/// Checks a certificate as [`verify`] does, where its entries were checked before, as by
/// [`check_entry`](crate::check_entry) side by side: `found` is what the check of the entries in their order, with so
/// many steps, finds. Where [`needs_entries`] is false, it may be anything.
pub fn verify_found(inst: &Instance, cert: &Certificate, steps: u64, found: ListFound) -> Verified
    requires range { IsInRange cert.now }
    requires some { 1 ≤ steps }
    requires few { steps ≤ 20000000 }
    requires found { NeedsEntries inst.now cert.now → AreFoundOf inst.now cert.now steps found }
    ensures verdict { IsVerdict inst.now cert.now steps result }
    ensures accepted { IsAcceptedSo inst.now cert.now steps result }
    ensures rejected { IsRejectedSo inst.now cert.now steps result }
    ensures true_bounds { IsTrueOf inst.now cert.now result }
{
    let _tasks = inst.tasks();
    judge(inst, cert, steps, found)
}
