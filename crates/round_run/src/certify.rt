//! What a run proved, as a certificate.
ghost use Rattle.std.specs.Prelude.{◌≡◌, ℕ, ◌-◌, ◌<◌, ◌≤◌, List, [], IfOk};
ghost use Rattle.line_instance.specs.Truths.{full_to};
ghost use Rattle.line_instance.specs.Line.{Line, IsLine};
ghost use Rattle.line_rules.specs.Bounds.{IsTooLong};
ghost use Rattle.line_rules.specs.Checked.{IsLeastWhere};
ghost use Rattle.line_rules.specs.Entries.{HasAnswer, IsDerived};
ghost use Rattle.line_rules.specs.Ranges.{IsCycle, AreEntries};
ghost use Rattle.line_rules.specs.Units.{UnitsOf};
ghost use Rattle.line_rules.specs.declared.types.Entry.{Entry};
ghost use Rattle.line_rules.specs.declared.types.LineKind.{LineKind as Kind};
ghost use Rattle.entry_lists.specs.Trim.{CitesEarlier, IsTrimmed};
ghost use Rattle.round_run.specs.Solving.{IsSolved, IsSolvedFrom, IsSpent, IsSpentFrom};
ghost use Rattle.round_run.specs.declared.plans.Plan.{Plan};
ghost use Rattle.round_run.specs.Certified.{about_stations, HaveCyclesOf, LeaveRoom, IsOptimum, IsOptimumFrom};
ghost use Rattle.round_run.specs.Certified.{IsStop, IsStopFrom, IsNoBalance};

use entry_lists::trim;
use lemma_core::Book;
use line_instance::Instance;
use line_rules::{Ask, Certificate, Claim, Entries, Frames, LineKind, Trail};
use std::alloc::{AllocError, Global};

/// A certificate about the stations of a line at a cycle.
fn about_stations(inst: &Instance, kind: LineKind, cycle: u64, claim: Claim) -> Certificate
    ensures said { result ≡ about_stations kind inst.now cycle claim }
    ensures line { IsLine inst.now }
{
    Certificate {
        kind,
        tasks: inst.tasks(),
        ask: Ask::Stations { cycle },
        claim,
    }
}

/// The entries that show a lower bound on the stations: none are needed for 1, and above it the first entry that
/// refutes one station less, with all that it stands on.
fn proof_of(
    alloc: Global,
    entries: Entries,
    tasks: u32,
    lower: u32,
    cycle: u64,
) -> Result<Entries, AllocError>
    requires few { tasks ≤ 1024 }
    requires goal { 1 < lower → HasAnswer entries (full_to tasks) (lower - 1) cycle }
    requires earlier { CitesEarlier entries }
    ensures derived { IfOk result (λ new. (kind : Kind) (line : Line) → IsDerived kind line entries
        → IsDerived kind line new) }
    ensures goal { IfOk result (λ new. 1 < lower → HasAnswer new (full_to tasks) (lower - 1) cycle) }
    ensures none { IfOk result (λ new. lower ≤ 1 → new ≡ []) }
    ensures trimmed { IfOk result (λ new. 1 < lower → IsTrimmed entries (full_to tasks) (lower - 1) cycle new) }
    ensures units { IfOk result (λ new. (line : Line) (old : ℕ)
        → UnitsOf line entries old → (units : ℕ) × UnitsOf line new units × (units ≤ old)) }
    ensures ranges { IfOk result (λ new. (n : ℕ) → AreEntries n entries → AreEntries n new) }
    ensures cycles { IfOk result (HaveCyclesOf entries) }
{
    if lower <= 1 {
        return Ok(Entries::from_vec(Vec::new(alloc)));
    }
    trim(alloc, entries, tasks, lower - 1, cycle)
}

/// The certificate of a run that was solved, at a cycle of 1 to 10^18 in the instance's time unit: the best balance of
/// the book, and the proof that there is none in fewer stations. An error where memory is wanting.
pub fn certify_optimum(
    alloc: Global,
    inst: &Instance,
    kind: LineKind,
    cycle: u64,
    book: Book,
) -> Result<Certificate, AllocError>
    requires cycle { IsCycle cycle }
    requires solved { (plan : Plan) × (plan.units ≤ 3000000) × IsSolved kind inst.now cycle plan book }
    ensures { IfOk result (λ cert. (plan : Plan) → plan.units ≤ 3000000 → IsSolved kind inst.now cycle plan book
        → IsOptimum kind inst.now cycle plan book.state.best cert) }
{
    certify_warm_optimum(alloc, inst, kind, cycle, book)
}

/// The same of a run that began with some entries, for which a certificate has room.
pub fn certify_warm_optimum(
    alloc: Global,
    inst: &Instance,
    kind: LineKind,
    cycle: u64,
    book: Book,
) -> Result<Certificate, AllocError>
    requires cycle { IsCycle cycle }
    requires solved { (before : List Entry) × (plan : Plan) × LeaveRoom inst.now plan.units before
        × IsSolvedFrom kind inst.now cycle plan before book }
    ensures { IfOk result (λ cert. (before : List Entry) (plan : Plan) → LeaveRoom inst.now plan.units before
        → IsSolvedFrom kind inst.now cycle plan before book
        → IsOptimumFrom kind inst.now cycle plan before book.state.best cert) }
{
    let tasks = inst.tasks();
    let (entries, balance) = book.into_parts();
    let stations = balance.stations;
    let entries = proof_of(alloc, entries, tasks, stations, cycle)?;
    let claim = Claim::Bounds {
        lower: u64::from(stations),
        upper: u64::from(stations),
        balance,
        entries,
        trail: None,
    };
    Ok(about_stations(inst, kind, cycle, claim))
}

/// The certificate of a run whose units ended, at a cycle of 1 to 10^18 in the instance's time unit: the bounds, the
/// best balance and all entries of the book, and the trail.
pub fn certify_stop(
    inst: &Instance,
    kind: LineKind,
    cycle: u64,
    lower: u32,
    book: Book,
    frames: Frames,
) -> Certificate
    requires cycle { IsCycle cycle }
    ensures { (plan : Plan) → plan.units ≤ 3000000
        → IsSpent kind inst.now cycle plan lower book frames
        → IsStop kind inst.now cycle plan lower book.state.best result }
{
    certify_warm_stop(inst, kind, cycle, lower, book, frames)
}

/// The same of a run that began with some entries, for which a certificate has room.
pub fn certify_warm_stop(
    inst: &Instance,
    kind: LineKind,
    cycle: u64,
    lower: u32,
    book: Book,
    frames: Frames,
) -> Certificate
    requires cycle { IsCycle cycle }
    ensures { (before : List Entry) (top : ℕ) (plan : Plan) → LeaveRoom inst.now plan.units before
        → IsSpentFrom kind inst.now cycle plan before top lower book frames
        → IsStopFrom kind inst.now cycle plan before lower book.state.best result }
{
    let (entries, balance) = book.into_parts();
    let upper = u64::from(balance.stations);
    let claim = Claim::Bounds {
        lower: u64::from(lower),
        upper,
        balance,
        entries,
        trail: Some(Trail { cycle, frames }),
    };
    about_stations(inst, kind, cycle, claim)
}

/// The certificate that a line has no balance at a cycle of 1 to 10^18, since the task, from 0, is the first one that
/// is longer.
pub fn certify_too_long(inst: &Instance, kind: LineKind, cycle: u64, task: u32) -> Certificate
    requires cycle { IsCycle cycle }
    requires long { IsLeastWhere (IsTooLong inst.now cycle) task }
    ensures { IsNoBalance kind inst.now cycle task result }
{
    about_stations(inst, kind, cycle, Claim::TooLong { task })
}
