//! What a search for the least cycle proved, as a certificate.
ghost use Rattle.std.specs.Prelude.{◌≡◌, ℕ, [], ◌-◌, ◌<◌, ◌≤◌, IfOk};
ghost use Rattle.line_instance.specs.Truths.{full_to};
ghost use Rattle.line_instance.specs.Line.{Line, IsLine};
ghost use Rattle.line_rules.specs.Entries.{HasAnswer, IsDerived};
ghost use Rattle.line_rules.specs.Ranges.{AreEntries};
ghost use Rattle.line_rules.specs.Units.{UnitsOf};
ghost use Rattle.line_rules.specs.declared.types.LineKind.{LineKind as Kind};
ghost use Rattle.entry_lists.specs.Trim.{CitesEarlier, IsTrimmed};
ghost use Rattle.round_run.specs.declared.plans.Plan.{Plan};
ghost use Rattle.cycle_search.specs.Outcomes.{IsSolved, IsSpent};
ghost use Rattle.cycle_search.specs.CycleCertified.{about_cycle, IsOptimum, IsStop};

use entry_lists::trim;
use line_instance::Instance;
use line_rules::{Ask, Balance, Certificate, Claim, Entries, LineKind, Trail};
use std::alloc::{AllocError, Global};

/// A certificate about the least cycle of a line with so many stations.
fn about_cycle(inst: &Instance, kind: LineKind, stations: u32, claim: Claim) -> Certificate
    ensures said { result ≡ about_cycle kind inst.now stations claim }
    ensures line { IsLine inst.now }
{
    Certificate {
        kind,
        tasks: inst.tasks(),
        ask: Ask::Cycle { stations },
        claim,
    }
}

/// The entries that show a least cycle: none are needed for 1, and above it the first entry that refutes the cycle
/// below, with all that it stands on.
fn proof_of(
    alloc: Global,
    entries: Entries,
    tasks: u32,
    stations: u32,
    cycle: u64,
) -> Result<Entries, AllocError>
    requires few { tasks ≤ 1024 }
    requires one { cycle ≡ 1 → entries ≡ [] }
    requires goal { 1 < cycle → HasAnswer entries (full_to tasks) stations (cycle - 1) }
    requires earlier { CitesEarlier entries }
    ensures one { IfOk result (λ new. cycle ≡ 1 → new ≡ []) }
    ensures derived { IfOk result (λ new. (kind : Kind) (line : Line)
        → IsDerived kind line entries → IsDerived kind line new) }
    ensures goal { IfOk result (λ new. 1 < cycle → HasAnswer new (full_to tasks) stations (cycle - 1)) }
    ensures trimmed { IfOk result (λ new. 1 < cycle → IsTrimmed entries (full_to tasks) stations (cycle - 1) new) }
    ensures units { IfOk result (λ new. (line : Line) (old : ℕ)
        → UnitsOf line entries old → (units : ℕ) × UnitsOf line new units × (units ≤ old)) }
    ensures ranges { IfOk result (λ new. (n : ℕ) → AreEntries n entries → AreEntries n new) }
{
    if cycle <= 1 {
        return Ok(entries);
    }
    trim(alloc, entries, tasks, stations, cycle - 1)
}

/// The certificate of the least cycle in 1 to 1,024 stations, in the instance's time unit: a balance at it, and the
/// proof that there is none at the cycle below. An error where memory is wanting.
pub fn certify_cycle(
    alloc: Global,
    inst: &Instance,
    kind: LineKind,
    stations: u32,
    cycle: u64,
    balance: Balance,
    entries: Entries,
) -> Result<Certificate, AllocError>
    requires some { 1 ≤ stations }
    requires few { stations ≤ 1024 }
    requires solved { (plan : Plan) × (plan.units ≤ 3000000)
        × IsSolved kind inst.now stations plan cycle balance entries }
    ensures { IfOk result (λ cert. (plan : Plan) → plan.units ≤ 3000000
        → IsSolved kind inst.now stations plan cycle balance entries
        → IsOptimum kind inst.now stations plan cycle balance cert) }
{
    let entries = proof_of(alloc, entries, inst.tasks(), stations, cycle)?;
    let claim = Claim::Bounds {
        lower: cycle,
        upper: cycle,
        balance,
        entries,
        trail: None,
    };
    Ok(about_cycle(inst, kind, stations, claim))
}

/// The certificate of a search in 1 to 1,024 stations whose units ended, in the instance's time unit: the bounds, a
/// balance at the upper one, and all entries and the trail.
pub fn certify_cycle_stop(
    inst: &Instance,
    kind: LineKind,
    stations: u32,
    lower: u64,
    upper: u64,
    balance: Balance,
    entries: Entries,
    trail: Trail,
) -> Certificate
    requires some { 1 ≤ stations }
    requires few { stations ≤ 1024 }
    ensures { (plan : Plan) (closing_from : ℕ) → plan.units ≤ 3000000
        → IsSpent kind inst.now stations plan lower upper balance entries trail closing_from
        → IsStop kind inst.now stations plan lower upper balance result }
{
    let claim = Claim::Bounds {
        lower,
        upper,
        balance,
        entries,
        trail: Some(trail),
    };
    about_cycle(inst, kind, stations, claim)
}
