//! Whether the balance of a certificate can be shown for a line, in a picture or in a plan.
ghost use Rattle.std.specs.Prelude.{◌≡◌, ◌≤◌, MatchResult};
ghost use Rattle.line_rules.specs.Ranges.{IsInRange};
ghost use Rattle.command_outcome.specs.Outcome.{MayStop, Stops, told};
ghost use Rattle.command_outcome.specs.declared.status.Status.TheVariants as ends;
ghost use Rattle.line_check.specs.declared.types.Verified.TheVariants.{Refused};
ghost use Rattle.printed_verdict.specs.VerdictText.{verdict_text};
ghost use Rattle.command_draw.specs.Drawable.{IsDrawable, IsUndrawable, bare_line};

use command_outcome::{EarlyEnd, Status, refuse};
use line_check::{Place, Verified, balance_fault};
use line_instance::Instance;
use line_rules::{Certificate, Claim};
use printed_verdict::verdict_report;
use std::alloc::Global;

/// The refusal of a certificate at a place, or out of memory.
fn refused(alloc: Global, cert: &Certificate, place: Place) -> EarlyEnd
    requires { cert.now.tasks ≤ 1024 }
    ensures told { Stops (λ out. out ≡ told ends.Refused (verdict_text cert.now (Refused place))) result }
    ensures status { MayStop ⊥ result }
{
    match verdict_report(alloc, cert, &Verified::Refused(place)) {
        Ok(report) => EarlyEnd::Report(report),
        Err(_) => EarlyEnd::Memory,
    }
}

/// The refusal of a certificate without a balance, or out of memory.
fn bare(alloc: Global) -> EarlyEnd
    ensures told { Stops (λ out. out ≡ told ends.Refused bare_line) result }
    ensures status { MayStop ⊥ result }
{
    match Vec::from_slice(alloc, b"refused: no balance\n") {
        Ok(text) => refuse(Status::Refused, text),
        Err(_) => EarlyEnd::Memory,
    }
}

/// Tests whether a certificate can be drawn for a line: it is of as many tasks, and its balance shows its upper bound.
pub(crate) fn test(alloc: Global, inst: &Instance, cert: &Certificate) -> Result<(), EarlyEnd>
    requires { IsInRange cert.now }
    ensures said { MatchResult result (λ _. IsDrawable inst.now cert.now) (Stops (IsUndrawable inst.now cert.now)) }
    ensures status { MatchResult result (λ _. Unit {0}) (MayStop ⊥) }
{
    let real = inst.tasks();
    let said = cert.tasks;
    if said != real {
        return Err(refused(alloc, cert, Place::Tasks { said, real }));
    }
    match &cert.claim {
        Claim::TooLong { .. } => Err(bare(alloc)),
        Claim::Bounds { upper, balance, .. } => {
            match balance_fault(inst, cert.kind, cert.ask, *upper, balance) {
                Some(place) => Err(refused(alloc, cert, place)),
                None => Ok(()),
            }
        }
    }
}
