//! The plan of a certificate's balance, as a sheet that is put out.
ghost use Rattle.std.specs.Prelude.{◌≡◌, ◌≤◌, ℕ, List, IfOk, MatchResult, length, option_map};
ghost use Rattle.line_io.specs.Outside.{Rises};
ghost use Rattle.line_instance.specs.Line.{tasks};
ghost use Rattle.line_rules.specs.Accepted.{upper_cycle};
ghost use Rattle.line_rules.specs.Ranges.{IsInRange};
ghost use Rattle.line_drawing.specs.Facts.{HasRightBalance};
ghost use Rattle.command_outcome.specs.Outcome.{Ends, MayStop, outside};
ghost use Rattle.command_outcome.specs.declared.report.Kept.TheVariants.{Nothing};
ghost use Rattle.command_outcome.specs.declared.status.Status.TheVariants as ends;
ghost use Rattle.task_names.specs.Naming.{FitTasks, names_for};
ghost use Rattle.command_draw.specs.Plan.{ClaimIsPlanned, IsPlanOutcome, IsTrulyPlanned, claim_plan};

use crate::shown::{Shown, shown_of};
use balance_plan::plan_text;
use command_outcome::{EarlyEnd, Report, Status};
use input_files::Listed;
use line_instance::Instance;
use line_io::Shelf;
use line_rules::{Ask, Certificate, Claim};
use std::alloc::{AllocError, Global};
use task_names::Names;

/// The cycle time of a balance that shows an upper bound.
fn upper_cycle(ask: Ask, upper: u64) -> u64
    ensures { result ≡ upper_cycle ask upper }
{
    match ask {
        Ask::Stations { cycle } => cycle,
        Ask::Cycle { .. } => upper,
    }
}

/// The plan of what a certificate claims, by these names.
fn planned(
    alloc: Global,
    inst: &Instance,
    names: &Names,
    cert: &Certificate,
    mark: u8,
    bom: bool,
) -> Result<Vec<u8>, AllocError>
    requires range { IsInRange cert.now }
    requires right { HasRightBalance inst.now cert.now }
    requires many { length names.now ≡ tasks inst.now }
    ensures text { IfOk result (λ t. t.items ≡ claim_plan inst.now names.now mark bom cert.now.ask cert.now.claim) }
    ensures true_plan { ClaimIsPlanned inst.now cert.now.ask cert.now.claim }
{
    match &cert.claim {
        Claim::TooLong { .. } => Ok(Vec::new(alloc)),
        Claim::Bounds { upper, balance, .. } => {
            let cycle = upper_cycle(cert.ask, *upper);
            let text = plan_text(alloc, inst, names, balance, cycle, mark, bom)?;
            Ok(text)
        }
    }
}

/// The plan of what is shown, by the names of the tasks or their numbers, as the sheet has its marks.
fn plan_by(alloc: Global, shown: Shown) -> Result<Vec<u8>, AllocError>
    requires range { IsInRange shown.cert }
    requires right { HasRightBalance shown.line.inst shown.cert }
    requires names { FitTasks shown.line.naming (tasks shown.line.inst) }
    ensures text { IfOk result (λ t. t.items
        ≡ claim_plan shown.line.inst (names_for shown.line.naming (tasks shown.line.inst)) shown.line.mark
        shown.line.bom shown.cert.ask shown.cert.claim) }
    ensures true_plan { IfOk result (λ _. ClaimIsPlanned shown.line.inst shown.cert.ask shown.cert.claim) }
{
    let Shown { line, cert } = shown;
    let Listed {
        inst,
        naming,
        mark,
        bom,
        ..
    } = line;
    let names = naming.into_names(alloc, inst.tasks())?;
    planned(alloc, &inst, &names, &cert, mark, bom)
}

/// The report of `plan` for the file of an instance, that of a certificate, and the file of the tasks that are apart,
/// where there is one.
pub fn plan_report<S: Shelf>(
    alloc: Global,
    file: &str,
    proof: &str,
    apart: Option<&str>,
    shelf: &mut S,
) -> Result<Report, EarlyEnd>
    ensures ends { S.tells → Ends (outside (S.file shelf.old) (S.blames shelf.new))
        (IsPlanOutcome (outside (S.file shelf.old) (S.blames shelf.new)) file.now proof.now
        (option_map (λ a. a.now) apart.entry)) (S.file shelf.new) result }
    ensures good { IfOk result (λ r. r.status ≡ ends.Done) }
    ensures kept { IfOk result (λ r. r.kept ≡ Nothing) }
    ensures fault { MatchResult result (λ _. Unit {0})
        (MayStop (Rises (S.fetch_faults shelf.old) (S.fetch_faults shelf.new))) }
    ensures files { S.tells → (q : List ℕ) → S.file shelf.new q ≡ S.file shelf.old q }
    ensures true_plan { S.tells → IfOk result (λ r. IsTrulyPlanned (S.file shelf.old) file.now proof.now
        (option_map (λ a. a.now) apart.entry) r.text.items) }
{
    let shown = shown_of(alloc, file, proof, apart, shelf)?;
    let text = plan_by(alloc, shown)?;
    Ok(Report::told(Status::Done, text))
}
