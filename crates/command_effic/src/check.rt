//! What `effic-check` finds of a certificate, and of files that say one.
ghost use Rattle.std.specs.Prelude.{◌≡◌, ◌≤◌, ℕ, List, IfOk, MatchResult};
ghost use Rattle.line_io.specs.Outside.{Rises};
ghost use Rattle.line_words.specs.Ranges.{AreSteps};
ghost use Rattle.command_outcome.specs.Outcome.{Ends, Stops, MayStop, outside};
ghost use Rattle.command_outcome.specs.declared.report.Kept.TheVariants.{Nothing};
ghost use Rattle.command_outcome.specs.declared.status.Status.TheVariants as ends;
ghost use Rattle.printed_verdict.specs.VerdictText.{IsVerdictStatus};
ghost use Rattle.command_effic.specs.EfficCheck.{IsEfficCheckOutcome, IsProvedProduct};

use crate::print_verdict::verdict_report;
use command_outcome::{EarlyEnd, Report};
use effic_cert::EfficText;
use effic_check::verify_effic;
use input_files::{plain_line, spelled_in};
use line_io::Shelf;
use std::alloc::Global;

/// The report of `effic-check` for the file of an instance and that of a certificate, in at most so many steps, 1 to
/// 20,000,000.
pub fn effic_check_report<S: Shelf>(
    alloc: Global,
    file: &str,
    proof: &str,
    steps: u64,
    shelf: &mut S,
) -> Result<Report, EarlyEnd>
    requires { AreSteps steps }
    ensures ends { S.tells → (let o = outside (S.file shelf.old) (S.blames shelf.new) in
        Ends o (IsEfficCheckOutcome o file.now proof.now steps) (S.file shelf.new) result) }
    ensures good { IfOk result (λ r. IsVerdictStatus r.status) }
    ensures kept { IfOk result (λ r. r.kept ≡ Nothing) }
    ensures true_bounds { S.tells → IfOk result (λ r. r.status ≡ ends.Done
        → IsProvedProduct (S.file shelf.old) file.now proof.now steps) }
    ensures fault { MatchResult result (λ _. Unit {0})
        (MayStop (Rises (S.fetch_faults shelf.old) (S.fetch_faults shelf.new))) }
    ensures files { S.tells → (q : List ℕ) → S.file shelf.new q ≡ S.file shelf.old q }
{
    let plain = plain_line(alloc, file, shelf)?;
    let said = spelled_in(alloc, &EfficText, proof, shelf)?;
    let verified = verify_effic(&plain.inst, &said.cert, steps);
    let report = verdict_report(alloc, &said.cert, &verified)?;
    Ok(report)
}
