//! What `check` finds of a certificate, and of files that say one.
ghost use Rattle.std.specs.Prelude.{◌≡◌, ◌≤◌, ℕ, List, IfOk, MatchResult, option_map};
ghost use Rattle.line_io.specs.Outside.{Rises};
ghost use Rattle.line_rules.specs.Ranges.{IsInRange};
ghost use Rattle.line_check.specs.Certificates.{IsVerdict, IsAcceptedSo, IsRejectedSo, IsTrueOf};
ghost use Rattle.line_words.specs.Ranges.{AreSteps};
ghost use Rattle.command_outcome.specs.Outcome.{Ends, Stops, MayStop, outside};
ghost use Rattle.command_outcome.specs.declared.report.Kept.TheVariants.{Nothing};
ghost use Rattle.command_outcome.specs.declared.status.Status.TheVariants as ends;
ghost use Rattle.command_check.specs.Check.{IsCheckOutcome, IsProvedTrue};
ghost use Rattle.printed_verdict.specs.VerdictText.{IsVerdictStatus};

use command_outcome::{EarlyEnd, Report};
use input_files::{certificate_of, line_of};
use line_check::{Verified, verify};
use line_instance::Instance;
use line_io::Shelf;
use line_rules::Certificate;
use printed_verdict::verdict_report;
use std::alloc::Global;
use std::thread::Threads;
use wide_check::{Wide, verify_wide};

/// What the check of a certificate finds: with its entries side by side or, where there is no memory for that, in
/// order.
fn verdict_of<R: Threads + Sync>(
    rt: &R,
    alloc: Global,
    inst: &Instance,
    cert: &Certificate,
    steps: u64,
) -> Verified
    requires range { IsInRange cert.now }
    requires steps { AreSteps steps }
    ensures verdict { IsVerdict inst.now cert.now steps result }
    ensures accepted { IsAcceptedSo inst.now cert.now steps result }
    ensures rejected { IsRejectedSo inst.now cert.now steps result }
    ensures true_bounds { IsTrueOf inst.now cert.now result }
{
    match verify_wide(rt, alloc, inst, cert, steps) {
        Wide::Done(verified) => verified,
        Wide::NoMemory => verify(inst, cert, steps),
    }
}

/// The report of `check` for the file of an instance, that of a certificate, and that of the tasks that are apart,
/// where there is one, in at most so many steps.
pub fn check_report<R: Threads + Sync, S: Shelf>(
    rt: &R,
    alloc: Global,
    file: &str,
    proof: &str,
    apart: Option<&str>,
    steps: u64,
    shelf: &mut S,
) -> Result<Report, EarlyEnd>
    requires { AreSteps steps }
    ensures ends { S.tells → Ends (outside (S.file shelf.old) (S.blames shelf.new))
        (IsCheckOutcome (outside (S.file shelf.old) (S.blames shelf.new)) file.now proof.now
        (option_map (λ a. a.now) apart.entry) steps) (S.file shelf.new) result }
    ensures good { IfOk result (λ r. IsVerdictStatus r.status) }
    ensures kept { IfOk result (λ r. r.kept ≡ Nothing) }
    ensures true_bounds { S.tells → IfOk result (λ r. r.status ≡ ends.Done
        → IsProvedTrue (S.file shelf.old) file.now proof.now (option_map (λ a. a.now) apart.entry) steps) }
    ensures fault { MatchResult result (λ _. Unit {0})
        (MayStop (Rises (S.fetch_faults shelf.old) (S.fetch_faults shelf.new))) }
    ensures files { S.tells → (q : List ℕ) → S.file shelf.new q ≡ S.file shelf.old q }
{
    let inst = line_of(alloc, file, apart, shelf)?;
    let cert = certificate_of(alloc, proof, shelf)?;
    let verified = verdict_of(rt, alloc, &inst, &cert, steps);
    let report = verdict_report(alloc, &cert, &verified)?;
    Ok(report)
}
