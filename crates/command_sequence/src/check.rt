//! What `sequence-check` finds of a certificate, and of files that say one.
ghost use Rattle.std.specs.Prelude.{◌≡◌, ℕ, List, IfOk, MatchResult};
ghost use Rattle.line_io.specs.Outside.{Rises};
ghost use Rattle.line_words.specs.Ranges.{AreSteps, IsInterval, IsReach};
ghost use Rattle.command_outcome.specs.Outcome.{Ends, MayStop, outside};
ghost use Rattle.command_outcome.specs.declared.report.Kept.TheVariants.{Nothing};
ghost use Rattle.command_outcome.specs.declared.status.Status.TheVariants as ends;
ghost use Rattle.command_sequence.specs.SequenceCheck.{IsSequenceCheckOutcome, IsProvedSequence};
ghost use Rattle.command_sequence.specs.VerdictText.{IsVerdictStatus};

use crate::print_verdict::verdict_report;
use crate::timed_mix::timed_of;
use command_outcome::{EarlyEnd, Report};
use line_io::Shelf;
use mix_files::spelled_in;
use sequence_cert::SeqText;
use sequence_check::verify_seq;
use std::alloc::Global;

/// The report of `sequence-check` for the files of a mix, of the certificate whose balance the line has, and of the
/// certificate of a sequence; a launch interval and the length of each station, both in the mix's time unit; in at most
/// so many steps, 1 to 20,000,000.
pub fn sequence_check_report<S: Shelf>(
    alloc: Global,
    mix: &str,
    cert: &str,
    seq: &str,
    interval: u64,
    reach: u64,
    steps: u64,
    shelf: &mut S,
) -> Result<Report, EarlyEnd>
    requires interval { IsInterval interval }
    requires reach { IsReach reach }
    requires steps { AreSteps steps }
    ensures ends { S.tells → (let o = outside (S.file shelf.old) (S.blames shelf.new) in
        Ends o (IsSequenceCheckOutcome o mix.now cert.now seq.now interval reach steps) (S.file shelf.new) result) }
    ensures good { IfOk result (λ r. IsVerdictStatus r.status) }
    ensures kept { IfOk result (λ r. r.kept ≡ Nothing) }
    ensures true_bounds { S.tells → IfOk result (λ r. r.status ≡ ends.Done
        → IsProvedSequence (S.file shelf.old) mix.now cert.now seq.now interval reach steps) }
    ensures fault { MatchResult result (λ _. Unit {0})
        (MayStop (Rises (S.fetch_faults shelf.old) (S.fetch_faults shelf.new))) }
    ensures files { S.tells → (q : List ℕ) → S.file shelf.new q ≡ S.file shelf.old q }
{
    let timed = timed_of(alloc, mix, cert, interval, shelf)?;
    let proof = spelled_in(alloc, &SeqText, seq, shelf)?;
    let verified = verify_seq(&timed.times, interval, reach, &proof, steps);
    let report = verdict_report(alloc, verified)?;
    Ok(report)
}
