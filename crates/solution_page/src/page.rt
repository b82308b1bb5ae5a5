//! A certificate that is kept is written where the words name a file.
ghost use Rattle.std.specs.Prelude.{◌≡◌, ◌≤◌, ℕ, List, Option, Some, Err, IfOk, MatchResult, option_map};
ghost use Rattle.line_io.specs.Outside.{Rises};
ghost use Rattle.line_rules.specs.Ranges.{IsInRange};
ghost use Rattle.line_rules.specs.declared.types.Certificate.{Certificate as Proof};
ghost use Rattle.cert_text.specs.Cert.{cert_text};
ghost use Rattle.command_outcome.specs.Found.{HasText, page_of};
ghost use Rattle.command_outcome.specs.Outcome.{Files, Ends, MayEnd, Stay, outside, outcome_of};
ghost use Rattle.command_outcome.specs.declared.report.Kept.TheVariants.{Line as Certified};
ghost use Rattle.command_outcome.specs.declared.report.EarlyEnd.TheVariants.{Unwritten};

use cert_files::{Streamed, stream_cert};
use command_outcome::{EarlyEnd, Kept, Report};
use line_io::Shelf;
use std::alloc::Global;

/// Writes the certificate of a report of a line into this file, and hands the report on.
fn written<S: Shelf>(
    alloc: Global,
    shelf: &mut S,
    name: &str,
    report: Report,
) -> Result<Report, EarlyEnd>
    requires sayable { (certificate : Proof) → report.kept ≡ Certified certificate → IsInRange certificate }
    ensures ends { S.tells → (files : Files) → Stay files (S.file shelf.old)
        → (cert : Proof) → report.kept ≡ Certified cert
        → Ends (outside files (S.blames shelf.new)) (λ out. out ≡ outcome_of report (page_of (Some name.now) (cert_text cert)))
        (S.file shelf.new) result }
    ensures same { IfOk result (λ r. r ≡ report) }
    ensures certificate { S.tells → IfOk result (λ r. (cert : Proof) → r.kept ≡ Certified cert
        → HasText (Some name.now) (S.file shelf.new) (cert_text cert)) }
    ensures fault { MatchResult result (λ _. Unit {0})
        (MayEnd (Rises (S.fetch_faults shelf.old) (S.fetch_faults shelf.new))
        (Rises (S.write_faults shelf.old) (S.write_faults shelf.new))) }
    ensures count { S.write_faults shelf.old ≤ S.write_faults shelf.new }
{
    let Kept::Line(certificate) = &report.kept else {
        return Ok(report);
    };
    match stream_cert(alloc, shelf, name, certificate) {
        Streamed::Done => Ok(report),
        Streamed::WriteFault => Err(EarlyEnd::Unwritten),
        Streamed::NoMemory => Err(EarlyEnd::Memory),
    }
}

/// Writes the certificate of a report of a line where the words name a file, and hands the report on.
pub fn write_certificate<S: Shelf>(
    alloc: Global,
    shelf: &mut S,
    name: Option<&str>,
    report: Report,
) -> Result<Report, EarlyEnd>
    requires sayable { (certificate : Proof) → report.kept ≡ Certified certificate → IsInRange certificate }
    ensures ends { S.tells → (files : Files) → Stay files (S.file shelf.old)
        → (cert : Proof) → report.kept ≡ Certified cert
        → Ends (outside files (S.blames shelf.new))
        (λ out. out ≡ outcome_of report (page_of (option_map (λ a. a.now) name.entry) (cert_text cert))) (S.file shelf.new)
        result }
    ensures same { IfOk result (λ r. r ≡ report) }
    ensures certificate { S.tells → IfOk result (λ r. (cert : Proof) → r.kept ≡ Certified cert
        → HasText (option_map (λ a. a.now) name.entry) (S.file shelf.new) (cert_text cert)) }
    ensures fault { MatchResult result (λ _. Unit {0})
        (MayEnd (Rises (S.fetch_faults shelf.old) (S.fetch_faults shelf.new))
        (Rises (S.write_faults shelf.old) (S.write_faults shelf.new))) }
    ensures unwritten { result ≡ Err Unwritten → (n : List ℕ) × (option_map (λ a. a.now) name.entry ≡ Some n) }
    ensures count { S.write_faults shelf.old ≤ S.write_faults shelf.new }
{
    match name {
        None => Ok(report),
        Some(name) => written(alloc, shelf, name, report),
    }
}
