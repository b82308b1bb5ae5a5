//! The page of a report: the file that a command writes before its report is put, and the report about it.
ghost use Rattle.std.specs.Prelude.{◌≡◌, ◌≢◌, ◌≤◌, ℕ, List, Some, IfOk, MatchResult};
ghost use Rattle.line_io.specs.Outside.{Rises};
ghost use Rattle.command_outcome.specs.Outcome.{Files, Ends, MayEnd, Stay, outside, outcome_of};
ghost use Rattle.command_outcome.specs.Wrote.{written_line};
ghost use Rattle.command_outcome.specs.declared.report.Kept.TheVariants.{Nothing};
ghost use Rattle.command_outcome.specs.declared.status.Status.TheVariants as ends;

use crate::print::line_about;
use crate::report::{EarlyEnd, Report};
use crate::status::Status;
use line_io::{Shelf, Written, write_whole};
use std::alloc::{AllocError, Global};

/// Writes the page of a report, and hands the report on.
pub fn write_page<S: Shelf>(
    shelf: &mut S,
    name: &str,
    bytes: &[u8],
    report: Report,
) -> Result<Report, EarlyEnd>
    ensures ends { S.tells → (files : Files) → Stay files (S.file shelf.old)
        → Ends (outside files (S.blames shelf.new))
        (λ out. out ≡ outcome_of report (Some (record { name = name.now; bytes = bytes.now }))) (S.file shelf.new)
        result }
    ensures same { IfOk result (λ r. r ≡ report) }
    ensures done { S.tells → IfOk result (λ _. S.file shelf.new name.now ≡ Some bytes.now) }
    ensures others { S.tells → (q : List ℕ) → q ≢ name.now → S.file shelf.new q ≡ S.file shelf.old q }
    ensures fault { MatchResult result (λ _. Unit {0})
        (MayEnd (Rises (S.fetch_faults shelf.old) (S.fetch_faults shelf.new))
        (Rises (S.write_faults shelf.old) (S.write_faults shelf.new))) }
    ensures count { S.write_faults shelf.old ≤ S.write_faults shelf.new }
    ensures fetches { S.fetch_faults shelf.new ≡ S.fetch_faults shelf.old }
{
    match write_whole(shelf, name, bytes) {
        Written::Done => Ok(report),
        Written::WriteFault => Err(EarlyEnd::Unwritten),
    }
}

/// The report about a file of this name that was written.
pub fn written(alloc: Global, name: &str) -> Result<Report, AllocError>
    ensures status { IfOk result (λ r. r.status ≡ ends.Done) }
    ensures text { IfOk result (λ r. r.text.items ≡ written_line name.now) }
    ensures kept { IfOk result (λ r. r.kept ≡ Nothing) }
{
    let text = line_about(alloc, "written ", name, "\n")?;
    Ok(Report::told(Status::Done, text))
}
