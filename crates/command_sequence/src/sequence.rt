//! What `sequence` answers of a mix and a balance, and of files that say them.
//!
//! What the search found becomes a report with the certificate, which is kept, and written where the words name a file.
//! The report and the text of the certificate are made before the file, so that a run without memory for them writes
//! none.
ghost use Rattle.std.specs.Prelude.{◌≡◌, ℕ, List, length, Some, Err, IfOk, MatchResult, option_map};
ghost use Rattle.line_io.specs.Outside.{Rises};
ghost use Rattle.line_words.specs.Ranges.{AreSeekLoads, AreTryUnits, IsInterval, IsReach};
ghost use Rattle.sequence_rules.specs.Ranges.{AreTimes, IsInRange};
ghost use Rattle.sequence_values.specs.declared.types.SeqCert.{SeqCert as Proof};
ghost use Rattle.sequence_cert.specs.SequenceText.{sequence_text};
ghost use Rattle.command_outcome.specs.Found.{HasText, IsCutShort, IsFound, IsSearchStatus, page_of};
ghost use Rattle.command_outcome.specs.Outcome.{Files, Ends, MayEnd, Stay, Stops, MayStop, outside, outcome_of};
ghost use Rattle.command_outcome.specs.declared.report.Kept.TheVariants.{Sequence as Certified};
ghost use Rattle.command_outcome.specs.declared.report.EarlyEnd.TheVariants.{Unwritten};
ghost use Rattle.command_sequence.specs.Ordered.{IsSequenceOutcome, IsSequencePromised, least_work};

use crate::beginning::{Beginning, begin};
use crate::print_sequence::{optimal_text, stopped_text};
use crate::timed_mix::{TimedMix, timed_of};
use command_outcome::{EarlyEnd, Kept, Report, Status, cut_short, room_for_bounds};
use line_io::{Shelf, Written, write_whole};
use sequence_cert::write_seq;
use sequence_search::{Ordered, order_from};
use std::alloc::Global;

/// What is reported of a mix and its table, with a certificate; or the bounds, where memory ended the search.
fn ordered(
    alloc: Global,
    timed: &TimedMix,
    interval: u64,
    reach: u64,
    units: u64,
    seek: u64,
) -> Result<Report, EarlyEnd>
    requires times { AreTimes timed.now.times }
    requires models { length timed.now.times.demands ≡ length timed.now.mix.models }
    requires interval { IsInterval interval }
    requires reach { IsReach reach }
    requires units { AreTryUnits units }
    requires seek { AreSeekLoads seek }
    ensures answer { MatchResult result
        (λ r. IsFound (least_work timed.now.mix timed.now.times interval reach units seek) r.status r.text.items r.kept)
        (Stops (IsCutShort (least_work timed.now.mix timed.now.times interval reach units seek))) }
    ensures fault { MatchResult result (λ _. Unit {0}) (MayStop ⊥) }
{
    let room = room_for_bounds(alloc)?;
    let Beginning {
        first,
        charges,
        kept,
        said,
    } = begin(alloc, &timed.times, interval, reach, units, seek)?;
    match order_from(
        alloc,
        &timed.times,
        interval,
        reach,
        units,
        first,
        charges,
        kept,
    ) {
        Ordered::Solved(cert) => {
            let text = optimal_text(said, &timed.mix, &cert)?;
            Ok(Report {
                status: Status::Done,
                text,
                kept: Kept::Sequence(cert),
            })
        }
        Ordered::Stopped(cert) => {
            let text = stopped_text(said, &timed.mix, &cert)?;
            Ok(Report {
                status: Status::Stopped,
                text,
                kept: Kept::Sequence(cert),
            })
        }
        Ordered::Memory { lower, upper } => Err(cut_short(room, lower as u128, upper as u128)?),
        Ordered::NoMemory => Err(EarlyEnd::Memory),
    }
}

/// Writes the certificate of a report where the words name a file, and hands the report on.
fn written<S: Shelf>(
    alloc: Global,
    shelf: &mut S,
    name: Option<&str>,
    report: Report,
) -> Result<Report, EarlyEnd>
    requires range { (cert : Proof) → report.kept ≡ Certified cert → IsInRange cert }
    ensures ends { S.tells → (files : Files) → Stay files (S.file shelf.old)
        → (cert : Proof) → report.kept ≡ Certified cert
        → Ends (outside files (S.blames shelf.new))
        (λ out. out ≡ outcome_of report (page_of (option_map (λ a. a.now) name.entry) (sequence_text cert)))
        (S.file shelf.new) result }
    ensures same { IfOk result (λ r. r ≡ report) }
    ensures certificate { S.tells → IfOk result (λ r. (cert : Proof) → r.kept ≡ Certified cert
        → HasText (option_map (λ a. a.now) name.entry) (S.file shelf.new) (sequence_text cert)) }
    ensures fault { MatchResult result (λ _. Unit {0})
        (MayEnd (Rises (S.fetch_faults shelf.old) (S.fetch_faults shelf.new))
        (Rises (S.write_faults shelf.old) (S.write_faults shelf.new))) }
    ensures unwritten { result ≡ Err Unwritten → (n : List ℕ) × (option_map (λ a. a.now) name.entry ≡ Some n) }
{
    let Some(name) = name else {
        return Ok(report);
    };
    let Kept::Sequence(cert) = &report.kept else {
        return Ok(report);
    };
    let text = write_seq(alloc, cert)?;
    match write_whole(shelf, name, &text) {
        Written::Done => Ok(report),
        Written::WriteFault => Err(EarlyEnd::Unwritten),
    }
}

/// The report of `sequence` for the files of a mix and of the certificate whose balance the line has, a launch interval
/// and the length of each station, both in the mix's time unit, so many units, 1 to 1,000,000, a seek of so many units
/// before, 0 to 3,000,000, and the name of the file that the certificate is written to, where there is one.
pub fn sequence_report<S: Shelf>(
    alloc: Global,
    mix: &str,
    cert: &str,
    interval: u64,
    reach: u64,
    units: u64,
    seek: u64,
    name: Option<&str>,
    shelf: &mut S,
) -> Result<Report, EarlyEnd>
    requires interval { IsInterval interval }
    requires reach { IsReach reach }
    requires units { AreTryUnits units }
    requires seek { AreSeekLoads seek }
    ensures ends { S.tells → (let o = outside (S.file shelf.old) (S.blames shelf.new) in
        Ends o (IsSequenceOutcome o mix.now cert.now interval reach units seek (option_map (λ a. a.now) name.entry))
        (S.file shelf.new) result) }
    ensures good { IfOk result (λ r. IsSearchStatus r.status) }
    ensures fault { MatchResult result (λ _. Unit {0})
        (MayEnd (Rises (S.fetch_faults shelf.old) (S.fetch_faults shelf.new))
        (Rises (S.write_faults shelf.old) (S.write_faults shelf.new))) }
    ensures unwritten { result ≡ Err Unwritten → (n : List ℕ) × (option_map (λ a. a.now) name.entry ≡ Some n) }
    ensures promise { S.tells → IfOk result (λ r.
        IsSequencePromised (S.file shelf.old) (S.file shelf.new) mix.now cert.now interval reach units seek
        (option_map (λ a. a.now) name.entry) r.status r.text.items r.kept) }
{
    let timed = timed_of(alloc, mix, cert, interval, shelf)?;
    let report = ordered(alloc, &timed, interval, reach, units, seek)?;
    written(alloc, shelf, name, report)
}
