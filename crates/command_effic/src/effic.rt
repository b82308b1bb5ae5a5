//! What `effic` answers of a line, and of a file that says one.
//!
//! What a search found becomes a report with the certificate, which is kept, and written where the words name a file.
//! The report and the text of the certificate are made before the file, so that a run without memory for them writes
//! none.
ghost use Rattle.std.specs.Prelude.{◌≡◌, ◌≤◌, ℕ, List, Option, Some, Err, IfOk, MatchResult, option_map};
ghost use Rattle.line_io.specs.Outside.{Rises};
ghost use Rattle.line_rules.specs.Products.{IsSayable};
ghost use Rattle.line_rules.specs.declared.products.EfficCert.{EfficCert as Proof};
ghost use Rattle.line_rules.specs.declared.types.LineKind.{LineKind as Kind};
ghost use Rattle.effic_cert.specs.Product.{product_text};
ghost use Rattle.effic_check.specs.Accepted.{NoneApart};
ghost use Rattle.effic_search.specs.rounds.Plans.{IsPlan};
ghost use Rattle.effic_search.specs.cycles.Seek.{AreSeeks};
ghost use Rattle.effic_search.specs.Outcomes.{IsSolved, StoppedBy};
ghost use Rattle.command_outcome.specs.Found.{IsFound, IsCutShort, IsSearchStatus, HasText, page_of};
ghost use Rattle.command_outcome.specs.Outcome.{Files, Ends, MayEnd, Stay, Stops, MayStop, outside, outcome_of};
ghost use Rattle.command_outcome.specs.declared.report.Kept.TheVariants.{Product as Certified};
ghost use Rattle.command_outcome.specs.declared.report.EarlyEnd.TheVariants.{Unwritten};
ghost use Rattle.command_effic.specs.EfficFound.{least_product, IsEfficOutcome, IsEfficPromised};

use crate::print_effic::{optimal_text, stopped_text};
use command_outcome::{EarlyEnd, Kept, Report, Status, cut_short, room_for_bounds, seek_text};
use effic_cert::write_effic;
use effic_search::{EfficOutcome, Ended, Gate, Plan, Seeks, least_product};
use input_files::plain_line;
use line_instance::Instance;
use line_io::{Shelf, Written, write_whole};
use line_rules::{EfficCert, LineKind};
use station_report::idle_of;
use std::alloc::{AllocError, Global};
use std::sync::Wait;
use std::thread::Threads;
use task_names::Naming;

/// What `effic` is asked for.
#[derive(Clone, Copy)]
struct Wanted {
    /// The kind of line.
    kind: LineKind,
    /// The least number of stations.
    least: u32,
    /// The greatest number of stations.
    most: u32,
}

/// The report of the least product, with its certificate, behind what is told of the seeks. It is what the search found
/// of each question that the certificate solves.
fn optimal(
    alloc: Global,
    inst: &Instance,
    naming: &Naming,
    plan: &Plan,
    cert: EfficCert,
    seeks: Seeks,
) -> Result<Report, AllocError>
    requires { IsSayable cert }
    ensures { IfOk result (λ r. (kind : Kind) → (least most : ℕ)
        → IsSolved kind inst.now least most plan.now cert seeks.kept → AreSeeks plan.now seeks
        → IsFound (least_product naming.now kind inst.now least most plan.now) r.status r.text.items r.kept) }
{
    let idle = idle_of(inst, cert.cycle, cert.balance.stations);
    let first = seek_text(alloc, plan.seek, seeks.used, seeks.most, seeks.kept)?;
    let text = optimal_text(alloc, first, naming, &cert, idle)?;
    Ok(Report {
        status: Status::Done,
        text,
        kept: Kept::Product(cert),
    })
}

/// The report of a search that stopped, with its certificate, behind what is told of the seeks. It is what the search
/// found of each question that it stopped at so.
fn stopped(
    alloc: Global,
    inst: &Instance,
    naming: &Naming,
    plan: &Plan,
    why: Ended,
    cert: EfficCert,
    seeks: Seeks,
) -> Result<Report, AllocError>
    requires { IsSayable cert }
    ensures { IfOk result (λ r. (kind : Kind) → (least most closing_from : ℕ)
        → StoppedBy why kind inst.now least most plan.now cert closing_from seeks.kept → AreSeeks plan.now seeks
        → IsFound (least_product naming.now kind inst.now least most plan.now) r.status r.text.items r.kept) }
{
    let idle = idle_of(inst, cert.cycle, cert.balance.stations);
    let first = seek_text(alloc, plan.seek, seeks.used, seeks.most, seeks.kept)?;
    let text = stopped_text(alloc, first, naming, why, &cert, idle)?;
    Ok(Report {
        status: Status::Stopped,
        text,
        kept: Kept::Product(cert),
    })
}

/// What is reported of a line, with a certificate; or the bounds, where memory ended the search.
fn found<R: Threads + Wait + Sync, G: Gate>(
    rt: &R,
    alloc: Global,
    inst: &Instance,
    naming: &Naming,
    wanted: Wanted,
    plan: &Plan,
    gate: &G,
) -> Result<Report, EarlyEnd>
    requires none { NoneApart inst.now }
    requires some { 1 ≤ wanted.least }
    requires order { wanted.least ≤ wanted.most }
    requires few { wanted.most ≤ 1024 }
    requires plan { IsPlan plan.now }
    ensures answer { let s = least_product naming.now wanted.kind inst.now wanted.least wanted.most plan.now in
        MatchResult result (λ r. IsFound s r.status r.text.items r.kept) (Stops (IsCutShort s)) }
    ensures fault { MatchResult result (λ _. Unit {0}) (MayStop ⊥) }
{
    let room = room_for_bounds(alloc)?;
    let Wanted { kind, least, most } = wanted;
    match least_product(rt, alloc, inst, kind, least, most, plan, gate) {
        EfficOutcome::Solved { cert, seeks } => {
            Ok(optimal(alloc, inst, naming, plan, cert, seeks)?)
        }
        EfficOutcome::Stopped {
            why,
            cert,
            closing_from: _,
            seeks,
        } => Ok(stopped(alloc, inst, naming, plan, why, cert, seeks)?),
        EfficOutcome::Memory { lower, upper } => Err(cut_short(room, lower, upper)?),
        EfficOutcome::NoMemory => Err(EarlyEnd::Memory),
    }
}

/// Writes the certificate of a report where the words name a file, and hands the report on.
fn write_certificate<S: Shelf>(
    alloc: Global,
    shelf: &mut S,
    name: Option<&str>,
    report: Report,
) -> Result<Report, EarlyEnd>
    requires sayable { (certificate : Proof) → report.kept ≡ Certified certificate → IsSayable certificate }
    ensures ends { S.tells → (files : Files) → Stay files (S.file shelf.old)
        → (cert : Proof) → report.kept ≡ Certified cert
        → Ends (outside files (S.blames shelf.new))
        (λ out. out ≡ outcome_of report (page_of (option_map (λ a. a.now) name.entry) (product_text cert)))
        (S.file shelf.new) result }
    ensures same { IfOk result (λ r. r ≡ report) }
    ensures certificate { S.tells → IfOk result (λ r. (cert : Proof) → r.kept ≡ Certified cert
        → HasText (option_map (λ a. a.now) name.entry) (S.file shelf.new) (product_text cert)) }
    ensures fault { MatchResult result (λ _. Unit {0})
        (MayEnd (Rises (S.fetch_faults shelf.old) (S.fetch_faults shelf.new))
        (Rises (S.write_faults shelf.old) (S.write_faults shelf.new))) }
    ensures unwritten { result ≡ Err Unwritten → (n : List ℕ) × (option_map (λ a. a.now) name.entry ≡ Some n) }
    ensures count { S.write_faults shelf.old ≤ S.write_faults shelf.new }
    ensures fetches { S.fetch_faults shelf.new ≡ S.fetch_faults shelf.old }
{
    let name = match name {
        None => return Ok(report),
        Some(name) => name,
    };
    let Kept::Product(cert) = &report.kept else {
        return Ok(report);
    };
    let text = write_effic(alloc, cert)?;
    match write_whole(shelf, name, &text) {
        Written::Done => Ok(report),
        Written::WriteFault => Err(EarlyEnd::Unwritten),
    }
}

/// The report of `effic` for the file of an instance, the kind of line, the least and the greatest number of stations,
/// 1 to 1,024, the plan, and the name of the file that the certificate is written to, where there is one. Helpers run
/// in threads and meet the gate before each publish.
pub fn effic_report<R: Threads + Wait + Sync, S: Shelf, G: Gate>(
    rt: &R,
    alloc: Global,
    file: &str,
    kind: LineKind,
    least_m: u32,
    most_m: u32,
    plan: &Plan,
    name: Option<&str>,
    shelf: &mut S,
    gate: &G,
) -> Result<Report, EarlyEnd>
    requires some { 1 ≤ least_m }
    requires order { least_m ≤ most_m }
    requires few { most_m ≤ 1024 }
    requires plan { IsPlan plan.now }
    ensures ends { S.tells → (let o = outside (S.file shelf.old) (S.blames shelf.new) in
        Ends o (IsEfficOutcome o file.now kind least_m most_m plan.now
        (option_map (λ a. a.now) name.entry))
        (S.file shelf.new) result) }
    ensures good { IfOk result (λ r. IsSearchStatus r.status) }
    ensures fault { MatchResult result (λ _. Unit {0})
        (MayEnd (Rises (S.fetch_faults shelf.old) (S.fetch_faults shelf.new))
        (Rises (S.write_faults shelf.old) (S.write_faults shelf.new))) }
    ensures unwritten { result ≡ Err Unwritten → (n : List ℕ) × (option_map (λ a. a.now) name.entry ≡ Some n) }
    ensures promise { S.tells → IfOk result (λ r.
        IsEfficPromised (S.file shelf.old) (S.file shelf.new) file.now kind least_m most_m plan.now
        (option_map (λ a. a.now) name.entry) r.status r.text.items r.kept) }
{
    let plain = plain_line(alloc, file, shelf)?;
    let wanted = Wanted {
        kind,
        least: least_m,
        most: most_m,
    };
    let report = found(rt, alloc, &plain.inst, &plain.naming, wanted, plan, gate)?;
    write_certificate(alloc, shelf, name, report)
}
