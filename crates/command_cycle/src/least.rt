//! What `cycle` answers of a line, and of a file that says one.
ghost use Rattle.std.specs.Prelude.{◌≡◌, ◌≤◌, ℕ, List, Some, Err, IfOk, MatchResult, option_map};
ghost use Rattle.line_io.specs.Outside.{Rises};
ghost use Rattle.command_outcome.specs.Found.{IsCutShort, IsFound, IsSearchStatus};
ghost use Rattle.command_outcome.specs.Outcome.{Ends, MayEnd, Stops, MayStop, outside};
ghost use Rattle.command_outcome.specs.declared.report.EarlyEnd.TheVariants.{Unwritten};
ghost use Rattle.cycle_search.specs.rounds.Plans.{IsPlan};
ghost use Rattle.cycle_search.specs.Ends.{NoneApart};
ghost use Rattle.cycle_search.specs.Outcomes.{IsSolved, IsSpent};
ghost use Rattle.cycle_search.specs.Seek.{AreSeeks};
ghost use Rattle.command_cycle.specs.Found.{IsCycleOutcome, IsCyclePromised, least_cycle};

use crate::print_cycle::{optimal_text, stopped_text};
use command_outcome::{EarlyEnd, Kept, Report, Status, cut_short, room_for_bounds, seek_text};
use cycle_search::{
    Cause, CycleOutcome, Gate, Plan, Seeks, certify_cycle, certify_cycle_stop, least_cycle,
};
use input_files::plain_line;
use line_instance::Instance;
use line_io::Shelf;
use line_rules::{Balance, Entries, LineKind, Trail};
use solution_page::write_certificate;
use station_report::idle_of;
use std::alloc::{AllocError, Global};
use std::sync::Wait;
use std::thread::Threads;
use task_names::Naming;

/// The report of the least cycle, with its certificate, behind what is told of the seeks.
fn optimal(
    alloc: Global,
    inst: &Instance,
    naming: &Naming,
    kind: LineKind,
    stations: u32,
    plan: &Plan,
    cycle: u64,
    balance: Balance,
    entries: Entries,
    seeks: Seeks,
) -> Result<Report, AllocError>
    requires some { 1 ≤ stations }
    requires few { stations ≤ 1024 }
    requires plan { IsPlan plan.now }
    requires solved { IsSolved kind inst.now stations plan.now cycle balance entries }
    requires seeks { AreSeeks plan.now seeks }
    ensures { IfOk result (λ r.
        IsFound (least_cycle naming.now kind inst.now stations plan.now) r.status r.text.items r.kept) }
{
    let _tasks = inst.tasks();
    let idle = idle_of(inst, cycle, stations);
    let first = seek_text(alloc, plan.seek, seeks.used, seeks.most, seeks.kept)?;
    let text = optimal_text(alloc, first, cycle, naming, &balance, kind, idle)?;
    let certificate = certify_cycle(alloc, inst, kind, stations, cycle, balance, entries)?;
    Ok(Report {
        status: Status::Done,
        text,
        kept: Kept::Line(certificate),
    })
}

/// The report of a search whose units ended, with its certificate, behind what is told of the seeks.
fn stopped(
    alloc: Global,
    inst: &Instance,
    naming: &Naming,
    kind: LineKind,
    stations: u32,
    plan: &Plan,
    lower: u64,
    upper: u64,
    balance: Balance,
    entries: Entries,
    trail: Trail,
    seeks: Seeks,
) -> Result<Report, AllocError>
    requires some { 1 ≤ stations }
    requires few { stations ≤ 1024 }
    requires plan { IsPlan plan.now }
    requires spent { (closing_from : ℕ)
        × IsSpent kind inst.now stations plan.now lower upper balance entries trail closing_from }
    requires seeks { AreSeeks plan.now seeks }
    ensures { IfOk result (λ r.
        IsFound (least_cycle naming.now kind inst.now stations plan.now) r.status r.text.items r.kept) }
{
    let _tasks = inst.tasks();
    let idle = idle_of(inst, upper, stations);
    let first = seek_text(alloc, plan.seek, seeks.used, seeks.most, seeks.kept)?;
    let text = stopped_text(alloc, first, lower, upper, naming, &balance, kind, idle)?;
    let certificate = certify_cycle_stop(
        inst, kind, stations, lower, upper, balance, entries, trail,
    );
    Ok(Report {
        status: Status::Stopped,
        text,
        kept: Kept::Line(certificate),
    })
}

/// What is reported of a line of this kind in so many stations, with a certificate; or the bounds, where memory ended
/// the search.
fn found<R: Threads + Wait + Sync, G: Gate>(
    rt: &R,
    alloc: Global,
    inst: &Instance,
    naming: &Naming,
    kind: LineKind,
    stations: u32,
    plan: &Plan,
    gate: &G,
) -> Result<Report, EarlyEnd>
    requires none { NoneApart inst.now }
    requires some { 1 ≤ stations }
    requires few { stations ≤ 1024 }
    requires plan { IsPlan plan.now }
    ensures answer { MatchResult result
        (λ r. IsFound (least_cycle naming.now kind inst.now stations plan.now) r.status r.text.items r.kept)
        (Stops (IsCutShort (least_cycle naming.now kind inst.now stations plan.now))) }
    ensures fault { MatchResult result (λ _. Unit {0}) (MayStop ⊥) }
{
    let _tasks = inst.tasks();
    let room = room_for_bounds(alloc)?;
    match least_cycle(rt, alloc, inst, kind, stations, plan, gate) {
        CycleOutcome::Solved {
            cycle,
            balance,
            entries,
            seeks,
        } => Ok(optimal(
            alloc, inst, naming, kind, stations, plan, cycle, balance, entries, seeks,
        )?),
        CycleOutcome::Stopped {
            cause,
            lower,
            upper,
            balance,
            entries,
            trail,
            closing_from: _,
            seeks,
        } => match cause {
            Cause::Units => Ok(stopped(
                alloc, inst, naming, kind, stations, plan, lower, upper, balance, entries, trail,
                seeks,
            )?),
            Cause::Memory => Err(cut_short(room, lower as u128, upper as u128)?),
        },
        CycleOutcome::NoMemory => Err(EarlyEnd::Memory),
    }
}

/// The report of `cycle` for the file of an instance, the kind of line, 1 to 1,024 stations, the plan, and the name of
/// the file that the certificate is written to, where there is one. Helpers run in threads and meet the gate before
/// each publish.
pub fn cycle_report<R: Threads + Wait + Sync, S: Shelf, G: Gate>(
    rt: &R,
    alloc: Global,
    file: &str,
    kind: LineKind,
    stations: u32,
    plan: &Plan,
    name: Option<&str>,
    shelf: &mut S,
    gate: &G,
) -> Result<Report, EarlyEnd>
    requires some { 1 ≤ stations }
    requires few { stations ≤ 1024 }
    requires plan { IsPlan plan.now }
    ensures ends { S.tells → (let o = outside (S.file shelf.old) (S.blames shelf.new) in
        Ends o (IsCycleOutcome o file.now kind stations plan.now
        (option_map (λ a. a.now) name.entry))
        (S.file shelf.new) result) }
    ensures good { IfOk result (λ r. IsSearchStatus r.status) }
    ensures fault { MatchResult result (λ _. Unit {0})
        (MayEnd (Rises (S.fetch_faults shelf.old) (S.fetch_faults shelf.new))
        (Rises (S.write_faults shelf.old) (S.write_faults shelf.new))) }
    ensures unwritten { result ≡ Err Unwritten → (n : List ℕ) × (option_map (λ a. a.now) name.entry ≡ Some n) }
    ensures promise { S.tells → IfOk result (λ r.
        IsCyclePromised (S.file shelf.old) (S.file shelf.new) file.now kind stations plan.now
        (option_map (λ a. a.now) name.entry) r.status r.text.items r.kept) }
{
    let plain = plain_line(alloc, file, shelf)?;
    let report = found(
        rt,
        alloc,
        &plain.inst,
        &plain.naming,
        kind,
        stations,
        plan,
        gate,
    )?;
    write_certificate(alloc, shelf, name, report)
}
