//! What `solve` answers of a line, and of files that say one.
ghost use Rattle.std.specs.Prelude.{◌≡◌, ◌≤◌, ℕ, List, [], Option, string_bytes, Some, Err, IfOk};
ghost use Rattle.std.specs.Prelude.{◌+◌, ◌*◌, length, MatchResult, option_map};
ghost use Rattle.std.specs.Option.{ForSome};
ghost use Rattle.line_io.specs.Outside.{Rises};
ghost use Rattle.line_instance.specs.Line.{tasks};
ghost use Rattle.line_rules.specs.Bounds.{IsTooLong};
ghost use Rattle.line_rules.specs.Checked.{IsLeastWhere};
ghost use Rattle.line_rules.specs.Ranked.{IsRankedBalance};
ghost use Rattle.line_rules.specs.Ranges.{AreEntries, IsCycle};
ghost use Rattle.line_rules.specs.declared.types.Balance.{Balance as Assignment};
ghost use Rattle.line_rules.specs.declared.types.Entry.{Entry as Lemma};
ghost use Rattle.line_rules.specs.declared.types.OpenFrame.{OpenFrame};
ghost use Rattle.lemma_core.specs.Books.{BookView, MayBeBest};
ghost use Rattle.line_words.specs.Ranges.{IsCycleTimeOrNone};
ghost use Rattle.round_run.specs.Plans.{IsPlan};
ghost use Rattle.round_run.specs.declared.plans.Plan.{Plan as PlanOf};
ghost use Rattle.round_run.specs.Solving.{FitsAll, IsSolvedFrom, IsSpentFrom, IsCutShortFrom};
ghost use Rattle.round_run.specs.Certified.{LeaveRoom};
ghost use Rattle.command_outcome.specs.Found.{IsFound, IsCutShort, IsSearchStatus};
ghost use Rattle.command_outcome.specs.Outcome.{Ends, MayEnd, Stops, MayStop, outside};
ghost use Rattle.command_outcome.specs.declared.report.EarlyEnd.TheVariants.{Unwritten};
ghost use Rattle.command_solve.specs.Effort.{IsEffort};
ghost use Rattle.command_solve.specs.inner.Begun.{IsBegun};
ghost use Rattle.command_solve.specs.inner.Reports.{IsOptimalReport};
ghost use Rattle.command_solve.specs.inner.Said.{search_of};
ghost use Rattle.command_solve.specs.WarmStart.{Start};
ghost use Rattle.command_solve.specs.Solution.{fewest_stations, IsPromised, IsSolveOutcome};
ghost use Rattle.task_names.specs.declared.naming.Naming.{Naming as NamingOf};

use crate::effort::Effort;
use crate::first_search::{FirstSearch, search_first};
use crate::print_solution::{optimal_text, stopped_text};
use crate::said::{Said, said_of};
use crate::warm_start::{Begun, begin, warm_up};
use command_outcome::{EarlyEnd, Kept, Report, Status, cut_short, room_for_bounds};
use first_fit::{Ranked, ranked_balance};
use input_files::Timed;
use lemma_core::Book;
use line_instance::Instance;
use line_io::Shelf;
use line_rules::{Balance, Entries, Frames, LineKind};
use round_run::{
    Cause, Gate, Outcome, Plan, certify_too_long, certify_warm_optimum, certify_warm_stop,
    solve_from,
};
use solution_page::write_certificate;
use station_report::{idle_of, infeasible_line};
use std::alloc::{AllocError, Global};
use std::sync::Wait;
use std::thread::Threads;
use task_names::Naming;

/// The report of a search that was solved, behind these first lines, with its certificate.
fn optimal(
    alloc: Global,
    inst: &Instance,
    naming: &Naming,
    kind: LineKind,
    cycle: u64,
    first: String,
    book: Book,
) -> Result<Report, AllocError>
    requires cycle { IsCycle cycle }
    requires solved { (before : List Lemma) × (plan : PlanOf) × LeaveRoom inst.now plan.units before
        × IsSolvedFrom kind inst.now cycle plan before book }
    ensures { IfOk result (λ r. (before : List Lemma) (plan : PlanOf) → LeaveRoom inst.now plan.units before
        → length before + 2 * plan.units ≤ 6101025 → IsSolvedFrom kind inst.now cycle plan before book
        → IsOptimalReport naming.now kind inst.now cycle plan before (string_bytes first) r.status r.text.items
        r.kept) }
{
    let _tasks = inst.tasks();
    let balance = book.best();
    let idle = idle_of(inst, cycle, balance.stations);
    let text = optimal_text(alloc, first, naming, balance, kind, idle)?;
    let certificate = certify_warm_optimum(alloc, inst, kind, cycle, book)?;
    Ok(Report {
        status: Status::Done,
        text,
        kept: Kept::Line(certificate),
    })
}

/// The report of a run whose units ended, with its certificate.
fn stopped(
    alloc: Global,
    inst: &Instance,
    naming: &Naming,
    kind: LineKind,
    cycle: u64,
    first: String,
    lower: u32,
    book: Book,
    trail: Frames,
) -> Result<Report, AllocError>
    requires cycle { IsCycle cycle }
    requires spent { (before : List Lemma) × (top : ℕ) × (plan : PlanOf)
        × IsSpentFrom kind inst.now cycle plan before top lower book trail }
    ensures { IfOk result (λ r. (start : Start) (old : BookView) (plan : PlanOf)
        → IsBegun kind inst.now cycle plan start old (string_bytes first)
        → IsSpentFrom kind inst.now cycle plan old.state.entries old.state.best.stations lower book trail
        → IsFound (fewest_stations naming.now kind inst.now cycle plan start) r.status r.text.items r.kept) }
{
    let _tasks = inst.tasks();
    let balance = book.best();
    let idle = idle_of(inst, cycle, balance.stations);
    let text = stopped_text(alloc, first, lower, naming, balance, kind, idle)?;
    Ok(Report {
        status: Status::Stopped,
        text,
        kept: Kept::Line(certify_warm_stop(inst, kind, cycle, lower, book, trail)),
    })
}

/// The report that a task is longer than the cycle, with its certificate.
fn infeasible(
    alloc: Global,
    inst: &Instance,
    naming: &Naming,
    kind: LineKind,
    cycle: u64,
    task: u32,
) -> Result<Report, AllocError>
    requires cycle { IsCycle cycle }
    requires long { IsLeastWhere (IsTooLong inst.now cycle) task }
    ensures { IfOk result (λ r. (start : Start) (plan : PlanOf)
        → IsFound (fewest_stations naming.now kind inst.now cycle plan start) r.status r.text.items r.kept) }
{
    let _tasks = inst.tasks();
    let text = infeasible_line(alloc, naming, task, inst.time(task))?;
    Ok(Report {
        status: Status::Done,
        text,
        kept: Kept::Line(certify_too_long(inst, kind, cycle, task)),
    })
}

/// The refusal of a run that memory ended, with its bounds.
fn ended_by_memory(
    inst: &Instance,
    kind: LineKind,
    cycle: u64,
    room: String,
    lower: u32,
    book: &Book,
) -> Result<EarlyEnd, AllocError>
    requires room { string_bytes room ≡ [] }
    requires stopped { (N : ℕ) × (before : List Lemma) × (top : ℕ) × (trail : List OpenFrame)
        × IsCutShortFrom kind inst.now cycle N before top lower book.now trail }
    requires ranked { (first : Assignment) × IsRankedBalance kind inst.now cycle first
        × (book.now.state.best.stations ≤ first.stations) }
    ensures answer { IfOk result (λ s. (naming : NamingOf) (plan : PlanOf) (start : Start)
        → Stops (IsCutShort (fewest_stations naming kind inst.now cycle plan start)) s) }
    ensures fault { IfOk result (MayStop ⊥) }
{
    let _tasks = inst.tasks();
    let _entries = book.entries();
    cut_short(room, lower as u128, book.best().stations as u128)
}

/// What is reported of a run that began so, with a certificate; or the bounds, where memory ended the search.
fn run<R: Threads + Wait + Sync, G: Gate>(
    rt: &R,
    alloc: Global,
    inst: &Instance,
    naming: &Naming,
    kind: LineKind,
    cycle: u64,
    begun: Begun,
    plan: &Plan,
    gate: &G,
    room: String,
) -> Result<Report, EarlyEnd>
    requires cycle { IsCycle cycle }
    requires fits { FitsAll inst.now cycle }
    requires plan { IsPlan plan.now }
    requires room { string_bytes room ≡ [] }
    requires begun { (start : Start)
        × IsBegun kind inst.now cycle plan.now start begun.book (string_bytes begun.first) }
    ensures answer { (start : Start)
        → IsBegun kind inst.now cycle plan.now start begun.book (string_bytes begun.first)
        → let asked = fewest_stations naming.now kind inst.now cycle plan.now start in MatchResult result
        (λ r. IsFound asked r.status r.text.items r.kept) (Stops (IsCutShort asked)) }
    ensures fault { MatchResult result (λ _. Unit {0}) (MayStop ⊥) }
{
    let Begun { book, first } = begun;
    match solve_from(rt, alloc, inst, book, plan, gate) {
        Outcome::TooLong(_) => unreachable!(),
        Outcome::Solved { book } => Ok(optimal(alloc, inst, naming, kind, cycle, first, book)?),
        Outcome::Stopped {
            cause,
            lower,
            book,
            trail,
        } => match cause {
            Cause::Units => Ok(stopped(
                alloc, inst, naming, kind, cycle, first, lower, book, trail,
            )?),
            Cause::Memory => Err(ended_by_memory(inst, kind, cycle, room, lower, &book)?),
        },
        Outcome::NoMemory => Err(EarlyEnd::Memory),
    }
}

/// What is reported of a line that has a balance, with a certificate; or the bounds, where memory ended a search. The
/// run goes in turns: the old entries are taken in, and then come a first search and a seek, where the effort has them,
/// and the search of the plan.
fn take_turns<R: Threads + Wait + Sync, G: Gate>(
    rt: &R,
    alloc: Global,
    inst: &Instance,
    naming: &Naming,
    kind: LineKind,
    cycle: u64,
    best: Balance,
    olds: Option<Entries>,
    effort: Effort,
    plan: &Plan,
    gate: &G,
    room: String,
) -> Result<Report, EarlyEnd>
    requires cycle { IsCycle cycle }
    requires fits { FitsAll inst.now cycle }
    requires best { MayBeBest (record { line = inst.now; kind = kind; cycle = cycle }) best }
    requires ranked { IsRankedBalance kind inst.now cycle best }
    requires range { ForSome olds (AreEntries (tasks inst.now)) }
    requires effort { IsEffort effort }
    requires plan { IsPlan plan.now }
    requires room { string_bytes room ≡ [] }
    ensures answer { let start : Start = record { olds = olds; effort = effort } in
        let asked = fewest_stations naming.now kind inst.now cycle plan.now start in MatchResult result
        (λ r. IsFound asked r.status r.text.items r.kept) (Stops (IsCutShort asked)) }
    ensures fault { MatchResult result (λ _. Unit {0}) (MayStop ⊥) }
{
    let taken = warm_up(rt, alloc, inst, kind, cycle, best, olds, plan)?;
    match search_first(rt, alloc, inst, taken, effort, plan, gate) {
        FirstSearch::Solved { book, first } => {
            Ok(optimal(alloc, inst, naming, kind, cycle, first, book)?)
        }
        FirstSearch::Open(taken) => {
            let begun = begin(rt, alloc, inst, taken, effort, plan)?;
            run(
                rt, alloc, inst, naming, kind, cycle, begun, plan, gate, room,
            )
        }
        FirstSearch::Memory { lower, book } => {
            Err(ended_by_memory(inst, kind, cycle, room, lower, &book)?)
        }
        FirstSearch::NoMemory => Err(EarlyEnd::Memory),
    }
}

/// What is reported of the line and the cycle time that the files say, with a certificate; or the bounds, where memory
/// ended a search.
fn solution<R: Threads + Wait + Sync, G: Gate>(
    rt: &R,
    alloc: Global,
    said: Said,
    kind: LineKind,
    effort: Effort,
    plan: &Plan,
    gate: &G,
) -> Result<Report, EarlyEnd>
    requires cycle { IsCycle said.timed.cycle }
    requires effort { IsEffort effort }
    requires plan { IsPlan plan.now }
    requires range { ForSome said.olds (AreEntries (tasks said.timed.inst)) }
    ensures answer { let asked = search_of said kind effort plan.now in MatchResult result
        (λ r. IsFound asked r.status r.text.items r.kept) (Stops (IsCutShort asked)) }
    ensures fault { MatchResult result (λ _. Unit {0}) (MayStop ⊥) }
{
    let Said { timed, olds } = said;
    let Timed {
        inst,
        cycle,
        naming,
    } = timed;
    let inst = &inst;
    let room = room_for_bounds(alloc)?;
    let best = match ranked_balance(alloc, inst, kind, cycle) {
        Ranked::Good(best) => best,
        Ranked::TooLong(task) => return Ok(infeasible(alloc, inst, &naming, kind, cycle, task)?),
        Ranked::NoMemory => return Err(EarlyEnd::Memory),
    };
    take_turns(
        rt, alloc, inst, &naming, kind, cycle, best, olds, effort, plan, gate, room,
    )
}

/// The report of `solve` for the file of an instance, the file of the tasks that are apart, where there is one, the
/// file of an old certificate with whose entries the run begins, where there is one, what the run spends before its
/// search, the cycle time of the words, where they have one, the kind of line, the plan of the search, and the name of
/// the file that the certificate is written to, where there is one.
pub fn solve_report<R: Threads + Wait + Sync, S: Shelf, G: Gate>(
    rt: &R,
    alloc: Global,
    file: &str,
    apart: Option<&str>,
    warm: Option<&str>,
    effort: Effort,
    word: Option<u64>,
    kind: LineKind,
    plan: &Plan,
    name: Option<&str>,
    shelf: &mut S,
    gate: &G,
) -> Result<Report, EarlyEnd>
    requires word { IsCycleTimeOrNone word }
    requires effort { IsEffort effort }
    requires plan { IsPlan plan.now }
    ensures ends { S.tells → (let o = outside (S.file shelf.old) (S.blames shelf.new) in
        Ends o (IsSolveOutcome o file.now (option_map (λ a. a.now) apart.entry) (option_map (λ a. a.now) warm.entry)
        effort word kind plan.now (option_map (λ a. a.now) name.entry)) (S.file shelf.new) result) }
    ensures good { IfOk result (λ r. IsSearchStatus r.status) }
    ensures fault { MatchResult result (λ _. Unit {0})
        (MayEnd (Rises (S.fetch_faults shelf.old) (S.fetch_faults shelf.new))
        (Rises (S.write_faults shelf.old) (S.write_faults shelf.new))) }
    ensures unwritten { result ≡ Err Unwritten → (n : List ℕ) × (option_map (λ a. a.now) name.entry ≡ Some n) }
    ensures promise { S.tells → IfOk result (λ r.
        IsPromised (S.file shelf.old) (S.file shelf.new) file.now (option_map (λ a. a.now) apart.entry)
        (option_map (λ a. a.now) warm.entry) effort word kind plan.now (option_map (λ a. a.now) name.entry) r.status
        r.text.items r.kept) }
{
    let said = said_of(alloc, file, apart, warm, word, kind, shelf)?;
    let report = solution(rt, alloc, said, kind, effort, plan, gate)?;
    write_certificate(alloc, shelf, name, report)
}
