//! What `balance` answers of a line, and of files that say one.
ghost use Rattle.std.specs.Prelude.{◌≡◌, ◌≤◌, ℕ, List, IfOk, MatchResult, option_map};
ghost use Rattle.line_io.specs.Outside.{Rises};
ghost use Rattle.line_words.specs.Ranges.{IsCycleTimeOrNone};
ghost use Rattle.command_outcome.specs.Outcome.{Stops, MayStop, outside, told, Ends};
ghost use Rattle.command_outcome.specs.declared.report.Kept.TheVariants.{Nothing};
ghost use Rattle.command_outcome.specs.declared.status.Status.TheVariants as ends;
ghost use Rattle.command_balance.specs.Balance.{IsAnswer, IsBalanceOutcome};

use crate::print_balance::balance_report_text;
use command_outcome::{EarlyEnd, Report, Status};
use first_fit::{Ranked, ranked_balance};
use input_files::said_instance;
use line_instance::Instance;
use line_io::Shelf;
use line_rules::LineKind;
use lower_bounds::total_bound;
use station_report::{idle_of, infeasible_line};
use std::alloc::{AllocError, Global};
use task_names::Naming;

/// The text of the answer to an instance, as a line of this kind, at a cycle time.
fn answer(
    alloc: Global,
    inst: &Instance,
    naming: &Naming,
    kind: LineKind,
    cycle: u64,
) -> Result<Vec<u8>, AllocError>
    requires some { 1 ≤ cycle }
    requires limit { cycle ≤ 1000000000000000000 }
    ensures { IfOk result (λ t. IsAnswer naming.now kind inst.now cycle (told ends.Done t.items)) }
{
    let _tasks = inst.tasks();
    match ranked_balance(alloc, inst, kind, cycle) {
        Ranked::Good(balance) => {
            let bound = total_bound(inst, cycle);
            let idle = idle_of(inst, cycle, balance.stations);
            balance_report_text(alloc, naming, &balance, kind, bound, idle)
        }
        Ranked::TooLong(task) => infeasible_line(alloc, naming, task, inst.time(task)),
        Ranked::NoMemory => Err(AllocError),
    }
}

/// The report of `balance` for the file of an instance, the file of the tasks that are apart, where there is one, the
/// cycle time of the words, where they have one, and the kind of line.
pub fn balance_report<S: Shelf>(
    alloc: Global,
    file: &str,
    apart: Option<&str>,
    word: Option<u64>,
    kind: LineKind,
    shelf: &mut S,
) -> Result<Report, EarlyEnd>
    requires word { IsCycleTimeOrNone word }
    ensures ends { S.tells → Ends (outside (S.file shelf.old) (S.blames shelf.new))
        (IsBalanceOutcome (outside (S.file shelf.old) (S.blames shelf.new)) file.now
        (option_map (λ a. a.now) apart.entry) word kind) (S.file shelf.new) result }
    ensures good { IfOk result (λ r. r.status ≡ ends.Done) }
    ensures kept { IfOk result (λ r. r.kept ≡ Nothing) }
    ensures fault { MatchResult result (λ _. Unit {0})
        (MayStop (Rises (S.fetch_faults shelf.old) (S.fetch_faults shelf.new))) }
    ensures files { S.tells → (q : List ℕ) → S.file shelf.new q ≡ S.file shelf.old q }
{
    let timed = said_instance(alloc, file, apart, word, shelf)?;
    let text = answer(alloc, &timed.inst, &timed.naming, kind, timed.cycle)?;
    Ok(Report::told(Status::Done, text))
}
