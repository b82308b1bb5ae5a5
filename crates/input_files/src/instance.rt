//! Instances that the files of a command say: with the cycle time of the words or of the file, and the tasks apart.
ghost use Rattle.std.specs.Prelude.{◌≡◌, ◌≤◌, ◌↔◌, ℕ, List, Some, None, IfOk, MatchResult, option_map};
ghost use Rattle.line_io.specs.Outside.{Rises};
ghost use Rattle.line_instance.specs.Line.{Apart, tasks};
ghost use Rattle.line_instance.specs.Walks.{ArePairs, IsGiven};
ghost use Rattle.line_words.specs.Ranges.{IsCycleTime, IsCycleTimeOrNone};
ghost use Rattle.command_outcome.specs.Outcome.{Stops, MayStop, outside, told};
ghost use Rattle.command_outcome.specs.declared.status.Status.TheVariants as ends;
ghost use Rattle.input_files.specs.Instance.{IsTimed, IsUntimedOrNone, IsPartedBy, IsUnparted, IsSaid, IsUnsaid};
ghost use Rattle.input_files.specs.Instance.{IsLineGiven, IsLineOf, IsNoLine, cycle_of, naming_of, no_cycle_line};
ghost use Rattle.task_names.specs.Naming.{FitTasks};
ghost use Rattle.input_files.specs.Sheet.{IsListedFrom, IsRightSheet, IsSheetFrom};

use crate::apart_pairs::pairs_of;
use crate::sheets::{Sheet, sheet_of};
use command_outcome::{EarlyEnd, Status, line_about, refuse};
use line_instance::{Instance, Prec};
use line_io::Shelf;
use std::alloc::Global;
use task_names::Naming;

/// An instance, the cycle time to balance it at, and what its tasks are called.
#[derive(Drop)]
pub struct Timed {
    pub inst: Instance,
    pub cycle: u64,
    pub naming: Naming,
}

/// An instance as its sheet has it: what its tasks are called, the mark between the fields, and whether a byte-order
/// mark stands before them.
#[derive(Drop)]
pub struct Listed {
    pub inst: Instance,
    pub cycle: Option<u64>,
    pub naming: Naming,
    pub mark: u8,
    pub bom: bool,
}

/// The cycle time of the words, and else that of the file.
fn cycle_for(
    alloc: Global,
    file: &str,
    word: Option<u64>,
    given: Option<u64>,
) -> Result<u64, EarlyEnd>
    requires word { IsCycleTimeOrNone word }
    requires given { IsCycleTimeOrNone given }
    ensures cycle { MatchResult result (λ c. cycle_of word given ≡ Some c)
        (Stops (λ out. (cycle_of word given ≡ None) × (out ≡ told ends.Input (no_cycle_line file.now)))) }
    ensures limit { IfOk result (λ c. IsCycleTime c) }
    ensures status { MatchResult result (λ _. Unit {0}) (MayStop ⊥) }
{
    match (word, given) {
        (Some(cycle), _) => Ok(cycle),
        (None, Some(cycle)) => Ok(cycle),
        (None, None) => {
            let text = line_about(alloc, "input: ", file, " no cycle time\n")?;
            Err(refuse(Status::Input, text))
        }
    }
}

/// A sheet, and the cycle time to balance its instance at.
#[derive(Drop)]
struct TimedSheet {
    sheet: Sheet,
    cycle: u64,
}

/// The sheet of a file, and its cycle time where the words have none.
fn timed_of<S: Shelf>(
    alloc: Global,
    file: &str,
    word: Option<u64>,
    shelf: &mut S,
) -> Result<TimedSheet, EarlyEnd>
    requires word { IsCycleTimeOrNone word }
    ensures said { S.tells → MatchResult result (λ t. IsTimed (S.file shelf.old) file.now word t.sheet.inst t.cycle)
        (Stops (IsUntimedOrNone (outside (S.file shelf.old) (S.blames shelf.new)) file.now word)) }
    ensures limit { IfOk result (λ t. IsCycleTime t.cycle) }
    ensures right { IfOk result (λ t. IsRightSheet t.sheet) }
    ensures sheet { S.tells → IfOk result (λ t. IsSheetFrom (S.file shelf.old file.now) t.sheet) }
    ensures fault { MatchResult result (λ _. Unit {0})
        (MayStop (Rises (S.fetch_faults shelf.old) (S.fetch_faults shelf.new))) }
    ensures count { S.fetch_faults shelf.old ≤ S.fetch_faults shelf.new }
    ensures writes { S.write_faults shelf.new ≡ S.write_faults shelf.old }
    ensures files { S.tells → (q : List ℕ) → S.file shelf.new q ≡ S.file shelf.old q }
{
    let sheet = sheet_of(alloc, file, shelf)?;
    let cycle = cycle_for(alloc, file, word, sheet.cycle)?;
    Ok(TimedSheet { sheet, cycle })
}

/// The line of which these pairs are apart with the tasks apart that a file says besides, where there is one.
fn part<S: Shelf>(
    alloc: Global,
    inst: Instance,
    listed: Vec<Prec>,
    apart: Option<&str>,
    shelf: &mut S,
) -> Result<Instance, EarlyEnd>
    requires pairs { ArePairs (tasks inst) listed.items }
    requires given { (i j : ℕ) → Apart inst i j ↔ IsGiven listed.items i j }
    ensures said { S.tells → MatchResult result (IsPartedBy (S.file shelf.old) (option_map (λ a. a.now) apart.entry)
        inst) (Stops (IsUnparted (outside (S.file shelf.old) (S.blames shelf.new)) (option_map (λ a. a.now) apart.entry)
        inst)) }
    ensures many { IfOk result (λ l. tasks l ≡ tasks inst) }
    ensures fault { MatchResult result (λ _. Unit {0})
        (MayStop (Rises (S.fetch_faults shelf.old) (S.fetch_faults shelf.new))) }
    ensures count { S.fetch_faults shelf.old ≤ S.fetch_faults shelf.new }
    ensures writes { S.write_faults shelf.new ≡ S.write_faults shelf.old }
    ensures files { S.tells → (q : List ℕ) → S.file shelf.new q ≡ S.file shelf.old q }
{
    let Some(apart) = apart else {
        return Ok(inst);
    };
    let mut inst = inst;
    let pairs = pairs_of(alloc, apart, inst.tasks(), shelf)?;
    let mut all = listed;
    all.extend_from_slice(&pairs)?;
    inst.set_apart(&all);
    Ok(inst)
}

/// The instance that the files of a command say, the cycle time to balance it at, and what its tasks are called.
pub fn said_instance<S: Shelf>(
    alloc: Global,
    file: &str,
    apart: Option<&str>,
    word: Option<u64>,
    shelf: &mut S,
) -> Result<Timed, EarlyEnd>
    requires word { IsCycleTimeOrNone word }
    ensures said { S.tells → MatchResult result (λ t. IsSaid (S.file shelf.old) file.now
        (option_map (λ a. a.now) apart.entry) word t.inst t.cycle)
        (Stops (IsUnsaid (outside (S.file shelf.old) (S.blames shelf.new)) file.now
        (option_map (λ a. a.now) apart.entry) word)) }
    ensures limit { IfOk result (λ t. IsCycleTime t.cycle) }
    ensures naming { S.tells → IfOk result (λ t. t.naming ≡ naming_of (S.file shelf.old) file.now) }
    ensures fault { MatchResult result (λ _. Unit {0})
        (MayStop (Rises (S.fetch_faults shelf.old) (S.fetch_faults shelf.new))) }
    ensures count { S.fetch_faults shelf.old ≤ S.fetch_faults shelf.new }
    ensures writes { S.write_faults shelf.new ≡ S.write_faults shelf.old }
    ensures files { S.tells → (q : List ℕ) → S.file shelf.new q ≡ S.file shelf.old q }
{
    let TimedSheet { sheet, cycle } = timed_of(alloc, file, word, shelf)?;
    let inst = part(alloc, sheet.inst, sheet.pairs, apart, shelf)?;
    Ok(Timed {
        inst,
        cycle,
        naming: sheet.naming,
    })
}

/// The line that the files of a command say, whatever the cycle time, as its sheet has it.
pub fn listed_line<S: Shelf>(
    alloc: Global,
    file: &str,
    apart: Option<&str>,
    shelf: &mut S,
) -> Result<Listed, EarlyEnd>
    ensures said { S.tells → MatchResult result (λ l. IsLineGiven (S.file shelf.old) file.now
        (option_map (λ a. a.now) apart.entry) l.inst l.cycle)
        (Stops (IsNoLine (outside (S.file shelf.old) (S.blames shelf.new))
        file.now (option_map (λ a. a.now) apart.entry))) }
    ensures limit { IfOk result (λ l. IsCycleTimeOrNone l.cycle) }
    ensures names { IfOk result (λ l. FitTasks l.naming (tasks l.inst)) }
    ensures sheet { S.tells → IfOk result (IsListedFrom (S.file shelf.old file.now)) }
    ensures fault { MatchResult result (λ _. Unit {0})
        (MayStop (Rises (S.fetch_faults shelf.old) (S.fetch_faults shelf.new))) }
    ensures count { S.fetch_faults shelf.old ≤ S.fetch_faults shelf.new }
    ensures writes { S.write_faults shelf.new ≡ S.write_faults shelf.old }
    ensures files { S.tells → (q : List ℕ) → S.file shelf.new q ≡ S.file shelf.old q }
{
    let sheet = sheet_of(alloc, file, shelf)?;
    let inst = part(alloc, sheet.inst, sheet.pairs, apart, shelf)?;
    Ok(Listed {
        inst,
        cycle: sheet.cycle,
        naming: sheet.naming,
        mark: sheet.mark,
        bom: sheet.bom,
    })
}

/// The line that the files of a command say, whatever the cycle time.
pub fn line_of<S: Shelf>(
    alloc: Global,
    file: &str,
    apart: Option<&str>,
    shelf: &mut S,
) -> Result<Instance, EarlyEnd>
    ensures said { S.tells → MatchResult result (IsLineOf (S.file shelf.old) file.now
        (option_map (λ a. a.now) apart.entry)) (Stops (IsNoLine (outside (S.file shelf.old) (S.blames shelf.new))
        file.now (option_map (λ a. a.now) apart.entry))) }
    ensures fault { MatchResult result (λ _. Unit {0})
        (MayStop (Rises (S.fetch_faults shelf.old) (S.fetch_faults shelf.new))) }
    ensures count { S.fetch_faults shelf.old ≤ S.fetch_faults shelf.new }
    ensures writes { S.write_faults shelf.new ≡ S.write_faults shelf.old }
    ensures files { S.tells → (q : List ℕ) → S.file shelf.new q ≡ S.file shelf.old q }
{
    let listed = listed_line(alloc, file, apart, shelf)?;
    Ok(listed.inst)
}
