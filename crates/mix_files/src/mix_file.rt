//! Mixes of files, and the lines that they combine to.
//!
//! The records of a mix are read in one pass, and the models are summed task by task.
ghost use Rattle.std.specs.Prelude.{◌≡◌, ◌≤◌, ◌*◌, ℕ, List, IfOk, MatchResult};
ghost use Rattle.line_io.specs.Outside.{Rises};
ghost use Rattle.combined_graph.specs.Combined.{IsCombined, total_demand};
ghost use Rattle.command_outcome.specs.Outcome.{Stops, MayStop, outside};
ghost use Rattle.input_files.specs.InputFile.{fault_line};
ghost use Rattle.mix_files.specs.MixFile.{IsMixFile, IsNoMix, IsCombinedFile, IsUncombined, IsCyclic, kind_text};
ghost use Rattle.mix_files.specs.MixFile.{fault_text, cycle_text};

use combined_graph::{Combined, Mix, MixFault, MixKind, MixRead, combine, read_mix};
use command_outcome::{EarlyEnd, Status, refuse};
use in2_reader::RingTasks;
use input_files::{fault_line_of, fetch};
use line_instance::{Instance, Ring};
use line_io::Shelf;
use std::alloc::{AllocError, Global};

/// A mix, and the line that it combines to.
#[derive(Drop)]
pub struct CombinedMix {
    pub mix: Mix,
    pub line: Instance,
    /// How many units are wanted of all models together, at most 160,000.
    pub demand: u64,
}

/// What is wrong with a record of a mix.
fn kind_text(kind: MixKind) -> &'static str
    ensures { result.now ≡ kind_text kind }
{
    match kind {
        MixKind::Form => "form",
        MixKind::Range => "range",
        MixKind::RepeatedModel => "repeated model",
        MixKind::UnknownModel => "unknown model",
        MixKind::TooManyModels => "too many models",
        MixKind::BadTask => "bad task",
        MixKind::RepeatedTime => "repeated time",
        MixKind::TooManyArcs => "too many arcs",
        MixKind::NoModel => "no model",
    }
}

/// The line about the first record at fault.
fn mix_fault_line(alloc: Global, file: &str, fault: MixFault) -> Result<Vec<u8>, AllocError>
    ensures { IfOk result (λ t. t.items ≡ fault_line file.now (fault_text fault)) }
{
    let row = fault.row;
    let kind = kind_text(fault.kind);
    let mut what = String::new(alloc);
    write!(what, "record {row} {kind}")?;
    fault_line_of(alloc, file, &what)
}

/// The line about a cycle of the arcs of all models.
fn cycle_line(alloc: Global, file: &str, ring: &Ring) -> Result<Vec<u8>, AllocError>
    ensures { IfOk result (λ t. t.items ≡ fault_line file.now (cycle_text ring.now)) }
{
    let tasks = RingTasks { ring };
    let mut what = String::new(alloc);
    write!(what, "cycle{tasks}")?;
    fault_line_of(alloc, file, &what)
}

/// The mix of a file.
pub fn mix_of<S: Shelf>(alloc: Global, file: &str, shelf: &mut S) -> Result<Mix, EarlyEnd>
    ensures said { S.tells → MatchResult result (IsMixFile (S.file shelf.old) file.now)
        (Stops (IsNoMix (outside (S.file shelf.old) (S.blames shelf.new)) file.now)) }
    ensures fault { MatchResult result (λ _. Unit {0})
        (MayStop (Rises (S.fetch_faults shelf.old) (S.fetch_faults shelf.new))) }
    ensures count { S.fetch_faults shelf.old ≤ S.fetch_faults shelf.new }
    ensures writes { S.write_faults shelf.new ≡ S.write_faults shelf.old }
    ensures files { S.tells → (q : List ℕ) → S.file shelf.new q ≡ S.file shelf.old q }
{
    let bytes = fetch(alloc, file, shelf)?;
    match read_mix(alloc, &bytes) {
        MixRead::Good(mix) => Ok(mix),
        MixRead::Fault(fault) => {
            let text = mix_fault_line(alloc, file, fault)?;
            Err(refuse(Status::Input, text))
        }
        MixRead::NoMemory => Err(EarlyEnd::Memory),
    }
}

/// The line that a mix of a file combines to.
fn combine_models(alloc: Global, file: &str, mix: Mix) -> Result<CombinedMix, EarlyEnd>
    ensures said { MatchResult result (λ j. (j.mix ≡ mix) × IsCombined mix j.line) (Stops (IsCyclic file.now mix)) }
    ensures demand { IfOk result (λ j. j.demand ≡ total_demand j.mix.models) }
    ensures limit { IfOk result (λ j. j.demand ≤ 160000) }
    ensures status { MatchResult result (λ _. Unit {0}) (MayStop ⊥) }
{
    let _tasks = mix.tasks();
    match combine(alloc, &mix) {
        Combined::Good(line, demand) => Ok(CombinedMix { mix, line, demand }),
        Combined::Cycle(ring) => {
            let text = cycle_line(alloc, file, &ring)?;
            Err(refuse(Status::Input, text))
        }
        Combined::NoMemory => Err(EarlyEnd::Memory),
    }
}

/// The mix of a file, and the line that it combines to.
pub fn combined_of<S: Shelf>(
    alloc: Global,
    file: &str,
    shelf: &mut S,
) -> Result<CombinedMix, EarlyEnd>
    ensures said { S.tells → MatchResult result (λ j. IsCombinedFile (S.file shelf.old) file.now j.mix j.line)
        (Stops (IsUncombined (outside (S.file shelf.old) (S.blames shelf.new)) file.now)) }
    ensures combined { IfOk result (λ j. IsCombined j.mix j.line) }
    ensures demand { IfOk result (λ j. j.demand ≡ total_demand j.mix.models) }
    ensures limit { IfOk result (λ j. j.demand ≤ 160000) }
    ensures fault { MatchResult result (λ _. Unit {0})
        (MayStop (Rises (S.fetch_faults shelf.old) (S.fetch_faults shelf.new))) }
    ensures count { S.fetch_faults shelf.old ≤ S.fetch_faults shelf.new }
    ensures writes { S.write_faults shelf.new ≡ S.write_faults shelf.old }
    ensures files { S.tells → (q : List ℕ) → S.file shelf.new q ≡ S.file shelf.old q }
{
    let mix = mix_of(alloc, file, shelf)?;
    let combined = combine_models(alloc, file, mix)?;
    Ok(combined)
}
