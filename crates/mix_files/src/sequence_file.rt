//! Sequences of units, of files.
//!
//! A sequence is read line by line; each name is looked up among at most 16 models.
ghost use Rattle.std.specs.Prelude.{◌≡◌, ◌≤◌, ◌<◌, ℕ, List, All, length, IfOk, MatchResult};
ghost use Rattle.line_io.specs.Outside.{Rises};
ghost use Rattle.command_outcome.specs.Outcome.{Stops, MayStop, outside};
ghost use Rattle.input_files.specs.InputFile.{fault_line};
ghost use Rattle.mix_files.specs.SequenceFile.{IsSequenceFile, IsNoSequence, unknown_text};

use combined_graph::{Mix, SeqRead, read_sequence};
use command_outcome::{EarlyEnd, Status, refuse};
use input_files::{fault_line_of, fetch};
use line_io::Shelf;
use std::alloc::{AllocError, Global};

/// The line about a unit, counted from 1, that names no model.
fn unknown_line(alloc: Global, file: &str, unit: u64) -> Result<Vec<u8>, AllocError>
    ensures { IfOk result (λ t. t.items ≡ fault_line file.now (unknown_text unit)) }
{
    let mut what = String::new(alloc);
    write!(what, "unit {unit} unknown model")?;
    fault_line_of(alloc, file, &what)
}

/// The units of a file, each a model of the mix, counted from 0.
pub fn sequence_of<S: Shelf>(
    alloc: Global,
    file: &str,
    mix: &Mix,
    shelf: &mut S,
) -> Result<Vec<u32>, EarlyEnd>
    ensures said { S.tells → MatchResult result (λ v. IsSequenceFile (S.file shelf.old) file.now mix.now.models v.items)
        (Stops (IsNoSequence (outside (S.file shelf.old) (S.blames shelf.new)) file.now mix.now.models)) }
    ensures few { IfOk result (λ v. length v.items ≤ 100000) }
    ensures models { IfOk result (λ v. All (λ m. m < length mix.now.models) v.items) }
    ensures fault { MatchResult result (λ _. Unit {0})
        (MayStop (Rises (S.fetch_faults shelf.old) (S.fetch_faults shelf.new))) }
    ensures count { S.fetch_faults shelf.old ≤ S.fetch_faults shelf.new }
    ensures writes { S.write_faults shelf.new ≡ S.write_faults shelf.old }
    ensures files { S.tells → (q : List ℕ) → S.file shelf.new q ≡ S.file shelf.old q }
{
    let bytes = fetch(alloc, file, shelf)?;
    match read_sequence(alloc, mix, &bytes) {
        SeqRead::Good(units) => Ok(units),
        SeqRead::UnknownModel(unit) => {
            let text = unknown_line(alloc, file, unit)?;
            Err(refuse(Status::Input, text))
        }
        SeqRead::TooManyUnits => {
            let text = fault_line_of(alloc, file, "too many units")?;
            Err(refuse(Status::Input, text))
        }
        SeqRead::NoMemory => Err(EarlyEnd::Memory),
    }
}
