//! Pairs of tasks that are apart, of a file.
ghost use Rattle.std.specs.Prelude.{◌≡◌, ◌≤◌, ℕ, List, MatchResult};
ghost use Rattle.line_io.specs.Outside.{Rises};
ghost use Rattle.line_instance.specs.Walks.{ArePairs};
ghost use Rattle.in2_reader.specs.ApartFile.{IsApartFile};
ghost use Rattle.command_outcome.specs.Outcome.{Stops, MayStop, outside};
ghost use Rattle.input_files.specs.InputFile.{Reads, max_file};
ghost use Rattle.input_files.specs.Instance.{IsNoPairs};

use crate::fetch_file::fetch;
use crate::sheets::in2_fault_line;
use command_outcome::{EarlyEnd, Status, refuse};
use in2_reader::{ApartRead, read_apart};
use line_instance::Prec;
use line_io::Shelf;
use std::alloc::Global;

/// The pairs of tasks that are apart of a file, of so many tasks.
pub(crate) fn pairs_of<S: Shelf>(
    alloc: Global,
    file: &str,
    tasks: u32,
    shelf: &mut S,
) -> Result<Vec<Prec>, EarlyEnd>
    requires some { 1 ≤ tasks }
    requires few { tasks ≤ 1024 }
    ensures said { S.tells → MatchResult result (λ v. Reads max_file (S.file shelf.old file.now)
        (λ bytes. IsApartFile tasks bytes v.items)) (Stops (IsNoPairs (outside (S.file shelf.old) (S.blames shelf.new))
        file.now tasks)) }
    ensures pairs { MatchResult result (λ v. ArePairs tasks v.items) (λ _. Unit {0}) }
    ensures fault { MatchResult result (λ _. Unit {0})
        (MayStop (Rises (S.fetch_faults shelf.old) (S.fetch_faults shelf.new))) }
    ensures count { S.fetch_faults shelf.old ≤ S.fetch_faults shelf.new }
    ensures writes { S.write_faults shelf.new ≡ S.write_faults shelf.old }
    ensures files { S.tells → (q : List ℕ) → S.file shelf.new q ≡ S.file shelf.old q }
{
    let bytes = fetch(alloc, file, shelf)?;
    match read_apart(alloc, tasks, &bytes) {
        ApartRead::Good(pairs) => Ok(pairs),
        ApartRead::Fault(fault) => {
            let text = in2_fault_line(alloc, file, &fault)?;
            Err(refuse(Status::Input, text))
        }
        ApartRead::NoMemory => Err(EarlyEnd::Memory),
    }
}
