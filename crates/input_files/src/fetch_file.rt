//! A file, fetched whole within the limit of instance files.
ghost use Rattle.std.specs.Prelude.{◌≡◌, ◌≤◌, ℕ, List, Some, length, MatchResult};
ghost use Rattle.line_io.specs.Outside.{Rises};
ghost use Rattle.command_outcome.specs.Outcome.{Stops, MayStop, outside};
ghost use Rattle.input_files.specs.InputFile.{IsUntaken, max_file};

use command_outcome::{EarlyEnd, Status, line_about, refuse};
use line_io::{Shelf, Whole, read_whole};
use std::alloc::Global;

/// The most bytes of an instance file and of a file of pairs: 16 MiB, three times what 1,024 tasks and 524,288 pairs
/// take where nothing is written that needn't be.
const MAX_FILE: u64 = 16_777_216;

/// The bytes of a file of at most `limit` bytes.
pub fn fetch_within<S: Shelf>(
    alloc: Global,
    file: &str,
    limit: u64,
    shelf: &mut S,
) -> Result<Vec<u8>, EarlyEnd>
    ensures source { S.tells → MatchResult result
        (λ v. (S.file shelf.old file.now ≡ Some v.items) × (length v.items ≤ limit))
        (Stops (IsUntaken (outside (S.file shelf.old) (S.blames shelf.new)) limit file.now)) }
    ensures fault { MatchResult result (λ _. Unit {0})
        (MayStop (Rises (S.fetch_faults shelf.old) (S.fetch_faults shelf.new))) }
    ensures count { S.fetch_faults shelf.old ≤ S.fetch_faults shelf.new }
    ensures writes { S.write_faults shelf.new ≡ S.write_faults shelf.old }
    ensures files { S.tells → (q : List ℕ) → S.file shelf.new q ≡ S.file shelf.old q }
{
    match read_whole(alloc, shelf, file, limit) {
        Whole::Bytes(bytes) => Ok(bytes),
        Whole::ReadFault => {
            let text = line_about(alloc, "read fault: ", file, "\n")?;
            Err(refuse(Status::ReadFault, text))
        }
        Whole::TooLong => {
            let text = line_about(alloc, "input: ", file, " too long\n")?;
            Err(refuse(Status::Input, text))
        }
        Whole::NoMemory => Err(EarlyEnd::Memory),
    }
}

/// The bytes of an instance file or of a file of pairs.
pub fn fetch<S: Shelf>(alloc: Global, file: &str, shelf: &mut S) -> Result<Vec<u8>, EarlyEnd>
    ensures source { S.tells → MatchResult result
        (λ v. (S.file shelf.old file.now ≡ Some v.items) × (length v.items ≤ max_file))
        (Stops (IsUntaken (outside (S.file shelf.old) (S.blames shelf.new)) max_file file.now)) }
    ensures fault { MatchResult result (λ _. Unit {0})
        (MayStop (Rises (S.fetch_faults shelf.old) (S.fetch_faults shelf.new))) }
    ensures count { S.fetch_faults shelf.old ≤ S.fetch_faults shelf.new }
    ensures writes { S.write_faults shelf.new ≡ S.write_faults shelf.old }
    ensures files { S.tells → (q : List ℕ) → S.file shelf.new q ≡ S.file shelf.old q }
{
    fetch_within(alloc, file, MAX_FILE, shelf)
}
