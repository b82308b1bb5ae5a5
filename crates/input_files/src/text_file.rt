//! Texts of files, by a reader that is handed in.
ghost use Rattle.std.specs.Prelude.{◌≡◌, ◌≤◌, ℕ, List, IfOk, MatchResult};
ghost use Rattle.line_io.specs.Outside.{Rises};
ghost use Rattle.text_grammar.specs.Texts.{spelled};
ghost use Rattle.command_outcome.specs.Outcome.{Stops, MayStop, outside};
ghost use Rattle.input_files.specs.TextFile.{IsSpelledIn, SpellsNone};

use crate::certificate::{MAX_CERTIFICATE, cert_fault_line_of};
use crate::fetch_file::fetch_within;
use command_outcome::{EarlyEnd, Status, refuse};
use line_io::Shelf;
use std::alloc::Global;
use text_grammar::{Text, TextRead};

/// What the text of a file says, within its ranges.
pub fn spelled_in<S: Shelf, T: Text>(
    alloc: Global,
    text: &T,
    file: &str,
    shelf: &mut S,
) -> Result<T::Value, EarlyEnd>
    ensures said { S.tells → MatchResult result (IsSpelledIn (spelled T.rows T.may_say) (S.file shelf.old) file.now)
        (Stops (SpellsNone (spelled T.rows T.may_say) (outside (S.file shelf.old) (S.blames shelf.new)) file.now)) }
    ensures range { IfOk result T.may_say }
    ensures fault { MatchResult result (λ _. Unit {0})
        (MayStop (Rises (S.fetch_faults shelf.old) (S.fetch_faults shelf.new))) }
    ensures count { S.fetch_faults shelf.old ≤ S.fetch_faults shelf.new }
    ensures writes { S.write_faults shelf.new ≡ S.write_faults shelf.old }
    ensures files { S.tells → (q : List ℕ) → S.file shelf.new q ≡ S.file shelf.old q }
{
    let bytes = fetch_within(alloc, file, MAX_CERTIFICATE, shelf)?;
    match text.read(alloc, &bytes) {
        TextRead::Good(value) => Ok(value),
        TextRead::Fault(fault) => {
            let line = cert_fault_line_of(alloc, fault)?;
            Err(refuse(Status::Refused, line))
        }
        TextRead::NoMemory => Err(EarlyEnd::Memory),
    }
}
