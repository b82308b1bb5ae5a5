//! The line that a file says, of which no two tasks are apart.
ghost use Rattle.std.specs.Prelude.{◌≡◌, ◌≤◌, ℕ, List, IfOk, MatchResult};
ghost use Rattle.line_io.specs.Outside.{Rises};
ghost use Rattle.line_instance.specs.Line.{Apart};
ghost use Rattle.command_outcome.specs.Outcome.{Stops, MayStop, outside};
ghost use Rattle.input_files.specs.InputFile.{fault_line};
ghost use Rattle.input_files.specs.Instance.{IsPlainLine, IsNoPlainLine, naming_of};
ghost use Rattle.input_files.specs.TableTexts.{apart_text};

use crate::sheets::{Sheet, fault_line_of, sheet_of};
use command_outcome::{EarlyEnd, Status, push_number, refuse};
use line_instance::Instance;
use line_io::Shelf;
use std::alloc::{AllocError, Global};
use task_names::Naming;

/// An instance of which no two tasks are apart, and what its tasks are called.
#[derive(Drop)]
pub struct Plain {
    pub inst: Instance,
    pub naming: Naming,
}

/// The line that says which record lists tasks that are apart, of a file that may have none.
fn apart_line(alloc: Global, file: &str, number: u64) -> Result<Vec<u8>, AllocError>
    ensures { IfOk result (λ t. t.items ≡ fault_line file.now (apart_text number)) }
{
    let mut what = String::from_str(alloc, "record ")?;
    push_number(&mut what, number)?;
    what.push_str(" apart not supported")?;
    fault_line_of(alloc, file, &what)
}

/// The line that the file says, whatever the cycle time, for a command that knows no tasks that are apart: a table that
/// lists some is refused.
pub fn plain_line<S: Shelf>(alloc: Global, file: &str, shelf: &mut S) -> Result<Plain, EarlyEnd>
    ensures said { S.tells → MatchResult result (λ p. IsPlainLine (S.file shelf.old) file.now p.inst)
        (Stops (IsNoPlainLine (outside (S.file shelf.old) (S.blames shelf.new)) file.now)) }
    ensures none { IfOk result (λ p. (i j : ℕ) → Apart p.inst i j → ⊥) }
    ensures naming { S.tells → IfOk result (λ p. p.naming ≡ naming_of (S.file shelf.old) file.now) }
    ensures fault { MatchResult result (λ _. Unit {0})
        (MayStop (Rises (S.fetch_faults shelf.old) (S.fetch_faults shelf.new))) }
    ensures count { S.fetch_faults shelf.old ≤ S.fetch_faults shelf.new }
    ensures writes { S.write_faults shelf.new ≡ S.write_faults shelf.old }
    ensures files { S.tells → (q : List ℕ) → S.file shelf.new q ≡ S.file shelf.old q }
{
    let sheet = sheet_of(alloc, file, shelf)?;
    match sheet.pairs_at {
        Some(number) => {
            let text = apart_line(alloc, file, number)?;
            Err(refuse(Status::Input, text))
        }
        None => {
            let Sheet { inst, naming, .. } = sheet;
            Ok(Plain { inst, naming })
        }
    }
}
