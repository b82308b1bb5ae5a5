//! What the files of a run say: its line and its cycle time, and the old entries, where the words name a file of them.
ghost use Rattle.std.specs.Prelude.{◌≡◌, ◌≤◌, ℕ, List, IfOk, MatchResult, option_map};
ghost use Rattle.std.specs.Option.{ForSome};
ghost use Rattle.line_io.specs.Outside.{Rises};
ghost use Rattle.line_instance.specs.Line.{tasks};
ghost use Rattle.line_rules.specs.Ranges.{AreEntries};
ghost use Rattle.line_words.specs.Ranges.{IsCycleTime, IsCycleTimeOrNone};
ghost use Rattle.command_outcome.specs.Outcome.{MayStop, Stops, outside};
ghost use Rattle.input_files.specs.Instance.{naming_of};
ghost use Rattle.command_solve.specs.inner.Said.{HasSaid, IsUnsaidOrUnwarmed};

use crate::warm_start::old_entries;
use command_outcome::EarlyEnd;
use input_files::{Timed, said_instance};
use line_io::Shelf;
use line_rules::{Entries, LineKind};
use std::alloc::Global;

/// A line with a cycle time, and the old entries of a run over it, where there are any.
#[derive(Drop)]
pub(crate) struct Said {
    pub timed: Timed,
    pub olds: Option<Entries>,
}

/// What the files of a run say.
pub(crate) fn said_of<S: Shelf>(
    alloc: Global,
    file: &str,
    apart: Option<&str>,
    warm: Option<&str>,
    word: Option<u64>,
    kind: LineKind,
    shelf: &mut S,
) -> Result<Said, EarlyEnd>
    requires word { IsCycleTimeOrNone word }
    ensures said { S.tells → MatchResult result
        (λ s. HasSaid (S.file shelf.old) file.now (option_map (λ a. a.now) apart.entry)
        (option_map (λ a. a.now) warm.entry) word kind s.timed.inst s.timed.cycle s.olds)
        (Stops (IsUnsaidOrUnwarmed (outside (S.file shelf.old) (S.blames shelf.new)) file.now
        (option_map (λ a. a.now) apart.entry) (option_map (λ a. a.now) warm.entry) word kind)) }
    ensures limit { IfOk result (λ s. IsCycleTime s.timed.cycle) }
    ensures naming { S.tells → IfOk result (λ s. s.timed.naming ≡ naming_of (S.file shelf.old) file.now) }
    ensures range { IfOk result (λ s. ForSome s.olds (AreEntries (tasks s.timed.inst))) }
    ensures fault { MatchResult result (λ _. Unit {0})
        (MayStop (Rises (S.fetch_faults shelf.old) (S.fetch_faults shelf.new))) }
    ensures count { S.fetch_faults shelf.old ≤ S.fetch_faults shelf.new }
    ensures writes { S.write_faults shelf.new ≡ S.write_faults shelf.old }
    ensures files { S.tells → (q : List ℕ) → S.file shelf.new q ≡ S.file shelf.old q }
{
    let timed = said_instance(alloc, file, apart, word, shelf)?;
    let olds = old_entries(alloc, warm, &timed.inst, kind, shelf)?;
    Ok(Said { timed, olds })
}
