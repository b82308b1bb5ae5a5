//! The line and the certificate that the files of `draw` and of `plan` say, of which the balance is shown.
ghost use Rattle.std.specs.Prelude.{◌≡◌, ◌≤◌, ℕ, List, IfOk, MatchResult, option_map};
ghost use Rattle.line_io.specs.Outside.{Rises};
ghost use Rattle.line_instance.specs.Line.{tasks};
ghost use Rattle.line_rules.specs.Ranges.{IsInRange};
ghost use Rattle.line_drawing.specs.Facts.{HasRightBalance};
ghost use Rattle.task_names.specs.Naming.{FitTasks};
ghost use Rattle.command_outcome.specs.Outcome.{MayStop, Stops, outside};
ghost use Rattle.input_files.specs.Sheet.{IsListedFrom};
ghost use Rattle.command_draw.specs.Drawable.{HasShown, IsNotShown};

use crate::drawable::test;
use command_outcome::EarlyEnd;
use input_files::{Listed, certificate_of, listed_line};
use line_io::Shelf;
use line_rules::Certificate;
use std::alloc::Global;

/// A line as its sheet has it, and a certificate whose balance can be shown for it.
#[derive(Drop)]
pub(crate) struct Shown {
    pub line: Listed,
    pub cert: Certificate,
}

/// What the file of an instance, that of a certificate and that of the tasks apart, where there is one, say; the
/// balance of the certificate is right for the line, and shows its upper bound.
pub(crate) fn shown_of<S: Shelf>(
    alloc: Global,
    file: &str,
    proof: &str,
    apart: Option<&str>,
    shelf: &mut S,
) -> Result<Shown, EarlyEnd>
    ensures said { S.tells → MatchResult result
        (λ s. HasShown (S.file shelf.old) file.now proof.now (option_map (λ a. a.now) apart.entry) s.line.inst s.cert)
        (Stops (IsNotShown (outside (S.file shelf.old) (S.blames shelf.new)) file.now proof.now
        (option_map (λ a. a.now) apart.entry))) }
    ensures range { IfOk result (λ s. IsInRange s.cert) }
    ensures right { IfOk result (λ s. HasRightBalance s.line.inst s.cert) }
    ensures names { IfOk result (λ s. FitTasks s.line.naming (tasks s.line.inst)) }
    ensures sheet { S.tells → IfOk result (λ s. IsListedFrom (S.file shelf.old file.now) s.line) }
    ensures fault { MatchResult result (λ _. Unit {0})
        (MayStop (Rises (S.fetch_faults shelf.old) (S.fetch_faults shelf.new))) }
    ensures count { S.fetch_faults shelf.old ≤ S.fetch_faults shelf.new }
    ensures writes { S.write_faults shelf.new ≡ S.write_faults shelf.old }
    ensures files { S.tells → (q : List ℕ) → S.file shelf.new q ≡ S.file shelf.old q }
{
    let line = listed_line(alloc, file, apart, shelf)?;
    let cert = certificate_of(alloc, proof, shelf)?;
    test(alloc, &line.inst, &cert)?;
    Ok(Shown { line, cert })
}
