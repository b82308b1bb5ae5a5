//! The picture of a certificate's balance, written into a file.
ghost use Rattle.std.specs.Prelude.{◌≡◌, ℕ, List, IfOk, MatchResult, option_map};
ghost use Rattle.line_io.specs.Outside.{Rises};
ghost use Rattle.line_instance.specs.Line.{tasks};
ghost use Rattle.line_rules.specs.Ranges.{IsInRange};
ghost use Rattle.line_drawing.specs.Facts.{HasRightBalance, IsTrueDrawing};
ghost use Rattle.command_outcome.specs.Outcome.{Ends, MayEnd, outside};
ghost use Rattle.command_outcome.specs.declared.report.Kept.TheVariants.{Nothing};
ghost use Rattle.command_outcome.specs.declared.status.Status.TheVariants as ends;
ghost use Rattle.task_names.specs.Naming.{FitTasks};
ghost use Rattle.command_draw.specs.Draw.{IsDrawOutcome, IsTrulyDrawn, ShowsNames, picture_of};

use crate::shown::shown_of;
use command_outcome::{EarlyEnd, Report, write_page, written};
use line_drawing::draw_text;
use line_instance::Instance;
use line_io::Shelf;
use line_rules::Certificate;
use named_drawing::draw_named;
use std::alloc::{AllocError, Global};
use task_names::Naming;

/// The picture of a certificate's balance, with the numbers or the names of the tasks.
fn picture(
    alloc: Global,
    inst: &Instance,
    naming: &Naming,
    cert: &Certificate,
) -> Result<Vec<u8>, AllocError>
    requires range { IsInRange cert.now }
    requires right { HasRightBalance inst.now cert.now }
    requires names { FitTasks naming.now (tasks inst.now) }
    ensures text { IfOk result (λ t. t.items ≡ picture_of naming.now inst.now cert.now) }
    ensures true_picture { IsTrueDrawing inst.now cert.now }
    ensures names { ShowsNames naming.now inst.now cert.now }
{
    match naming {
        Naming::Numbered => draw_text(alloc, inst, cert),
        Naming::Named(names) => draw_named(alloc, inst, names, cert),
    }
}

/// The report of `draw` for the file of an instance, that of a certificate, the name of the one that is written, and
/// the file of the tasks that are apart, where there is one.
pub fn draw_report<S: Shelf>(
    alloc: Global,
    file: &str,
    proof: &str,
    name: &str,
    apart: Option<&str>,
    shelf: &mut S,
) -> Result<Report, EarlyEnd>
    ensures ends { S.tells → Ends (outside (S.file shelf.old) (S.blames shelf.new))
        (IsDrawOutcome (outside (S.file shelf.old) (S.blames shelf.new)) file.now proof.now name.now
        (option_map (λ a. a.now) apart.entry)) (S.file shelf.new) result }
    ensures good { IfOk result (λ r. r.status ≡ ends.Done) }
    ensures kept { IfOk result (λ r. r.kept ≡ Nothing) }
    ensures fault { MatchResult result (λ _. Unit {0})
        (MayEnd (Rises (S.fetch_faults shelf.old) (S.fetch_faults shelf.new))
        (Rises (S.write_faults shelf.old) (S.write_faults shelf.new))) }
    ensures promise { S.tells → IfOk result (λ _. IsTrulyDrawn (S.file shelf.old) (S.file shelf.new) file.now proof.now
        name.now (option_map (λ a. a.now) apart.entry)) }
{
    let shown = shown_of(alloc, file, proof, apart, shelf)?;
    let text = picture(alloc, &shown.line.inst, &shown.line.naming, &shown.cert)?;
    let report = written(alloc, name)?;
    write_page(shelf, name, &text, report)
}
