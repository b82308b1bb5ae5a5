//! What `combine` writes.
ghost use Rattle.std.specs.Prelude.{◌≡◌, ℕ, List, IfOk, MatchResult};
ghost use Rattle.line_io.specs.Outside.{Rises};
ghost use Rattle.combined_graph.specs.Combined.{total_demand};
ghost use Rattle.command_outcome.specs.Outcome.{Ends, MayEnd, outside};
ghost use Rattle.command_outcome.specs.declared.report.Kept.TheVariants.{Nothing};
ghost use Rattle.command_outcome.specs.declared.status.Status.TheVariants as ends;
ghost use Rattle.command_mix.specs.Combine.{IsCombineOutcome, combined_line};

use combined_graph::Mix;
use command_outcome::{EarlyEnd, Report, Status, write_page};
use in2_reader::write_in2;
use line_io::Shelf;
use mix_files::combined_of;
use std::alloc::{AllocError, Global};

/// The report about what a mix combines to.
fn combined_report(alloc: Global, mix: &Mix, demand: u64) -> Result<Report, AllocError>
    requires { demand ≡ total_demand mix.now.models }
    ensures status { IfOk result (λ r. r.status ≡ ends.Done) }
    ensures text { IfOk result (λ r. r.text.items ≡ combined_line mix.now) }
    ensures kept { IfOk result (λ r. r.kept ≡ Nothing) }
{
    let tasks = mix.tasks();
    let mut text = String::new(alloc);
    write!(text, "combined tasks {tasks} demand {demand}\n")?;
    Ok(Report::told(Status::Done, text.into_bytes()))
}

/// The report of `combine` for the file of a mix and the name of the one that is written: the line that the mix
/// combines to, as a canonical IN2 text. The report is made before the file is written, so that a run that is out of
/// memory writes nothing.
pub fn combine_report<S: Shelf>(
    alloc: Global,
    mix: &str,
    name: &str,
    shelf: &mut S,
) -> Result<Report, EarlyEnd>
    ensures ends { S.tells → Ends (outside (S.file shelf.old) (S.blames shelf.new))
        (IsCombineOutcome (outside (S.file shelf.old) (S.blames shelf.new)) mix.now name.now) (S.file shelf.new)
        result }
    ensures good { IfOk result (λ r. r.status ≡ ends.Done) }
    ensures kept { IfOk result (λ r. r.kept ≡ Nothing) }
    ensures fault { MatchResult result (λ _. Unit {0})
        (MayEnd (Rises (S.fetch_faults shelf.old) (S.fetch_faults shelf.new))
        (Rises (S.write_faults shelf.old) (S.write_faults shelf.new))) }
{
    let combined = combined_of(alloc, mix, shelf)?;
    let bytes = write_in2(alloc, &combined.line)?;
    let report = combined_report(alloc, &combined.mix, combined.demand)?;
    write_page(shelf, name, &bytes, report)
}
