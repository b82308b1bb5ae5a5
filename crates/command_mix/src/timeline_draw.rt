//! The picture of a timeline that `timeline-draw` writes.
ghost use Rattle.std.specs.Prelude.{◌≡◌, ◌≢◌, ◌⊎◌, ◌≤◌, ◌<◌, ℕ, List, All, length, IfOk, MatchResult};
ghost use Rattle.line_io.specs.Outside.{Rises};
ghost use Rattle.line_words.specs.Ranges.{IsInterval, IsReach};
ghost use Rattle.timeline_drawing.specs.Visits.{course};
ghost use Rattle.timeline_drawing.specs.Drawing.{timeline_text};
ghost use Rattle.timeline_drawing.specs.Facts.{IsTruePicture};
ghost use Rattle.command_outcome.specs.Outcome.{Ends, MayEnd, MayStop, Stops, outside, told};
ghost use Rattle.command_outcome.specs.declared.report.Kept.TheVariants.{Nothing};
ghost use Rattle.command_outcome.specs.declared.status.Status.TheVariants as ends;
ghost use Rattle.mix_files.specs.inputs.InputFile.{fault_line};
ghost use Rattle.mix_files.specs.Launch.{Names};
ghost use Rattle.command_mix.specs.Timeline.{large_text};
ghost use Rattle.command_mix.specs.TimelineDraw.{IsDrawable, IsTimelineDrawOutcome, IsTimelineTrulyDrawn};
ghost use Rattle.command_mix.specs.TimelineDraw.{IsUndrawable};

use command_outcome::{EarlyEnd, Report, Status, refuse, write_page, written};
use line_io::Shelf;
use mix_files::{Launch, fault_line_of, launch_of};
use std::alloc::Global;
use timeline_drawing::{TimelineRead, timeline_picture};

/// The picture of a launch, where each station has this length; it is too large for more than 1,000 units or more than
/// 64 stations.
fn picture_of(
    alloc: Global,
    seq: &str,
    launch: &Launch,
    interval: u64,
    reach: u64,
) -> Result<Vec<u8>, EarlyEnd>
    requires places { length launch.now.balance.place ≡ launch.now.mix.tasks }
    requires stations { launch.now.balance.stations ≤ 1024 }
    requires few { length launch.now.units.items ≤ 100000 }
    requires models { All (λ m. m < length launch.now.mix.models) launch.now.units.items }
    requires reach { reach ≤ 1000000000 }
    ensures said { MatchResult result
        (λ t. (t.items ≡ timeline_text (course launch.now.mix launch.now.balance launch.now.units.items interval reach))
        × IsDrawable launch.now.balance launch.now.units.items)
        (Stops (λ out. IsUndrawable launch.now.balance launch.now.units.items
        × (out ≡ told ends.Input (fault_line seq.now large_text)))) }
    ensures status { MatchResult result (λ _. Unit {0}) (MayStop ⊥) }
    ensures true_picture { IsTruePicture
        (course launch.now.mix launch.now.balance launch.now.units.items interval reach) }
{
    match timeline_picture(
        alloc,
        &launch.mix,
        &launch.balance,
        &launch.units,
        interval,
        reach,
    ) {
        TimelineRead::Text(text) => Ok(text),
        TimelineRead::TooLarge => {
            let text = fault_line_of(alloc, seq, "too large")?;
            Err(refuse(Status::Input, text))
        }
        TimelineRead::NoMemory => Err(EarlyEnd::Memory),
    }
}

/// The report of `timeline-draw` for the files of a mix, a certificate and a sequence, the name of the one that is
/// written, a launch interval and the length of each station, both in the mix's time unit. The report is made before
/// the file is written, so that a run that is out of memory writes nothing.
pub fn timeline_draw_report<S: Shelf>(
    alloc: Global,
    mix: &str,
    cert: &str,
    seq: &str,
    name: &str,
    interval: u64,
    reach: u64,
    shelf: &mut S,
) -> Result<Report, EarlyEnd>
    requires interval { IsInterval interval }
    requires reach { IsReach reach }
    ensures ends { S.tells → Ends (outside (S.file shelf.old) (S.blames shelf.new))
        (IsTimelineDrawOutcome (outside (S.file shelf.old) (S.blames shelf.new)) mix.now cert.now seq.now name.now
        interval reach) (S.file shelf.new) result }
    ensures good { IfOk result (λ r. r.status ≡ ends.Done) }
    ensures kept { IfOk result (λ r. r.kept ≡ Nothing) }
    ensures fault { MatchResult result (λ _. Unit {0})
        (MayEnd (Rises (S.fetch_faults shelf.old) (S.fetch_faults shelf.new))
        (Rises (S.write_faults shelf.old) (S.write_faults shelf.new))) }
    ensures promise { S.tells → IfOk result (λ _. IsTimelineTrulyDrawn (S.file shelf.old) (S.file shelf.new)
        (record { mix = mix.now; cert = cert.now; seq = seq.now }) name.now interval reach) }
{
    let launch = launch_of(alloc, mix, cert, seq, interval, shelf)?;
    let text = picture_of(alloc, seq, &launch, interval, reach)?;
    let report = written(alloc, name)?;
    write_page(shelf, name, &text, report)
}
