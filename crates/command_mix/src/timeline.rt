//! The timeline that `timeline` tells.
ghost use Rattle.std.specs.Prelude.{◌≡◌, ◌≤◌, ◌<◌, ◌*◌, ℕ, List, All, length, IfOk, MatchResult};
ghost use Rattle.line_io.specs.Outside.{Rises};
ghost use Rattle.line_words.specs.Ranges.{IsInterval, IsReach};
ghost use Rattle.station_report.specs.TimelineText.{timeline_text};
ghost use Rattle.command_outcome.specs.Outcome.{Ends, Stops, MayStop, outside, told};
ghost use Rattle.command_outcome.specs.declared.report.Kept.TheVariants.{Nothing};
ghost use Rattle.command_outcome.specs.declared.status.Status.TheVariants as ends;
ghost use Rattle.mix_files.specs.inputs.InputFile.{fault_line};
ghost use Rattle.command_mix.specs.Timeline.{IsTimelineOutcome, large_text};

use command_outcome::{EarlyEnd, Report, Status, refuse};
use line_io::Shelf;
use mix_files::{Launch, fault_line_of, launch_of};
use station_report::{TimelineRead, timeline};
use std::alloc::Global;

/// The text of the timeline of a launch, where each station has this length; it is too large for more than 1,000,000
/// rows.
fn text_of(
    alloc: Global,
    seq: &str,
    launch: &Launch,
    interval: u64,
    reach: u64,
) -> Result<Vec<u8>, EarlyEnd>
    requires places { length launch.now.balance.place ≡ launch.now.mix.tasks }
    requires stations { launch.now.balance.stations ≤ 1024 }
    requires few { length launch.now.units.items ≤ 100000 }
    requires models { All (λ m. m < length launch.now.mix.models) launch.now.units.items }
    requires reach { reach ≤ 1000000000 }
    ensures said { MatchResult result
        (λ t. (t.items ≡ timeline_text launch.now.mix launch.now.balance launch.now.units.items interval reach)
        × (length launch.now.units.items * launch.now.balance.stations ≤ 1000000))
        (Stops (λ out. (1000000 < length launch.now.units.items * launch.now.balance.stations)
        × (out ≡ told ends.Input (fault_line seq.now large_text)))) }
    ensures status { MatchResult result (λ _. Unit {0}) (MayStop ⊥) }
{
    match timeline(
        alloc,
        &launch.mix,
        &launch.balance,
        &launch.units,
        interval,
        reach,
    ) {
        TimelineRead::Text(text) => Ok(text),
        TimelineRead::TooLarge => {
            let text = fault_line_of(alloc, seq, "too large")?;
            Err(refuse(Status::Input, text))
        }
        TimelineRead::NoMemory => Err(EarlyEnd::Memory),
    }
}

/// The report of `timeline` for the files of a mix, a certificate and a sequence, a launch interval and the length of
/// each station, both in the mix's time unit.
pub fn timeline_report<S: Shelf>(
    alloc: Global,
    mix: &str,
    cert: &str,
    seq: &str,
    interval: u64,
    reach: u64,
    shelf: &mut S,
) -> Result<Report, EarlyEnd>
    requires interval { IsInterval interval }
    requires reach { IsReach reach }
    ensures ends { S.tells → Ends (outside (S.file shelf.old) (S.blames shelf.new))
        (IsTimelineOutcome (outside (S.file shelf.old) (S.blames shelf.new)) mix.now cert.now seq.now interval reach)
        (S.file shelf.new) result }
    ensures good { IfOk result (λ r. r.status ≡ ends.Done) }
    ensures kept { IfOk result (λ r. r.kept ≡ Nothing) }
    ensures fault { MatchResult result (λ _. Unit {0})
        (MayStop (Rises (S.fetch_faults shelf.old) (S.fetch_faults shelf.new))) }
    ensures files { S.tells → (q : List ℕ) → S.file shelf.new q ≡ S.file shelf.old q }
{
    let launch = launch_of(alloc, mix, cert, seq, interval, shelf)?;
    let text = text_of(alloc, seq, &launch, interval, reach)?;
    Ok(Report::told(Status::Done, text))
}
