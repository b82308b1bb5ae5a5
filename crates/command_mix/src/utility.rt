//! The utility work that `utility` tells.
ghost use Rattle.std.specs.Prelude.{◌≡◌, ◌≤◌, ◌<◌, ◌++◌, ℕ, List, All, length, sum, string_bytes, IfOk, OnOk};
ghost use Rattle.std.specs.Prelude.{MatchResult};
ghost use Rattle.line_io.specs.Outside.{Rises};
ghost use Rattle.line_words.specs.Ranges.{IsInterval, IsReach};
ghost use Rattle.command_outcome.specs.Outcome.{Ends, MayStop, outside};
ghost use Rattle.command_outcome.specs.declared.report.Kept.TheVariants.{Nothing};
ghost use Rattle.command_outcome.specs.declared.status.Status.TheVariants as ends;
ghost use Rattle.command_mix.specs.Utility.{IsUtilityOutcome, lines_text, utility_lines, utility_text};

use combined_graph::Mix;
use command_outcome::{EarlyEnd, Report, Status};
use line_io::Shelf;
use line_rules::Balance;
use mix_files::launch_of;
use std::alloc::{AllocError, Global};
use utility_work::utility;

/// The line of each station.
fn push_lines(text: &mut String, per: &[u64]) -> Result<(), AllocError>
    requires { length per.now ≤ 1024 }
    ensures { OnOk result (string_bytes text.new ≡ string_bytes text.old ++ utility_lines 1 per.now) }
{
    for k in 0..per.len() {
        let station = k + 1;
        let over = per[k];
        write!(text, "station {station} utility {over}\n")?;
    }
    Ok(())
}

/// The line of each station, and the line of all of them together.
fn lines_text(alloc: Global, per: &[u64], total: u128) -> Result<Vec<u8>, AllocError>
    requires few { length per.now ≤ 1024 }
    requires total { total ≡ sum per.now }
    ensures { IfOk result (λ t. t.items ≡ lines_text per.now) }
{
    let mut text = String::new(alloc);
    push_lines(&mut text, per)?;
    write!(text, "total utility {total}\n")?;
    Ok(text.into_bytes())
}

/// The text of the utility work of units on a balance, where each station has this length.
fn text_of(
    alloc: Global,
    mix: &Mix,
    balance: &Balance,
    units: &[u32],
    interval: u64,
    reach: u64,
) -> Result<Vec<u8>, AllocError>
    requires places { length balance.now.place ≡ mix.now.tasks }
    requires stations { balance.now.stations ≤ 1024 }
    requires few { length units.now ≤ 100000 }
    requires models { All (λ m. m < length mix.now.models) units.now }
    requires reach { reach ≤ 1000000000 }
    ensures { IfOk result (λ t. t.items ≡ utility_text mix.now balance.now units.now interval reach) }
{
    let stations = balance.stations as usize;
    let lengths = vec![in alloc; reach; stations]?;
    let mut per = vec![in alloc; 0; stations]?;
    let total = utility(mix, balance, units, interval, &lengths, &mut per);
    lines_text(alloc, &per, total)
}

/// The report of `utility` for the files of a mix, a certificate and a sequence, a launch interval and the length of
/// each station, both in the mix's time unit.
pub fn utility_report<S: Shelf>(
    alloc: Global,
    mix: &str,
    cert: &str,
    seq: &str,
    interval: u64,
    reach: u64,
    shelf: &mut S,
) -> Result<Report, EarlyEnd>
    requires interval { IsInterval interval }
    requires reach { IsReach reach }
    ensures ends { S.tells → Ends (outside (S.file shelf.old) (S.blames shelf.new))
        (IsUtilityOutcome (outside (S.file shelf.old) (S.blames shelf.new)) mix.now cert.now seq.now interval reach)
        (S.file shelf.new) result }
    ensures good { IfOk result (λ r. r.status ≡ ends.Done) }
    ensures kept { IfOk result (λ r. r.kept ≡ Nothing) }
    ensures fault { MatchResult result (λ _. Unit {0})
        (MayStop (Rises (S.fetch_faults shelf.old) (S.fetch_faults shelf.new))) }
    ensures files { S.tells → (q : List ℕ) → S.file shelf.new q ≡ S.file shelf.old q }
{
    let launch = launch_of(alloc, mix, cert, seq, interval, shelf)?;
    let text = text_of(
        alloc,
        &launch.mix,
        &launch.balance,
        &launch.units,
        interval,
        reach,
    )?;
    Ok(Report::told(Status::Done, text))
}
