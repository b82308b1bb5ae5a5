//! Mixes of files, with the works that they bring to the stations of a balance.
ghost use Rattle.std.specs.Prelude.{◌≡◌, ◌≤◌, ℕ, List, length, IfOk, MatchResult};
ghost use Rattle.line_io.specs.Outside.{Rises};
ghost use Rattle.line_words.specs.Ranges.{IsInterval};
ghost use Rattle.combined_graph.specs.Combined.{total_demand};
ghost use Rattle.sequence_rules.specs.Ranges.{AreTimes};
ghost use Rattle.command_outcome.specs.Outcome.{Stops, MayStop, outside};
ghost use Rattle.command_sequence.specs.TimedMix.{IsLarge, IsSmall, IsTimed, IsTimesOf, IsUntimed};

use combined_graph::Mix;
use command_outcome::{EarlyEnd, Status, refuse};
use line_io::Shelf;
use mix_files::{Balanced, balanced_of, fault_line_of};
use sequence_rules::MAX_STATIONS;
use sequence_search::station_times;
use sequence_values::Times;
use std::alloc::Global;

/// The most units of all models together.
const MAX_UNITS: u64 = 1_000;

/// A mix, and the works that it brings to the stations of a balance.
#[derive(Drop)]
pub(crate) struct TimedMix {
    /// The models.
    pub mix: Mix,
    /// How many units of each model are wanted, and the work of each model at each station.
    pub times: Times,
}

/// The works of a mix at the stations of its balance, where both are small; `file` is the name of the mix.
fn times_of(alloc: Global, file: &str, balanced: Balanced) -> Result<TimedMix, EarlyEnd>
    requires places { length balanced.balance.place ≡ balanced.mix.tasks }
    requires some { 1 ≤ balanced.balance.stations }
    requires demand { balanced.demand ≡ total_demand balanced.mix.models }
    ensures said { MatchResult result
        (λ p. (p.mix ≡ balanced.mix) × IsSmall balanced.mix balanced.balance
        × IsTimesOf balanced.mix balanced.balance p.times)
        (Stops (IsLarge file.now balanced.mix balanced.balance)) }
    ensures range { IfOk result (λ p. AreTimes p.times) }
    ensures fault { MatchResult result (λ _. Unit {0}) (MayStop ⊥) }
{
    let Balanced {
        mix,
        balance,
        demand,
    } = balanced;
    if demand > MAX_UNITS || balance.stations as usize > MAX_STATIONS {
        let text = fault_line_of(alloc, file, "too large")?;
        return Err(refuse(Status::Input, text));
    }
    let times = station_times(alloc, &mix, &balance)?;
    Ok(TimedMix { mix, times })
}

/// The mix of one file, with the works that it brings to the stations of the balance of the other, for a launch
/// interval in the mix's time unit.
pub(crate) fn timed_of<S: Shelf>(
    alloc: Global,
    mix: &str,
    cert: &str,
    interval: u64,
    shelf: &mut S,
) -> Result<TimedMix, EarlyEnd>
    requires { IsInterval interval }
    ensures said { S.tells → MatchResult result
        (λ p. IsTimed (S.file shelf.old) mix.now cert.now interval p.mix p.times)
        (Stops (IsUntimed (outside (S.file shelf.old) (S.blames shelf.new)) mix.now cert.now interval)) }
    ensures range { IfOk result (λ p. AreTimes p.times) }
    ensures demands { IfOk result (λ p. length p.times.demands ≡ length p.mix.models) }
    ensures fault { MatchResult result (λ _. Unit {0})
        (MayStop (Rises (S.fetch_faults shelf.old) (S.fetch_faults shelf.new))) }
    ensures count { S.fetch_faults shelf.old ≤ S.fetch_faults shelf.new }
    ensures writes { S.write_faults shelf.new ≡ S.write_faults shelf.old }
    ensures files { S.tells → (q : List ℕ) → S.file shelf.new q ≡ S.file shelf.old q }
{
    let balanced = balanced_of(alloc, mix, cert, interval, shelf)?;
    let timed = times_of(alloc, mix, balanced)?;
    Ok(timed)
}
