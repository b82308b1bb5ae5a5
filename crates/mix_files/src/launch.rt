//! What the files of `utility` and `timeline` say together.
ghost use Rattle.std.specs.Prelude.{◌≡◌, ◌≤◌, ◌<◌, ℕ, List, All, length, IfOk, MatchResult};
ghost use Rattle.line_io.specs.Outside.{Rises};
ghost use Rattle.line_words.specs.Ranges.{IsInterval};
ghost use Rattle.command_outcome.specs.Outcome.{Stops, MayStop, outside};
ghost use Rattle.mix_files.specs.Launch.{IsLaunch, IsUnlaunched};

use crate::balanced::{Balanced, balanced_of};
use crate::sequence_file::sequence_of;
use combined_graph::Mix;
use command_outcome::EarlyEnd;
use line_io::Shelf;
use line_rules::Balance;
use std::alloc::Global;

/// A mix, a right straight balance of the line that it combines to, and a sequence of units.
#[derive(Drop)]
pub struct Launch {
    pub mix: Mix,
    pub balance: Balance,
    /// The model of each unit, counted from 0.
    pub units: Vec<u32>,
}

/// The launch of the files of a mix, a certificate and a sequence, for a launch interval.
pub fn launch_of<S: Shelf>(
    alloc: Global,
    mix: &str,
    cert: &str,
    seq: &str,
    interval: u64,
    shelf: &mut S,
) -> Result<Launch, EarlyEnd>
    requires { IsInterval interval }
    ensures said { S.tells → MatchResult result
        (λ p. IsLaunch (S.file shelf.old) (record { mix = mix.now; cert = cert.now; seq = seq.now }) interval
        p.mix p.balance p.units.items)
        (Stops (IsUnlaunched (outside (S.file shelf.old) (S.blames shelf.new))
        (record { mix = mix.now; cert = cert.now; seq = seq.now }) interval)) }
    ensures places { IfOk result (λ p. length p.balance.place ≡ p.mix.tasks) }
    ensures stations { IfOk result (λ p. p.balance.stations ≤ 1024) }
    ensures few { IfOk result (λ p. length p.units.items ≤ 100000) }
    ensures models { IfOk result (λ p. All (λ m. m < length p.mix.models) p.units.items) }
    ensures fault { MatchResult result (λ _. Unit {0})
        (MayStop (Rises (S.fetch_faults shelf.old) (S.fetch_faults shelf.new))) }
    ensures count { S.fetch_faults shelf.old ≤ S.fetch_faults shelf.new }
    ensures writes { S.write_faults shelf.new ≡ S.write_faults shelf.old }
    ensures files { S.tells → (q : List ℕ) → S.file shelf.new q ≡ S.file shelf.old q }
{
    let balanced = balanced_of(alloc, mix, cert, interval, shelf)?;
    let units = sequence_of(alloc, seq, &balanced.mix, shelf)?;
    let Balanced { mix, balance, .. } = balanced;
    Ok(Launch {
        mix,
        balance,
        units,
    })
}
