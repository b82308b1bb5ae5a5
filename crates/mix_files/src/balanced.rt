//! What the files of a mix and of a certificate say together: the models, and a balance of the line that they combine
//! to.
ghost use Rattle.std.specs.Prelude.{◌≡◌, ◌≤◌, ℕ, List, length, IfOk, MatchResult};
ghost use Rattle.line_io.specs.Outside.{Rises};
ghost use Rattle.line_words.specs.Ranges.{IsInterval};
ghost use Rattle.combined_graph.specs.Combined.{total_demand};
ghost use Rattle.command_outcome.specs.Outcome.{Stops, MayStop, outside};
ghost use Rattle.mix_files.specs.Balanced.{IsBalanced, IsUnbalanced};

use crate::balance_file::balance_of;
use crate::mix_file::combined_of;
use combined_graph::Mix;
use command_outcome::EarlyEnd;
use line_io::Shelf;
use line_rules::Balance;
use std::alloc::Global;

/// A mix, and a right straight balance of the line that it combines to.
#[derive(Drop)]
pub struct Balanced {
    /// The models.
    pub mix: Mix,
    /// The balance, in 1 to 1,024 stations.
    pub balance: Balance,
    /// How many units are wanted of all models together, at most 160,000.
    pub demand: u64,
}

/// The mix and the balance that the files of a mix and a certificate say, for a launch interval in the mix's time unit.
pub fn balanced_of<S: Shelf>(
    alloc: Global,
    mix: &str,
    cert: &str,
    interval: u64,
    shelf: &mut S,
) -> Result<Balanced, EarlyEnd>
    requires { IsInterval interval }
    ensures said { S.tells → MatchResult result
        (λ p. IsBalanced (S.file shelf.old) mix.now cert.now interval p.mix p.balance)
        (Stops (IsUnbalanced (outside (S.file shelf.old) (S.blames shelf.new)) mix.now cert.now interval)) }
    ensures places { IfOk result (λ p. length p.balance.place ≡ p.mix.tasks) }
    ensures some { IfOk result (λ p. 1 ≤ p.balance.stations) }
    ensures stations { IfOk result (λ p. p.balance.stations ≤ 1024) }
    ensures demand { IfOk result (λ p. p.demand ≡ total_demand p.mix.models) }
    ensures fault { MatchResult result (λ _. Unit {0})
        (MayStop (Rises (S.fetch_faults shelf.old) (S.fetch_faults shelf.new))) }
    ensures count { S.fetch_faults shelf.old ≤ S.fetch_faults shelf.new }
    ensures writes { S.write_faults shelf.new ≡ S.write_faults shelf.old }
    ensures files { S.tells → (q : List ℕ) → S.file shelf.new q ≡ S.file shelf.old q }
{
    let combined = combined_of(alloc, mix, shelf)?;
    let _tasks = combined.line.tasks();
    let cycle = interval * combined.demand;
    let balance = balance_of(alloc, cert, &combined.line, cycle, shelf)?;
    Ok(Balanced {
        mix: combined.mix,
        balance,
        demand: combined.demand,
    })
}
