//! The works of a mix on a balanced line, as a table.
ghost use Rattle.std.specs.Prelude.{◌≡◌, ℕ, ◌+◌, ◌<◌, ◌≤◌, ◌*◌, length, map, sum_by, IfOk};
ghost use Rattle.combined_graph.specs.Mixes.{LineModel, model_at};
ghost use Rattle.utility_work.specs.Utility.{work_at};
ghost use Rattle.sequence_rules.specs.States.{unit_work};
ghost use Rattle.sequence_rules.specs.Ranges.{AreTimes};
ghost use Rattle.sequence_search.specs.Tables.{demand_of, AreRows};

use combined_graph::Mix;
use line_rules::Balance;
use sequence_values::{Numbers, Times};
use std::alloc::{AllocError, Global};
use utility_work::{MAX_MODELS, works_at};

/// How many units of each model are wanted.
fn demands(alloc: Global, mix: &Mix) -> Result<Vec<u64>, AllocError>
    ensures { IfOk result (λ v. v.items ≡ map demand_of mix.now.models) }
{
    let mut demands = Vec::new(alloc);
    for m in 0..mix.models() {
        demands.push(mix.demand(m))?;
    }
    Ok(demands)
}

/// The works of all models at each station.
fn station_rows(
    alloc: Global,
    mix: &Mix,
    balance: &Balance,
) -> Result<Vec<[u64; MAX_MODELS]>, AllocError>
    requires { length balance.now.place ≡ mix.now.tasks }
    ensures { IfOk result (λ v. AreRows mix.now balance.now.place v.items balance.now.stations) }
{
    let mut rows = Vec::new(alloc);
    for s in 0..balance.stations {
        rows.push(works_at(mix, balance, s + 1))?;
    }
    Ok(rows)
}

/// The works of a mix on a line that is balanced straight: of each model at each station.
///
/// The time is proportional to stations times models times tasks. The balance has 1 to 64 stations, and the demands are
/// 1,000 units at most together. An error where memory is wanting.
pub fn station_times(alloc: Global, mix: &Mix, balance: &Balance) -> Result<Times, AllocError>
    requires places { length balance.now.place ≡ mix.now.tasks }
    requires some { 1 ≤ balance.now.stations }
    requires few { balance.now.stations ≤ 64 }
    requires demand { sum_by demand_of mix.now.models ≤ 1000 }
    ensures times { IfOk result (λ t. AreTimes t) }
    ensures stations { IfOk result (λ t. t.stations ≡ balance.now.stations) }
    ensures demands { IfOk result (λ t. t.demands ≡ map demand_of mix.now.models) }
    ensures work { IfOk result (λ t. (m s : ℕ) → m < length mix.now.models → s < balance.now.stations
        → unit_work t m s ≡ work_at balance.now.place (s + 1) (model_at mix.now.models m)) }
{
    let models = mix.models() as usize;
    let _tasks = mix.tasks();
    let demands = demands(alloc, mix)?;
    let rows = station_rows(alloc, mix, balance)?;
    let stations = balance.stations as usize;
    let mut work = Vec::new(alloc);
    for i in 0..models * stations {
        work.push(rows[i % stations][i / stations])?;
    }
    Ok(Times {
        stations: balance.stations,
        demands: Numbers::from_vec(demands),
        work: Numbers::from_vec(work),
    })
}
