//! The printed texts of what `cycle` found.
ghost use Rattle.std.specs.Prelude.{◌≡◌, ◌++◌, ◌<◌, ◌^◌, string_bytes, IfOk, length};
ghost use Rattle.command_cycle.specs.CycleText.{optimal_text, stopped_text};

use command_outcome::push_bounds;
use line_rules::{Balance, LineKind};
use station_report::balance_text;
use std::alloc::{AllocError, Global};
use task_names::Naming;

/// The report of the least cycle, with a balance at it, behind a first text.
pub fn optimal_text(
    alloc: Global,
    first: String,
    cycle: u64,
    naming: &Naming,
    balance: &Balance,
    kind: LineKind,
    idle: u128,
) -> Result<Vec<u8>, AllocError>
    requires places { length balance.now.place < 2 ^ 31 }
    requires stations { balance.now.stations < 2 ^ 31 }
    ensures { IfOk result (λ t. t.items ≡ string_bytes first ++ optimal_text naming.now kind cycle balance.now idle) }
{
    let mut heading = first;
    write!(heading, "optimal cycle {cycle}\n")?;
    balance_text(alloc, heading, naming, balance, kind, idle)
}

/// The report of a search whose units ended, with a balance at the upper bound, behind a first text.
pub fn stopped_text(
    alloc: Global,
    first: String,
    lower: u64,
    upper: u64,
    naming: &Naming,
    balance: &Balance,
    kind: LineKind,
    idle: u128,
) -> Result<Vec<u8>, AllocError>
    requires places { length balance.now.place < 2 ^ 31 }
    requires stations { balance.now.stations < 2 ^ 31 }
    ensures { IfOk result (λ t. t.items
        ≡ string_bytes first ++ stopped_text naming.now kind lower upper balance.now idle) }
{
    let mut heading = first;
    heading.push_str("stopped by units\n")?;
    push_bounds(&mut heading, lower as u128, upper as u128)?;
    balance_text(alloc, heading, naming, balance, kind, idle)
}
