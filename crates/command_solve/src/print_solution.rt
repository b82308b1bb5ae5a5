//! The printed texts of what `solve` found.
ghost use Rattle.std.specs.Prelude.{◌≡◌, ◌++◌, ◌<◌, ◌^◌, string_bytes, IfOk, length, codes};
ghost use Rattle.command_solve.specs.SolutionText.{optimal_line, optimal_text, stopped_text};

use command_outcome::push_bounds;
use line_rules::{Balance, LineKind};
use station_report::balance_text;
use std::alloc::{AllocError, Global};
use task_names::Naming;

/// The report of an optimum, with its balance, behind a first text.
pub fn optimal_text(
    alloc: Global,
    first: String,
    naming: &Naming,
    balance: &Balance,
    kind: LineKind,
    idle: u128,
) -> Result<Vec<u8>, AllocError>
    requires places { length balance.now.place < 2 ^ 31 }
    requires stations { balance.now.stations < 2 ^ 31 }
    ensures { IfOk result (λ t. t.items ≡ string_bytes first ++ optimal_text naming.now kind balance.now idle) }
{
    let stations = balance.stations;
    let mut heading = first;
    write!(heading, "optimal {stations}\n")?;
    balance_text(alloc, heading, naming, balance, kind, idle)
}

/// The report of a search that used its units, with its best balance, behind a first text.
pub fn stopped_text(
    alloc: Global,
    first: String,
    lower: u32,
    naming: &Naming,
    balance: &Balance,
    kind: LineKind,
    idle: u128,
) -> Result<Vec<u8>, AllocError>
    requires places { length balance.now.place < 2 ^ 31 }
    requires stations { balance.now.stations < 2 ^ 31 }
    ensures { IfOk result (λ t. t.items ≡ string_bytes first ++ stopped_text naming.now kind lower balance.now idle) }
{
    let mut heading = first;
    heading.push_str("stopped by units\n")?;
    push_bounds(&mut heading, lower as u128, balance.stations as u128)?;
    balance_text(alloc, heading, naming, balance, kind, idle)
}
