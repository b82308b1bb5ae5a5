//! The idle time of a balance, and its printed lines behind a heading.
ghost use Rattle.std.specs.Prelude.{◌≡◌, ◌++◌, ◌<◌, ◌≤◌, ◌^◌, IfOk, length, string_bytes, decimal};
ghost use Rattle.line_rules.specs.Bounds.{idle_time};
ghost use Rattle.station_report.specs.BalanceLines.{balance_lines};

use crate::stations::stations_text;
use line_instance::Instance;
use line_rules::{Balance, LineKind};
use lower_bounds::total_time;
use std::alloc::{AllocError, Global};
use task_names::Naming;

/// The time that so many stations don't use: stations times cycle less the total time, in the instance's time unit.
pub fn idle_of(inst: &Instance, cycle: u64, stations: u32) -> u128
    requires limit { cycle ≤ 1000000000000000000 }
    ensures { result ≡ idle_time inst.now cycle stations }
{
    let room = u128::from(stations) * u128::from(cycle);
    room.saturating_sub(u128::from(total_time(inst)))
}

/// A heading, and behind it the idle time and the station lines of a balance on a line of this kind, whose tasks are
/// called so. The one error is that memory is out.
pub fn balance_text(
    alloc: Global,
    heading: String,
    naming: &Naming,
    balance: &Balance,
    kind: LineKind,
    idle: u128,
) -> Result<Vec<u8>, AllocError>
    requires places { length balance.now.place < 2 ^ 31 }
    requires stations { balance.now.stations < 2 ^ 31 }
    ensures { IfOk result (λ t. t.items ≡ string_bytes heading ++ balance_lines naming.now kind balance.now idle) }
{
    let mut text = heading;
    write!(text, "idle {idle}\n")?;
    let mut bytes = text.into_bytes();
    bytes.extend_from_slice(&stations_text(alloc, naming, balance, kind)?)?;
    Ok(bytes)
}
