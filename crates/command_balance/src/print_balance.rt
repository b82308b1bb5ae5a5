//! The printed text of `balance`.
ghost use Rattle.std.specs.Prelude.{◌≡◌, ◌<◌, ◌^◌, IfOk, length};
ghost use Rattle.command_balance.specs.BalanceText.{balance_text};

use line_rules::{Balance, LineKind};
use station_report::balance_text;
use std::alloc::{AllocError, Global};
use task_names::Naming;

/// The text of a balance on a line of this kind, whose tasks are called so, of the bound by total time and of the idle
/// time. The one error is that memory is out.
pub fn balance_report_text(
    alloc: Global,
    naming: &Naming,
    balance: &Balance,
    kind: LineKind,
    bound: u64,
    idle: u128,
) -> Result<Vec<u8>, AllocError>
    requires places { length balance.now.place < 2 ^ 31 }
    requires stations { balance.now.stations < 2 ^ 31 }
    ensures { IfOk result (λ t. t.items ≡ balance_text naming.now kind balance.now bound idle) }
{
    let stations = balance.stations;
    let mut heading = String::new(alloc);
    write!(heading, "balance {stations}\ntotal bound {bound}\n")?;
    balance_text(alloc, heading, naming, balance, kind, idle)
}
