//! The printed texts of what `effic` found.
ghost use Rattle.std.specs.Prelude.{◌≡◌, ◌++◌, ◌<◌, ◌^◌, string_bytes, OnOk, IfOk, length};
ghost use Rattle.command_effic.specs.EfficText.{place_line, optimal_text, stopped_line, stopped_text};

use command_outcome::push_bounds;
use effic_search::Ended;
use line_rules::EfficCert;
use station_report::balance_text;
use std::alloc::{AllocError, Global};
use task_names::Naming;

/// The line of the stations of a balance and its cycle.
fn push_place(text: &mut String, stations: u32, cycle: u64) -> Result<(), AllocError>
    ensures { OnOk result (string_bytes text.new ≡ string_bytes text.old ++ place_line stations cycle) }
{
    write!(text, "stations {stations} cycle {cycle}\n")
}

/// The line of why a search stopped.
fn stopped_line(why: Ended) -> &'static str
    ensures { result.now ≡ stopped_line why }
{
    match why {
        Ended::Units => "stopped by units\n",
        Ended::Size => "stopped by size\n",
    }
}

/// The report of the least product, with its stations and its cycle, and the balance, behind a first text.
pub(crate) fn optimal_text(
    alloc: Global,
    first: String,
    naming: &Naming,
    cert: &EfficCert,
    idle: u128,
) -> Result<Vec<u8>, AllocError>
    requires places { length cert.now.balance.place < 2 ^ 31 }
    requires stations { cert.now.balance.stations < 2 ^ 31 }
    ensures { IfOk result (λ t. t.items ≡ string_bytes first ++ optimal_text naming.now cert.now idle) }
{
    let product = cert.upper;
    let mut heading = first;
    write!(heading, "optimal product {product}\n")?;
    push_place(&mut heading, cert.balance.stations, cert.cycle)?;
    balance_text(alloc, heading, naming, &cert.balance, cert.kind, idle)
}

/// The report of a search that stopped, behind a first text: why, its bounds, the stations and the cycle of its
/// balance, and the balance.
pub(crate) fn stopped_text(
    alloc: Global,
    first: String,
    naming: &Naming,
    why: Ended,
    cert: &EfficCert,
    idle: u128,
) -> Result<Vec<u8>, AllocError>
    requires places { length cert.now.balance.place < 2 ^ 31 }
    requires stations { cert.now.balance.stations < 2 ^ 31 }
    ensures { IfOk result (λ t. t.items ≡ string_bytes first ++ stopped_text naming.now why cert.now idle) }
{
    let mut heading = first;
    heading.push_str(stopped_line(why))?;
    push_bounds(&mut heading, cert.lower, cert.upper)?;
    push_place(&mut heading, cert.balance.stations, cert.cycle)?;
    balance_text(alloc, heading, naming, &cert.balance, cert.kind, idle)
}
