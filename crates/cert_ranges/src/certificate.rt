//! Certificates, questions and balances within their ranges.
ghost use Rattle.std.specs.Prelude.{◌↔◌, IsTrue};
ghost use Rattle.line_rules.specs.Balance.{IsSide};
ghost use Rattle.line_rules.specs.Ranges.{IsAsked, IsClaim, IsInRange, IsPlaced, IsPlacing, NamesCycle};

use crate::entries::{MAX_STATIONS, are_entries};
use crate::sets::is_cycle;
use crate::trails::is_trail_or_none;
use line_rules::{Ask, Balance, Certificate, Claim, LineKind, Seatplace, Side};

/// The most tasks of a line.
const MAX_TASKS: u32 = 1024;

/// Whether a certificate is within its ranges: the ones that its text keeps to, and that `write_cert` and
/// `stream_cert` ask for. Takes no memory, and time in proportion to the places, entries, frames and cites.
pub fn is_in_range(cert: &Certificate) -> bool
    ensures { IsTrue result ↔ IsInRange cert.now }
{
    1 <= cert.tasks && cert.tasks <= MAX_TASKS && is_asked(cert.ask) && is_claim(cert)
}

/// Whether a question names a cycle within its range, or 1 to 1,024 stations.
fn is_asked(ask: Ask) -> bool
    ensures { IsTrue result ↔ IsAsked ask }
{
    match ask {
        Ask::Stations { cycle } => is_cycle(cycle),
        Ask::Cycle { stations } => 1 <= stations && stations <= MAX_STATIONS,
    }
}

/// Whether what a certificate claims is within its ranges. That a task is too long may answer a question about
/// stations alone.
fn is_claim(cert: &Certificate) -> bool
    ensures { IsTrue result ↔ IsClaim cert.now.kind cert.now.tasks cert.now.ask cert.now.claim }
{
    match &cert.claim {
        Claim::TooLong { task } => names_cycle(cert.ask) && *task < cert.tasks,
        Claim::Bounds {
            lower,
            upper,
            balance,
            entries,
            trail,
        } => {
            is_cycle(*lower)
                && is_cycle(*upper)
                && is_placing(balance, cert.kind, cert.tasks)
                && are_entries(entries, cert.tasks)
                && is_trail_or_none(trail, cert.tasks, entries.len())
        }
    }
}

/// Whether a question names a cycle.
fn names_cycle(ask: Ask) -> bool
    ensures { IsTrue result ↔ NamesCycle ask }
{
    match ask {
        Ask::Stations { cycle: _ } => true,
        Ask::Cycle { stations: _ } => false,
    }
}

/// Whether a balance has 1 to 1,024 stations, and a place within its ranges for each of `tasks` tasks.
fn is_placing(balance: &Balance, kind: LineKind, tasks: u32) -> bool
    ensures { IsTrue result ↔ IsPlacing kind tasks balance.now }
{
    let stations = balance.stations;
    let places = balance.place.len();
    if stations < 1 || stations > MAX_STATIONS || places != tasks as usize {
        return false;
    }
    for i in 0..places {
        if !is_placed(balance.place.at(i), kind, stations) {
            return false;
        }
    }
    true
}

/// Whether a place is at one of so many stations, at a side that the line has.
fn is_placed(place: &Seatplace, kind: LineKind, stations: u32) -> bool
    ensures { IsTrue result ↔ IsPlaced kind stations place.now }
{
    1 <= place.station && place.station <= stations && is_side(place.side, kind)
}

/// Whether a line has a side: a straight line has no back.
fn is_side(side: Side, kind: LineKind) -> bool
    ensures { IsTrue result ↔ IsSide kind side }
{
    match (kind, side) {
        (LineKind::Straight, Side::Back) => false,
        _ => true,
    }
}
