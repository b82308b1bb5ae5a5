//! Lines at a cycle of 7, and empty books of them.
ghost use Rattle.std.specs.Prelude.{◌≡◌, IfOk};
ghost use Rattle.line_rules.specs.declared.types.LineKind.TheVariants.{Straight};
ghost use Rattle.lemma_core.specs.Books.{IsReserved, MayBeBest};

use lemma_core::Book;
use line_instance::{Instance, Made, Prec, make};
use line_rules::{Balance, BalanceCheck, LineKind, Places, Seatplace, Side, check_balance};
use std::alloc::{AllocError, Global};
use std::test::Fail;

/// The cycle of all books here.
pub const CYCLE: u64 = 7;

/// The line of these times and arcs.
pub fn instance(alloc: Global, times: Vec<u64>, arcs: &[Prec]) -> Result<Instance, Fail> {
    match make(alloc, times, arcs) {
        Made::Good(inst) => Ok(inst),
        _ => Err("no instance")?,
    }
}

/// Seven free tasks, of which any balance needs five stations.
pub fn seven(alloc: Global) -> Result<Instance, Fail> {
    instance(alloc, vec![in alloc; 7, 7, 4, 4, 2, 2, 2]?, &[])
}

// Each task at a station of its own.
fn alone(alloc: Global, tasks: u32) -> Result<Balance, AllocError> {
    let mut place = Vec::new(alloc);
    for task in 0..tasks.min(1024) {
        place.push(Seatplace {
            station: task + 1,
            side: Side::Front,
        })?;
    }
    Ok(Balance {
        stations: tasks,
        place: Places::from_vec(place),
    })
}

// The balance, where it may be the best of a book.
fn tested(inst: &Instance, best: Balance) -> Result<Balance, Fail>
    ensures { IfOk result (λ b. MayBeBest (record { line = inst.now; kind = Straight; cycle = 7 }) b) }
{
    let few = best.place.len() <= inst.tasks() as usize && best.stations <= inst.tasks();
    if few && check_balance(inst, LineKind::Straight, CYCLE, &best) == BalanceCheck::Right {
        return Ok(best);
    }
    Err("no balance")?
}

/// An empty book of an instance, with room for offers.
pub fn book_of(alloc: Global, inst: &Instance) -> Result<Book, Fail>
    ensures about { IfOk result (λ b. b.about ≡ record { line = inst.now; kind = Straight; cycle = 7 }) }
    ensures reserved { IfOk result (λ b. IsReserved b) }
{
    let best = tested(inst, alone(alloc, inst.tasks())?)?;
    let mut book = Book::make(alloc, inst.copy(alloc)?, LineKind::Straight, CYCLE, best);
    book.reserve_offers()?;
    Ok(book)
}
