//! Whether a question is answered before anything is listed.
ghost use Rattle.std.specs.Prelude.{◌≡◌, ◌≤◌, true, false, IfOk, IfSome};
ghost use Rattle.line_rules.specs.Balance.{all_tasks};
ghost use Rattle.line_rules.specs.Bounds.{bound};
ghost use Rattle.line_rules.specs.Ranges.{IsCycle};
ghost use Rattle.station_search.specs.Decide.{IsPairing};
ghost use Rattle.line_seek.specs.Seeking.{IsRefuted, IsKnown};

use beam_search::bound;
use lemma_core::{Book, Looked};
use line_instance::Instance;
use station_search::{PairTable, Paired, ask_pairs, table_for};
use std::alloc::{AllocError, Global};

/// Whether an entry of the book or, where there is a table, pairs refute that all tasks have a balance in so many
/// stations.
pub(crate) fn is_refuted(
    inst: &Instance,
    book: &Book,
    pairs: &mut Option<PairTable>,
    stations: u32,
) -> bool
    requires same { book.now.about.line ≡ inst.now }
    requires few { stations ≤ 1024 }
    requires pairs { IfSome pairs.old (IsPairing inst.now book.now.about.kind book.now.about.cycle) }
    ensures pairs { pairs.new ≡ pairs.old }
    ensures refuted { result ≡ true → IsRefuted book.now stations }
{
    let all = inst.all();
    match book.look(&all, stations) {
        Looked::Found { .. } => return true,
        Looked::Absent => {}
    }
    match ask_pairs(pairs, inst, book.kind(), book.cycle(), &all, stations) {
        Paired::Refuted { .. } => true,
        Paired::Open => false,
    }
}

/// Whether it is known without a search that all tasks have no balance in so many stations, at most 1,024: where the
/// bound, an entry of the book or, if they are asked, pairs tell it. The book is about the instance, and its cycle is 1 to
/// 10^18 in the instance's time unit. An error where memory is wanting.
pub fn is_answered(
    alloc: Global,
    inst: &Instance,
    book: &Book,
    stations: u32,
    pairs: bool,
) -> Result<bool, AllocError>
    requires same { book.now.about.line ≡ inst.now }
    requires cycle { IsCycle book.now.about.cycle }
    requires few { stations ≤ 1024 }
    ensures known { IfOk result (λ r. r ≡ true → IsKnown book.now stations) }
    ensures open { let about = book.now.about in
        IfOk result (λ r. r ≡ false → bound about.kind inst.now about.cycle (all_tasks inst.now) ≤ stations) }
{
    if bound(inst, book.kind(), book.cycle(), &inst.all()) > stations {
        return Ok(true);
    }
    let mut pairs = table_for(alloc, inst, book.kind(), book.cycle(), pairs)?;
    Ok(is_refuted(inst, book, &mut pairs, stations))
}
