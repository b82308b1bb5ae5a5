//! The cites of an old entry, by the numbers that the cited entries have in the book.
ghost use Rattle.std.specs.Prelude.{◌≡◌, IfOk};
ghost use Rattle.warm_book.specs.Warm.{new_number, renumbered_cites, renumbered_why, renumbered};

use line_rules::{Cites, Entry, Why};
use std::alloc::{AllocError, Global};

/// The number in the book of the old entry that is cited, where that one was gone over and kept.
fn new_number(numbers: &[Option<u64>], cite: u64) -> Option<u64>
    ensures { result ≡ new_number numbers.now cite }
{
    match numbers.get(cite as usize) {
        Some(number) => *number,
        None => None,
    }
}

/// The cites with their new numbers, where each is of an old entry that was kept.
fn renumbered_cites(
    alloc: Global,
    numbers: &[Option<u64>],
    cites: &[u64],
) -> Result<Option<Cites>, AllocError>
    ensures { IfOk result (λ o. o ≡ renumbered_cites numbers.now cites.now) }
{
    let mut made = Vec::with_capacity(alloc, cites.len())?;
    for cite in cites {
        let Some(number) = new_number(numbers, *cite) else {
            return Ok(None);
        };
        made.push(number)?;
    }
    Ok(Some(Cites::from_vec(made)))
}

/// The same reason with its cites renumbered, where each is of an old entry that was kept.
fn renumbered_why(
    alloc: Global,
    numbers: &[Option<u64>],
    why: &Why,
) -> Result<Option<Why>, AllocError>
    ensures { IfOk result (λ o. o ≡ renumbered_why numbers.now why.now) }
{
    match why {
        Why::Bound => Ok(Some(Why::Bound)),
        Why::Branch { mode, cites } => {
            let cites = renumbered_cites(alloc, numbers, cites.as_slice())?;
            Ok(cites.map(|cites| Why::Branch { mode: *mode, cites }))
        }
        Why::Swap {
            cite,
            out_task,
            in_task,
        } => Ok(new_number(numbers, *cite).map(|cite| Why::Swap {
            cite,
            out_task: *out_task,
            in_task: *in_task,
        })),
        Why::Pairs { two } => Ok(Some(Why::Pairs { two: two.copy()? })),
    }
}

/// The same entry with its cites renumbered, where each is of an old entry that was kept. `numbers` has, for each old
/// entry gone over, its number in the book where it was kept. An error where memory is wanting.
pub(crate) fn renumbered(
    alloc: Global,
    numbers: &[Option<u64>],
    old: &Entry,
) -> Result<Option<Entry>, AllocError>
    ensures { IfOk result (λ o. o ≡ renumbered numbers.now old.now) }
{
    let why = renumbered_why(alloc, numbers, &old.why)?;
    Ok(why.map(|why| Entry {
        set: old.set,
        most: old.most,
        cycle: old.cycle,
        why,
    }))
}
