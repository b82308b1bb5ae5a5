//! The cites of an old entry, by the numbers that the cited entries have among the kept ones.
//!
//! A cite is looked up by its number, in constant time; an entry that is kept takes memory for its lists.
ghost use Rattle.std.specs.Prelude.{◌≡◌, IfOk};
ghost use Rattle.warm_sequence.specs.Warm.{new_number, renumbered_cites, renumbered_why, renumbered};

use sequence_values::{Numbers, SeqEntry, SeqWhy};
use std::alloc::{AllocError, Global};

/// The new number of the old entry that is cited, where that one was gone over and kept.
fn new_number(numbers: &[Option<u64>], cite: u64) -> Option<u64>
    ensures { result ≡ new_number numbers.now cite }
{
    match numbers.get(cite as usize) {
        Some(number) => *number,
        None => None,
    }
}

/// The cites with their new numbers, where each is of an old entry that was kept.
fn renumbered_cites(
    alloc: Global,
    numbers: &[Option<u64>],
    cites: &[u64],
) -> Result<Option<Numbers>, AllocError>
    ensures { IfOk result (λ o. o ≡ renumbered_cites numbers.now cites.now) }
{
    let mut made = Vec::with_capacity(alloc, cites.len())?;
    for cite in cites {
        let Some(number) = new_number(numbers, *cite) else {
            return Ok(None);
        };
        made.push(number)?;
    }
    Ok(Some(Numbers::from_vec(made)))
}

/// The same reason with its cites renumbered, where each is of an old entry that was kept.
fn renumbered_why(
    alloc: Global,
    numbers: &[Option<u64>],
    why: &SeqWhy,
) -> Result<Option<SeqWhy>, AllocError>
    ensures { IfOk result (λ o. o ≡ renumbered_why numbers.now why.now) }
{
    match why {
        SeqWhy::Bound => Ok(Some(SeqWhy::Bound)),
        SeqWhy::Branch { cites } => {
            let cites = renumbered_cites(alloc, numbers, cites.as_slice())?;
            Ok(cites.map(|cites| SeqWhy::Branch { cites }))
        }
        SeqWhy::Charge { cites } => {
            let cites = renumbered_cites(alloc, numbers, cites.as_slice())?;
            Ok(cites.map(|cites| SeqWhy::Charge { cites }))
        }
    }
}

/// The same entry with its cites renumbered, where each is of an old entry that was kept. `numbers` has, for each old
/// entry gone over, its number among the kept ones where it was kept. An error where memory is wanting.
pub(crate) fn renumbered(
    alloc: Global,
    numbers: &[Option<u64>],
    old: &SeqEntry,
) -> Result<Option<SeqEntry>, AllocError>
    ensures { IfOk result (λ o. o ≡ renumbered numbers.now old.now) }
{
    let renumbered = renumbered_why(alloc, numbers, &old.why)?;
    let Some(why) = renumbered else {
        return Ok(None);
    };
    Ok(Some(SeqEntry {
        rem: old.rem.copy()?,
        starts: old.starts.copy()?,
        least: old.least,
        why,
    }))
}
