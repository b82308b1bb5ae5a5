//! One list of a kept proof and the entries of a book behind it.
//!
//! The cites of what stands behind are raised by the number of entries of the proof. Where there is no proof nothing is
//! copied; else one pass over the entries, with memory for their cites.
ghost use Rattle.std.specs.Prelude.{◌≡◌, ◌≤◌, ◌<◌, ◌^◌, ℕ, ◌++◌, length, map, IfOk, OnOk, slice_get, Some};
ghost use Rattle.line_rules.specs.Ranges.{AreCites, IsWhy};
ghost use Rattle.entry_lists.specs.Lift.{raised, lifted_why, lifted_frame};
ghost use Rattle.cycle_search.specs.inner.Joined.{raised_entry, behind, HaveCites, HaveFrameCites};
ghost use Rattle.line_rules.specs.declared.types.Entry.{Entry as Step};
ghost use Rattle.line_rules.specs.declared.types.OpenFrame.{OpenFrame as Frame};

use line_rules::{Cites, Entries, Entry, Frames, OpenFrame, Why};
use std::alloc::{AllocError, Global};

// Cites of a list of so many entries, raised by the number of entries before it.
fn raise(alloc: Global, cites: &Cites, count: u64, earlier: u64) -> Result<Cites, AllocError>
    requires cites { AreCites count cites.now }
    requires count { count ≤ 20000000 }
    requires earlier { earlier ≤ 20000000 }
    ensures { IfOk result (λ cs. cs ≡ raised earlier cites.now) }
{
    let mut more = Cites::from_vec(Vec::with_capacity(alloc, cites.len())?);
    for cite in cites.as_slice() {
        more.push(*cite + earlier)?;
    }
    Ok(more)
}

// A reason, its cites raised.
fn raise_why(alloc: Global, why: &Why, count: u64, earlier: u64) -> Result<Why, AllocError>
    requires why { (n : ℕ) × IsWhy n count why.now }
    requires count { count ≤ 20000000 }
    requires earlier { earlier ≤ 20000000 }
    ensures { IfOk result (λ w. w ≡ lifted_why earlier why.now) }
{
    match why {
        Why::Bound => Ok(Why::Bound),
        Why::Branch { mode, cites } => {
            let cites = raise(alloc, cites, count, earlier)?;
            Ok(Why::Branch { mode: *mode, cites })
        }
        Why::Swap {
            cite,
            out_task,
            in_task,
        } => Ok(Why::Swap {
            cite: *cite + earlier,
            out_task: *out_task,
            in_task: *in_task,
        }),
        Why::Pairs { two } => Ok(Why::Pairs { two: two.copy()? }),
    }
}

// An entry, its cites raised.
fn raise_entry(alloc: Global, entry: &Entry, count: u64, earlier: u64) -> Result<Entry, AllocError>
    requires entry { (n : ℕ) × IsWhy n count entry.now.why }
    requires count { count ≤ 20000000 }
    requires earlier { earlier ≤ 20000000 }
    ensures { IfOk result (λ e. e ≡ raised_entry earlier entry.now) }
{
    let why = raise_why(alloc, &entry.why, count, earlier)?;
    Ok(Entry {
        set: entry.set,
        most: entry.most,
        cycle: entry.cycle,
        why,
    })
}

// A frame, its cites raised.
fn raise_frame(
    alloc: Global,
    frame: &OpenFrame,
    count: u64,
    earlier: u64,
) -> Result<OpenFrame, AllocError>
    requires frame { AreCites count frame.now.cites }
    requires count { count ≤ 20000000 }
    requires earlier { earlier ≤ 20000000 }
    ensures { IfOk result (λ f. f ≡ lifted_frame earlier frame.now) }
{
    let cites = raise(alloc, &frame.cites, count, earlier)?;
    Ok(OpenFrame {
        set: frame.set,
        most: frame.most,
        mode: frame.mode,
        last: frame.last,
        cites,
    })
}

/// The entries of a proof, and behind them those of a book, their cites raised. An error where memory is wanting.
pub(crate) fn joined(alloc: Global, proof: Entries, entries: Entries) -> Result<Entries, AllocError>
    requires cites { HaveCites (length entries) entries }
    requires count { length entries ≤ 20000000 }
    requires earlier { length proof ≤ 20000000 }
    ensures { IfOk result (λ es. es ≡ behind proof entries) }
{
    if proof.is_empty() {
        return Ok(entries);
    }
    let (earlier, count) = (proof.len() as u64, entries.len() as u64);
    let mut all = proof;
    for entry in entries.as_slice() {
        let raised = raise_entry(alloc, entry, count, earlier)?;
        all.push(raised)?;
    }
    Ok(all)
}

/// Frames over a list of so many entries, their cites raised by the number of entries before it.
pub(crate) fn raise_frames(
    alloc: Global,
    frames: Frames,
    count: u64,
    earlier: u64,
) -> Result<Frames, AllocError>
    requires cites { HaveFrameCites count frames }
    requires count { count ≤ 20000000 }
    requires earlier { earlier ≤ 20000000 }
    ensures { IfOk result (λ fs. fs ≡ map (lifted_frame earlier) frames) }
{
    if earlier == 0 {
        return Ok(frames);
    }
    let mut all = Frames::from_vec(Vec::with_capacity(alloc, frames.len())?);
    for frame in frames.as_slice() {
        let raised = raise_frame(alloc, frame, count, earlier)?;
        all.push(raised)?;
    }
    Ok(all)
}
