//! The lift of a certificate of version 1: the certificate of version 2 that says the same.
//!
//! Its parts, each with entries of one cycle, become one list, and the cites of the second part are raised by the
//! number of entries of the first. One pass over the entries and the frames, and memory for the lists of the lift. A
//! part has at most 10,000,000 entries, so the lift has at most the 20,000,000 that a list may have, and raised cites
//! fit.
ghost use Rattle.std.specs.Prelude.{◌≡◌, ◌≤◌, ◌++◌, ◌∷◌, [], ℕ, length, map, IfOk, OnOk};
ghost use Rattle.entry_lists.specs.Lift.{raised, lifted_why, lifted_entry, lifted_frame, lifted_entries};
ghost use Rattle.entry_lists.specs.Lift.{trail_at as the_trail, trail_or, lifted_trail, lifted_claim, lift as lifted};
ghost use Rattle.entry_lists.specs.OldRanges.{IsPart, AreParts, IsOldClaim, IsOldInRange};
ghost use Rattle.line_rules.specs.Ranges.{AreCites, IsWhy, IsEntry, IsFrame};
ghost use Rattle.line_rules.specs.declared.types.Ask.{Ask};
ghost use Rattle.line_rules.specs.declared.types.LineKind.{LineKind};

use entry_lists::version_one::{OldCertificate, OldClaim, Part, Parts};
use line_rules::{Certificate, Cites, Claim, Entries, Entry, Frames, OpenFrame, Trail, Why};
use std::alloc::{AllocError, Global};

// The entries of all parts, and the trail, where there is one.
#[derive(Drop)]
struct Lists {
    entries: Entries,
    trail: Option<Trail>,
}

// Cites of a part of so many entries, raised by the number of entries before.
fn raise(alloc: Global, cites: &Cites, count: u64, earlier: u64) -> Result<Cites, AllocError>
    requires cites { AreCites count cites.now }
    requires count { count ≤ 10000000 }
    requires earlier { earlier ≤ 10000000 }
    ensures { IfOk result (λ cs. cs ≡ raised earlier cites.now) }
{
    let mut more = Cites::from_vec(Vec::with_capacity(alloc, cites.len())?);
    for cite in cites.as_slice() {
        more.push(*cite + earlier)?;
    }
    Ok(more)
}

// A reason of a part of so many entries, its cites raised.
fn lift_why(alloc: Global, why: &Why, count: u64, earlier: u64) -> Result<Why, AllocError>
    requires why { (n : ℕ) × IsWhy n count why.now }
    requires count { count ≤ 10000000 }
    requires earlier { earlier ≤ 10000000 }
    ensures { IfOk result (λ w. w ≡ lifted_why earlier why.now) }
{
    match why {
        Why::Bound => Ok(Why::Bound),
        Why::Branch { mode, cites } => {
            let cites = raise(alloc, cites, count, earlier)?;
            Ok(Why::Branch { mode: *mode, cites })
        }
        Why::Swap {
            cite,
            out_task,
            in_task,
        } => Ok(Why::Swap {
            cite: *cite + earlier,
            out_task: *out_task,
            in_task: *in_task,
        }),
        Why::Pairs { two } => Ok(Why::Pairs { two: two.copy()? }),
    }
}

// An entry of a part of so many entries at a cycle, its cites raised.
fn lift_entry(
    alloc: Global,
    entry: &Entry,
    cycle: u64,
    count: u64,
    earlier: u64,
) -> Result<Entry, AllocError>
    requires entry { (n : ℕ) × IsEntry n count entry.now }
    requires count { count ≤ 10000000 }
    requires earlier { earlier ≤ 10000000 }
    ensures { IfOk result (λ e. e ≡ lifted_entry cycle earlier entry.now) }
{
    let why = lift_why(alloc, &entry.why, count, earlier)?;
    Ok(Entry {
        set: entry.set,
        most: entry.most,
        cycle,
        why,
    })
}

// A frame of a part of so many entries, its cites raised.
fn lift_frame(
    alloc: Global,
    frame: &OpenFrame,
    count: u64,
    earlier: u64,
) -> Result<OpenFrame, AllocError>
    requires frame { (n : ℕ) × IsFrame n count frame.now }
    requires count { count ≤ 10000000 }
    requires earlier { earlier ≤ 10000000 }
    ensures { IfOk result (λ f. f ≡ lifted_frame earlier frame.now) }
{
    let cites = raise(alloc, &frame.cites, count, earlier)?;
    Ok(OpenFrame {
        set: frame.set,
        most: frame.most,
        mode: frame.mode,
        last: frame.last,
        cites,
    })
}

// Puts the entries of a part behind those of earlier parts.
fn append(alloc: Global, entries: &mut Entries, part: &Part, earlier: u64) -> Result<(), AllocError>
    requires part { (n : ℕ) × IsPart n part.now }
    requires earlier { earlier ≤ 10000000 }
    ensures { OnOk result (entries.new ≡ entries.old ++ map (lifted_entry part.now.cycle earlier) part.now.entries) }
{
    let count = part.entries.len() as u64;
    for entry in part.entries.as_slice() {
        let lifted = lift_entry(alloc, entry, part.cycle, count, earlier)?;
        entries.push(lifted)?;
    }
    Ok(())
}

// The frames of a part, their cites raised.
fn lift_frames(alloc: Global, part: &Part, earlier: u64) -> Result<Frames, AllocError>
    requires part { (n : ℕ) × IsPart n part.now }
    requires earlier { earlier ≤ 10000000 }
    ensures { IfOk result (λ fs. fs ≡ map (lifted_frame earlier) part.now.frames) }
{
    let count = part.entries.len() as u64;
    let mut frames = Frames::from_vec(Vec::with_capacity(alloc, part.frames.len())?);
    for frame in part.frames.as_slice() {
        let lifted = lift_frame(alloc, frame, count, earlier)?;
        frames.push(lifted)?;
    }
    Ok(frames)
}

// Frames at a cycle, or none.
fn trail_at(cycle: u64, frames: Frames) -> Option<Trail>
    ensures { result ≡ the_trail cycle frames }
{
    if frames.is_empty() {
        return None;
    }
    Some(Trail { cycle, frames })
}

// A trail, or where there is none the other one.
fn either(trail: Option<Trail>, other: Option<Trail>) -> Option<Trail>
    ensures { result ≡ trail_or trail other }
{
    match trail {
        Some(trail) => Some(trail),
        None => other,
    }
}

// The entries and the trail of one part.
fn single(part: Part) -> Lists
    requires { (n : ℕ) × IsPart n part }
    ensures entries { result.entries ≡ lifted_entries 0 (part ∷ []) }
    ensures trail { result.trail ≡ lifted_trail 0 (part ∷ []) }
{
    let Part {
        cycle,
        entries,
        frames,
    } = part;
    Lists {
        entries,
        trail: trail_at(cycle, frames),
    }
}

// The entries and the trail of two parts.
fn joined(alloc: Global, first: Part, second: Part) -> Result<Lists, AllocError>
    requires { (n : ℕ) × AreParts n (first ∷ second ∷ []) }
    ensures entries { IfOk result (λ l. l.entries ≡ lifted_entries 0 (first ∷ second ∷ [])) }
    ensures trail { IfOk result (λ l. l.trail ≡ lifted_trail 0 (first ∷ second ∷ [])) }
{
    let Part {
        cycle,
        mut entries,
        frames,
    } = first;
    let earlier = entries.len() as u64;
    append(alloc, &mut entries, &second, earlier)?;
    let behind = lift_frames(alloc, &second, earlier)?;
    Ok(Lists {
        entries,
        trail: either(trail_at(cycle, frames), trail_at(second.cycle, behind)),
    })
}

// The entries and the trail of parts.
fn lift_parts(alloc: Global, parts: Parts) -> Result<Lists, AllocError>
    requires { (n : ℕ) × AreParts n parts }
    ensures entries { IfOk result (λ l. l.entries ≡ lifted_entries 0 parts) }
    ensures trail { IfOk result (λ l. l.trail ≡ lifted_trail 0 parts) }
{
    let mut parts = parts.into_vec();
    let Some(last) = parts.pop() else {
        return Ok(Lists {
            entries: Entries::from_vec(Vec::new(alloc)),
            trail: None,
        });
    };
    let Some(first) = parts.pop() else {
        return Ok(single(last));
    };
    joined(alloc, first, last)
}

// What is claimed, the parts as one list.
fn lift_claim(alloc: Global, claim: OldClaim) -> Result<Claim, AllocError>
    requires { (kind : LineKind) × (n : ℕ) × (ask : Ask) × IsOldClaim kind n ask claim }
    ensures { IfOk result (λ c. c ≡ lifted_claim claim) }
{
    match claim {
        OldClaim::TooLong { task } => Ok(Claim::TooLong { task }),
        OldClaim::Bounds {
            lower,
            upper,
            balance,
            parts,
        } => {
            let Lists { entries, trail } = lift_parts(alloc, parts)?;
            Ok(Claim::Bounds {
                lower,
                upper,
                balance,
                entries,
                trail,
            })
        }
    }
}

/// The lift of a certificate of version 1: its parts as one list of entries, with one trail. An error where memory is
/// wanting.
pub(crate) fn lift(alloc: Global, old: OldCertificate) -> Result<Certificate, AllocError>
    requires { IsOldInRange old }
    ensures { IfOk result (λ cert. cert ≡ lifted old) }
{
    let OldCertificate {
        kind,
        tasks,
        ask,
        claim,
    } = old;
    let claim = lift_claim(alloc, claim)?;
    Ok(Certificate {
        kind,
        tasks,
        ask,
        claim,
    })
}
