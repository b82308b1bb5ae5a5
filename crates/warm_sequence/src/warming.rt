//! One pass over old entries, which keeps those that hold.
//!
//! For each old entry gone over, its number among the kept ones is held, which takes 16 bytes: so cites are renumbered
//! without a search. Time is proportional to the units of the entries times stations times models.
ghost use Rattle.std.specs.Prelude.{◌≡◌, ℕ, ◌≤◌, List, length, slice_get, Some, OnOk, IfOk};
ghost use Rattle.sequence_values.specs.declared.types.SeqEntry.{SeqEntry as Step};
ghost use Rattle.sequence_rules.specs.Charges.{AreCharges};
ghost use Rattle.sequence_rules.specs.Entries.{IsDerived, units_of};
ghost use Rattle.sequence_rules.specs.Ranges.{AreTimes, IsPlace, IsEntry};
ghost use Rattle.warm_sequence.specs.Warm.{Takes, AreKept, OfKept};
ghost use Rattle.warm_sequence.specs.inner.Keeping.{taking, IsOfMix, AreOfMix, IsSound, IsJudged, IsWarmTo};

use crate::numbers::renumbered;
use sequence_check::{SeqEntryChecked, verify_seq_entry};
use sequence_values::{Numbers, SeqEntries, SeqEntry, Times};
use std::alloc::{AllocError, Global};

/// What is kept of old entries.
#[derive(Drop)]
pub enum SeqWarmed {
    /// All old entries were gone over, and these were kept.
    Done(SeqEntries),
    /// Out of memory.
    NoMemory,
}

/// The entries that were kept so far.
#[derive(Drop)]
struct Warming {
    kept: SeqEntries,
    /// For each old entry gone over, its number among the kept ones, where it was kept.
    numbers: Vec<Option<u64>>,
    /// The sum of the units of the kept ones.
    units: u64,
}

/// An old entry that is kept: with its cites renumbered, and with its units.
#[derive(Drop)]
struct Judged {
    entry: SeqEntry,
    units: u64,
}

impl Warming {
    // Whether an old entry is kept, and as which entry.
    fn judge(
        &self,
        alloc: Global,
        times: &Times,
        interval: u64,
        reach: u64,
        charges: &Numbers,
        old: &SeqEntry,
        room: u64,
    ) -> Result<Option<Judged>, AllocError>
        requires times { AreTimes times.now }
        requires interval { IsPlace interval }
        requires reach { IsPlace reach }
        requires charges { AreCharges times.now charges.now }
        requires old { IsOfMix times.now charges.now old.now }
        requires room { room ≤ 1999999 }
        requires sound { IsSound times.now interval reach charges.now room (taking self.now) self.now.units }
        ensures { IfOk result (IsJudged times.now interval reach charges.now room (taking self.now) old.now) }
    {
        if self.kept.len() as u64 >= room {
            return Ok(None);
        }
        let renumbered = renumbered(alloc, &self.numbers, old)?;
        let Some(entry) = renumbered else {
            return Ok(None);
        };
        let steps = room - self.units;
        let kept = &self.kept;
        match verify_seq_entry(times, interval, reach, Some(charges), kept, &entry, steps) {
            SeqEntryChecked::Right { units } => Ok(Some(Judged { entry, units })),
            SeqEntryChecked::Fails { units: _ } => Ok(None),
            SeqEntryChecked::StepsEnded => Ok(None),
        }
    }

    // Keeps an old entry, or passes it over.
    fn take(
        &mut self,
        alloc: Global,
        times: &Times,
        interval: u64,
        reach: u64,
        charges: &Numbers,
        old: &SeqEntry,
        room: u64,
    ) -> Result<(), AllocError>
        requires times { AreTimes times.now }
        requires interval { IsPlace interval }
        requires reach { IsPlace reach }
        requires charges { AreCharges times.now charges.now }
        requires old { IsOfMix times.now charges.now old.now }
        requires room { room ≤ 1999999 }
        requires sound { IsSound times.now interval reach charges.now room (taking self.old) self.old.units }
        ensures taken { OnOk result (Takes times.now interval reach charges.now room (taking self.old) old.now
            (taking self.new)) }
        ensures sound { OnOk result (IsSound times.now interval reach charges.now room (taking self.new)
            self.new.units) }
    {
        let judged = self.judge(alloc, times, interval, reach, charges, old, room)?;
        let Some(Judged { entry, units }) = judged else {
            self.numbers.push(None)?;
            return Ok(());
        };
        let number = self.kept.len() as u64;
        self.numbers.push(Some(number))?;
        self.kept.push(entry)?;
        self.units += units;
        Ok(())
    }
}

/// What is kept of the old entries.
fn go_over(
    alloc: Global,
    times: &Times,
    interval: u64,
    reach: u64,
    charges: &Numbers,
    old: &SeqEntries,
    room: u64,
) -> Result<Warming, AllocError>
    requires times { AreTimes times.now }
    requires interval { IsPlace interval }
    requires reach { IsPlace reach }
    requires charges { AreCharges times.now charges.now }
    requires old { AreOfMix times.now charges.now old.now }
    requires room { room ≤ 1999999 }
    ensures { IfOk result (λ w. IsWarmTo times.now interval reach charges.now room old.now (taking w) w.units) }
{
    let mut warming = Warming {
        kept: SeqEntries::from_vec(Vec::new(alloc)),
        numbers: Vec::with_capacity(alloc, old.len())?,
        units: 0,
    };
    for k in 0..old.len() {
        warming.take(alloc, times, interval, reach, charges, old.at(k), room)?;
    }
    Ok(warming)
}

/// The entries of an old list that hold on this mix and line, in their order and with their cites renumbered. An entry
/// is kept where what it cites was kept, it follows from the kept ones, and neither their number nor the sum of their
/// units passes `room` with it.
///
/// `interval` is the launch interval and `reach` the length of each station, in the mix's time unit, 1 to 10^9;
/// `charges` has the charge of each model, 0 to 10^14; `room` is at most 1,999,999. The old entries are within the
/// ranges of a certificate. Takes memory for the kept entries and for a number of each old one.
pub fn warm_seq(
    alloc: Global,
    times: &Times,
    interval: u64,
    reach: u64,
    charges: &Numbers,
    old: &SeqEntries,
    room: u64,
) -> SeqWarmed
    requires times { AreTimes times.now }
    requires interval { IsPlace interval }
    requires reach { IsPlace reach }
    requires charges { AreCharges times.now charges.now }
    requires old { (k : ℕ) (e : Step) → slice_get old.now k ≡ Some e
        → IsEntry (length times.now.demands) times.now.stations (Some charges.now) e }
    requires room { room ≤ 1999999 }
    ensures kept { OfKept (AreKept times.now interval reach charges.now room old.now) result }
    ensures one { OfKept (λ es. (other : List Step) → AreKept times.now interval reach charges.now room old.now other
        → other ≡ es) result }
    ensures derived { OfKept (λ es. IsDerived times.now interval reach charges.now es) result }
    ensures few { OfKept (λ es. length es ≤ room) result }
    ensures paid { OfKept (λ es. units_of charges.now es ≤ room) result }
    ensures range { OfKept (λ es. (k : ℕ) (e : Step) → slice_get es k ≡ Some e
        → IsEntry (length times.now.demands) times.now.stations (Some charges.now) e) result }
{
    match go_over(alloc, times, interval, reach, charges, old, room) {
        Ok(warming) => SeqWarmed::Done(warming.kept),
        Err(AllocError) => SeqWarmed::NoMemory,
    }
}
