//! The seek at a tried cycle: beams and searches look for a balance in so many stations, and what they refute is taken
//! into the book.
//!
//! There is none where the question is answered already: where the bound exceeds the stations, or an entry of the book
//! or pairs refute them. So a seek is begun only where a search would be. It costs at most the loads of the plan, and
//! the walks over the lemmas that are taken in.
ghost use Rattle.std.specs.Prelude.{◌≡◌, ◌⊎◌, ◌≤◌, ◌+◌, ◌-◌, ◌^◌, min, true, false, IfOk};
ghost use Rattle.line_rules.specs.Ranges.{IsCycle};
ghost use Rattle.lemma_core.specs.Books.{IsReserved};
ghost use Rattle.line_seek.specs.Seeking.{IsKnown};
ghost use Rattle.round_run.specs.Plans.{IsPlan};
ghost use Rattle.round_run.specs.declared.plans.Plan.{Plan as Planned};
ghost use Rattle.cycle_search.specs.Seek.{AreSeeks, HasSoughtBook, seek_room, with_seek};

use lemma_core::Book;
use line_instance::Instance;
use line_rules::Balance;
use line_seek::{Sought, is_answered, seek_for};
use round_run::Plan;
use std::alloc::{AllocError, Global};
use std::thread::Threads;
use warm_book::{Counted, warm_counted};

/// What the seek and the search of a try may add to a book together, in entries and in units: so many that a
/// certificate, of a kept proof and a book, has at most 7,000,100 entries where the units are within the words' range.
const MOST_ADDED: u64 = 2_500_000;

/// What the seeks of a search come to. Each count stands still at 2^64 - 1.
#[derive(Clone, Copy, Debug, PartialEq, Eq)]
pub struct Seeks {
    /// The loads that they listed.
    pub used: u64,
    /// The loads that they might list: those of the plan for each seek that was begun.
    pub most: u64,
    /// The entries that were kept of their lemmas.
    pub kept: u64,
}

/// What a seek over a book comes to.
#[derive(Drop)]
pub struct SoughtBook {
    /// The book, with the lemmas that it took in.
    pub book: Book,
    /// A balance in at most as many stations as were asked for, where one was found.
    pub found: Option<Balance>,
    /// The seeks of the search, with this one where it was begun.
    pub seeks: Seeks,
    /// At least the units of the entries that the book took in: those of the lemmas that were kept.
    pub paid: u64,
}

impl Seeks {
    /// None yet.
    pub fn none() -> Seeks
        ensures { result ≡ record { used = 0; most = 0; kept = 0 } }
    {
        Seeks {
            used: 0,
            most: 0,
            kept: 0,
        }
    }

    /// With one more seek, which listed so many of its loads, and so many kept entries.
    fn with(self, used: u64, most: u64, kept: u64) -> Seeks
        requires within { used ≤ most }
        ensures seeks { (plan : Planned) → plan.seek ≡ most → kept ≤ seek_room plan → AreSeeks plan self
            → AreSeeks plan result }
        ensures exact { result ≡ with_seek self used most kept }
        ensures kept { result.kept ≡ min (self.kept + kept) (2 ^ 64 - 1) }
    {
        Seeks {
            used: self.used.saturating_add(used),
            most: self.most.saturating_add(most),
            kept: self.kept.saturating_add(kept),
        }
    }
}

/// How many entries a seek may add to the book of a try, and how many units of theirs.
fn room(plan: &Plan) -> u64
    requires plan { IsPlan plan.now }
    requires some { 1 ≤ plan.now.seek }
    ensures { result ≡ seek_room plan.now }
{
    MOST_ADDED.saturating_sub(2 * plan.units)
}

/// Whether no seek is begun: the plan has none, or it is known without one that there is no balance in so many stations.
fn is_needless(
    alloc: Global,
    inst: &Instance,
    book: &Book,
    stations: u32,
    plan: &Plan,
) -> Result<bool, AllocError>
    requires same { book.now.about.line ≡ inst.now }
    requires cycle { IsCycle book.now.about.cycle }
    requires few { stations ≤ 1024 }
    ensures needless { IfOk result (λ r. r ≡ true → (plan.now.seek ≡ 0) ⊎ IsKnown book.now stations) }
    ensures some { IfOk result (λ r. r ≡ false → 1 ≤ plan.now.seek) }
{
    if plan.seek == 0 {
        return Ok(true);
    }
    is_answered(alloc, inst, book, stations, plan.pairs)
}

/// Seeks a balance in so many stations, 1 to 1,024, at the cycle of a book, where the plan has a seek and the question
/// isn't answered already; and takes the lemmas of the seek into the book, where it found none. The first best balance
/// is the book's. An error where memory is wanting.
pub fn seek_book<R: Threads + Sync>(
    rt: &R,
    alloc: Global,
    inst: &Instance,
    book: Book,
    stations: u32,
    plan: &Plan,
    seeks: Seeks,
) -> Result<SoughtBook, AllocError>
    requires plan { IsPlan plan.now }
    requires some { 1 ≤ stations }
    requires few { stations ≤ 1024 }
    requires same { book.about.line ≡ inst.now }
    requires cycle { IsCycle book.about.cycle }
    requires reserved { IsReserved book }
    ensures sought { IfOk result (HasSoughtBook stations plan.now book seeks) }
{
    let needless = is_needless(alloc, inst, &book, stations, plan)?;
    if needless {
        return Ok(SoughtBook {
            book,
            found: None,
            seeks,
            paid: 0,
        });
    }
    let sought = seek_for(alloc, inst, &book, stations, plan.seek, plan.pairs);
    let Sought::Done { best, lemmas, used } = sought else {
        return Err(AllocError);
    };
    if best.stations <= stations {
        return Ok(SoughtBook {
            book,
            found: Some(best),
            seeks: seeks.with(used, plan.seek, 0),
            paid: 0,
        });
    }
    match warm_counted(rt, alloc, inst, book, &lemmas, room(plan)) {
        Counted::Done { book, kept, units } => Ok(SoughtBook {
            book,
            found: None,
            seeks: seeks.with(used, plan.seek, u64::from(kept)),
            paid: units,
        }),
        Counted::NoMemory(_) => Err(AllocError),
    }
}
