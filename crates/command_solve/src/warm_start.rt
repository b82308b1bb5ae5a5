//! What the search of a run begins with: the entries of an old certificate, where the words name one, and the lemmas
//! and the balance of a seek, where the run has one; and the book that takes them in.
//!
//! The old entries are read whole, checked side by side on the line as it is, and given up before the first search. A
//! run with N units takes at most 6,000,000 - 2N of them, with as many units; the lemmas of a seek have what these and
//! a first search leave. So its certificate stays within the default steps of the check, and its text within the bytes
//! that the check reads.
ghost use Rattle.std.specs.Prelude.{◌≡◌, ◌≤◌, ◌↔◌, ℕ, List, ◌++◌, [], Some, None, IfOk, IsTrue, MatchResult};
ghost use Rattle.std.specs.Prelude.{string_bytes, option_map, Option};
ghost use Rattle.std.specs.Option.{ForSome};
ghost use Rattle.line_io.specs.Outside.{Rises};
ghost use Rattle.line_instance.specs.Line.{tasks};
ghost use Rattle.line_rules.specs.Ranges.{AreEntries, IsCycle, IsInRange};
ghost use Rattle.line_rules.specs.Ranked.{IsRankedBalance};
ghost use Rattle.line_rules.specs.declared.types.Certificate.{Certificate as Proof};
ghost use Rattle.line_rules.specs.declared.types.Entry.{Entry as Lemma};
ghost use Rattle.line_rules.specs.declared.types.LineKind.{LineKind as Kind};
ghost use Rattle.lemma_core.specs.Books.{IsReserved, MayBeBest};
ghost use Rattle.command_outcome.specs.Outcome.{Stops, MayStop, outside};
ghost use Rattle.input_files.specs.Certificate.{IsCertificateOf};
ghost use Rattle.round_run.specs.Plans.{IsPlan};
ghost use Rattle.command_solve.specs.WarmStart.{AreOld, IsOldOf, IsOther, IsUnwarmed, entries_of, tasks_line};
ghost use Rattle.command_solve.specs.WarmStart.{warm_line};
ghost use Rattle.command_solve.specs.Effort.{IsEffort};
ghost use Rattle.command_solve.specs.WarmStart.{Start, old_room, seek_room};
ghost use Rattle.warm_book.specs.Warm.{Taking};
ghost use Rattle.command_solve.specs.inner.Begun.{IsBegun, IsReady, IsTaken, HasSoughtBehind};

use crate::effort::Effort;
use command_outcome::{EarlyEnd, Status, refuse, with_seek_line};
use input_files::certificate_of;
use lemma_core::Book;
use line_instance::Instance;
use line_io::Shelf;
use line_rules::{Balance, Certificate, Claim, Entries, LineKind};
use line_seek::{Sought, seek};
use round_run::{Plan, open_book};
use std::alloc::{AllocError, Global};
use std::thread::Threads;
use warm_book::{Counted, Warmed, warm_counted, warm_wide};

/// The units that a run and its old entries have together at most: twice the 3,000,000 that the words may ask for,
/// since helpers together have as many as the run. With 3,000,000 units there is no room for old entries. So the
/// certificate stays within the default steps of the check.
const MOST_UNITS: u64 = 6_000_000;

/// The book with which the search of a run begins, and the first lines of its text, where it has such on old entries
/// and on a seek.
#[derive(Drop)]
pub(crate) struct Begun {
    pub book: Book,
    pub first: String,
}

/// A book that took in old entries: how many it kept, with so many units, and the line that says so, where there were
/// any.
#[derive(Drop)]
pub(crate) struct Taken {
    pub book: Book,
    pub kept: u32,
    pub units: u64,
    pub first: String,
}

/// The line about a certificate of another number of tasks.
fn tasks_line(alloc: Global, said: u32, real: u32) -> Result<Vec<u8>, AllocError>
    ensures { IfOk result (λ t. t.items ≡ tasks_line said real) }
{
    let mut text = String::new(alloc);
    write!(text, "refused: tasks {said} {real}\n")?;
    Ok(text.into_bytes())
}

/// The line that says how many of the old entries were kept.
fn warm_line(alloc: Global, kept: u32, all: usize) -> Result<String, AllocError>
    ensures { IfOk result (λ t. string_bytes t ≡ warm_line kept all) }
{
    let mut text = String::new(alloc);
    write!(text, "warm {kept} of {all}\n")?;
    Ok(text)
}

/// Whether two kinds of line are the same.
fn is_same(kind: LineKind, other: LineKind) -> bool
    ensures { IsTrue result ↔ kind ≡ other }
{
    match (kind, other) {
        (LineKind::Straight, LineKind::Straight) => true,
        (LineKind::U, LineKind::U) => true,
        _ => false,
    }
}

/// The entries of a claim: none where it says that there is no balance.
fn entries_of(alloc: Global, claim: Claim) -> Entries
    ensures { result ≡ entries_of claim }
{
    match claim {
        Claim::TooLong { .. } => Entries::from_vec(Vec::new(alloc)),
        Claim::Bounds { entries, .. } => entries,
    }
}

/// The entries of a certificate that a run over the line may begin with.
pub fn entries_in(
    alloc: Global,
    inst: &Instance,
    kind: LineKind,
    cert: Certificate,
) -> Result<Entries, EarlyEnd>
    requires { IsInRange cert }
    ensures old { MatchResult result (IsOldOf kind inst.now cert) (Stops (IsOther kind inst.now cert)) }
    ensures range { IfOk result (AreEntries (tasks inst.now)) }
    ensures fault { MatchResult result (λ _. Unit {0}) (MayStop ⊥) }
{
    let tasks = inst.tasks();
    if cert.tasks != tasks {
        let text = tasks_line(alloc, cert.tasks, tasks)?;
        return Err(refuse(Status::Refused, text));
    }
    if !is_same(cert.kind, kind) {
        let text = String::from_str(alloc, "refused: kind\n")?;
        return Err(refuse(Status::Refused, text.into_bytes()));
    }
    Ok(entries_of(alloc, cert.claim))
}

/// The entries of the certificate of a file that a run over the line may begin with.
fn entries_from<S: Shelf>(
    alloc: Global,
    file: &str,
    inst: &Instance,
    kind: LineKind,
    shelf: &mut S,
) -> Result<Entries, EarlyEnd>
    ensures said { S.tells → MatchResult result
        (λ old. (cert : Proof) × (IsCertificateOf (S.file shelf.old) file.now cert × IsOldOf kind inst.now cert old))
        (Stops (IsUnwarmed (outside (S.file shelf.old) (S.blames shelf.new)) (Some file.now) kind inst.now)) }
    ensures range { IfOk result (AreEntries (tasks inst.now)) }
    ensures fault { MatchResult result (λ _. Unit {0})
        (MayStop (Rises (S.fetch_faults shelf.old) (S.fetch_faults shelf.new))) }
    ensures count { S.fetch_faults shelf.old ≤ S.fetch_faults shelf.new }
    ensures writes { S.write_faults shelf.new ≡ S.write_faults shelf.old }
    ensures files { S.tells → (q : List ℕ) → S.file shelf.new q ≡ S.file shelf.old q }
{
    let cert = certificate_of(alloc, file, shelf)?;
    let old = entries_in(alloc, inst, kind, cert)?;
    Ok(old)
}

/// The old entries of a run over the line, where the words name a file of them.
pub(crate) fn old_entries<S: Shelf>(
    alloc: Global,
    warm: Option<&str>,
    inst: &Instance,
    kind: LineKind,
    shelf: &mut S,
) -> Result<Option<Entries>, EarlyEnd>
    ensures said { S.tells → MatchResult result
        (AreOld (S.file shelf.old) (option_map (λ a. a.now) warm.entry) kind inst.now)
        (Stops (IsUnwarmed (outside (S.file shelf.old) (S.blames shelf.new)) (option_map (λ a. a.now) warm.entry)
        kind inst.now)) }
    ensures range { IfOk result (λ olds. ForSome olds (AreEntries (tasks inst.now))) }
    ensures fault { MatchResult result (λ _. Unit {0})
        (MayStop (Rises (S.fetch_faults shelf.old) (S.fetch_faults shelf.new))) }
    ensures count { S.fetch_faults shelf.old ≤ S.fetch_faults shelf.new }
    ensures writes { S.write_faults shelf.new ≡ S.write_faults shelf.old }
    ensures files { S.tells → (q : List ℕ) → S.file shelf.new q ≡ S.file shelf.old q }
{
    let Some(file) = warm else {
        return Ok(None);
    };
    let old = entries_from(alloc, file, inst, kind, shelf)?;
    Ok(Some(old))
}

/// An empty book, with the ranked balance, that takes in old entries, where there are any.
fn take_olds<R: Threads + Sync>(
    rt: &R,
    alloc: Global,
    inst: &Instance,
    book: Book,
    olds: Option<Entries>,
    plan: &Plan,
) -> Result<Taken, AllocError>
    requires same { book.about.line ≡ inst.now }
    requires range { ForSome olds (AreEntries (tasks inst.now)) }
    requires plan { IsPlan plan.now }
    requires reserved { IsReserved book }
    ensures taken { IfOk result (λ t. IsTaken plan.now.units book olds t (string_bytes t.first)) }
    ensures about { IfOk result (λ t. t.book.about ≡ book.about) }
    ensures reserved { IfOk result (λ t. IsReserved t.book) }
{
    let Some(old) = olds else {
        return Ok(Taken {
            book,
            kept: 0,
            units: 0,
            first: String::new(alloc),
        });
    };
    let room = MOST_UNITS - 2 * plan.units;
    match warm_counted(rt, alloc, inst, book, &old, room) {
        Counted::Done { book, kept, units } => {
            let first = warm_line(alloc, kept, old.len())?;
            Ok(Taken {
                book,
                kept,
                units,
                first,
            })
        }
        Counted::NoMemory(_) => Err(AllocError),
    }
}

/// The book after a seek of so many loads, whose lemmas it takes in and whose balance it is offered.
fn take_sought<R: Threads + Sync>(
    rt: &R,
    alloc: Global,
    inst: &Instance,
    taken: Taken,
    effort: Effort,
    plan: &Plan,
) -> Result<Begun, AllocError>
    requires same { taken.book.about.line ≡ inst.now }
    requires cycle { IsCycle taken.book.about.cycle }
    requires effort { IsEffort effort }
    requires plan { IsPlan plan.now }
    requires reserved { IsReserved taken.book }
    requires kept { taken.kept ≤ old_room plan.now.units }
    requires units { taken.units ≤ old_room plan.now.units }
    ensures sought { (at : Taking) → at.kept ≡ taken.kept → at.units ≡ taken.units
        → IfOk result (λ b. HasSoughtBehind (seek_room plan.now.units effort.first at) effort.seek taken.book b.book
        (string_bytes taken.first) (string_bytes b.first)) }
    ensures about { IfOk result (λ b. b.book.about ≡ taken.book.about) }
    ensures reserved { IfOk result (λ b. IsReserved b.book) }
{
    let Taken {
        book,
        kept,
        units,
        first,
    } = taken;
    let Sought::Done { best, lemmas, used } = seek(alloc, inst, &book, effort.seek, plan.pairs)
    else {
        return Err(AllocError);
    };
    let left = MOST_UNITS - 2 * plan.units - u64::from(kept).max(units);
    let room = left.saturating_sub(effort.first_room());
    match warm_wide(rt, alloc, inst, book, &lemmas, room) {
        Warmed::Done { mut book, kept } => {
            book.offer(best);
            let first = with_seek_line(first, used, effort.seek, u64::from(kept))?;
            Ok(Begun { book, first })
        }
        Warmed::NoMemory(_) => Err(AllocError),
    }
}

/// What a run has before a first search: an empty book with the ranked balance, but for the old entries that it took
/// in.
pub(crate) fn warm_up<R: Threads + Sync>(
    rt: &R,
    alloc: Global,
    inst: &Instance,
    kind: LineKind,
    cycle: u64,
    best: Balance,
    olds: Option<Entries>,
    plan: &Plan,
) -> Result<Taken, AllocError>
    requires cycle { IsCycle cycle }
    requires best { MayBeBest (record { line = inst.now; kind = kind; cycle = cycle }) best }
    requires ranked { IsRankedBalance kind inst.now cycle best }
    requires range { ForSome olds (AreEntries (tasks inst.now)) }
    requires plan { IsPlan plan.now }
    ensures { IfOk result (λ t. IsReady kind inst.now cycle plan.now 0 olds t (string_bytes t.first)) }
{
    let book = open_book(alloc, inst, kind, cycle, best)?;
    take_olds(rt, alloc, inst, book, olds, plan)
}

/// The book with which the search of a run begins: what the run has before, and the lemmas of a seek where it has one;
/// with its best balance, or a better one of the seek.
pub(crate) fn begin<R: Threads + Sync>(
    rt: &R,
    alloc: Global,
    inst: &Instance,
    taken: Taken,
    effort: Effort,
    plan: &Plan,
) -> Result<Begun, AllocError>
    requires cycle { IsCycle taken.book.about.cycle }
    requires effort { IsEffort effort }
    requires plan { IsPlan plan.now }
    requires ready { (kind : Kind) × (cycle : ℕ) × (olds : Option (List Lemma))
        × IsReady kind inst.now cycle plan.now effort.first olds taken (string_bytes taken.first) }
    ensures { (kind : Kind) (cycle : ℕ) (olds : Option (List Lemma))
        → IsReady kind inst.now cycle plan.now effort.first olds taken (string_bytes taken.first)
        → let start : Start = record { olds = olds; effort = effort } in
        IfOk result (λ b. IsBegun kind inst.now cycle plan.now start b.book (string_bytes b.first)) }
{
    if effort.seek == 0 {
        let Taken { book, first, .. } = taken;
        return Ok(Begun { book, first });
    }
    take_sought(rt, alloc, inst, taken, effort, plan)
}
