//! The trimming of lists of entries.
ghost use Rattle.std.specs.Prelude.{◌≡◌, ◌↔◌, ℕ, ◌+◌, ◌<◌, ◌≤◌, false, length, map, slice_index, slice_get, replicate};
ghost use Rattle.std.specs.Prelude.{Some, IfOk, IsTrue};
ghost use Rattle.std.specs.List.{Contains};
ghost use Rattle.line_rules.specs.lines.Truths.{full_to, members_of};
ghost use Rattle.line_rules.specs.lines.Line.{Line};
ghost use Rattle.line_rules.specs.Entries.{Answers, HasAnswer, IsDerived, IsFresh};
ghost use Rattle.line_rules.specs.Ranges.{AreEntries};
ghost use Rattle.line_rules.specs.Units.{UnitsOf};
ghost use Rattle.line_rules.specs.declared.types.LineKind.{LineKind};
ghost use Rattle.entry_lists.specs.Trim.{cited_by, CitesEarlier, IsFirstAnswer, IsTrimmed, AreKeptEntries, AreMarked};
ghost use Rattle.entry_lists.specs.Trim.{AreMarks, AreClosed, entry_at, why_at};

use line_rules::{Cites, Entries, Entry, TaskSet, Why};
use std::alloc::{AllocError, Global};

/// The first entry of all tasks with at least so many stations and at least such a cycle, and all the entries that it
/// cites, directly or through others, in order and with their cites renumbered. There is such an entry, and each entry
/// cites entries before it alone, as in every derived list. An error where memory is wanting.
pub fn trim(
    alloc: Global,
    entries: Entries,
    tasks: u32,
    most: u32,
    cycle: u64,
) -> Result<Entries, AllocError>
    requires few { tasks ≤ 1024 }
    requires answered { HasAnswer entries (full_to tasks) most cycle }
    requires earlier { CitesEarlier entries }
    ensures trimmed { IfOk result (λ new. IsTrimmed entries (full_to tasks) most cycle new) }
    ensures derived { IfOk result (λ new. (kind : LineKind) (line : Line) → IsDerived kind line entries
        → IsDerived kind line new) }
    ensures fresh { IfOk result (λ new. IsFresh entries → IsFresh new) }
    ensures answers { IfOk result (λ new. HasAnswer new (full_to tasks) most cycle) }
    ensures units { IfOk result (λ new. (line : Line) (old : ℕ) → UnitsOf line entries old
        → (units : ℕ) × UnitsOf line new units × (units ≤ old)) }
    ensures ranges { IfOk result (λ new. (n : ℕ) → AreEntries n entries → AreEntries n new) }
{
    let all = TaskSet::full_to(tasks);
    let goal = first_answer(&entries, &all, most, cycle);
    let marks = marks_of(alloc, &entries, goal)?;
    kept(alloc, &entries, &marks)
}

/// Whether an entry answers the question, whether a set has a balance in `most` stations at a cycle: it is of that set,
/// for as many stations or more, at that cycle or a greater one.
#[inline]
pub fn answers(entry: &Entry, set: &TaskSet, most: u32, cycle: u64) -> bool
    ensures { IsTrue result ↔ Answers entry.now set.now most cycle }
{
    is_same(&entry.set, set) && most <= entry.most && cycle <= entry.cycle
}

// Whether two sets are the same.
#[inline]
fn is_same(set: &TaskSet, other: &TaskSet) -> bool
    ensures { IsTrue result ↔ (set.now ≡ other.now) }
{
    set == other
}

// The number of the first entry that answers the question.
fn first_answer(entries: &Entries, set: &TaskSet, most: u32, cycle: u64) -> usize
    requires { HasAnswer entries.now set.now most cycle }
    ensures { IsFirstAnswer entries.now set.now most cycle result }
{
    for (k, entry) in entries.as_slice().iter().enumerate() {
        if answers(entry, set, most, cycle) {
            return k;
        }
    }
    unreachable!()
}

// A call of its own, so that no proof writes out the list.
fn no_marks(alloc: Global, n: usize) -> Result<Vec<bool>, AllocError>
    ensures { IfOk result (λ v. v.items ≡ replicate n false) }
{
    vec![in alloc; false; n]
}

// Marks of what the entry of number `goal` stands on: cites lead to entries before, so one pass from the last entry
// down is enough.
fn marks_of(alloc: Global, entries: &Entries, goal: usize) -> Result<Vec<bool>, AllocError>
    requires there { goal < length entries.now }
    requires earlier { CitesEarlier entries.now }
    ensures { IfOk result (λ marks. AreMarks entries.now goal marks.items) }
{
    let mut marks = no_marks(alloc, entries.len())?;
    marks[goal] = true;
    for k in (0..entries.len()).rev() {
        if marks[k] {
            mark_cites(&mut marks, &entries.at(k).why);
        }
    }
    Ok(marks)
}

// Marks what an entry cites.
fn mark_cites(marks: &mut [bool], why: &Why)
    requires { (cite : ℕ) → Contains (cited_by why.now) cite → cite < length marks.old }
    ensures { AreMarked marks.old (cited_by why.now) marks.new }
{
    match why {
        Why::Bound => {}
        Why::Branch { mode: _, cites } => mark_all(marks, cites.as_slice()),
        Why::Swap {
            cite,
            out_task: _,
            in_task: _,
        } => marks[*cite as usize] = true,
        Why::Pairs { two: _ } => {}
    }
}

// Marks these numbers.
fn mark_all(marks: &mut [bool], cites: &[u64])
    requires { (cite : ℕ) → Contains cites.now cite → cite < length marks.old }
    ensures { AreMarked marks.old cites.now marks.new }
{
    for cite in cites {
        marks[*cite as usize] = true;
    }
}

// The marked entries, their cites renumbered by the number of marked entries before.
fn kept(alloc: Global, entries: &Entries, marks: &[bool]) -> Result<Entries, AllocError>
    requires { AreClosed entries.now marks.now }
    ensures { IfOk result (λ new. AreKeptEntries entries.now (members_of marks.now) new) }
{
    let mut places = Vec::new(alloc);
    let mut items = Vec::new(alloc);
    for k in 0..marks.len() {
        places.push(items.len() as u64)?;
        if marks[k] {
            items.push(moved(alloc, entries.at(k), &places)?)?;
        }
    }
    Ok(Entries::from_vec(items))
}

// The entry, each cite looked up in the list of places.
fn moved(alloc: Global, entry: &Entry, places: &[u64]) -> Result<Entry, AllocError>
    requires { (cite : ℕ) → Contains (cited_by entry.now.why) cite → cite < length places.now }
    ensures { IfOk result (λ e. e ≡ entry_at places.now entry.now) }
{
    Ok(Entry {
        set: entry.set,
        most: entry.most,
        cycle: entry.cycle,
        why: moved_why(alloc, &entry.why, places)?,
    })
}

fn moved_why(alloc: Global, why: &Why, places: &[u64]) -> Result<Why, AllocError>
    requires { (cite : ℕ) → Contains (cited_by why.now) cite → cite < length places.now }
    ensures { IfOk result (λ w. w ≡ why_at places.now why.now) }
{
    match why {
        Why::Bound => Ok(Why::Bound),
        Why::Branch { mode, cites } => {
            let moved = moved_cites(alloc, cites.as_slice(), places)?;
            Ok(Why::Branch {
                mode: *mode,
                cites: Cites::from_vec(moved),
            })
        }
        Why::Swap {
            cite,
            out_task,
            in_task,
        } => Ok(Why::Swap {
            cite: places[*cite as usize],
            out_task: *out_task,
            in_task: *in_task,
        }),
        Why::Pairs { two } => Ok(Why::Pairs { two: two.copy()? }),
    }
}

fn moved_cites(alloc: Global, cites: &[u64], places: &[u64]) -> Result<Vec<u64>, AllocError>
    requires { (cite : ℕ) → Contains cites.now cite → cite < length places.now }
    ensures { IfOk result (λ v. v.items ≡ map (slice_index places.now) cites.now) }
{
    let mut moved = Vec::with_capacity(alloc, cites.len())?;
    for cite in cites {
        moved.push(places[*cite as usize])?;
    }
    Ok(moved)
}
