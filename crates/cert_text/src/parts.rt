//! The reading of a certificate's text, line by line, in any version.
//!
//! Each part has a function whose contract names the grammar of that part. A fault is found at its line, and nothing is
//! read twice. It costs one pass over the lines, and the memory of the values. The first line tells the version. What
//! version 1 says is lifted at the end, when all of it has been read.
ghost use Rattle.std.specs.Prelude.{◌≡◌, ◌≤◌, IfOk, length};
ghost use Rattle.cert_lines.specs.Pattern.{IsRead};
ghost use Rattle.cert_lines.specs.ReadingOn.{IsReadOn};
ghost use Rattle.cert_lines.specs.LineForms.{IsOpening};
ghost use Rattle.cert_lines.specs.declared.line_forms.Version.{Version as Release};
ghost use Rattle.cert_text.specs.Parts.{IsHeadOf, IsPlacedOf, IsOpened, IsClaimOf, MayHave, pairs_of as the_pairs};
ghost use Rattle.cert_text.specs.Parts.{heads, trails, lists, seatings, placings, opened, claims};
ghost use Rattle.cert_text.specs.Versions.{certificate_of};
ghost use Rattle.cert_text.specs.WholeText.{IsAnyRead};
ghost use Rattle.line_rules.specs.Ranges.{AreEntries, IsTrailOrNone, IsCycle, IsPlacing, IsInRange};

use crate::lifting::lift;
use crate::version_one::read_parts;
use cert_lines::line_forms::{
    AskLine, EndLine, EntryLine, FrameLine, Key, KindLine, MAX_CYCLE, Opening, OpeningLine,
    SeatLine, TrailLine, Version, VersionLine, read_number,
};
use cert_lines::pattern::{read_line, read_lines};
use cert_lines::{ReadError, Source};
use entry_lists::version_one::{OldCertificate, OldClaim};
use line_rules::{Ask, Balance, Certificate, Claim, Entries, Frames, LineKind, Places, Trail};
use std::alloc::{AllocError, Global};

/// The most entries: as many as both parts of a certificate of version 1 may have together.
const MAX_ENTRIES: u64 = 20_000_000;

/// What stands before the claim.
#[derive(Clone, Copy)]
pub struct Head {
    /// The kind of line.
    pub kind: LineKind,
    /// The number of tasks.
    pub tasks: u32,
    /// The question.
    pub ask: Ask,
}

/// Entries and a trail.
#[derive(Drop)]
pub struct EntryList {
    /// The entries.
    pub entries: Entries,
    /// The trail, where there is one.
    pub trail: Option<Trail>,
}

/// The bounds behind the lower one.
#[derive(Drop)]
pub struct Placed {
    /// The upper bound.
    pub upper: u64,
    /// The balance.
    pub balance: Balance,
}

/// A claim of any version; that a task is too long is said alike in all.
#[derive(Drop)]
pub enum AnyClaim {
    /// As version 2 or 3 says it.
    New(Claim),
    /// Bounds of version 1.
    Old(OldClaim),
}

/// Reads what stands before the claim.
fn read_head<S: Source>(alloc: Global, source: &mut S) -> Result<Head, ReadError>
    ensures said { IfOk result IsHeadOf }
    ensures read { S.told → IsRead heads
        (S.number source.old) (S.left source.old) (S.left source.new) (S.number source.new) result }
    ensures source { IsReadOn S.base S.faults S.least source.old source.new }
{
    let kind = read_line(alloc, source, &KindLine)?;
    let tasks = read_number(alloc, source, Key::Tasks, 1, 1024)?;
    let ask = read_line(alloc, source, &AskLine)?;
    Ok(Head {
        kind,
        tasks: tasks as u32,
        ask,
    })
}

/// Reads a trail, or that there is none.
fn read_trail<S: Source>(
    alloc: Global,
    source: &mut S,
    tasks: u32,
    count: u64,
) -> Result<Option<Trail>, ReadError>
    requires some { 1 ≤ tasks }
    requires few { tasks ≤ 1024 }
    requires entries { count ≤ 20000000 }
    ensures said { IfOk result (IsTrailOrNone tasks count) }
    ensures read { S.told → IsRead (trails tasks count)
        (S.number source.old) (S.left source.old) (S.left source.new) (S.number source.new) result }
    ensures source { IsReadOn S.base S.faults S.least source.old source.new }
{
    let head = read_line(alloc, source, &TrailLine)?;
    let Some((frames, cycle)) = head else {
        return Ok(None);
    };
    let frames = read_lines(alloc, source, &FrameLine { tasks, count }, frames)?;
    Ok(Some(Trail {
        cycle,
        frames: Frames::from_vec(frames),
    }))
}

/// Reads entries and a trail, of a text with entries by pairs or without.
pub fn read_entries<S: Source>(
    alloc: Global,
    source: &mut S,
    tasks: u32,
    pairs: bool,
) -> Result<EntryList, ReadError>
    requires some { 1 ≤ tasks }
    requires few { tasks ≤ 1024 }
    ensures said { IfOk result (λ x. AreEntries tasks x.entries × IsTrailOrNone tasks (length x.entries) x.trail
        × MayHave pairs x.entries) }
    ensures read { S.told → IsRead (lists tasks pairs)
        (S.number source.old) (S.left source.old) (S.left source.new) (S.number source.new) result }
    ensures source { IsReadOn S.base S.faults S.least source.old source.new }
{
    let count = read_number(alloc, source, Key::Entries, 0, MAX_ENTRIES)?;
    let entries = read_lines(
        alloc,
        source,
        &EntryLine {
            tasks,
            count,
            given: None,
            pairs,
        },
        count,
    )?;
    let trail = read_trail(alloc, source, tasks, count)?;
    Ok(EntryList {
        entries: Entries::from_vec(entries),
        trail,
    })
}

/// Reads a balance: its number of stations, and a place for each task.
pub fn read_seating<S: Source>(
    alloc: Global,
    source: &mut S,
    kind: LineKind,
    tasks: u32,
) -> Result<Balance, ReadError>
    requires some { 1 ≤ tasks }
    requires few { tasks ≤ 1024 }
    ensures said { IfOk result (IsPlacing kind tasks) }
    ensures read { S.told → IsRead (seatings kind tasks)
        (S.number source.old) (S.left source.old) (S.left source.new) (S.number source.new) result }
    ensures source { IsReadOn S.base S.faults S.least source.old source.new }
{
    let stations = read_number(alloc, source, Key::Balance, 1, 1024)?;
    let stations = stations as u32;
    let places = read_lines(
        alloc,
        source,
        &SeatLine { kind, stations },
        u64::from(tasks),
    )?;
    Ok(Balance {
        stations,
        place: Places::from_vec(places),
    })
}

/// Reads the bounds behind the lower one, up to the places.
fn read_placed<S: Source>(alloc: Global, source: &mut S, head: Head) -> Result<Placed, ReadError>
    requires { IsHeadOf head }
    ensures said { IfOk result (IsPlacedOf head.kind head.tasks) }
    ensures read { S.told → IsRead (placings head.kind head.tasks)
        (S.number source.old) (S.left source.old) (S.left source.new) (S.number source.new) result }
    ensures source { IsReadOn S.base S.faults S.least source.old source.new }
{
    let upper = read_number(alloc, source, Key::Upper, 1, MAX_CYCLE)?;
    let balance = read_seating(alloc, source, head.kind, head.tasks)?;
    Ok(Placed { upper, balance })
}

// Whether a text of the version may have entries by pairs; None where its entries stand in parts.
fn pairs_of(version: Version) -> Option<bool>
    ensures { result ≡ the_pairs version }
{
    match version {
        Version::One => None,
        Version::Two => Some(false),
        Version::Three => Some(true),
    }
}

/// Reads the bounds behind the lower one, and the end.
fn read_bounds<S: Source>(
    alloc: Global,
    source: &mut S,
    version: Version,
    head: Head,
    lower: u64,
) -> Result<AnyClaim, ReadError>
    requires head { IsHeadOf head }
    requires lower { IsCycle lower }
    ensures said { IfOk result (IsOpened version head (Opening.Lower lower)) }
    ensures read { S.told → IsRead (opened version head (Opening.Lower lower))
        (S.number source.old) (S.left source.old) (S.left source.new) (S.number source.new) result }
    ensures source { IsReadOn S.base S.faults S.least source.old source.new }
{
    let placed = read_placed(alloc, source, head)?;
    let Placed { upper, balance } = placed;
    match pairs_of(version) {
        Some(pairs) => {
            let list = read_entries(alloc, source, head.tasks, pairs)?;
            read_line(alloc, source, &EndLine)?;
            let EntryList { entries, trail } = list;
            Ok(AnyClaim::New(Claim::Bounds {
                lower,
                upper,
                balance,
                entries,
                trail,
            }))
        }
        None => {
            let parts = read_parts(alloc, source, head.tasks)?;
            read_line(alloc, source, &EndLine)?;
            Ok(AnyClaim::Old(OldClaim::Bounds {
                lower,
                upper,
                balance,
                parts,
            }))
        }
    }
}

/// Reads what stands behind the first line of a claim.
fn read_opened<S: Source>(
    alloc: Global,
    source: &mut S,
    version: Version,
    head: Head,
    opening: Opening,
) -> Result<AnyClaim, ReadError>
    requires head { IsHeadOf head }
    requires opening { IsOpening head.ask head.tasks opening }
    ensures said { IfOk result (IsOpened version head opening) }
    ensures read { S.told → IsRead (opened version head opening)
        (S.number source.old) (S.left source.old) (S.left source.new) (S.number source.new) result }
    ensures source { IsReadOn S.base S.faults S.least source.old source.new }
{
    match opening {
        Opening::TooLong { task } => match read_line(alloc, source, &EndLine) {
            Ok(()) => Ok(AnyClaim::New(Claim::TooLong { task })),
            Err(error) => Err(error),
        },
        Opening::Lower { lower } => read_bounds(alloc, source, version, head, lower),
    }
}

/// Reads a claim.
fn read_claim<S: Source>(
    alloc: Global,
    source: &mut S,
    version: Version,
    head: Head,
) -> Result<AnyClaim, ReadError>
    requires { IsHeadOf head }
    ensures said { IfOk result (IsClaimOf version head) }
    ensures read { S.told → IsRead (claims version head)
        (S.number source.old) (S.left source.old) (S.left source.new) (S.number source.new) result }
    ensures source { IsReadOn S.base S.faults S.least source.old source.new }
{
    let opening = read_line(
        alloc,
        source,
        &OpeningLine {
            ask: head.ask,
            tasks: head.tasks,
        },
    )?;
    read_opened(alloc, source, version, head, opening)
}

/// The certificate of a head and a claim; one of version 1 is lifted.
fn certified(alloc: Global, head: Head, claim: AnyClaim) -> Result<Certificate, AllocError>
    requires head { IsHeadOf head }
    requires claim { (version : Release) × IsClaimOf version head claim }
    ensures { IfOk result (λ cert. cert ≡ certificate_of head claim) }
{
    let Head { kind, tasks, ask } = head;
    match claim {
        AnyClaim::New(claim) => Ok(Certificate {
            kind,
            tasks,
            ask,
            claim,
        }),
        AnyClaim::Old(claim) => {
            let old = OldCertificate {
                kind,
                tasks,
                ask,
                claim,
            };
            lift(alloc, old)
        }
    }
}

/// Reads a certificate of version 2 or 3, or one of version 1, which is lifted.
pub fn read_all<S: Source>(alloc: Global, source: &mut S) -> Result<Certificate, ReadError>
    ensures said { IfOk result IsInRange }
    ensures read { S.told → IsAnyRead
        (S.number source.old) (S.left source.old) (S.left source.new) (S.number source.new) result }
    ensures source { IsReadOn S.base S.faults S.least source.old source.new }
{
    let version = read_line(alloc, source, &VersionLine)?;
    let head = read_head(alloc, source)?;
    let claim = read_claim(alloc, source, version, head)?;
    let cert = certified(alloc, head, claim)?;
    Ok(cert)
}
