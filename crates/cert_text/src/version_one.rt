//! The reading of the parts of a text of version 1.
//!
//! There are at most two parts, each with one cycle for all its entries, and at most one of them has frames. So the
//! second part is read with room for 1,024 frames or for none, and a second trail is a fault at its own line. Version 1
//! is read and never written.
ghost use Rattle.std.specs.Prelude.{◌≡◌, ◌≤◌, IfOk, length};
ghost use Rattle.cert_lines.specs.Pattern.{IsRead};
ghost use Rattle.cert_lines.specs.ReadingOn.{IsReadOn};
ghost use Rattle.entry_lists.specs.OldRanges.{IsPart, AreParts};
ghost use Rattle.cert_text.specs.inner.OldParts.{AreFrames, room_left, old_trails, one_part, counted};

use cert_lines::line_forms::{EntryLine, FrameLine, Key, MAX_CYCLE, read_number};
use cert_lines::pattern::read_lines;
use cert_lines::{ReadError, Source};
use entry_lists::version_one::{Part, Parts};
use line_rules::{Entries, Frames};
use std::alloc::Global;

/// The most entries of a part: half of the 20,000,000 that a list of version 2 may have, since two parts become one.
const MAX_PART_ENTRIES: u64 = 10_000_000;

/// The most parts.
const MAX_PARTS: u64 = 2;

/// The most frames of a trail: each frame asks for one station less than the one above it, the first for at most 1,024.
const MAX_FRAMES: u64 = 1024;

// Reads frames behind their number, at most so many.
fn read_frames<S: Source>(
    alloc: Global,
    source: &mut S,
    tasks: u32,
    count: u64,
    room: u64,
) -> Result<Frames, ReadError>
    requires some { 1 ≤ tasks }
    requires few { tasks ≤ 1024 }
    requires entries { count ≤ 10000000 }
    requires room { room ≤ 1024 }
    ensures said { IfOk result (AreFrames tasks count room) }
    ensures read { S.told → IsRead (old_trails tasks count room)
        (S.number source.old) (S.left source.old) (S.left source.new) (S.number source.new) result }
    ensures source { IsReadOn S.base S.faults S.least source.old source.new }
{
    let many = read_number(alloc, source, Key::Trail, 0, room)?;
    let frames = read_lines(alloc, source, &FrameLine { tasks, count }, many)?;
    Ok(Frames::from_vec(frames))
}

// Reads a part that may have so many frames.
fn read_part<S: Source>(
    alloc: Global,
    source: &mut S,
    tasks: u32,
    room: u64,
) -> Result<Part, ReadError>
    requires some { 1 ≤ tasks }
    requires few { tasks ≤ 1024 }
    requires room { room ≤ 1024 }
    ensures said { IfOk result (λ p. IsPart tasks p × (length p.frames ≤ room)) }
    ensures read { S.told → IsRead (one_part tasks room)
        (S.number source.old) (S.left source.old) (S.left source.new) (S.number source.new) result }
    ensures source { IsReadOn S.base S.faults S.least source.old source.new }
{
    let cycle = read_number(alloc, source, Key::Part, 1, MAX_CYCLE)?;
    let count = read_number(alloc, source, Key::Entries, 0, MAX_PART_ENTRIES)?;
    let entries = read_lines(
        alloc,
        source,
        &EntryLine {
            tasks,
            count,
            given: Some(cycle),
            pairs: false,
        },
        count,
    )?;
    let frames = read_frames(alloc, source, tasks, count, room)?;
    Ok(Part {
        cycle,
        entries: Entries::from_vec(entries),
        frames,
    })
}

// How many frames the part behind this one may have: none where this one has some.
fn room_behind(part: &Part) -> u64
    ensures { result ≡ room_left part.now }
{
    if part.frames.is_empty() {
        return MAX_FRAMES;
    }
    0
}

/// Reads parts behind their number: at most two, of which at most one has frames.
pub fn read_parts<S: Source>(alloc: Global, source: &mut S, tasks: u32) -> Result<Parts, ReadError>
    requires some { 1 ≤ tasks }
    requires few { tasks ≤ 1024 }
    ensures said { IfOk result (AreParts tasks) }
    ensures read { S.told → IsRead (counted tasks)
        (S.number source.old) (S.left source.old) (S.left source.new) (S.number source.new) result }
    ensures source { IsReadOn S.base S.faults S.least source.old source.new }
{
    let count = read_number(alloc, source, Key::Parts, 0, MAX_PARTS)?;
    let mut parts = Vec::new(alloc);
    if count == 0 {
        return Ok(Parts::from_vec(parts));
    }
    let first = read_part(alloc, source, tasks, MAX_FRAMES)?;
    let room = room_behind(&first);
    parts.push(first)?;
    if count == 1 {
        return Ok(Parts::from_vec(parts));
    }
    let second = read_part(alloc, source, tasks, room)?;
    parts.push(second)?;
    Ok(Parts::from_vec(parts))
}
