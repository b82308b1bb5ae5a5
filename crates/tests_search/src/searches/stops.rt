//! Each stop of a search, tried by looks: no entry of the book answers the question of an open frame, and the deepest
//! frame has a further load.
ghost use Rattle.std.specs.Prelude.{◌≤◌};

use super::{CYCLE, book_of, instance, seven, six};
use lemma_core::{Book, Desk, Looked};
use line_instance::{Instance, Prec};
use line_rules::{Frames, LineKind, OpenFrame};
use station_load::steps::begin;
use station_search::{Decided, Units, decide};
use std::alloc::Global;
use std::test::Fail;

/// Whether no entry of a book answers the question of a frame.
fn are_unanswered(book: &mut Book, frames: &Frames) -> bool {
    for k in 0..frames.len() {
        let frame = frames.at(k);
        if let Looked::Found { .. } = Desk::look(book, &frame.set, frame.most) {
            return false;
        }
    }
    true
}

/// Whether a frame has a load after its last one, or any load where it has no last, as a walk from the first load
/// shows.
fn has_further(inst: &Instance, frame: &OpenFrame) -> bool {
    let set = frame.set;
    let _truths = set.capacity();
    if !set.is_subset(&inst.all()) {
        return false;
    }
    let mut walk = begin(inst, CYCLE, &set, frame.mode);
    let mut met = frame.last.is_none();
    'walks: for _ in 0..1000 {
        match walk.step(inst) {
            Some(_) if met => return true,
            Some(load) => {
                met = match &frame.last {
                    Some(last) => load.front == last.front && load.back == last.back,
                    None => true,
                };
            }
            None => return false,
        }
    }
    false
}

/// Whether frames are open over a book.
fn are_open(book: &mut Book, inst: &Instance, frames: &Frames) -> bool {
    let further = match frames.len() {
        0 => false,
        depth => has_further(inst, frames.at(depth - 1)),
    };
    further && are_unanswered(book, frames)
}

/// The stops of a search for all tasks in so many stations, from no unit on, until it is decided; an error where one
/// isn't open.
fn open_stops(alloc: Global, inst: &Instance, kind: LineKind, most: u32) -> Result<u64, Fail>
    requires { most ≤ 1024 }
{
    for left in 0..2000 {
        let mut book = book_of(alloc, inst, kind)?;
        let mut units = Units { left, used: 0 };
        let all = inst.all();
        match decide(alloc, &mut book, inst, kind, CYCLE, &all, most, &mut units) {
            Decided::Spent(frames) => {
                if !are_open(&mut book, inst, &frames) {
                    return Err("a stop that isn't open")?;
                }
            }
            _ => return Ok(left),
        }
    }
    Err("not decided")?
}

#[test]
fn stops_of_six_and_seven_are_open(rt: HostRuntime) -> Result<(), Fail> {
    let alloc = rt.alloc();
    let (six, seven) = (six(alloc)?, seven(alloc)?);
    assert_eq!(rt; open_stops(alloc, &six, LineKind::Straight, 3)?, 31);
    assert_eq!(rt; open_stops(alloc, &seven, LineKind::Straight, 4)?, 48);
    assert_eq!(rt; open_stops(alloc, &six, LineKind::U, 3)?, 110);
    Ok(())
}

#[test]
fn stops_of_twelve_are_open(rt: HostRuntime) -> Result<(), Fail> {
    let alloc = rt.alloc();
    let times = vec![in alloc; 7, 6, 6, 2, 7, 6, 3, 2, 5, 3, 6, 2]?;
    let arcs = [(0, 3), (1, 4), (2, 5), (3, 7), (4, 8), (6, 9)];
    let arcs = arcs.map(|(first, then)| Prec { first, then });
    let twelve = instance(alloc, times, &arcs)?;
    assert_eq!(rt; open_stops(alloc, &twelve, LineKind::Straight, 8)?, 147);
    assert_eq!(rt; open_stops(alloc, &twelve, LineKind::U, 8)?, 766);
    Ok(())
}
