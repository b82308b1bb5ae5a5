//! A certificate of three tasks within its ranges, and ones that are out of them in one place each.
use cert_ranges::is_in_range;
use line_instance::TaskSet;
use line_rules::{
    Ask, Balance, BoxedSet, Certificate, Cites, Claim, Entries, Entry, Frames, LineKind, Load,
    Mode, OpenFrame, Places, Seatplace, Side, Trail, Why,
};
use std::alloc::{AllocError, Global};
use std::test::Fail;

// The set of one task below 1,024.
fn one(task: u32) -> TaskSet {
    if task < 1024 {
        return TaskSet::empty().with(task);
    }
    TaskSet::empty()
}

// What is claimed of a line of so many tasks.
fn too_long(tasks: u32, ask: Ask, task: u32) -> Certificate {
    Certificate {
        kind: LineKind::Straight,
        tasks,
        ask,
        claim: Claim::TooLong { task },
    }
}

// Bounds of three tasks.
fn bounds(kind: LineKind, balance: Balance, entries: Entries, trail: Option<Trail>) -> Certificate {
    Certificate {
        kind,
        tasks: 3,
        ask: Ask::Cycle { stations: 2 },
        claim: Claim::Bounds {
            lower: 1,
            upper: 1_000_000_000_000_000_000,
            balance,
            entries,
            trail,
        },
    }
}

// Two stations: one task at the first, one at the second, and one at a place.
fn balance(alloc: Global, station: u32, side: Side) -> Result<Balance, AllocError> {
    let first = Seatplace {
        station: 1,
        side: Side::Front,
    };
    let second = Seatplace {
        station: 2,
        side: Side::Front,
    };
    let places = vec![in alloc; first, second, Seatplace { station, side }]?;
    Ok(Balance {
        stations: 2,
        place: Places::from_vec(places),
    })
}

fn entry(task: u32, most: u32, why: Why) -> Entry {
    Entry {
        set: one(task),
        most,
        cycle: 7,
        why,
    }
}

fn cites(alloc: Global, cite: u64) -> Result<Cites, AllocError> {
    Ok(Cites::from_vec(vec![in alloc; cite]?))
}

// A frame whose last load has a task in each part.
fn frame(alloc: Global, mode: Mode, most: u32, cite: u64) -> Result<OpenFrame, AllocError> {
    Ok(OpenFrame {
        set: one(2),
        most,
        mode,
        last: Some(Load {
            front: one(0),
            back: one(2),
        }),
        cites: cites(alloc, cite)?,
    })
}

// Whether bounds with one entry are within their ranges.
fn passes_with(alloc: Global, entry: Entry) -> Result<bool, AllocError> {
    let places = balance(alloc, 1, Side::Front)?;
    let entries = Entries::from_vec(vec![in alloc; entry]?);
    Ok(is_in_range(&bounds(LineKind::Straight, places, entries, None)))
}

// Whether bounds with one entry and these frames are within their ranges.
fn passes_from(alloc: Global, frames: Vec<OpenFrame>) -> Result<bool, AllocError> {
    let places = balance(alloc, 2, Side::Back)?;
    let entries = Entries::from_vec(vec![in alloc; entry(2, 1024, Why::Bound)]?);
    let trail = Trail {
        cycle: 7,
        frames: Frames::from_vec(frames),
    };
    Ok(is_in_range(&bounds(LineKind::U, places, entries, Some(trail))))
}

// Whether bounds with no entries and these places are within their ranges.
fn passes_at(alloc: Global, kind: LineKind, places: Balance) -> bool {
    is_in_range(&bounds(kind, places, Entries::from_vec(Vec::new(alloc)), None))
}

#[test]
fn a_line_has_1_to_1024_tasks(rt: HostRuntime) -> Result<(), Fail> {
    let ask = Ask::Stations { cycle: 7 };
    assert!(rt; is_in_range(&too_long(1024, ask, 1023)));
    assert!(rt; !is_in_range(&too_long(1024, ask, 1024)));
    assert!(rt; !is_in_range(&too_long(1025, ask, 1023)));
    assert!(rt; !is_in_range(&too_long(0, ask, 0)));
    Ok(())
}

#[test]
fn a_question_has_its_range(rt: HostRuntime) -> Result<(), Fail> {
    assert!(rt; is_in_range(&too_long(3, Ask::Stations { cycle: 1 }, 0)));
    assert!(rt; !is_in_range(&too_long(3, Ask::Stations { cycle: 0 }, 0)));
    let past = 1_000_000_000_000_000_001;
    assert!(rt; !is_in_range(&too_long(3, Ask::Stations { cycle: past }, 0)));
    assert!(rt; !is_in_range(&too_long(3, Ask::Cycle { stations: 2 }, 0)));
    Ok(())
}

#[test]
fn a_place_is_at_a_station_and_a_side_of_the_line(rt: HostRuntime) -> Result<(), Fail> {
    let alloc = rt.alloc();
    let u = LineKind::U;
    assert!(rt; passes_at(alloc, u, balance(alloc, 2, Side::Back)?));
    assert!(rt; !passes_at(alloc, u, balance(alloc, 3, Side::Back)?));
    assert!(rt; !passes_at(alloc, u, balance(alloc, 0, Side::Back)?));
    let straight = LineKind::Straight;
    assert!(rt; passes_at(alloc, straight, balance(alloc, 2, Side::Front)?));
    assert!(rt; !passes_at(alloc, straight, balance(alloc, 2, Side::Back)?));
    Ok(())
}

#[test]
fn an_entry_has_tasks_and_cites_of_its_own_list(rt: HostRuntime) -> Result<(), Fail> {
    let alloc = rt.alloc();
    assert!(rt; passes_with(alloc, entry(2, 1024, Why::Bound))?);
    assert!(rt; !passes_with(alloc, entry(3, 1024, Why::Bound))?);
    assert!(rt; !passes_with(alloc, entry(2, 1025, Why::Bound))?);
    let mode = Mode::Fore;
    let within = Why::Branch {
        mode,
        cites: cites(alloc, 0)?,
    };
    assert!(rt; passes_with(alloc, entry(2, 1, within))?);
    let past = Why::Branch {
        mode,
        cites: cites(alloc, 1)?,
    };
    assert!(rt; !passes_with(alloc, entry(2, 1, past))?);
    Ok(())
}

#[test]
fn a_swap_has_tasks_and_a_cite_of_its_own_list(rt: HostRuntime) -> Result<(), Fail> {
    let alloc = rt.alloc();
    for (cite, out_task, in_task) in [(1, 0, 1), (0, 3, 1), (0, 1, 3)] {
        let why = Why::Swap {
            cite,
            out_task,
            in_task,
        };
        assert!(rt; !passes_with(alloc, entry(2, 1, why))?);
    }
    let within = Why::Swap {
        cite: 0,
        out_task: 2,
        in_task: 2,
    };
    assert!(rt; passes_with(alloc, entry(2, 1, within))?);
    Ok(())
}

#[test]
fn the_tasks_that_count_twice_are_tasks_of_the_line(rt: HostRuntime) -> Result<(), Fail> {
    let alloc = rt.alloc();
    let within = BoxedSet::new(alloc, &TaskSet::full_to(3))?;
    let past = BoxedSet::new(alloc, &TaskSet::full_to(4))?;
    assert!(rt;
        passes_with(alloc, entry(2, 1, Why::Pairs { two: within }))?
            & !passes_with(alloc, entry(2, 1, Why::Pairs { two: past }))?
    );
    Ok(())
}

#[test]
fn a_frame_has_a_load_of_its_mode(rt: HostRuntime) -> Result<(), Fail> {
    let alloc = rt.alloc();
    let both = frame(alloc, Mode::Both, 2, 0)?;
    assert!(rt; passes_from(alloc, vec![in alloc; both]?)?);
    for mode in [Mode::Fore, Mode::Back] {
        let wrong = frame(alloc, mode, 2, 0)?;
        assert!(rt; !passes_from(alloc, vec![in alloc; wrong]?)?);
    }
    let past = frame(alloc, Mode::Both, 2, 1)?;
    assert!(rt; !passes_from(alloc, vec![in alloc; past]?)?);
    assert!(rt; !passes_from(alloc, Vec::new(alloc))?);
    Ok(())
}

#[test]
fn a_trail_has_at_most_1024_frames(rt: HostRuntime) -> Result<(), Fail> {
    let alloc = rt.alloc();
    for (many, passes) in [(1024, true), (1025, false)] {
        let mut frames = Vec::new(alloc);
        for _ in 0..many {
            frames.push(frame(alloc, Mode::Both, 2, 0)?)?;
        }
        assert_eq!(rt; passes_from(alloc, frames)?, passes);
    }
    Ok(())
}
