//! Rows that were worked out outside: how many loads are listed, how many lemmas there are, and the stations of the
//! best balance.
use first_fit::{Ranked, ranked_balance};
use line_instance::{Instance, Made, Prec, make};
use line_rules::LineKind;
use line_seek::{Sought, seek};
use round_run::open_book;
use std::alloc::Global;
use std::test::Fail;

/// A line at a cycle: its times, its arcs between tasks that are counted from 1, and its kind.
#[derive(Clone, Copy)]
struct Row {
    times: &'static [u64],
    arcs: &'static [(u32, u32)],
    kind: LineKind,
    cycle: u64,
}

const FIVE: Row = Row {
    times: &[4, 4, 2, 2, 2],
    arcs: &[],
    kind: LineKind::Straight,
    cycle: 7,
};

const SEVEN: Row = Row {
    times: &[7, 7, 4, 4, 2, 2, 2],
    arcs: &[],
    kind: LineKind::Straight,
    cycle: 7,
};

const JACKSON: Row = Row {
    times: &[6, 2, 5, 7, 1, 2, 3, 6, 5, 5, 4],
    arcs: &[
        (1, 2),
        (1, 3),
        (1, 4),
        (1, 5),
        (2, 6),
        (3, 7),
        (4, 7),
        (5, 7),
        (6, 8),
        (7, 9),
        (8, 10),
        (9, 11),
        (10, 11),
    ],
    kind: LineKind::Straight,
    cycle: 10,
};

const NINE: Row = Row {
    times: &[5, 6, 4, 11, 9, 4, 4, 9, 11],
    arcs: &[
        (1, 6),
        (1, 7),
        (2, 7),
        (3, 4),
        (3, 8),
        (6, 7),
        (6, 8),
        (6, 9),
        (7, 8),
    ],
    kind: LineKind::Straight,
    cycle: 16,
};

const THIRTEEN: Row = Row {
    times: &[11, 8, 7, 12, 8, 10, 9, 10, 11, 4, 3, 4, 8],
    arcs: &[(1, 6), (5, 6), (5, 12)],
    kind: LineKind::Straight,
    cycle: 21,
};

/// The line of a row.
fn line(alloc: Global, row: &Row) -> Result<Instance, Fail> {
    let mut pairs = Vec::new(alloc);
    for (first, then) in row.arcs {
        pairs.push(Prec {
            first: first.saturating_sub(1),
            then: then.saturating_sub(1),
        })?;
    }
    match make(alloc, Vec::from_slice(alloc, row.times)?, &pairs) {
        Made::Good(inst) => Ok(inst),
        _ => Err("no instance")?,
    }
}

/// What a seek over an empty book comes to, with pairs or without.
fn told(
    alloc: Global,
    inst: &Instance,
    row: &Row,
    limit: u64,
    pairs: bool,
) -> Result<String, Fail> {
    let (kind, cycle) = (row.kind, row.cycle);
    if cycle < 1 || cycle > 100 {
        return Err("out of range")?;
    }
    let Ranked::Good(best) = ranked_balance(alloc, inst, kind, cycle) else {
        return Err("no ranked balance")?;
    };
    let book = open_book(alloc, inst, kind, cycle, best)?;
    match seek(alloc, inst, &book, limit, pairs) {
        Sought::Done { best, lemmas, used } => {
            let (many, stations) = (lemmas.len(), best.stations);
            Ok(format!(in alloc; "{used} {many} {stations}")?)
        }
        Sought::NoMemory => Err("no memory")?,
    }
}

/// What a seek for a row comes to.
fn row_told(alloc: Global, row: &Row, limit: u64, pairs: bool) -> Result<String, Fail> {
    let inst = line(alloc, row)?;
    told(alloc, &inst, row, limit, pairs)
}

#[test]
fn seeks_on_straight_lines(rt: HostRuntime) -> Result<(), Fail> {
    let alloc = rt.alloc();
    assert_eq!(&rt; row_told(alloc, &SEVEN, 176, false)?.as_str(), "176 4 5");
    assert_eq!(&rt; row_told(alloc, &SEVEN, 175, false)?.as_str(), "175 0 5");
    assert_eq!(&rt; row_told(alloc, &JACKSON, 30, false)?.as_str(), "30 0 5");
    assert_eq!(&rt; row_told(alloc, &JACKSON, 29, false)?.as_str(), "29 0 6");
    assert_eq!(&rt; row_told(alloc, &NINE, 108, false)?.as_str(), "108 3 5");
    assert_eq!(&rt; row_told(alloc, &FIVE, 1000, false)?.as_str(), "45 1 3");
    Ok(())
}

#[test]
fn later_searches_go_on_with_the_scratch_book(rt: HostRuntime) -> Result<(), Fail> {
    let alloc = rt.alloc();
    assert_eq!(&rt;
        row_told(alloc, &THIRTEEN, 5516, false)?.as_str(),
        "5516 100 6"
    );
    assert_eq!(&rt;
        row_told(alloc, &THIRTEEN, 5515, false)?.as_str(),
        "5515 0 6"
    );
    Ok(())
}

#[test]
fn seeks_on_other_lines(rt: HostRuntime) -> Result<(), Fail> {
    let alloc = rt.alloc();
    let mut five = line(alloc, &FIVE)?;
    let both = Row {
        kind: LineKind::U,
        ..FIVE
    };
    assert_eq!(&rt; told(alloc, &five, &both, 1000, false)?.as_str(), "69 1 3");
    if five.tasks() == 5 {
        let apart = |first: u32, then: u32| -> Prec { Prec { first, then } };
        five.set_apart(&[apart(2, 3), apart(3, 4), apart(2, 4)]);
    }
    assert_eq!(&rt; told(alloc, &five, &FIVE, 1000, false)?.as_str(), "33 1 3");
    Ok(())
}

#[test]
fn pairs_shorten_a_seek_and_end_it(rt: HostRuntime) -> Result<(), Fail> {
    let alloc = rt.alloc();
    let four = Row {
        times: &[13, 8, 8, 8],
        arcs: &[],
        kind: LineKind::Straight,
        cycle: 20,
    };
    assert_eq!(&rt; row_told(alloc, &JACKSON, 28, true)?.as_str(), "28 0 5");
    assert_eq!(&rt; row_told(alloc, &JACKSON, 27, true)?.as_str(), "27 0 6");
    assert_eq!(&rt; row_told(alloc, &four, 100, true)?.as_str(), "0 0 3");
    Ok(())
}
