//! Beams over small lines: how many loads they list, and the balances that they find.
use beam_search::{PairTable, Wanted, beam};
use line_instance::{Instance, Made, Prec, make};
use line_rules::{LineKind, Mode};
use std::alloc::{AllocError, Global};
use std::test::Fail;

/// The arcs of Jackson's line, tasks counted from 1.
const JACKSON: [(u32, u32); 13] = [
    (1, 2),
    (1, 3),
    (1, 4),
    (1, 5),
    (2, 6),
    (3, 7),
    (4, 7),
    (5, 7),
    (6, 8),
    (7, 9),
    (8, 10),
    (9, 11),
    (10, 11),
];

/// The line of these times, with arcs between tasks that are counted from 1.
fn instance(alloc: Global, times: &[u64], arcs: &[(u32, u32)]) -> Result<Instance, Fail> {
    let mut pairs = Vec::new(alloc);
    for (first, then) in arcs {
        pairs.push(Prec {
            first: first.saturating_sub(1),
            then: then.saturating_sub(1),
        })?;
    }
    match make(alloc, Vec::from_slice(alloc, times)?, &pairs) {
        Made::Good(inst) => Ok(inst),
        _ => Err("no instance")?,
    }
}

/// A straight line's balance from the front.
fn fore(cycle: u64, most: u32) -> Wanted {
    Wanted {
        kind: LineKind::Straight,
        mode: Mode::Fore,
        cycle,
        most,
    }
}

/// How many loads a beam of width 2 lists, and where it seats the tasks if it finds a balance.
fn told(alloc: Global, inst: &Instance, wanted: Wanted, purse: u64) -> Result<String, AllocError> {
    let mut text = String::new(alloc);
    if wanted.cycle < 1 || wanted.cycle > 100 || wanted.most > 100 {
        return Ok(text);
    }
    let mut pairs: Option<PairTable> = None;
    let beamed = beam(alloc, inst, wanted, &mut pairs, 2, purse)?;
    let listed = beamed.listed;
    write!(text, "{listed}")?;
    if let Some(balance) = beamed.balance {
        for seat in balance.place.as_slice() {
            let station = seat.station;
            write!(text, " {station}")?;
        }
    }
    Ok(text)
}

#[test]
fn five_tasks_have_no_balance_in_two_stations(rt: HostRuntime) -> Result<(), Fail> {
    let mut five = instance(rt.alloc(), &[4, 4, 2, 2, 2], &[])?;
    for (kind, mode) in [
        (LineKind::Straight, Mode::Fore),
        (LineKind::Straight, Mode::Back),
        (LineKind::U, Mode::Both),
    ] {
        let wanted = Wanted {
            kind,
            mode,
            cycle: 7,
            most: 2,
        };
        assert_eq!(rt; told(rt.alloc(), &five, wanted, 1000)?.as_str(), "15");
    }
    if five.tasks() == 5 {
        let apart = |first: u32, then: u32| -> Prec { Prec { first, then } };
        five.set_apart(&[apart(2, 3), apart(3, 4), apart(2, 4)]);
    }
    assert_eq!(rt; told(rt.alloc(), &five, fore(7, 2), 1000)?.as_str(), "11");
    Ok(())
}

#[test]
fn a_beam_goes_from_level_to_level(rt: HostRuntime) -> Result<(), Fail> {
    let seven = instance(rt.alloc(), &[7, 7, 4, 4, 2, 2, 2], &[])?;
    assert_eq!(rt; told(rt.alloc(), &seven, fore(7, 4), 1000)?.as_str(), "64");
    assert_eq!(rt; told(rt.alloc(), &seven, fore(7, 4), 17)?.as_str(), "17");
    assert_eq!(rt; told(rt.alloc(), &seven, fore(7, 4), 0)?.as_str(), "0");
    Ok(())
}

#[test]
fn thirty_loads_balance_jackson(rt: HostRuntime) -> Result<(), Fail> {
    let times = [6, 2, 5, 7, 1, 2, 3, 6, 5, 5, 4];
    let jackson = instance(rt.alloc(), &times, &JACKSON)?;
    let found = "30 1 1 3 4 2 1 4 2 5 3 5";
    assert_eq!(rt;
        told(rt.alloc(), &jackson, fore(10, 5), 30)?.as_str(),
        found
    );
    assert_eq!(rt; told(rt.alloc(), &jackson, fore(10, 5), 29)?.as_str(), "29");
    Ok(())
}

#[test]
fn both_ends_of_a_chain_balance_a_u_line(rt: HostRuntime) -> Result<(), Fail> {
    let chain = instance(rt.alloc(), &[1, 2, 1], &[(1, 2), (2, 3)])?;
    let wanted = Wanted {
        kind: LineKind::U,
        mode: Mode::Both,
        cycle: 2,
        most: 2,
    };
    let told = told(rt.alloc(), &chain, wanted, 1000)?;
    assert!(rt; told.as_str().ends_with(" 1 2 1"), "{told}");
    Ok(())
}
