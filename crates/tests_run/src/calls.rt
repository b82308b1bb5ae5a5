//! Worked rows of single calls, over instances that are read.
use first_fit::{Ranked, ranked_balance};
use in2_reader::{In2Read, read_in2};
use line_rules::{Balance, BalanceCheck, LineKind, Places, Seatplace, Side, check_balance};
use lower_bounds::{first_too_long, total_bound};
use std::alloc::{AllocError, Global};
use std::test::Fail;

const CHAIN_OF_FOUR: &[u8] = b"4\n1\n1\n1\n1\n1,2\n2,3\n3,4\n-1,-1\n";

const CHAIN_OF_THREE: &[u8] = b"3\n1\n2\n1\n1,2\n2,3\n-1,-1\n";

/// The place at a station, from 1.
fn seat(station: u32, side: Side) -> Seatplace {
    Seatplace { station, side }
}

/// What the test of a balance in two stations says, at cycle 2, of these places.
fn checked(
    alloc: Global,
    text: &[u8],
    kind: LineKind,
    places: &[Seatplace],
) -> Result<Option<BalanceCheck>, AllocError> {
    if text.len() > 1000 {
        return Ok(None);
    }
    let In2Read::Good(inst) = read_in2(alloc, text) else {
        return Ok(None);
    };
    if places.len() > inst.tasks() as usize {
        return Ok(None);
    }
    let balance = Balance {
        stations: 2,
        place: Places::from_vec(Vec::from_slice(alloc, places)?),
    };
    Ok(Some(check_balance(&inst, kind, 2, &balance)))
}

#[test]
fn a_chains_broken_pair(rt: HostRuntime) -> Result<(), Fail> {
    let places = [
        seat(2, Side::Front),
        seat(1, Side::Back),
        seat(1, Side::Front),
        seat(2, Side::Back),
    ];
    let found = checked(rt.alloc(), CHAIN_OF_FOUR, LineKind::U, &places)?;
    assert_eq!(rt; found, Some(BalanceCheck::Broken(0, 2)));
    let found = checked(rt.alloc(), CHAIN_OF_FOUR, LineKind::Straight, &places)?;
    assert_eq!(rt; found, Some(BalanceCheck::SideWrong(1)));
    let found = checked(rt.alloc(), CHAIN_OF_FOUR, LineKind::U, &places[..3])?;
    assert_eq!(rt; found, Some(BalanceCheck::Unplaced(3)));
    Ok(())
}

#[test]
fn answers_of_the_test_of_a_balance(rt: HostRuntime) -> Result<(), Fail> {
    let front = Side::Front;
    let rows = [
        ([1, 1, 2, 2], BalanceCheck::Right),
        ([1, 1, 1, 2], BalanceCheck::Overfull(1, 3)),
        ([1, 2, 1, 2], BalanceCheck::Broken(1, 2)),
        ([1, 0, 1, 2], BalanceCheck::StationRange(1)),
        ([1, 1, 3, 2], BalanceCheck::StationRange(2)),
    ];
    for row in rows {
        let at = row.0;
        let places = [
            seat(at[0], front),
            seat(at[1], front),
            seat(at[2], front),
            seat(at[3], front),
        ];
        let found = checked(rt.alloc(), CHAIN_OF_FOUR, LineKind::Straight, &places)?;
        assert_eq!(rt; found, Some(row.1));
    }
    Ok(())
}

#[test]
fn ranked_balance_of_a_u_line(rt: HostRuntime) -> Result<(), Fail> {
    let alloc = rt.alloc();
    let In2Read::Good(inst) = read_in2(alloc, CHAIN_OF_THREE) else {
        return Err(Fail::new("no instance or no balance"));
    };
    assert_eq!(rt; total_bound(&inst, 2), 2);
    assert_eq!(rt; first_too_long(&inst, 2), None);
    let Ranked::Good(balance) = ranked_balance(alloc, &inst, LineKind::U, 2) else {
        return Err(Fail::new("no instance or no balance"));
    };
    assert_eq!(rt; balance.stations, 2);
    assert_eq!(rt;
        balance.place.as_slice(),
        [
            seat(1, Side::Front),
            seat(2, Side::Front),
            seat(1, Side::Back)
        ]
        .as_slice()
    );
    Ok(())
}
