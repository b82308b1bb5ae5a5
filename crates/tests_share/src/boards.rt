//! A board of hints: each call on one thread.
use claim_board::open_board;
use line_instance::TaskSet;
use std::test::*;

#[test]
fn a_claim_is_seen_by_another_number(rt: HostRuntime) -> Result<(), Fail> {
    let board = open_board(rt.alloc())?;
    let set = TaskSet::from_members(&[1, 5, 1000]);
    let before = board.is_claimed(1, &set, 3);
    board.claim(2, &set, 3);
    let seen = board.is_claimed(1, &set, 3) & board.is_claimed(64, &set, 3);
    let own = board.is_claimed(2, &set, 3);
    assert!(rt; !before & seen & !own);
    Ok(())
}

#[test]
fn a_claim_is_of_its_set_and_stations(rt: HostRuntime) -> Result<(), Fail> {
    let board = open_board(rt.alloc())?;
    let set = TaskSet::from_members(&[1, 5, 1000]);
    board.claim(2, &set, 3);
    let fewer = board.is_claimed(1, &set, 2);
    let other = board.is_claimed(1, &TaskSet::from_members(&[1, 5]), 3);
    assert!(rt; !fewer & !other);
    Ok(())
}

#[test]
fn a_claim_falls_to_the_next_one_of_its_word(rt: HostRuntime) -> Result<(), Fail> {
    let board = open_board(rt.alloc())?;
    let set = TaskSet::from_members(&[0]);
    board.claim(2, &set, 3);
    board.claim(1, &set, 3);
    let first = board.is_claimed(1, &set, 3);
    let second = board.is_claimed(2, &set, 3);
    assert!(rt; !first & second);
    Ok(())
}

#[test]
fn the_end_is_seen_once_it_was_called(rt: HostRuntime) -> Result<(), Fail> {
    let board = open_board(rt.alloc())?;
    let before = board.is_ended();
    board.call_end();
    assert!(rt; !before & board.is_ended());
    Ok(())
}
