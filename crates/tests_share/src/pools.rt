//! A pool's promises in numbers: two hands, a full hand, and 64 hands in threads, of which each piece is taken once.
ghost use Rattle.std.specs.Prelude.{◌≡◌, ◌<◌, ◌≤◌, length, IfOk};
ghost use Rattle.steal_pool.specs.Hands.{AreNumbered, AreHandsOf, IsHandOf};

use line_instance::TaskSet;
use std::alloc::Global;
use std::sync::Wait;
use std::sync::atomic::{AtomicU64, Ordering};
use std::test::*;
use std::thread::{self, Threads};
use steal_pool::{Closed, Hand, Hands, Opened, Piece, Pool, PutBack, Took, open_pool};

/// How many hands work in threads.
const HANDS: u32 = 64;

/// How many pieces are dealt to them.
const PIECES: u64 = 1000;

// So many pieces, numbered by their places.
fn pieces(alloc: Global, count: u64) -> Result<Vec<Piece>, Fail>
    ensures { IfOk result (λ v. AreNumbered v.items × (length v.items ≡ count)) }
{
    let mut pieces = Vec::new(alloc);
    for number in 0..count {
        pieces.push(Piece {
            number,
            depth: 0,
            most: 7,
            set: TaskSet::empty(),
        })?;
    }
    Ok(pieces)
}

// A pool of so many pieces and hands.
fn opened(alloc: Global, count: u64, hands: u32) -> Result<(Pool, Hands), Fail>
    requires { (count ≤ 4096) × (0 < hands) × (hands ≤ 64) }
    ensures { IfOk result (λ r. AreHandsOf r.0 r.1 × (length r.0 ≡ hands)) }
{
    match open_pool(alloc, pieces(alloc, count)?, hands) {
        Opened::Good(pool, hands) => Ok((pool, hands)),
        Opened::NoMemory => Err("no memory")?,
    }
}

// The number of the piece that a hand takes.
fn take<R: Wait>(rt: &R, pool: &Pool, hands: &mut Hands, k: usize) -> Option<u64>
    requires { AreHandsOf pool.now hands.old × (k < length pool.now) }
    ensures { AreHandsOf pool.now hands.new }
{
    let each = hands.each();
    let hand = &mut each[k];
    match pool.take(rt, hand) {
        Took::Got(piece) => Some(piece.number),
        Took::Empty => None,
    }
}

// What becomes of a piece that a hand puts.
fn put(pool: &Pool, hands: &mut Hands, k: usize) -> PutBack
    requires { AreHandsOf pool.now hands.old × (k < length pool.now) }
    ensures { AreHandsOf pool.now hands.new }
{
    let each = hands.each();
    let hand = &mut each[k];
    pool.put(hand, 1, 6, &TaskSet::empty())
}

#[test]
fn two_hands(rt: HostRuntime) -> Result<(), Fail> {
    let (pool, mut hands) = opened(rt.alloc(), 3, 2)?;
    let first = take(&rt, &pool, &mut hands, 1) == Some(1);
    let second = take(&rt, &pool, &mut hands, 1) == Some(0);
    let third = take(&rt, &pool, &mut hands, 1) == Some(2);
    let fourth = take(&rt, &pool, &mut hands, 1) == None;
    let other = take(&rt, &pool, &mut hands, 0) == None;
    assert!(rt; first & second & third & fourth & other);
    let wanted = Closed {
        put: 3,
        taken: 3,
        left: 0,
    };
    assert!(rt; pool.close(hands) == wanted);
    Ok(())
}

#[test]
fn a_put_piece_has_its_number(rt: HostRuntime) -> Result<(), Fail> {
    let (pool, mut hands) = opened(rt.alloc(), 1, 2)?;
    let first = put(&pool, &mut hands, 1) == PutBack::Done(2 << 32);
    let second = put(&pool, &mut hands, 1) == PutBack::Done((2 << 32) + 1);
    let taken = take(&rt, &pool, &mut hands, 1) == Some(2 << 32);
    let other = take(&rt, &pool, &mut hands, 0) == Some(0);
    assert!(rt; first & second & taken & other);
    let wanted = Closed {
        put: 3,
        taken: 2,
        left: 1,
    };
    assert!(rt; pool.close(hands) == wanted);
    Ok(())
}

#[test]
fn a_full_hand_has_no_room(rt: HostRuntime) -> Result<(), Fail> {
    let (pool, mut hands) = opened(rt.alloc(), 4096, 1)?;
    let full = put(&pool, &mut hands, 0) == PutBack::Room;
    let taken = take(&rt, &pool, &mut hands, 0) == Some(0);
    let still = put(&pool, &mut hands, 0) == PutBack::Room;
    assert!(rt; full & taken & still);
    let wanted = Closed {
        put: 4096,
        taken: 1,
        left: 4095,
    };
    assert!(rt; pool.close(hands) == wanted);
    Ok(())
}

// Counts a piece by its number, those that were put in the last place.
fn note(counts: &[AtomicU64], number: u64) {
    let place = number.min(PIECES) as usize;
    if let Some(count) = counts.get(place) {
        count.fetch_add(1, Ordering::SeqCst);
    }
}

// Notes a piece, and puts another for one that was dealt.
fn follow(pool: &Pool, counts: &[AtomicU64], hand: &mut Hand, piece: Piece)
    requires { IsHandOf pool.now hand.old }
    ensures { IsHandOf pool.now hand.new × (hand.new.name ≡ hand.old.name) }
{
    note(counts, piece.number);
    if piece.depth > 0 {
        return;
    }
    let _done = pool.put(hand, 1, piece.most, &piece.set);
}

// A hand's work: it takes pieces until it finds each deque empty.
fn work<R: Wait>(rt: &R, pool: &Pool, counts: &[AtomicU64], hand: &mut Hand)
    requires { IsHandOf pool.now hand.old }
    ensures { IsHandOf pool.now hand.new × (hand.new.name ≡ hand.old.name) }
{
    for _ in rt.forever() {
        match pool.take(rt, hand) {
            Took::Got(piece) => follow(pool, counts, hand, piece),
            Took::Empty => return,
        }
    }
    unreachable!()
}

// Has the hands work, each in a thread of its own.
fn work_in_threads<R: Threads + Wait + Sync>(
    rt: &R,
    pool: &Pool,
    counts: &[AtomicU64],
    hands: &mut [Hand],
)
    requires { AreHandsOf pool.now hands.old }
    ensures count { length hands.new ≡ length hands.old }
    ensures each { AreHandsOf pool.now hands.new }
{
    let shift = |place: usize, hand: &mut Hand|
        requires { IsHandOf pool.now hand.now }
        ensures { IsHandOf pool.entry.now hand.exit.now × (hand.exit.now.name ≡ hand.entry.now.name) }
    { work(rt, pool, counts, hand) };
    thread::for_each_mut(rt, hands, HANDS as usize, &shift);
}

// The hands after their work.
fn worked<R: Threads + Wait + Sync>(rt: &R, pool: &Pool, counts: &[AtomicU64], hands: &mut Hands)
    requires { AreHandsOf pool.now hands.old }
    ensures { AreHandsOf pool.now hands.new }
{
    let each = hands.each();
    work_in_threads(rt, pool, counts, each);
}

#[test]
fn each_piece_is_taken_once(rt: HostRuntime) -> Result<(), Fail> {
    let (pool, mut hands) = opened(rt.alloc(), PIECES, HANDS)?;
    let mut counts = Vec::new(rt.alloc());
    for _ in 0..=PIECES {
        counts.push(AtomicU64::new(0))?;
    }
    worked(&rt, &pool, counts.as_slice(), &mut hands);
    let closed = pool.close(hands);
    let mut once = 0u64;
    for count in &counts {
        if count.load(Ordering::SeqCst) == 1 {
            once = once.wrapping_add(1);
        }
    }
    let last = match counts.last() {
        Some(count) => count.load(Ordering::SeqCst),
        None => 0,
    };
    let wanted = Closed {
        put: 2 * PIECES,
        taken: 2 * PIECES,
        left: 0,
    };
    assert!(rt; (once == PIECES) & (last == PIECES) & (closed == wanted));
    Ok(())
}
