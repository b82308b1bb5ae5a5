//! A turn, on a seat at the table: the turn and the book are taken, the book is asked, and both are given back.
//!
//! An event is counted when the book is home in its slot already, and before the turn is free, so its place is its
//! number in the one history. Before the book goes home, the pass's memo catches up with it. Who finds the turn held
//! looks at its word until it is free, and tries again. It spins for a while between looks, and then yields the
//! processor.
ghost use Rattle.std.specs.Prelude.{◌≡◌, [], ◌∷◌, IfSome, IfNone, None};
ghost use Rattle.line_rules.specs.Balance.{IsRight};
ghost use Rattle.lemma_core.specs.History.{Item, AreExact, better};
ghost use Rattle.lemma_core.specs.Desks.{entries, HasDerived, FollowsSeen, Finds, Publishes, Offers};
ghost use Rattle.lemma_core.specs.Books.{IsReserved};
ghost use Rattle.lemma_core.specs.Own.{IsStatable};
ghost use Rattle.book_share.specs.inner.Memo.{IsMemoBy, WasMemoBy, IsMemoBut, IsOwn};
ghost use Rattle.book_share.specs.Passes.{desk_by};
ghost use Rattle.book_share.specs.Rule.{OwnRises};
ghost use Rattle.book_share.specs.Steps.{missed, taken, given, IsHad};
ghost use Rattle.book_share.specs.inner.Turning.{Holds, HasNew, HasWaited, IsQuiet, Ends, noted};

use crate::memo::{self, Memo, OwnEntry};
use crate::rule::{Give, Lower, Peek, Record, Take, Turns};
use crate::view::View;
use atomic_table::{Seat, Table};
use crossbeam_utils::Backoff;
use lemma_core::{Book, Desk, Looked, Offered, Published};
use line_instance::TaskSet;
use line_rules::{Balance, Entry};
use std::alloc::Global;
use std::snapshot::Snapshot;
use std::sync::Wait;

/// The word of the turn: 0 where it is free, 1 where a pass has it.
pub const TURN: usize = 0;

/// The word that counts the events.
pub const COUNT: usize = 1;

/// The word of the least station count.
pub const LEAST: usize = 2;

/// The only slot: the book is in it wherever no pass has it in hand.
const BOOK: usize = 0;

/// The words and the slot of a shared book.
pub type Room = Table<Option<Book>, View, Snapshot<Book>, Turns, Global>;

/// With a seat a pass makes its steps.
pub type Sitter = Seat<Option<Book>, View>;

/// Takes the turn and the book, where the turn is free.
#[inline]
pub fn take(room: &Room, seat: &mut Sitter) -> Option<Book>
    requires sized { (room.now.shared.table_id.words ≡ 3) × (room.now.shared.table_id.slots ≡ 1) }
    requires seat { (seat.old.table_id ≡ room.now.shared.table_id) × (seat.old.me ≡ (given seat.old.me.0, [])) }
    ensures seat { seat.new.table_id ≡ seat.old.table_id }
    ensures none { IfNone result (seat.new.me ≡ (missed seat.old.me.0, [])) }
    ensures some { IfSome result (λ b. (seat.new.me ≡ (taken seat.old.me.0 b.events, (0, None) ∷ []))
        × IsHad seat.old.me.0 b) }
{
    let found = room.shared.compare_exchange::<Take>(seat, TURN, 0, 1);
    if found != 0 {
        return None;
    }
    room.shared.exchange(seat, BOOK, None)
}

// Waits until the turn was seen to be free. It only loads the word, so whoever has the turn keeps its cache line.
fn pause<R: Wait>(rt: &R, room: &Room, seat: &mut Sitter, backoff: &Backoff)
    requires sized { (room.now.shared.table_id.words ≡ 3) × (room.now.shared.table_id.slots ≡ 1) }
    requires seat { seat.old.table_id ≡ room.now.shared.table_id }
    ensures seat { seat.new.table_id ≡ seat.old.table_id }
    ensures me { seat.new.me ≡ seat.old.me }
{
    for _ in rt.forever() {
        backoff.snooze();
        if room.shared.load::<Peek>(seat, TURN) == 0 {
            return;
        }
    }
    unreachable!()
}

/// Waits for the turn, and takes it and the book.
pub fn take_waiting<R: Wait>(rt: &R, room: &Room, seat: &mut Sitter) -> Book
    requires sized { (room.now.shared.table_id.words ≡ 3) × (room.now.shared.table_id.slots ≡ 1) }
    requires seat { (seat.old.table_id ≡ room.now.shared.table_id) × (seat.old.me ≡ (given seat.old.me.0, [])) }
    ensures seat { seat.new.table_id ≡ seat.old.table_id }
    ensures had { HasWaited seat.old.me.0 seat.new.me result }
{
    let backoff = Backoff::new();
    for _ in rt.forever() {
        match take(room, seat) {
            Some(book) => return book,
            None => pause(rt, room, seat, &backoff),
        }
    }
    unreachable!()
}

// Puts the book back into the slot.
#[inline]
fn put(room: &Room, seat: &mut Sitter, book: Book)
    requires sized { (room.now.shared.table_id.words ≡ 3) × (room.now.shared.table_id.slots ≡ 1) }
    requires seat { (seat.old.table_id ≡ room.now.shared.table_id) × (seat.old.me.1 ≡ (0, None) ∷ []) }
    ensures seat { seat.new.table_id ≡ seat.old.table_id }
    ensures me { seat.new.me ≡ (seat.old.me.0, (0, Some book) ∷ []) }
{
    drop(room.shared.exchange(seat, BOOK, Some(book)));
}

// Ends a turn in which nothing was recorded.
#[inline]
fn give(room: &Room, seat: &mut Sitter, book: Book)
    requires sized { (room.now.shared.table_id.words ≡ 3) × (room.now.shared.table_id.slots ≡ 1) }
    requires seat { (seat.old.table_id ≡ room.now.shared.table_id) × Holds seat.old.me book }
    ensures seat { seat.new.table_id ≡ seat.old.table_id }
    ensures me { seat.new.me ≡ (given seat.old.me.0, []) }
{
    put(room, seat, book);
    room.shared.store::<Give>(seat, TURN, 0);
}

// Ends a turn in which a publish is recorded.
#[inline]
fn give_published(room: &Room, seat: &mut Sitter, book: Book)
    requires sized { (room.now.shared.table_id.words ≡ 3) × (room.now.shared.table_id.slots ≡ 1) }
    requires seat { seat.old.table_id ≡ room.now.shared.table_id }
    requires new { (i : Item) × IsQuiet i × HasNew seat.old.me book i }
    ensures seat { seat.new.table_id ≡ seat.old.table_id }
    ensures me { seat.new.me ≡ (noted seat.old.me.0 book.events, []) }
{
    let _count = book.log_len();
    put(room, seat, book);
    room.shared.fetch_add::<Record>(seat, COUNT, 1);
    room.shared.store::<Give>(seat, TURN, 0);
}

// Ends a turn in which a better offer is recorded.
#[inline]
fn give_offered(room: &Room, seat: &mut Sitter, book: Book, stations: u32)
    requires sized { (room.now.shared.table_id.words ≡ 3) × (room.now.shared.table_id.slots ≡ 1) }
    requires seat { seat.old.table_id ≡ room.now.shared.table_id }
    requires new { HasNew seat.old.me book (better stations) }
    ensures seat { seat.new.table_id ≡ seat.old.table_id }
    ensures me { seat.new.me ≡ (noted seat.old.me.0 book.events, []) }
{
    let _count = book.log_len();
    let _len = book.len();
    put(room, seat, book);
    room.shared.fetch_add::<Record>(seat, COUNT, 1);
    let least = u64::from(stations);
    room.shared.fetch_min::<Lower>(seat, LEAST, least);
    room.shared.store::<Give>(seat, TURN, 0);
}

/// Looks into the book in hand, and ends the turn.
#[inline]
pub fn look(
    room: &Room,
    seat: &mut Sitter,
    mut book: Book,
    memo: &mut Option<Memo>,
    set: &TaskSet,
    most: u32,
) -> Looked
    requires sized { (room.now.shared.table_id.words ≡ 3) × (room.now.shared.table_id.slots ≡ 1) }
    requires seat { (seat.old.table_id ≡ room.now.shared.table_id) × Holds seat.old.me book }
    requires memo { WasMemoBy memo.old (desk_by seat.old.me.0) }
    ensures seat { seat.new.table_id ≡ seat.old.table_id }
    ensures me { seat.new.me ≡ (given seat.old.me.0, []) }
    ensures finds { let desk = desk_by seat.new.me.0 in Finds (entries desk) set.now most desk.about.cycle result }
    ensures derived { HasDerived (desk_by seat.new.me.0) }
    ensures exact { AreExact seat.new.me.0.base.opening seat.new.me.0.seen }
    ensures memo { IsMemoBy memo.new (desk_by seat.new.me.0) }
{
    let looked = Desk::look(&mut book, set, most);
    let _exact = book.log_len();
    memo::catch_up(memo, &book);
    give(room, seat, book);
    looked
}

// Publishes an entry in the book in hand, and ends the turn. The memo catches up before, with what others published.
#[inline]
fn publish_in_turn(
    room: &Room,
    seat: &mut Sitter,
    mut book: Book,
    memo: &mut Option<Memo>,
    step: Entry,
) -> Published
    requires sized { (room.now.shared.table_id.words ≡ 3) × (room.now.shared.table_id.slots ≡ 1) }
    requires seat { (seat.old.table_id ≡ room.now.shared.table_id) × Holds seat.old.me book × OwnRises seat.old.me.0 }
    requires memo { WasMemoBy memo.old (desk_by seat.old.me.0) }
    requires follows { FollowsSeen (desk_by seat.old.me.0) step }
    requires range { IsStatable step }
    ensures seat { seat.new.table_id ≡ seat.old.table_id }
    ensures ends { Ends seat.old.me.0 seat.new.me }
    ensures publishes { Publishes (desk_by seat.old.me.0) (desk_by seat.new.me.0) step result }
    ensures derived { HasDerived (desk_by seat.new.me.0) }
    ensures memo { IsMemoBut memo.new (desk_by seat.new.me.0) step result }
{
    let _before = book.log_len();
    memo::catch_up(memo, &book);
    let published = Desk::publish(&mut book, step);
    let _exact = book.log_len();
    let _grown = book.len();
    match published {
        Published::NoMemory => give(room, seat, book),
        _ => give_published(room, seat, book),
    }
    published
}

/// Publishes an entry in the book in hand, and ends the turn. The memo keeps it after the turn.
#[inline]
pub fn publish(
    room: &Room,
    seat: &mut Sitter,
    book: Book,
    memo: &mut Option<Memo>,
    own: &OwnEntry,
    step: Entry,
) -> Published
    requires sized { (room.now.shared.table_id.words ≡ 3) × (room.now.shared.table_id.slots ≡ 1) }
    requires seat { (seat.old.table_id ≡ room.now.shared.table_id) × Holds seat.old.me book × OwnRises seat.old.me.0 }
    requires memo { WasMemoBy memo.old (desk_by seat.old.me.0) }
    requires own { IsOwn own.now step }
    requires follows { FollowsSeen (desk_by seat.old.me.0) step }
    requires range { IsStatable step }
    ensures seat { seat.new.table_id ≡ seat.old.table_id }
    ensures ends { Ends seat.old.me.0 seat.new.me }
    ensures publishes { Publishes (desk_by seat.old.me.0) (desk_by seat.new.me.0) step result }
    ensures derived { HasDerived (desk_by seat.new.me.0) }
    ensures memo { IsMemoBy memo.new (desk_by seat.new.me.0) }
{
    let published = publish_in_turn(room, seat, book, memo, step);
    memo::keep_published(memo, published, own);
    published
}

/// Offers a balance to the book in hand, and ends the turn.
#[inline]
pub fn offer(
    room: &Room,
    seat: &mut Sitter,
    mut book: Book,
    memo: &mut Option<Memo>,
    balance: Balance,
) -> Offered
    requires sized { (room.now.shared.table_id.words ≡ 3) × (room.now.shared.table_id.slots ≡ 1) }
    requires seat { (seat.old.table_id ≡ room.now.shared.table_id) × Holds seat.old.me book × OwnRises seat.old.me.0 }
    requires memo { WasMemoBy memo.old (desk_by seat.old.me.0) }
    requires right { let about = seat.old.me.0.base.about in IsRight about.kind about.line about.cycle balance }
    ensures seat { seat.new.table_id ≡ seat.old.table_id }
    ensures ends { Ends seat.old.me.0 seat.new.me }
    ensures offers { Offers (desk_by seat.old.me.0) (desk_by seat.new.me.0) balance.stations result }
    ensures memo { IsMemoBy memo.new (desk_by seat.new.me.0) }
{
    let stations = balance.stations;
    let offered = Desk::offer(&mut book, balance);
    let _exact = book.log_len();
    memo::catch_up(memo, &book);
    match offered {
        Offered::Better => give_offered(room, seat, book, stations),
        Offered::NotBetter => give(room, seat, book),
    }
    offered
}
