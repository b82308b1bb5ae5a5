//! The calls of a share.
//!
//! Each but `least`, `glance`, `glimpse`, `split` and `join` is one turn (turns.rt): what it answers is the book's
//! answer at that point of the one history, and the pass has then seen the history up to there. A turn costs what the
//! book's call costs and three or four atomic steps. Of the other calls `glimpse` takes no step, and the rest take one
//! or two.
ghost use Rattle.std.specs.Prelude.{◌≡◌, ◌≤◌, length, IfSome, IfNone};
ghost use Rattle.line_rules.specs.Balance.{IsRight};
ghost use Rattle.lemma_core.specs.History.{Begins};
ghost use Rattle.lemma_core.specs.Desks.{entries, HasDerived, FollowsSeen, Waits, Finds, Publishes, Offers};
ghost use Rattle.lemma_core.specs.Books.{IsReserved};
ghost use Rattle.lemma_core.specs.Own.{IsStatable};
ghost use Rattle.book_share.specs.Passes.{desk_by};
ghost use Rattle.book_share.specs.Places.{AreApart, AreAllFrom};
ghost use Rattle.book_share.specs.Rule.{left_of, right_of, both_of};
ghost use Rattle.book_share.specs.Steps.{missed, loaded, IsLeastCount, IsEventCount};
ghost use Rattle.book_share.specs.Calls.{IsPassOf, Starts, IsSound, Rests, TriedOnce, Waited, found_by, published_by};
ghost use Rattle.book_share.specs.Calls.{GivesBack, Glimpses, IsKnown};

use crate::memo::{self, OwnEntry};
use crate::pass::{Glimpsed, Pass, Share, Started, TryLooked, TryPublished};
use crate::rule::{Both, Halve, LoadBest, LoadCount, Settle};
use crate::turns::{self, COUNT, LEAST};
use atomic_table::{Refused, Table};
use lemma_core::{Book, Looked, Offered, Published};
use line_instance::TaskSet;
use line_rules::{Balance, Entry};
use std::alloc::Global;
use std::snapshot::Snapshot;
use std::sync::Wait;

impl Share {
    /// Shares a book, once `reserve_offers` was done. The first pass has seen the book's log, has no place of its own,
    /// and has all 1,024 parts. Out of memory, the book comes back as it was.
    pub fn start(alloc: Global, book: Book) -> Started
        requires reserved { IsReserved book }
        ensures { Starts book result }
    {
        let key = Snapshot::of(&book);
        let count = book.log_len();
        let least = u64::from(book.least());
        let _kept = book.len();
        let _tasks = book.instance().tasks();
        let Ok(mut slots) = Vec::with_capacity(alloc, 1) else {
            return Started::NoMemory(book);
        };
        slots.push_reserved(Some(book));
        match Table::new(alloc, &[0, count, least], slots, &key) {
            Ok((table, seat)) => {
                let memo = None;
                Started::Good(Share { table }, Pass { seat, memo })
            },
            Err(Refused { mut slots }) => {
                let Some(Some(book)) = slots.pop() else {
                    unreachable!()
                };
                Started::NoMemory(book)
            }
        }
    }

    /// The last entry that answers the question of the set and so many stations, at the book's cycle, as `look` has it;
    /// and Busy, where another pass has the turn. It waits for nobody.
    pub fn try_look(&self, pass: &mut Pass, set: &TaskSet, most: u32) -> TryLooked
        requires { IsPassOf self.now pass.old }
        ensures pass { IsPassOf self.now pass.new }
        ensures waits { Waits (desk_by pass.old.view) (desk_by pass.new.view) }
        ensures finds { let desk = desk_by pass.new.view in
            IfSome (found_by result) (λ r. Finds (entries desk) set.now most desk.about.cycle r) }
        ensures derived { IfSome (found_by result) (λ _. HasDerived (desk_by pass.new.view)) }
        ensures free { IfSome (found_by result) (λ _. TriedOnce pass.old.view pass.new.view 0) }
        ensures busy { IfNone (found_by result) (pass.new.view ≡ missed pass.old.view) }
        ensures rests { Rests pass.old.view pass.new.view }
        ensures sound { IsSound pass.new.view }
    {
        let Some(book) = turns::take(&self.table, &mut pass.seat) else {
            return TryLooked::Busy;
        };
        TryLooked::of(turns::look(&self.table, &mut pass.seat, book, &mut pass.memo, set, most))
    }

    /// Publishes an entry as `publish` does; and Busy, where another pass has the turn, with the entry. It waits for
    /// nobody.
    pub fn try_publish(&self, pass: &mut Pass, step: Entry) -> TryPublished
        requires pass { IsPassOf self.now pass.old }
        requires follows { FollowsSeen (desk_by pass.old.view) step }
        requires range { IsStatable step }
        ensures pass { IsPassOf self.now pass.new }
        ensures publishes { let old = desk_by pass.old.view in
            IfSome (published_by result) (λ r. Publishes old (desk_by pass.new.view) step r) }
        ensures derived { IfSome (published_by result) (λ _. HasDerived (desk_by pass.new.view)) }
        ensures free { IfSome (published_by result) (λ _. TriedOnce pass.old.view pass.new.view 0) }
        ensures busy { IfNone (published_by result) (pass.new.view ≡ missed pass.old.view) }
        ensures back { GivesBack step result }
        ensures rests { Rests pass.old.view pass.new.view }
        ensures sound { IsSound pass.new.view }
    {
        let own = OwnEntry::of(&step);
        let Some(book) = turns::take(&self.table, &mut pass.seat) else {
            return TryPublished::Busy(step);
        };
        TryPublished::of(turns::publish(
            &self.table,
            &mut pass.seat,
            book,
            &mut pass.memo,
            &own,
            step,
        ))
    }

    /// The least station count of a balance that was given at the start or offered since, 1 to 1,024: never more than
    /// that of what the pass has seen. It waits for nobody.
    pub fn least(&self, pass: &mut Pass) -> u32
        requires { IsPassOf self.now pass.old }
        ensures pass { IsPassOf self.now pass.new }
        ensures loaded { pass.new.view ≡ loaded pass.old.view result }
        ensures least { IsLeastCount pass.old.view result }
        ensures sound { IsSound pass.new.view }
    {
        self.table.shared.load::<LoadBest>(&mut pass.seat, LEAST) as u32
    }

    /// The number of events of the history so far: never less than what the pass has seen. It waits for nobody, and
    /// what the pass has seen stays.
    pub fn glance(&self, pass: &mut Pass) -> u64
        requires { IsPassOf self.now pass.old }
        ensures pass { IsPassOf self.now pass.new }
        ensures loaded { pass.new.view ≡ loaded pass.old.view result }
        ensures count { IsEventCount pass.old.view result }
        ensures seen { length pass.old.view.seen ≤ result }
        ensures sound { IsSound pass.new.view }
    {
        self.table.shared.load::<LoadCount>(&mut pass.seat, COUNT)
    }

    /// The last entry that answers the question of the set and so many stations, at the book's cycle. It may wait for
    /// the turn.
    pub fn look<R: Wait>(&self, rt: &R, pass: &mut Pass, set: &TaskSet, most: u32) -> Looked
        requires { IsPassOf self.now pass.old }
        ensures pass { IsPassOf self.now pass.new }
        ensures waits { Waits (desk_by pass.old.view) (desk_by pass.new.view) }
        ensures finds { let desk = desk_by pass.new.view in Finds (entries desk) set.now most desk.about.cycle result }
        ensures derived { HasDerived (desk_by pass.new.view) }
        ensures waited { Waited pass.old.view pass.new.view }
        ensures rests { Rests pass.old.view pass.new.view }
        ensures sound { IsSound pass.new.view }
    {
        let book = turns::take_waiting(rt, &self.table, &mut pass.seat);
        turns::look(&self.table, &mut pass.seat, book, &mut pass.memo, set, most)
    }

    /// What the pass's memo tells of the question of the set and so many stations, at the book's cycle. It waits for
    /// nobody, takes no turn and no memory, and touches two words of marks and a row.
    #[inline]
    pub fn glimpse(&self, pass: &Pass, set: &TaskSet, most: u32) -> Glimpsed
        requires { IsPassOf self.now pass.now }
        ensures glimpses { let desk = desk_by pass.now.view in
            Glimpses (entries desk) set.now most desk.about.cycle result }
        ensures derived { IsKnown result → HasDerived (desk_by pass.now.view) }
        ensures sound { IsSound pass.now.view }
    {
        match &pass.memo {
            Some(memo) => memo.glimpse(set, most),
            None => Glimpsed::Unknown,
        }
    }

    /// Publishes an entry that follows from those that the pass has seen and that a certificate can say: it is added
    /// where none answers it, and the event stands last in what the pass has seen then. It may wait for the turn.
    pub fn publish<R: Wait>(&self, rt: &R, pass: &mut Pass, step: Entry) -> Published
        requires pass { IsPassOf self.now pass.old }
        requires follows { FollowsSeen (desk_by pass.old.view) step }
        requires range { IsStatable step }
        ensures pass { IsPassOf self.now pass.new }
        ensures publishes { Publishes (desk_by pass.old.view) (desk_by pass.new.view) step result }
        ensures derived { HasDerived (desk_by pass.new.view) }
        ensures waited { Waited pass.old.view pass.new.view }
        ensures rests { Rests pass.old.view pass.new.view }
        ensures sound { IsSound pass.new.view }
    {
        let own = OwnEntry::of(&step);
        let book = turns::take_waiting(rt, &self.table, &mut pass.seat);
        turns::publish(
            &self.table,
            &mut pass.seat,
            book,
            &mut pass.memo,
            &own,
            step,
        )
    }

    /// Offers a right balance of all tasks: it is the best from then on where it has fewer stations. It may wait for
    /// the turn.
    pub fn offer<R: Wait>(&self, rt: &R, pass: &mut Pass, balance: Balance) -> Offered
        requires pass { IsPassOf self.now pass.old }
        requires right { let about = pass.old.view.base.about in IsRight about.kind about.line about.cycle balance }
        ensures pass { IsPassOf self.now pass.new }
        ensures offers { Offers (desk_by pass.old.view) (desk_by pass.new.view) balance.stations result }
        ensures waited { Waited pass.old.view pass.new.view }
        ensures rests { Rests pass.old.view pass.new.view }
        ensures sound { IsSound pass.new.view }
    {
        let book = turns::take_waiting(rt, &self.table, &mut pass.seat);
        turns::offer(&self.table, &mut pass.seat, book, &mut pass.memo, balance)
    }

    /// A further pass, which has seen the same and has no place of its own. One of the pass's parts goes to it, where
    /// the pass has two or more; else both have none.
    pub fn split(&self, pass: &mut Pass) -> Pass
        requires { IsPassOf self.now pass.old }
        ensures passes { IsPassOf self.now pass.new × IsPassOf self.now result }
        ensures left { pass.new.view ≡ left_of pass.old.view }
        ensures right { result.view ≡ right_of pass.old.view }
        ensures sound { IsSound pass.new.view × IsSound result.view }
    {
        let seat = self.table.shared.split_seat::<Halve>(&mut pass.seat);
        Pass { seat, memo: None }
    }

    /// Ends another pass: this one has then the list that goes further, and the places and parts of both. What either
    /// has seen begins that list, and no place is in both.
    pub fn join(&self, pass: &mut Pass, other: Pass)
        requires { IsPassOf self.now pass.old × IsPassOf self.now other }
        ensures pass { IsPassOf self.now pass.new }
        ensures both { pass.new.view ≡ both_of pass.old.view other.view }
        ensures seen { Begins pass.old.view.seen pass.new.view.seen × Begins other.view.seen pass.new.view.seen }
        ensures apart { AreApart pass.old.view.own other.view.own }
        ensures sound { IsSound pass.new.view }
    {
        let Pass { seat, .. } = other;
        memo::forget(&mut pass.memo);
        self.table.shared.join_seat::<Both>(&mut pass.seat, seat);
        self.table.shared.load::<Settle>(&mut pass.seat, COUNT);
    }

    /// The book with the whole history. It may wait for the turn.
    pub fn close<R: Wait>(self, rt: &R, pass: Pass) -> Book
        requires { IsPassOf self pass }
        ensures about { result.about ≡ pass.view.base.about }
        ensures opening { result.opening ≡ pass.view.base.opening }
        ensures seen { Begins pass.view.seen result.events }
        ensures all { pass.view.parts ≡ 1024 → AreAllFrom pass.view.base.from (length result.events) pass.view.own }
        ensures reserved { IsReserved result }
    {
        let Share { table } = self;
        let Pass { mut seat, .. } = pass;
        turns::take_waiting(rt, &table, &mut seat)
    }
}
