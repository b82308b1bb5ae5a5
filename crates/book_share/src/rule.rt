//! The rule of the table (specs/Rule.antt), and a type for each kind of step, which says what the step tells
//! (specs/Steps.antt). They have no bytes.
ghost use Rattle.book_share.specs.Rule.{Kept, newcomer, left_of, right_of, both_of, spent};
ghost use Rattle.book_share.specs.Steps.{Takes, Peeks, Records, Lowers, Gives, LoadsBest, LoadsCount, Settles};

use crate::view::View;
use atomic_table::{Join, Play, Split, TableRule};
use lemma_core::Book;
use std::snapshot::Snapshot;

/// The rule of a shared book.
pub struct Turns;

impl TableRule<Option<Book>, View, Snapshot<Book>> for Turns {
    ghost holds = { λ key. Kept };

    ghost first = { λ key. newcomer key.value };
}

/// An attempt to take the turn.
pub struct Take;

impl Play<Option<Book>, View> for Take {
    ghost then = { Takes };
}

/// A load of the turn's word, before a further attempt to take it.
pub struct Peek;

impl Play<Option<Book>, View> for Peek {
    ghost then = { Peeks };
}

/// An event is counted, and so has its place.
pub struct Record;

impl Play<Option<Book>, View> for Record {
    ghost then = { Records };
}

/// The least count is lowered to that of an offer.
pub struct Lower;

impl Play<Option<Book>, View> for Lower {
    ghost then = { Lowers };
}

/// The turn is given back.
pub struct Give;

impl Play<Option<Book>, View> for Give {
    ghost then = { Gives };
}

/// A load of the least count.
pub struct LoadBest;

impl Play<Option<Book>, View> for LoadBest {
    ghost then = { LoadsBest };
}

/// A load of the count of events.
pub struct LoadCount;

impl Play<Option<Book>, View> for LoadCount {
    ghost then = { LoadsCount };
}

/// The load of the count after a join.
pub struct Settle;

impl Play<Option<Book>, View> for Settle {
    ghost then = { Settles };
}

/// A pass is cut in two.
pub struct Halve;

impl Split<View> for Halve {
    ghost left = { left_of };

    ghost right = { right_of };
}

/// Two passes are made one.
pub struct Both;

impl Join<View> for Both {
    ghost both = { both_of };

    ghost spent = { spent };
}
