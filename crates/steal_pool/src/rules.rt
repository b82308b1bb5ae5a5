//! The rules of a deque and of its tally (specs/Deques.antt), and a type for each kind of step, which says what the
//! step tells (specs/Steps.antt). They have no bytes.
ghost use Rattle.std.specs.Prelude.{◌≡◌};
ghost use Rattle.steal_pool.specs.Deques.{IsShared, IsTallied};
ghost use Rattle.steal_pool.specs.Steps.{newcomer, nobody, pushed, taken, log_left, log_right, log_both, IsWhole};
ghost use Rattle.steal_pool.specs.Steps.{first_tally, no_tally, Announces, Reports, Looks, Settles, tally_left};
ghost use Rattle.steal_pool.specs.Steps.{tally_right, tally_both};

use crate::piece::Piece;
use crate::views::{LogView, TallyView};
use atomic_table::{Join, Play, Split, TableRule};
use crossbeam_deque::protocol::{Lesson, Outcome, Protocol};

/// The rule of a deque.
pub struct Dealing;

impl Protocol<Piece, LogView> for Dealing {
    ghost holds = { IsShared };

    ghost first = { newcomer };

    ghost guest = { nobody };
}

/// A piece is put.
pub struct Pushed;

impl Outcome<Piece, LogView> for Pushed {
    ghost then = { λ v xs w. w ≡ pushed v xs };
}

/// A piece is taken.
pub struct Taken;

impl Outcome<Piece, LogView> for Taken {
    ghost then = { λ v xs w. w ≡ taken v xs };
}

/// How many pieces are left, for the pass with all parts.
pub struct Total;

impl Lesson<Piece, LogView> for Total {
    ghost fact = { IsWhole };
}

/// A pass is cut in two, and two are made one.
pub struct Cut;

impl Split<LogView> for Cut {
    ghost left = { log_left };

    ghost right = { log_right };
}

impl Join<LogView> for Cut {
    ghost both = { log_both };

    ghost spent = { nobody };
}

/// The rule of a tally.
pub struct Counting;

impl TableRule<(), TallyView, ()> for Counting {
    ghost holds = { λ _. IsTallied };

    ghost first = { λ _. first_tally };
}

/// The owner says that it will put a piece.
pub struct Announce;

impl Play<(), TallyView> for Announce {
    ghost then = { Announces };
}

/// A hand says that it has taken a piece.
pub struct Report;

impl Play<(), TallyView> for Report {
    ghost then = { Reports };
}

/// A look whether all that was put is taken.
pub struct Look;

impl Play<(), TallyView> for Look {
    ghost then = { Looks };
}

/// The look of the seat with all parts.
pub struct Settle;

impl Play<(), TallyView> for Settle {
    ghost then = { Settles };
}

/// A seat is cut in two, and two are made one.
pub struct Halve;

impl Split<TallyView> for Halve {
    ghost left = { tally_left };

    ghost right = { tally_right };
}

impl Join<TallyView> for Halve {
    ghost both = { tally_both };

    ghost spent = { no_tally };
}
