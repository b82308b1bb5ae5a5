//! Searches beside others at one share: a load that is put off, what another pass proves meanwhile, and an end that was
//! called.
ghost use Rattle.std.specs.Prelude.{◌≡◌, ◌≤◌};
ghost use Rattle.line_instance.specs.Line.{IsTaskSet};
ghost use Rattle.line_rules.specs.declared.types.LineKind.TheVariants.{Straight};
ghost use Rattle.book_share.specs.Calls.{IsPassOf};
ghost use Rattle.book_share.specs.Passes.{desk_by};

use crate::books::{CYCLE, alone, shared};
use crate::cited::{all_but, cites_only, refuted, seven};
use book_share::{Desked, Pass, Share};
use claim_board::{Board, open_board};
use lemma_core::{Book, Desk, Looked, Offered, Published};
use line_instance::{Instance, TaskSet};
use line_rules::{Balance, Entry, LineKind};
use station_search::{Beside, DecidedBeside, Reason, Units, decide_beside};
use std::alloc::Global;
use std::sync::Wait;
use std::test::Fail;

/// Another pass of the share, and a question that it decides meanwhile.
#[derive(Drop)]
struct Other<'a> {
    share: &'a Share,
    pass: Pass,
    inst: &'a Instance,
    set: TaskSet,
    most: u32,
    ghost fits: { IsPassOf share.now pass },
    ghost about: { pass.view.base.about ≡ record { line = inst.now; kind = Straight; cycle = 7 } },
    ghost question: { IsTaskSet inst.now set × (most ≤ 1024) },
}

impl<'a> Other<'a> {
    // Decides its question.
    fn decide<R: Wait>(self, rt: &R, alloc: Global) {
        let Other {
            share,
            pass,
            inst,
            set,
            most,
        } = self;
        let _refuted = refuted(rt, alloc, share, pass, inst, &set, most);
    }
}

/// A desk of helper 1 at a share, with a board of claims. It looks for what it finds. Before it first tells a claim,
/// another pass may decide a question.
#[derive(Drop)]
struct BoardDesk<'a, R: Wait> {
    desked: Desked<'a, R>,
    alloc: Global,
    board: &'a Board,
    other: Option<Other<'a>>,
    // Whether the end is called from the first.
    ended: bool,
}

impl<'a, R: Wait> Desk for BoardDesk<'a, R> {
    ghost desk = { λ d. desk_by d.desked.pass.now.view };

    fn look(&mut self, set: &TaskSet, most: u32) -> Looked {
        self.desked.look(set, most)
    }

    fn publish(&mut self, step: Entry) -> Published {
        self.desked.publish(step)
    }

    fn offer(&mut self, balance: Balance) -> Offered {
        self.desked.offer(balance)
    }

    fn least(&mut self) -> u32 {
        self.desked.least()
    }
}

impl<'a, R: Wait> Beside for BoardDesk<'a, R> {
    fn find(&mut self, set: &TaskSet, most: u32) -> Option<u64> {
        match self.desked.look(set, most) {
            Looked::Found { id, .. } => Some(id),
            Looked::Absent => None,
        }
    }

    fn is_claimed(&mut self, set: &TaskSet, most: u32) -> bool {
        if let Some(other) = self.other.take() {
            other.decide(self.desked.rt, self.alloc);
        }
        self.board.is_claimed(1, set, most)
    }

    fn claim(&mut self, set: &TaskSet, most: u32) {
        self.board.claim(1, set, most);
    }

    fn is_ended(&mut self) -> bool {
        self.ended
    }
}

// What comes of a question beside others.
#[derive(Clone, Copy, PartialEq, Eq)]
enum Came {
    /// The entry of this number refutes it.
    Refuted(u64),
    /// The end was called.
    Ended,
    /// Something else.
    Other,
}

// What comes of the question of a set in so many stations, and the units that it takes.
fn asked<'a, R: Wait>(
    rt: &'a R,
    alloc: Global,
    share: &'a Share,
    mut pass: Pass,
    board: &'a Board,
    other: Option<Other<'a>>,
    ended: bool,
    inst: &Instance,
    set: &TaskSet,
    most: u32,
) -> (Came, u64)
    requires pass { IsPassOf share.now pass }
    requires about { pass.view.base.about ≡ record { line = inst.now; kind = Straight; cycle = 7 } }
    requires set { IsTaskSet inst.now set.now }
    requires few { most ≤ 1024 }
{
    let mut units = Units {
        left: 1000,
        used: 0,
    };
    let mut desk = BoardDesk {
        desked: Desked {
            rt,
            share,
            pass: &mut pass,
        },
        alloc,
        board,
        other,
        ended,
    };
    let mut pairs = None;
    let decided = decide_beside(
        alloc,
        &mut desk,
        inst,
        LineKind::Straight,
        CYCLE,
        set,
        most,
        &mut pairs,
        &mut units,
    );
    let came = match decided {
        DecidedBeside::Refuted(Reason::ByEntry(id)) => Came::Refuted(id),
        DecidedBeside::Ended => Came::Ended,
        _ => Came::Other,
    };
    (came, units.used)
}

// Whether the book has the entry of the rest, and behind it one that cites it alone.
fn has_two(book: &Book, rest: &TaskSet) -> bool {
    if book.len() != 2 {
        return false;
    }
    (book.entry(0).set == *rest) & cites_only(book.entry(1), 0)
}

// All tasks but the first two.
fn rest_of(inst: &Instance) -> TaskSet
    ensures { IsTaskSet inst.now result }
{
    all_but(inst, 1).without(0)
}

// Whether the question of all tasks but one in three stations takes so many units, where the board has these claims.
fn takes<R: Wait>(
    rt: &R,
    alloc: Global,
    inst: &Instance,
    board: &Board,
    used: u64,
) -> Result<bool, Fail> {
    let (share, mut last) = shared(alloc, inst, alone(alloc, inst)?)?;
    let pass = share.split(&mut last);
    let set = all_but(inst, 1);
    let came = asked(rt, alloc, &share, pass, board, None, false, inst, &set, 3);
    let kept = has_two(&share.close(rt, last), &rest_of(inst));
    Ok((came == (Came::Refuted(1), used)) & kept)
}

#[test]
fn a_load_that_is_put_off_is_searched_in_a_second_walk(rt: HostRuntime) -> Result<(), Fail> {
    let alloc = rt.alloc();
    let inst = seven(alloc)?;
    let board = open_board(alloc)?;
    let free = takes(&rt, alloc, &inst, &board, 31)?;
    let claims = open_board(alloc)?;
    claims.claim(2, &rest_of(&inst), 2);
    let claimed = takes(&rt, alloc, &inst, &claims, 47)?;
    if free & claimed {
        return Ok(());
    }
    Err("other units")?
}

// Whether the question of all tasks but one in three stations takes so many units, where helper 2 claims the rest of the
// next task, and another pass decides all tasks but one, or that rest, before the claim is told.
fn takes_beside<R: Wait>(
    rt: &R,
    alloc: Global,
    inst: &Instance,
    of_rest: bool,
    used: u64,
) -> Result<bool, Fail> {
    let board = open_board(alloc)?;
    let (share, mut last) = shared(alloc, inst, alone(alloc, inst)?)?;
    let pass = share.split(&mut last);
    let second = share.split(&mut last);
    let (set, rest) = (all_but(inst, 1), rest_of(inst));
    board.claim(2, &rest, 2);
    let other = Other {
        share: &share,
        pass: second,
        inst,
        set: if of_rest { rest } else { set },
        most: if of_rest { 2 } else { 3 },
    };
    let came = asked(
        rt,
        alloc,
        &share,
        pass,
        &board,
        Some(other),
        false,
        inst,
        &set,
        3,
    );
    let kept = has_two(&share.close(rt, last), &rest);
    Ok((came == (Came::Refuted(1), used)) & kept)
}

#[test]
fn what_another_pass_proves_meanwhile_is_cited(rt: HostRuntime) -> Result<(), Fail> {
    let alloc = rt.alloc();
    let inst = seven(alloc)?;
    let cited = takes_beside(&rt, alloc, &inst, true, 32)?;
    let left = takes_beside(&rt, alloc, &inst, false, 16)?;
    if cited & left {
        return Ok(());
    }
    Err("other units")?
}

// Whether the question of all tasks in four stations ends with 47 units and one entry, where the end was called.
fn ends<R: Wait>(rt: &R, alloc: Global, inst: &Instance) -> Result<bool, Fail> {
    let board = open_board(alloc)?;
    let (share, mut last) = shared(alloc, inst, alone(alloc, inst)?)?;
    let pass = share.split(&mut last);
    let came = asked(
        rt,
        alloc,
        &share,
        pass,
        &board,
        None,
        true,
        inst,
        &inst.all(),
        4,
    );
    let book = share.close(rt, last);
    Ok((came == (Came::Ended, 47)) & (book.len() == 1))
}

#[test]
fn a_search_ends_once_a_frame_was_closed(rt: HostRuntime) -> Result<(), Fail> {
    let alloc = rt.alloc();
    let inst = seven(alloc)?;
    if ends(&rt, alloc, &inst)? {
        return Ok(());
    }
    Err("another end")?
}
