//! What a team works with: all that takes memory before its book is shared, so that nothing is wanting after that.
//!
//! Each job becomes a piece, which is its rest for one station less, and the pieces are dealt to the hands of a pool in
//! turn. It costs a copy of each job's set, the pool's room for 4,096 pieces a helper, and the board's 128 KiB.
ghost use Rattle.std.specs.Prelude.{◌≡◌, ◌<◌, ◌≤◌, length, IfOk};
ghost use Rattle.round_helpers.specs.inner.Equipment.{IsEquipped};
ghost use Rattle.round_helpers.specs.inner.Pieces.{pieces_of};

use crate::job_list::Job;
use crate::teams::Helper;
use claim_board::{Board, open_board};
use std::alloc::{AllocError, Global};
use steal_pool::{Hands, Opened, Piece, Pool, open_pool};

/// The pool of a question's pieces with a hand for each helper, the board on which they say what they are at, and room
/// for the helpers.
#[derive(Drop)]
pub struct Equipment {
    pub pool: Pool,
    pub hands: Hands,
    pub board: Board,
    pub helpers: Vec<Helper>,
}

// A piece for each job of the question of `most` stations.
fn pieces_of(alloc: Global, jobs: &[Job], most: u32) -> Result<Vec<Piece>, AllocError>
    requires some { 1 ≤ most }
    ensures { IfOk result (λ v. v.items ≡ pieces_of most jobs.now) }
{
    let mut pieces = Vec::with_capacity(alloc, jobs.len())?;
    for k in 0..jobs.len() {
        pieces.push_reserved(Piece {
            number: k as u64,
            depth: 0,
            most: most - 1,
            set: jobs[k].set,
        });
    }
    Ok(pieces)
}

/// The equipment of so many helpers, 1 to 64, for the jobs of the question of `most` stations, at most 4,096. An error
/// where memory is wanting.
pub fn equip(alloc: Global, jobs: &[Job], most: u32, count: usize) -> Result<Equipment, AllocError>
    requires few { length jobs.now ≤ 4096 }
    requires some { 1 ≤ most }
    requires helpers { (0 < count) × (count ≤ 64) }
    ensures { IfOk result (IsEquipped jobs.now most count) }
{
    let pieces = pieces_of(alloc, jobs, most)?;
    let helpers = Vec::with_capacity(alloc, count)?;
    let board = open_board(alloc)?;
    match open_pool(alloc, pieces, count as u32) {
        Opened::Good(pool, hands) => Ok(Equipment {
            pool,
            hands,
            board,
            helpers,
        }),
        Opened::NoMemory => Err(AllocError),
    }
}
