//! The words of the subject as types: kinds of lines, sides, balances, loads, what is known of sets of tasks, trails
//! and certificates.
//!
//! All of them are plain data with public fields, and contracts see them as records of what they hold. Those that
//! hold no list are copied by value; those that do have a `copy`, which takes memory and makes an equal one.
ghost use Rattle.std.specs.Prelude.{◌≡◌, IfOk};

use crate::boxed::BoxedSet;
use crate::listed::{Cites, Entries, Frames, Places};
use line_instance::TaskSet;
use std::alloc::AllocError;

/// The two kinds of line.
#[derive(Clone, Copy, Debug, PartialEq, Eq)]
pub enum LineKind {
    /// The stations stand in a row, and each task is done in front.
    Straight,
    /// The line runs to the end and back, and a station may do tasks of both ways.
    U,
}

/// The side of a U-line's station that a task is done at. On a straight line each task is in front.
#[derive(Clone, Copy, Debug, PartialEq, Eq)]
pub enum Side {
    /// On the way to the end of the line.
    Front,
    /// On the way back.
    Back,
}

/// The end or ends of a set of tasks from which the stations are filled.
#[derive(Clone, Copy, Debug, PartialEq, Eq)]
pub enum Mode {
    /// From the first tasks on, for the first station of a straight line.
    Fore,
    /// From the last tasks back, for the last station of a straight line.
    Back,
    /// From both ends, for the first station of a U-line.
    Both,
}

/// Where a task is done: its station, from 1, and the side.
#[derive(Clone, Copy, Debug, PartialEq, Eq)]
pub struct Seatplace {
    /// The station, from 1 to the number of stations of the balance.
    pub station: u32,
    /// The side of the station; in front on a straight line.
    pub side: Side,
}

/// An assignment of tasks to stations: the number of stations, and the place of each task.
#[derive(Drop)]
pub struct Balance {
    /// How many stations there are, 1 to 1,024. Some may be empty.
    pub stations: u32,
    /// The place of each task, in the order of the tasks.
    pub place: Places,
}

/// What a balance has at one station: tasks in front and tasks at the back, no task in both.
#[derive(Clone, Copy)]
pub struct Load {
    /// The tasks in front.
    pub front: TaskSet,
    /// The tasks at the back.
    pub back: TaskSet,
}

/// Why a set of tasks has no balance in so many stations.
#[derive(Drop)]
pub enum Why {
    /// The lower bound of the set is greater.
    Bound,
    /// Whichever full load an end station gets, the rest has no balance in one station less.
    Branch {
        /// The end or ends from which the station is filled.
        mode: Mode,
        /// The entries that refute the rests which the bound leaves open, in the order of the loads.
        cites: Cites,
    },
    /// An entry refutes a set that is no harder: one task is taken out, and another one that can stand in for it is put
    /// in.
    Swap {
        /// The number of that entry.
        cite: u64,
        /// The task that is taken out, from 0.
        out_task: u32,
        /// The task that is put in, from 0.
        in_task: u32,
    },
    /// Of some tasks no two can share a station, and they show that the set needs more stations. Own; after the bin
    /// packing bounds of Martello and Toth, 1990.
    Pairs {
        /// The tasks that count twice.
        two: BoxedSet,
    },
}

/// A proved refusal: the set has no balance in `most` stations at the cycle.
#[derive(Drop)]
pub struct Entry {
    /// The set of tasks.
    pub set: TaskSet,
    /// The number of stations that aren't enough, 0 to 1,024.
    pub most: u32,
    /// The cycle, 1 to 10^18.
    pub cycle: u64,
    /// Why that is so.
    pub why: Why,
}

impl Entry {
    /// An equal entry; an error where memory is wanting.
    pub fn copy(&self) -> Result<Entry, AllocError>
        ensures equal { IfOk result (λ e. e ≡ self.now) }
    {
        Ok(Entry {
            set: self.set,
            most: self.most,
            cycle: self.cycle,
            why: self.why.copy()?,
        })
    }
}

impl Why {
    /// An equal reason; an error where memory is wanting.
    pub fn copy(&self) -> Result<Why, AllocError>
        ensures equal { IfOk result (λ w. w ≡ self.now) }
    {
        Ok(match self {
            Why::Bound => Why::Bound,
            Why::Branch { mode, cites } => Why::Branch {
                mode: *mode,
                cites: cites.copy()?,
            },
            Why::Swap {
                cite,
                out_task,
                in_task,
            } => Why::Swap {
                cite: *cite,
                out_task: *out_task,
                in_task: *in_task,
            },
            Why::Pairs { two } => Why::Pairs { two: two.copy()? },
        })
    }
}

/// A question of a search that stopped before it was decided: whether the set has a balance in `most` stations.
#[derive(Drop)]
pub struct OpenFrame {
    /// The set of tasks.
    pub set: TaskSet,
    /// The number of stations, 0 to 1,024.
    pub most: u32,
    /// The end or ends from which a station is filled.
    pub mode: Mode,
    /// The last load that was tried, where one was. All before it were tried too.
    pub last: Option<Load>,
    /// The entries that refute the rests which the bound leaves open, in the order of the loads.
    pub cites: Cites,
}

impl OpenFrame {
    /// An equal frame; an error where memory is wanting.
    pub fn copy(&self) -> Result<OpenFrame, AllocError>
        ensures equal { IfOk result (λ f. f ≡ self.now) }
    {
        Ok(OpenFrame {
            set: self.set,
            most: self.most,
            mode: self.mode,
            last: self.last,
            cites: self.cites.copy()?,
        })
    }
}

/// The open frames of a search that stopped, from the question of all tasks down. A certificate's has at least one.
#[derive(Drop)]
pub struct Trail {
    /// The cycle of the search, 1 to 10^18.
    pub cycle: u64,
    /// The frames; each is the rest of the one before it.
    pub frames: Frames,
}

/// What is asked of all tasks.
#[derive(Clone, Copy, Debug, PartialEq, Eq)]
pub enum Ask {
    /// The least number of stations at this cycle, 1 to 10^18.
    Stations { cycle: u64 },
    /// The least cycle of this number of stations, 1 to 1,024.
    Cycle { stations: u32 },
}

/// What a certificate claims.
#[derive(Drop)]
pub enum Claim {
    /// There is no balance, since this task, from 0, is longer than the cycle.
    TooLong {
        task: u32,
    },
    /// The answer lies within bounds.
    Bounds {
        /// The lower bound, from 1.
        lower: u64,
        /// The upper bound: the balance shows it.
        upper: u64,
        /// A balance of all tasks.
        balance: Balance,
        /// Entries, each of which follows from those before it; one of them shows the lower bound where that is above
        /// 1.
        entries: Entries,
        /// Where the search was when it stopped, if it did.
        trail: Option<Trail>,
    },
}

/// An answer with its proof.
#[derive(Drop)]
pub struct Certificate {
    /// The kind of line.
    pub kind: LineKind,
    /// The number of tasks of the instance, 1 to 1,024.
    pub tasks: u32,
    /// What is asked.
    pub ask: Ask,
    /// What is answered, and why it is so.
    pub claim: Claim,
}

/// What the test of a balance finds: that it is right, or the first thing that is wrong with it.
#[derive(Clone, Copy, Debug, PartialEq, Eq)]
pub enum BalanceCheck {
    /// It is a balance of all tasks.
    Right,
    /// Fewer places than tasks: this many.
    Unplaced(u32),
    /// The least task whose station isn't one of the line's.
    StationRange(u32),
    /// The least task at the back of a straight line.
    SideWrong(u32),
    /// The least station whose times exceed the cycle, and their sum.
    Overfull(u32, u64),
    /// The least pair, by the first and then the second, whose precedence is broken.
    Broken(u32, u32),
    /// The least pair of tasks that are apart and at one station.
    Together(u32, u32),
}
