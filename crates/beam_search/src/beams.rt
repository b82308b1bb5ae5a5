//! A beam from level to level.
//!
//! Level 0 is the set of all tasks. Of each rest of a level the first loads are listed; the rests that the full ones
//! leave are sorted by their total time, and the first ones that the bound, and pairs where they are asked, let have a
//! balance in the stations that are left are the next level. Where a rest is itself a load, the loads on the way to it are a balance. A level takes as
//! many bytes as its full loads, some 150 each.
ghost use Rattle.std.specs.Prelude.{◌≡◌, ◌≤◌, ◌+◌, IfOk, IfSome, length};
ghost use Rattle.line_instance.specs.Line.{IsTaskSet, tasks};
ghost use Rattle.line_rules.specs.Balance.{IsRight};
ghost use Rattle.pair_search.specs.Sharing.{IsTableOf};

use crate::listing::Listing;
use crate::placed::Placed;
use line_instance::{Instance, TaskSet};
use line_rules::{Balance, BalanceCheck, LineKind, Mode, Places, Seatplace, Side, check_balance};
use lower_bounds::exceeds;
use pair_search::{PairTable, Paired};
use std::alloc::{AllocError, Global};

/// How many loads of a rest are listed at most.
const LOADS: u64 = 100;

/// What is asked of a beam: a balance in at most so many stations, on a line of this kind at a cycle in the instance's
/// time unit, from the ends of a mode.
#[derive(Clone, Copy)]
pub struct Wanted {
    pub kind: LineKind,
    pub mode: Mode,
    pub cycle: u64,
    pub most: u32,
}

/// What a beam comes to.
#[derive(Drop)]
pub struct Beamed {
    /// A balance that is right, where one was found.
    pub balance: Option<Balance>,
    /// How many loads were listed.
    pub listed: u64,
}

/// What is left of the tasks behind some stations.
#[derive(Clone, Copy)]
struct Rest {
    set: TaskSet,
    /// Its total time.
    total: u64,
    /// The number of the rest from which it was left.
    parent: usize,
}

/// What the listing of a level comes to.
#[derive(Drop)]
enum LevelEnd {
    /// The rest of this number is itself a load.
    Last(usize),
    /// No load may be listed any more.
    Spent,
    /// What the full loads leave.
    Left(Vec<Rest>),
}

/// A beam on its way.
#[derive(Drop)]
struct Levels {
    line: Placed,
    wanted: Wanted,
    /// The rests that were kept, of all levels, one level behind the other.
    rests: Vec<Rest>,
    /// How many loads may still be listed.
    left: u64,
}

/// The numbers of some rests, sorted by total time; rests of equal time stay in their order.
fn order_of(alloc: Global, rests: &[Rest]) -> Result<Vec<(u64, usize)>, AllocError> {
    let mut order = Vec::with_capacity(alloc, rests.len())?;
    for (k, rest) in rests.iter().enumerate() {
        order.push((rest.total, k))?;
    }
    order.sort_unstable();
    Ok(order)
}

impl Levels {
    /// The rest of a number; the set of no task where there is none.
    fn rest(&self, number: usize) -> TaskSet {
        match self.rests.get(number) {
            Some(rest) => rest.set,
            None => TaskSet::empty(),
        }
    }

    /// Lists the first loads of a rest, and adds what the full ones leave. Whether the rest is itself a load.
    fn list_rest(
        &mut self,
        alloc: Global,
        number: usize,
        left: &mut Vec<Rest>,
    ) -> Result<bool, AllocError>
        ensures wanted { self.new.wanted ≡ self.old.wanted }
    {
        let set = self.rest(number);
        let total = match self.rests.get(number) {
            Some(rest) => rest.total,
            None => 0,
        };
        let Wanted { mode, cycle, .. } = self.wanted;
        let mut loads = Listing::begin(alloc, &self.line, mode, cycle, &set);
        for _ in 0..self.left.min(LOADS) {
            let Some(listed) = loads.next(&self.line)? else {
                return Ok(false);
            };
            self.left = self.left.saturating_sub(1);
            if listed.is_full {
                let rest = set.minus(&listed.load);
                if rest.is_empty() {
                    return Ok(true);
                }
                let time = cycle.saturating_sub(listed.left);
                left.push(Rest {
                    set: rest,
                    total: total.saturating_sub(time),
                    parent: number,
                })?;
            }
        }
        Ok(false)
    }

    /// Whether a rest is equal to one of a level that is begun at this number.
    fn is_kept(&self, from: usize, rest: &Rest) -> bool {
        for kept in self.rests.iter().skip(from) {
            if kept.total == rest.total && kept.set == rest.set {
                return true;
            }
        }
        false
    }

    /// Keeps the first rests, by their total time, that may have a balance in so many stations.
    fn keep(
        &mut self,
        alloc: Global,
        inst: &Instance,
        pairs: &mut Option<PairTable>,
        left: &[Rest],
        stations: u32,
        width: usize,
    ) -> Result<(), AllocError>
        requires some { 1 ≤ self.old.wanted.cycle }
        requires limit { self.old.wanted.cycle ≤ 1000000000000000000 }
        requires few { stations ≤ 1024 }
        requires pairs { IfSome pairs.old (IsTableOf inst.now) }
        ensures wanted { self.new.wanted ≡ self.old.wanted }
        ensures pairs { pairs.new ≡ pairs.old }
    {
        let from = self.rests.len();
        let order = order_of(alloc, left)?;
        for (_, k) in &order {
            if self.rests.len().saturating_sub(from) >= width {
                return Ok(());
            }
            let Some(rest) = left.get(*k) else {
                return Ok(());
            };
            if !self.is_kept(from, rest) && self.may_fit(inst, pairs, &rest.set, stations) {
                self.rests.push(Rest {
                    set: rest.set,
                    total: rest.total,
                    parent: rest.parent,
                })?;
            }
        }
        Ok(())
    }

    /// Whether neither the bound of a rest nor pairs say that it needs more than so many stations. One station is asked
    /// for too: two tasks that are apart refute it then.
    fn may_fit(
        &self,
        inst: &Instance,
        pairs: &mut Option<PairTable>,
        set: &TaskSet,
        stations: u32,
    ) -> bool
        requires some { 1 ≤ self.now.wanted.cycle }
        requires limit { self.now.wanted.cycle ≤ 1000000000000000000 }
        requires few { stations ≤ 1024 }
        requires pairs { IfSome pairs.old (IsTableOf inst.now) }
        ensures pairs { pairs.new ≡ pairs.old }
    {
        let tasks = inst.all().meet(&self.line.tasks_at(set));
        if exceeds(inst, self.wanted.kind, self.wanted.cycle, &tasks, stations) {
            return false;
        }
        let Some(table) = pairs else {
            return true;
        };
        match table.find(inst, &tasks, stations) {
            Paired::Refuted { .. } => false,
            Paired::Open => true,
        }
    }

    /// Seats the tasks of a load, taken from a rest, at a station.
    fn seat(&self, seats: &mut [Seatplace], load: &TaskSet, rest: &TaskSet, station: u32)
        ensures { length seats.new ≡ length seats.old }
    {
        let behind = rest.minus(load);
        for place in load.iter() {
            let is_front = self.wanted.kind == LineKind::Straight
                || self.line.before(place).meet(&behind).is_empty();
            let side = if is_front { Side::Front } else { Side::Back };
            if let Some(task) = self.line.task(place) {
                if (task as usize) < seats.len() {
                    seats[task as usize] = Seatplace { station, side };
                }
            }
        }
    }

    /// The balance of the loads on the way to a rest that is itself the last load, in so many stations.
    fn balance(
        &self,
        alloc: Global,
        inst: &Instance,
        last: usize,
        stations: u32,
    ) -> Result<Balance, AllocError>
        requires { stations ≤ 1024 }
        ensures stations { IfOk result (λ b. b.stations ≡ stations) }
        ensures places { IfOk result (λ b. length b.place ≤ tasks inst.now) }
    {
        let first = Seatplace {
            station: 1,
            side: Side::Front,
        };
        let mut seats = vec![in alloc; first; inst.tasks() as usize]?;
        let mut number = last;
        let mut behind = TaskSet::empty();
        for level in 0..stations {
            let rest = self.rest(number);
            let station = if self.wanted.mode == Mode::Back {
                level + 1
            } else {
                stations - level
            };
            self.seat(&mut seats, &rest.minus(&behind), &rest, station);
            behind = rest;
            number = match self.rests.get(number) {
                Some(rest) => rest.parent,
                None => 0,
            };
        }
        Ok(Balance {
            stations,
            place: Places::from_vec(seats),
        })
    }

    /// Lists the rests of a level, those of these numbers.
    fn list_level(&mut self, alloc: Global, from: usize, to: usize) -> Result<LevelEnd, AllocError>
        ensures wanted { self.new.wanted ≡ self.old.wanted }
    {
        let mut left = Vec::new(alloc);
        for number in from..to {
            if self.list_rest(alloc, number, &mut left)? {
                return Ok(LevelEnd::Last(number));
            }
            if self.left == 0 {
                return Ok(LevelEnd::Spent);
            }
        }
        Ok(LevelEnd::Left(left))
    }

    /// Goes from level to level. The number of a rest that is itself a load, and how many stations its load is the last
    /// of.
    fn run(
        &mut self,
        alloc: Global,
        inst: &Instance,
        pairs: &mut Option<PairTable>,
        width: usize,
    ) -> Result<Option<(usize, u32)>, AllocError>
        requires some { 1 ≤ self.old.wanted.cycle }
        requires limit { self.old.wanted.cycle ≤ 1000000000000000000 }
        requires few { self.old.wanted.most ≤ 1024 }
        requires pairs { IfSome pairs.old (IsTableOf inst.now) }
        ensures wanted { self.new.wanted ≡ self.old.wanted }
        ensures pairs { pairs.new ≡ pairs.old }
        ensures within { IfOk result (λ o. IfSome o (λ p. p.1 ≤ self.old.wanted.most)) }
    {
        let mut from = 0;
        for level in 1..self.wanted.most + 1 {
            let to = self.rests.len();
            match self.list_level(alloc, from, to)? {
                LevelEnd::Last(number) => return Ok(Some((number, level))),
                LevelEnd::Spent => return Ok(None),
                LevelEnd::Left(left) => {
                    let stations = self.wanted.most - level;
                    self.keep(alloc, inst, pairs, &left, stations, width)?;
                }
            }
            from = to;
        }
        Ok(None)
    }
}

/// A balance in at most so many stations, looked for with a beam of this width, at least 1, and with at most so many
/// loads that are listed. With a table of pairs, which is of this line, no rest is kept that they refute. An error where
/// memory is wanting.
pub fn beam(
    alloc: Global,
    inst: &Instance,
    wanted: Wanted,
    pairs: &mut Option<PairTable>,
    width: usize,
    purse: u64,
) -> Result<Beamed, AllocError>
    requires some { 1 ≤ wanted.cycle }
    requires limit { wanted.cycle ≤ 1000000000000000000 }
    requires few { wanted.most ≤ 1024 }
    requires pairs { IfSome pairs.old (IsTableOf inst.now) }
    ensures pairs { pairs.new ≡ pairs.old }
    ensures within { IfOk result (λ b. b.listed ≤ purse) }
    ensures right { IfOk result (λ b. IfSome b.balance (IsRight wanted.kind inst.now wanted.cycle)) }
    ensures few { IfOk result (λ b. IfSome b.balance (λ x. x.stations ≤ wanted.most)) }
{
    let line = Placed::of(alloc, inst)?;
    let all = line.all();
    let mut rests = Vec::new(alloc);
    rests.push(Rest {
        set: all,
        total: inst.sum(&inst.all()),
        parent: 0,
    })?;
    let mut levels = Levels {
        line,
        wanted,
        rests,
        left: purse,
    };
    let found = levels.run(alloc, inst, pairs, width)?;
    let listed = purse.saturating_sub(levels.left);
    let Some((number, stations)) = found else {
        return Ok(Beamed {
            balance: None,
            listed,
        });
    };
    let balance = levels.balance(alloc, inst, number, stations)?;
    let balance = match check_balance(inst, wanted.kind, wanted.cycle, &balance) {
        BalanceCheck::Right => Some(balance),
        _ => None,
    };
    Ok(Beamed { balance, listed })
}
