//! A drift from step to step, with a threshold that falls.
ghost use Rattle.std.specs.Prelude.{◌≡◌, ◌≤◌, IfOk, IfSome, IsNone, length};
ghost use Rattle.line_instance.specs.Line.{tasks};
ghost use Rattle.line_rules.specs.Balance.{IsRight};

use crate::state::State;
use line_instance::Instance;
use line_rules::{Balance, BalanceCheck, LineKind, check_balance};
use rand_pcg::Lcg64Xsh32;
use std::alloc::{AllocError, Global};

/// 2^22: by it the threshold is scaled, so that it begins at a sixteenth of the cycle.
const SCALE: u64 = 4_194_304;

/// What a drift comes to.
#[derive(Drop)]
pub struct Drifted {
    /// A balance that is right, where one was found.
    pub balance: Option<Balance>,
    /// How many units of the purse were used: a unit pays one step for every eight tasks.
    pub used: u64,
}

/// The threshold of a drift, which falls in 64 parts, by the cube of those that are left.
#[derive(Clone, Copy)]
struct Cooling {
    cycle: u64,
    /// How many steps there are, and how many were begun.
    total: u64,
    begun: u64,
    /// The steps before this one have the threshold at hand.
    until: u64,
    threshold: u64,
}

/// The threshold where so many parts of 64 are gone.
fn threshold(cycle: u64, gone: u64) -> u64 {
    let left = 64u64.saturating_sub(gone);
    let cube = left.saturating_mul(left).saturating_mul(left);
    let low = (cycle % SCALE).saturating_mul(cube) / SCALE;
    (cycle / SCALE).saturating_mul(cube).saturating_add(low)
}

impl Cooling {
    /// The threshold of the next step.
    #[inline]
    fn next(&mut self) -> u64 {
        if self.begun >= self.until {
            let gone = match self.begun.saturating_mul(64).checked_div(self.total) {
                Some(gone) => gone,
                None => 64,
            };
            self.threshold = threshold(self.cycle, gone);
            self.until = gone
                .saturating_add(1)
                .saturating_mul(self.total)
                .div_ceil(64);
        }
        self.begun = self.begun.saturating_add(1);
        self.threshold
    }
}

/// Makes the steps of a unit. Where a balance came of them, whether some were made before: 1 or 0.
fn spend_unit(
    state: &mut State,
    inst: &Instance,
    random: &mut Lcg64Xsh32,
    cooling: &mut Cooling,
    steps: u64,
) -> Option<u64>
    ensures most { state.new.most ≡ state.old.most }
    ensures begun { IfSome result (λ u. u ≤ 1) }
{
    for step in 0..steps {
        if state.is_balance() {
            return Some(step.min(1));
        }
        state.step(inst, random, cooling.next());
    }
    None
}

/// Makes steps until a balance comes of them or the purse is used: how many units it took, where one came.
fn spend(
    state: &mut State,
    inst: &Instance,
    random: &mut Lcg64Xsh32,
    cycle: u64,
    purse: u64,
) -> Option<u64>
    ensures most { state.new.most ≡ state.old.most }
    ensures within { IfSome result (λ u. u ≤ purse) }
{
    let steps = u64::from(inst.tasks().div_ceil(8));
    let mut cooling = Cooling {
        cycle,
        total: purse.saturating_mul(steps),
        begun: 0,
        until: 0,
        threshold: 0,
    };
    for unit in 0..purse {
        if let Some(begun) = spend_unit(state, inst, random, &mut cooling, steps) {
            return Some(unit + begun);
        }
    }
    if state.is_balance() {
        return Some(purse);
    }
    None
}

/// A balance in `most` stations at a cycle, looked for from a balance in more, with at most so many units. All draws
/// are from the generator. In one station nothing is looked for. An error where memory is wanting.
pub fn drift(
    alloc: Global,
    inst: &Instance,
    kind: LineKind,
    cycle: u64,
    best: &Balance,
    most: u32,
    random: &mut Lcg64Xsh32,
    purse: u64,
) -> Result<Drifted, AllocError>
    requires places { length best.now.place ≡ tasks inst.now }
    requires few { most ≤ 1024 }
    ensures within { IfOk result (λ d. d.used ≤ purse) }
    ensures right { IfOk result (λ d. IfSome d.balance (IsRight kind inst.now cycle)) }
    ensures stations { IfOk result (λ d. IfSome d.balance (λ b. b.stations ≡ most)) }
    ensures spent { IfOk result (λ d. IsNone d.balance → 2 ≤ most → d.used ≡ purse) }
{
    if most < 2 {
        return Ok(Drifted {
            balance: None,
            used: 0,
        });
    }
    let mut state = State::begin(alloc, inst, kind, cycle, best, most)?;
    if let Some(used) = spend(&mut state, inst, random, cycle, purse) {
        let balance = state.balance(alloc, inst)?;
        if let BalanceCheck::Right = check_balance(inst, kind, cycle, &balance) {
            return Ok(Drifted {
                balance: Some(balance),
                used,
            });
        }
    }
    Ok(Drifted {
        balance: None,
        used: purse,
    })
}
