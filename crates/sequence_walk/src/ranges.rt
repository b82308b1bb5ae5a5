//! Numbers and states in their ranges, as they are tested before something rests on it.
ghost use Rattle.std.specs.Prelude.{◌≤◌, ◌↔◌, length, All, IsTrue};
ghost use Rattle.sequence_rules.specs.Ranges.{IsState};

use sequence_values::Times;

/// Whether each number is at most so much, exactly: one pass over them.
pub fn are_at_most(numbers: &[u64], most: u64) -> bool
    ensures { IsTrue result ↔ (All (λ n. n ≤ most) numbers.now) }
{
    for n in numbers {
        if *n > most {
            return false;
        }
    }
    true
}

/// Whether there are so many numbers of units, 0 to 1,000 each, and so many starts, 0 to 10^9 each. True of each state,
/// and of nothing else.
pub fn is_state_of(models: usize, stations: usize, rem: &[u64], starts: &[u64]) -> bool
    ensures { IsTrue result ↔ (IsState models stations rem.now starts.now) }
{
    if rem.len() != models {
        return false;
    }
    if starts.len() != stations {
        return false;
    }
    if !are_at_most(rem, 1000) {
        return false;
    }
    are_at_most(starts, 1_000_000_000)
}

/// Whether these are what is left of each model of a mix, and starts at each station. True of each state of the mix,
/// and of nothing else.
pub fn is_state(times: &Times, rem: &[u64], starts: &[u64]) -> bool
    ensures { IsTrue result
        ↔ (IsState (length times.now.demands) times.now.stations rem.now starts.now) }
{
    is_state_of(times.demands.len(), times.stations as usize, rem, starts)
}
