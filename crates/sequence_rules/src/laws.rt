//! What is true of all works, intervals, lengths and charges, for the crates above to cite.
ghost use Rattle.sequence_rules.specs.Laws.{EveryCostIsOfSteps, EveryBoundHolds, LaterStartsCostNoLess};
ghost use Rattle.sequence_rules.specs.Laws.{EveryChargedCostIsOfUnits, LaterStartsAreChargedNoLess};
ghost use Rattle.sequence_rules.specs.Laws.{FollowingKeepsTruth, AnswersAreTrue, EveryEntryHolds};
ghost use Rattle.sequence_rules.specs.Laws.{EveryAcceptedBoundIsTrue};

/// A sequence costs what its first step costs, and what the rest costs from the next starts on.
pub fn every_cost_is_of_steps()
    ensures { EveryCostIsOfSteps }
{}

/// Every sequence from a state costs at least the bound of the state.
pub fn every_bound_holds()
    ensures { EveryBoundHolds }
{}

/// From later starts no sequence costs less.
pub fn later_starts_cost_no_less()
    ensures { LaterStartsCostNoLess }
{}

/// A row costs what its first unit costs, and what the rest costs from where that unit leads.
pub fn every_charged_cost_is_of_units()
    ensures { EveryChargedCostIsOfUnits }
{}

/// From later starts no row has a lower charged cost.
pub fn later_starts_are_charged_no_less()
    ensures { LaterStartsAreChargedNoLess }
{}

/// What follows from entries that say what is so, says what is so.
pub fn following_keeps_truth()
    ensures { FollowingKeepsTruth }
{}

/// Where an entry says what is so, and answers a state and a need, every sequence from the state costs at least the
/// need.
pub fn answers_are_true()
    ensures { AnswersAreTrue }
{}

/// In a derived list every entry says what is so: of every sequence from its state, or of every row of its units.
pub fn every_entry_holds()
    ensures { EveryEntryHolds }
{}

/// Where a certificate is accepted, its sequence is one of the demands that costs the upper bound, and no sequence of
/// the demands costs less than the lower bound.
pub fn every_accepted_bound_is_true()
    ensures { EveryAcceptedBoundIsTrue }
{}
