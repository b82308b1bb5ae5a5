//! What is true of all lines, cycles and sets, for the crates above to cite.
ghost use Rattle.line_rules.specs.Laws.{EveryRankedBalanceIsRight, EveryEntryHolds, EveryBoundHolds};
ghost use Rattle.line_rules.specs.Laws.{EveryBalanceCarriesOver, EveryRefusalCarriesOver, EachTaskMayStandAlone};
ghost use Rattle.line_rules.specs.Laws.{OrderIsStrict, OrderIsTotal, EachSetHasItsLists, ListsAreUnique};
ghost use Rattle.line_rules.specs.Laws.{DerivedHasUnits, UnitsAreUnique, FreshIsFreshAtEach, UnitsAtAreAtMostWhole};
ghost use Rattle.line_rules.specs.Laws.{EveryRestIsSmaller, FollowsFromMore, AnswersLeadOn, DerivedGrows};
ghost use Rattle.line_rules.specs.Laws.{EveryAcceptedBoundIsTrue, AcceptedOptimumIsLeast};
ghost use Rattle.line_rules.specs.Laws.{EveryInfeasibleCertificateIsTrue};
ghost use Rattle.line_rules.specs.Pairs.{PairsAreSound, PairsGrow};

/// The ranked balance of a line is right, and has at most as many stations as there are tasks.
pub fn every_ranked_balance_is_right()
    ensures { EveryRankedBalanceIsRight }
{}

/// In a derived list every entry holds: its set has no balance in its number of stations at its cycle.
pub fn every_entry_holds()
    ensures { EveryEntryHolds }
{}

/// A set whose bound exceeds a number of stations has no balance in so many, on either kind of line.
pub fn every_bound_holds()
    ensures { EveryBoundHolds }
{}

/// A set that pairs refute has no balance in so many stations, on either kind of line.
pub fn pairs_are_sound()
    ensures { PairsAreSound }
{}

/// Pairs that refute a set refute each larger set, with the same tasks.
pub fn pairs_grow()
    ensures { PairsGrow }
{}

/// A balance of a set is one of each subset, at each greater cycle, and in more stations.
pub fn every_balance_carries_over()
    ensures { EveryBalanceCarriesOver }
{}

/// A set without a balance has none with more tasks, at a lesser cycle, or in fewer stations.
pub fn every_refusal_carries_over()
    ensures { EveryRefusalCarriesOver }
{}

/// Tasks that each fit a station have a balance with one task per station, in as many stations as there are of them.
pub fn each_task_may_stand_alone()
    ensures { EachTaskMayStandAlone }
{}

/// No load stands before itself, and the order of loads leads on.
pub fn order_is_strict()
    ensures { OrderIsStrict }
{}

/// Of two loads of a set, one stands before the other, or they are the same.
pub fn order_is_total()
    ensures { OrderIsTotal }
{}

/// There is one list of the loads of a set, in their order, and one of those that need a cite.
pub fn lists_are_unique()
    ensures { ListsAreUnique }
{}

/// Each set of tasks has a list of its loads, and a list of those that need a cite.
pub fn each_set_has_its_lists()
    ensures { EachSetHasItsLists }
{}

/// Entries and a trail have one number of units.
pub fn units_are_unique()
    ensures { UnitsAreUnique }
{}

/// The entries of a derived list have a number of units.
pub fn derived_has_units()
    ensures { DerivedHasUnits }
{}

/// Entries of which none is answered by an earlier one are so at each cycle.
pub fn fresh_is_fresh_at_each()
    ensures { FreshIsFreshAtEach }
{}

/// The units at a cycle are at most those of all the entries and the trail.
pub fn units_at_are_at_most_whole()
    ensures { UnitsAtAreAtMostWhole }
{}

/// The rest of a load of a set is a subset of the set, with fewer tasks.
pub fn every_rest_is_smaller()
    ensures { EveryRestIsSmaller }
{}

/// What follows from a list of entries follows from each longer list that begins with it.
pub fn follows_from_more()
    ensures { FollowsFromMore }
{}

/// An entry that answers the question of an entry answers what that one answers.
pub fn answers_lead_on()
    ensures { AnswersLeadOn }
{}

/// A derived list grows by entries that follow from it, and each beginning of one is derived.
pub fn derived_grows()
    ensures { DerivedGrows }
{}

/// The bounds of an accepted certificate are true: a balance reaches the upper one, and none lies below the lower one.
pub fn every_accepted_bound_is_true()
    ensures { EveryAcceptedBoundIsTrue }
{}

/// Where the bounds of an accepted certificate meet they are what is asked for: the least stations, or the least cycle.
pub fn accepted_optimum_is_least()
    ensures { AcceptedOptimumIsLeast }
{}

/// Where a certificate that there is no balance is accepted, there is none.
pub fn every_infeasible_certificate_is_true()
    ensures { EveryInfeasibleCertificateIsTrue }
{}
