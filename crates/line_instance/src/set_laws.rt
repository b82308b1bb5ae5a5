//! Laws of the sets. Each function does nothing: its contract is the law, over the lists of truths that contracts see.
//!
//! Proofs of the crates above cite them, and so speak of sets and never of words.

ghost use Rattle.line_instance.specs.SetLaws.{SubsetIsTransitive, MinusIsSubset, MeetIsSubset, DisjointCountsAdd};
ghost use Rattle.line_instance.specs.SetLaws.{CountFalls};
ghost use Rattle.line_instance.specs.SetLaws.{SameMembersAreEqual, MembersAreListed, MembersRise, CountIsLength};

/// A subset of a subset is a subset.
pub fn subset_is_transitive()
    ensures { SubsetIsTransitive }
{}

/// What a set has and another has not is a subset of the first.
pub fn minus_is_subset()
    ensures { MinusIsSubset }
{}

/// What two sets have in common is a subset of the first.
pub fn meet_is_subset()
    ensures { MeetIsSubset }
{}

/// Two sets that have nothing in common have together as many members as the one and the other.
pub fn disjoint_counts_add()
    ensures { DisjointCountsAdd }
{}

/// Without one of its members a set has one member fewer.
pub fn count_falls()
    ensures { CountFalls }
{}

/// Two sets with the same members are the same.
pub fn same_members_are_equal()
    ensures { SameMembersAreEqual }
{}

/// The list of the members has the members and nothing else.
pub fn members_are_listed()
    ensures { MembersAreListed }
{}

/// Each number in the list of the members is less than the next.
pub fn members_rise()
    ensures { MembersRise }
{}

/// The list of the members is as long as the set has members.
pub fn count_is_length()
    ensures { CountIsLength }
{}
