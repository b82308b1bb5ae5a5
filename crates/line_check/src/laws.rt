//! What is true of the check of certificates, for the crates above to cite.
//!
//! Each function does nothing: its contract is the law. The first lets a check in threads stand for the one in order,
//! the second one check serve both versions.
ghost use Rattle.line_check.specs.Laws.{VerdictIsOne};
ghost use Rattle.line_check.specs.VersionOne.{EveryPassingLiftIsAccepted, EveryPassingTooLongIsAccepted};

/// A check with so many steps has one answer: so a check in threads answers as the check in order does.
pub fn verdict_is_one()
    ensures { VerdictIsOne }
{}

/// A certificate of version 1 that passes the rules of its version has an accepted lift, with the same bounds and
/// units.
pub fn every_passing_lift_is_accepted()
    ensures bounds { EveryPassingLiftIsAccepted }
    ensures too_long { EveryPassingTooLongIsAccepted }
{}
