//! What is true of the check of certificates of a product, for the crates above to cite.
//!
//! The function does nothing: its contract is the law.
ghost use Rattle.effic_check.specs.Laws.{VerdictIsOne};

/// A check with so many steps has one answer: whoever checks a certificate again gets the same.
pub fn verdict_is_one()
    ensures { VerdictIsOne }
{}
