//! What is true of the check of certificates, for the crates above to cite.
ghost use Rattle.sequence_check.specs.Laws.{VerdictIsOne};

/// A check with so many steps has one answer: whoever checks a certificate again gets the same.
pub fn verdict_is_one()
    ensures { VerdictIsOne }
{}
