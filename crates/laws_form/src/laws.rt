//! The laws, for the crates above to cite. A call of one costs nothing.
ghost use Rattle.laws_form.specs.Laws.{EveryFormKeepsItsLine, EveryLineHasOneText, EveryChainKeepsItsLine};

/// A canonical text in any form is read in that form, has no fault, and says the line that it was written of.
pub fn every_form_keeps_its_line()
    ensures { EveryFormKeepsItsLine }
{}

/// A line has one canonical text in IN2, and one with each cycle time in ALB.
pub fn every_line_has_one_text()
    ensures { EveryLineHasOneText }
{}

/// However often a text is converted, by runs of `convert` in any forms, it has no fault, and says the times and the
/// precedences that the first text says. In IN2 and ALB it is a canonical text of that line. So a canonical IN2 text
/// comes back byte for byte.
pub fn every_chain_keeps_its_line()
    ensures { EveryChainKeepsItsLine }
{}
