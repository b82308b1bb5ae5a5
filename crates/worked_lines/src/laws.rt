//! What was worked out by hand, row by row. A call of a law costs nothing.
ghost use Rattle.worked_lines.specs.Events.{EventsOfTheRows};
ghost use Rattle.worked_lines.specs.Rows.{BoundsOfTheRows, CertificateOfTheRows, BranchesOfTheRows, SwapOfTheRows};

/// The bounds of small lines, as worked by hand.
pub fn the_bounds_of_the_rows()
    ensures { BoundsOfTheRows }
{}

/// The loads and the certificates of five tasks, as worked by hand.
pub fn the_certificate_of_the_rows()
    ensures { CertificateOfTheRows }
{}

/// Two branches of six tasks, as worked by hand, and entries that don't follow.
pub fn the_branches_of_the_rows()
    ensures { BranchesOfTheRows }
{}

/// A swap among seven tasks, as worked by hand.
pub fn the_swap_of_the_rows()
    ensures { SwapOfTheRows }
{}

/// Five events on an empty book, as worked by hand.
pub fn the_events_of_the_rows()
    ensures { EventsOfTheRows }
{}
