//! Laws of trimmed lists, for the crates above to cite.
ghost use Rattle.entry_lists.specs.Laws.{DerivedCitesEarlier};

/// Each entry of a derived list cites entries before it alone.
pub fn derived_cites_earlier()
    ensures { DerivedCitesEarlier }
{}
