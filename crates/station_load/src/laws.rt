//! What is true of all lines, cycles, modes and sets, for the crates above to cite.
ghost use Rattle.station_load.specs.Laws.{AllLoadsAreGiven};

/// The loads that steps give from the first on until there is none are all loads of the set, each once and in order:
/// the number of steps is the number of loads.
pub fn all_loads_are_given()
    ensures { AllLoadsAreGiven }
{}
