//! The law of tables, for the crates above to cite. A call of it costs nothing.
ghost use Rattle.sequence_table.specs.Values.{EveryValueHolds};

/// Every row of so many units from the starts of a node has a charged cost of at least the node's value.
pub fn every_value_holds()
    ensures { EveryValueHolds }
{}
