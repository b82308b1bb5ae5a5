//! The law. A call of it costs nothing.
ghost use Rattle.laws_name.specs.Laws.{NamesChangeNothing};

/// What the commands answer of a line they answer of the same line from other files too, in which its tasks have other
/// names or none: with the same status, certificate and bounds. The texts differ in the names of tasks at most.
pub fn names_change_nothing()
    ensures { NamesChangeNothing }
{}
