//! What passes and seats know, for contracts alone: no value of these types is ever made.
use std::marker::Model;

/// What a pass knows of a deque (specs/Deques.antt, `Log`).
pub struct LogView {}

impl Model for LogView {
    ghost use Rattle.steal_pool.specs.Deques.{Log};

    ghost Value = { Log };

    ghost use Rattle.steal_pool.specs.Steps.{nobody};

    ghost view = { λ _. nobody };
}

/// What a seat knows of a tally (specs/Deques.antt, `Tally`).
pub struct TallyView {}

impl Model for TallyView {
    ghost use Rattle.steal_pool.specs.Deques.{Tally};

    ghost Value = { Tally };

    ghost use Rattle.steal_pool.specs.Steps.{no_tally};

    ghost view = { λ _. no_tally };
}
