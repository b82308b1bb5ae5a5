//! What a seek comes to.

use sequence_values::{Numbers, SeqEntries};

/// What a seek comes to.
#[derive(Drop)]
pub enum SeqSought {
    /// The seek ended.
    Done {
        /// The best sequence that was found: the models in the order of their launch, from 0. It has each model as
        /// often as it is wanted.
        sequence: Numbers,
        /// The charge of each model, 0 to 10^14, that the lemmas by Charge speak of.
        charges: Numbers,
        /// Lemmas in the ranges of a certificate's text, at most 999,999. Nothing is promised of what follows from what.
        lemmas: SeqEntries,
        /// How many units were used, at most as many as were given.
        used: u64,
    },
    /// Memory is wanting.
    NoMemory,
}
