//! What a pass knows, for contracts alone.
use std::marker::Model;

/// What a pass knows (specs/Passes.antt). A table keeps one for each pass, and no value of it is ever made.
pub struct View {}

impl Model for View {
    ghost use Rattle.book_share.specs.Passes.{PassView};

    ghost Value = { PassView };

    ghost use Rattle.book_share.specs.Rule.{spent};

    ghost view = { λ _. spent };
}
