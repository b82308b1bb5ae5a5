//! Names of files.
//!
//! A job outlives the words, so its names are copies.
use std::alloc::{AllocError, Global};
use std::marker::Model;

/// A name of a file, a text of its own. Contracts see the list of its bytes.
#[derive(Drop)]
pub struct Name {
    owned: String,
}

impl Model for Name {
    ghost use Rattle.std.specs.Prelude.{List, ℕ, string_bytes};

    ghost Value = { List ℕ };

    ghost view = { λ s. string_bytes s.owned };
}

ghost use Rattle.std.specs.Prelude.{◌≡◌, IfOk};

impl Name {
    /// A copy of a text.
    pub(crate) fn new(alloc: Global, text: &str) -> Result<Name, AllocError>
        ensures { IfOk result (λ n. n ≡ text.now) }
    {
        Ok(Name {
            owned: String::from_str(alloc, text)?,
        })
    }

    /// The text of the name.
    pub fn text(&self) -> &str
        ensures { result.now ≡ self.now }
    {
        self.owned.as_str()
    }
}
