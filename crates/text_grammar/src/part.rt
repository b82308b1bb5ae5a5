//! A part of a text, which says a value.
ghost use Rattle.std.specs.Prelude.{ℕ, List, IfOk};
ghost use Rattle.cert_lines.specs.Rows.{Row};
ghost use Rattle.cert_lines.specs.Pattern.{IsRead};
ghost use Rattle.text_grammar.specs.Texts.{spelled, Tells};

use cert_lines::{ReadError, Source};
use std::alloc::Global;

/// Lines that say a value, and their reader.
pub trait Part {
    /// What the lines say.
    type Value: Drop;

    /// The lines of a value.
    ghost rows: { Self → Self.Value → List Row };

    /// Which values may be said.
    ghost may_say: { Self → Self.Value → Type 0 };

    /// That the part can be read.
    ghost can_read: { Self → Type 0 };

    /// Reads the lines of a value. A fault comes exactly at the first line that no value passes.
    fn read<S: Source>(&self, alloc: Global, source: &mut S) -> Result<Self::Value, ReadError>
        requires can { can_read self.now }
        requires tells { Tells (spelled (rows self.now) (may_say self.now)) }
        ensures said { IfOk result (λ v. may_say self.now v) }
        ensures read { S.told → IsRead (spelled (rows self.now) (may_say self.now)) (S.number source.old)
            (S.left source.old) (S.left source.new) (S.number source.new) result };
}
