//! Lines as parts, and parts one behind the other.
ghost use Rattle.text_grammar.specs.Texts.{spelled};

use crate::part::Part;
use cert_lines::pattern::{Pattern, read_line};
use cert_lines::{ReadError, Source};
use std::alloc::Global;

/// A line as a part.
#[derive(Clone, Copy)]
pub struct OneLine<L> {
    /// The kind of line.
    pub line: L,
}

impl<L: Pattern> Part for OneLine<L>
where
    L::Value: Drop,
{
    ghost use Rattle.std.specs.Prelude.{[], ◌∷◌};

    type Value = L::Value;

    ghost rows = { λ p v. L.line_of p.line v ∷ [] };

    ghost may_say = { λ p v. L.may_say p.line v };

    ghost can_read = { λ p. L.can_read p.line };

    fn read<S: Source>(&self, alloc: Global, source: &mut S) -> Result<L::Value, ReadError> {
        read_line(alloc, source, &self.line)
    }
}

/// One part behind the other.
impl<A: Part, B: Part> Part for (A, B) {
    ghost use Rattle.std.specs.Prelude.{◌++◌};
    ghost use Rattle.text_grammar.specs.Texts.{Tells};

    type Value = (A::Value, B::Value);

    ghost rows = { λ p v. A.rows p.0 v.0 ++ B.rows p.1 v.1 };

    ghost may_say = { λ p v. A.may_say p.0 v.0 × B.may_say p.1 v.1 };

    ghost can_read = { λ p. (A.can_read p.0 × Tells (spelled (A.rows p.0) (A.may_say p.0)))
        × (B.can_read p.1 × Tells (spelled (B.rows p.1) (B.may_say p.1))) };

    fn read<S: Source>(
        &self,
        alloc: Global,
        source: &mut S,
    ) -> Result<(A::Value, B::Value), ReadError> {
        let first = self.0.read(alloc, source)?;
        let second = self.1.read(alloc, source)?;
        Ok((first, second))
    }
}
