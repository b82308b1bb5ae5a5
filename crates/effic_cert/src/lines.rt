//! The lines that certificates of other questions don't have.
ghost use Rattle.std.specs.Prelude.{◌≡◌};
ghost use Rattle.effic_cert.specs.inner.Parts.{bound_text};

use crate::words::{span, wide_keyed};
use cert_lines::LineError;
use cert_lines::pattern::Pattern;
use std::alloc::Global;

/// The greatest product: above that of 1,024 stations at a cycle time of 10^18.
const MAX_PRODUCT: u128 = 1_000_000_000_000_000_000_000_000;

/// The line of the range of stations.
#[derive(Clone, Copy)]
pub(crate) struct StationsLine;

impl Pattern for StationsLine {
    ghost use Rattle.effic_cert.specs.inner.Parts.{ends_row, AreEnds};

    type Value = (u32, u32);

    ghost line_of = { λ p v. ends_row v };

    ghost may_say = { λ p v. AreEnds v };

    ghost can_read = { λ p. Unit {0} };

    fn read(&self, _alloc: Global, line: &[u8]) -> Result<(u32, u32), LineError> {
        let Some((least, most)) = span(line, b"stations") else {
            return Err(LineError::Form);
        };
        if least < 1 {
            return Err(LineError::Range);
        }
        if least > 1024 {
            return Err(LineError::Range);
        }
        if most < 1 {
            return Err(LineError::Range);
        }
        if most > 1024 {
            return Err(LineError::Range);
        }
        Ok((least as u32, most as u32))
    }
}

/// Which bound on the product a line has.
#[derive(Clone, Copy)]
pub(crate) enum Bound {
    Lower,
    Upper,
}

impl Bound {
    /// Its word.
    fn text(self) -> &'static [u8]
        ensures { result.now ≡ bound_text self }
    {
        match self {
            Bound::Lower => b"lower",
            Bound::Upper => b"upper",
        }
    }
}

/// The line of a bound on the product.
#[derive(Clone, Copy)]
pub(crate) struct BoundLine {
    /// Which one.
    pub bound: Bound,
}

impl Pattern for BoundLine {
    ghost use Rattle.cert_lines.specs.Rows.{keyed};
    ghost use Rattle.line_rules.specs.Products.{IsProduct};
    ghost use Rattle.effic_cert.specs.inner.Parts.{bound_text};

    type Value = u128;

    ghost line_of = { λ p v. keyed (bound_text p.bound) v };

    ghost may_say = { λ p v. IsProduct v };

    ghost can_read = { λ p. Unit {0} };

    fn read(&self, _alloc: Global, line: &[u8]) -> Result<u128, LineError> {
        let Some(value) = wide_keyed(line, self.bound.text()) else {
            return Err(LineError::Form);
        };
        if value < 1 {
            return Err(LineError::Range);
        }
        if value > MAX_PRODUCT {
            return Err(LineError::Range);
        }
        Ok(value)
    }
}
