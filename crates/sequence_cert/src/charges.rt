//! The line of the charges, which a text of version 2 has behind the number of stations.
ghost use Rattle.std.specs.Prelude.{◌≡◌, ◌≤◌, All, MatchResult};
ghost use Rattle.cert_lines.specs.declared.fault.LineError.TheVariants.{Range};

use crate::lines::are_within;
use crate::version::Version;
use crate::words::charges;
use cert_lines::pattern::{Pattern, read_line};
use cert_lines::{LineError, ReadError, Source};
use sequence_values::Numbers;
use std::alloc::Global;
use text_grammar::Part;

/// The greatest charge, 10^14.
const MAX_CHARGE: u64 = 100_000_000_000_000;

// The charges of a line, where they are within their range.
fn charges_within(charges: Numbers) -> Result<Numbers, LineError>
    ensures { MatchResult result (λ c. (c ≡ charges) × All (λ a. a ≤ 100000000000000) charges)
        (λ e. (e ≡ Range) × ¬ All (λ a. a ≤ 100000000000000) charges) }
{
    if !are_within(charges.as_slice(), MAX_CHARGE) {
        return Err(LineError::Range);
    }
    Ok(charges)
}

/// The line of the charge of each model.
#[derive(Clone, Copy)]
pub(crate) struct ChargesLine {
    /// The number of models.
    pub models: u32,
}

impl Pattern for ChargesLine {
    ghost use Rattle.sequence_rules.specs.Charges.{IsChargesOf};
    ghost use Rattle.sequence_cert.specs.SequenceText.{charges_row};

    type Value = Numbers;

    ghost line_of = { λ p v. charges_row v };

    ghost may_say = { λ p v. IsChargesOf p.models v };

    ghost can_read = { λ p. Unit {0} };

    fn read(&self, alloc: Global, line: &[u8]) -> Result<Numbers, LineError> {
        match charges(alloc, line, self.models) {
            Err(_) => Err(LineError::Memory),
            Ok(None) => Err(LineError::Form),
            Ok(Some(charges)) => charges_within(charges),
        }
    }
}

/// The line of the charges in a text of version 2, and no line in one of version 1.
#[derive(Clone, Copy)]
pub(crate) struct ChargesPart {
    /// The version of the text.
    pub version: Version,
    /// The number of models.
    pub models: u32,
}

impl Part for ChargesPart {
    ghost use Rattle.sequence_cert.specs.SequenceText.{charges_rows};
    ghost use Rattle.sequence_cert.specs.inner.Versions.{AreChargesIn};

    type Value = Option<Numbers>;

    ghost rows = { λ p charges. charges_rows charges };

    ghost may_say = { λ p charges. AreChargesIn p.version p.models charges };

    ghost can_read = { λ p. Unit {0} };

    fn read<S: Source>(&self, alloc: Global, source: &mut S) -> Result<Option<Numbers>, ReadError> {
        match self.version {
            Version::One => Ok(None),
            Version::Two => {
                let models = self.models;
                let charges = read_line(alloc, source, &ChargesLine { models })?;
                Ok(Some(charges))
            }
        }
    }
}
