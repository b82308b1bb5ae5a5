//! The reading of what stands behind the first line of a certificate's text.
use crate::charges::ChargesPart;
use crate::counted::Counted;
use crate::lines::{MAX_NUMBER, StateEntryLine, StateFrameLine, UnitLine};
use crate::version::Version;
use cert_lines::line_forms::{EndLine, Key, NumberLine};
use cert_lines::{ReadError, Source};
use sequence_values::SeqCert;
use std::alloc::Global;
use text_grammar::{OneLine, Part};

/// The line of the number of models.
const MODELS: OneLine<NumberLine> = OneLine {
    line: NumberLine {
        key: Key::Models,
        low: 1,
        high: 16,
    },
};

/// The line of the number of stations.
const STATIONS: OneLine<NumberLine> = OneLine {
    line: NumberLine {
        key: Key::Stations,
        low: 1,
        high: 64,
    },
};

/// The line of the lower bound.
const LOWER: OneLine<NumberLine> = OneLine {
    line: NumberLine {
        key: Key::Lower,
        low: 0,
        high: MAX_NUMBER,
    },
};

/// The line of the upper bound.
const UPPER: OneLine<NumberLine> = OneLine {
    line: NumberLine {
        key: Key::Upper,
        low: 0,
        high: MAX_NUMBER,
    },
};

/// The line of the number of units.
const UNITS: NumberLine = NumberLine {
    key: Key::Units,
    low: 1,
    high: 1000,
};

/// The line of the number of entries.
const ENTRIES: NumberLine = NumberLine {
    key: Key::Entries,
    low: 0,
    high: 2_000_000,
};

/// The line of the number of frames.
const FRAMES: NumberLine = NumberLine {
    key: Key::Trail,
    low: 0,
    high: 1001,
};

/// What stands behind the first line of a version.
#[derive(Clone, Copy)]
pub(crate) struct SequenceBody {
    /// The version of the text.
    pub version: Version,
}

impl Part for SequenceBody {
    ghost use Rattle.sequence_cert.specs.SequenceText.{body_rows};
    ghost use Rattle.sequence_cert.specs.inner.Versions.{IsOfVersion};

    type Value = SeqCert;

    ghost rows = { λ p cert. body_rows cert };

    ghost may_say = { λ p cert. IsOfVersion p.version cert };

    ghost can_read = { λ p. Unit {0} };

    fn read<S: Source>(&self, alloc: Global, source: &mut S) -> Result<SeqCert, ReadError> {
        let version = self.version;
        let sizes = (MODELS, STATIONS).read(alloc, source)?;
        let models = sizes.0 as u32;
        let stations = sizes.1 as u32;
        let charges = ChargesPart { version, models };
        let units = Counted {
            count: UNITS,
            pattern: UnitLine { models },
        };
        let entries = Counted {
            count: ENTRIES,
            pattern: StateEntryLine {
                version,
                models,
                stations,
            },
        };
        let frames = Counted {
            count: FRAMES,
            pattern: StateFrameLine { models, stations },
        };
        let end = OneLine { line: EndLine };
        let behind = (charges, ((LOWER, UPPER), (units, (entries, (frames, end)))));
        let rest = behind.read(alloc, source)?;
        let (charges, ((lower, upper), (sequence, (entries, (frames, _))))) = rest;
        Ok(SeqCert {
            models,
            stations,
            charges,
            lower,
            upper,
            sequence,
            entries,
            frames,
        })
    }
}
