//! The reading of what stands behind the first line of a certificate's text.
use crate::lines::{Bound, BoundLine, StationsLine};
use crate::listed::{EntryLines, SeatLines};
use cert_lines::line_forms::{EndLine, Key, KindLine, MAX_CYCLE, NumberLine};
use cert_lines::{ReadError, Source};
use cert_text::EntryList;
use line_rules::EfficCert;
use std::alloc::Global;
use text_grammar::{OneLine, Part};

/// The line of the number of tasks.
const TASKS: OneLine<NumberLine> = OneLine {
    line: NumberLine {
        key: Key::Tasks,
        low: 1,
        high: 1024,
    },
};

/// The line of the cycle.
const CYCLE: OneLine<NumberLine> = OneLine {
    line: NumberLine {
        key: Key::Cycle,
        low: 1,
        high: MAX_CYCLE,
    },
};

/// The line of the lower bound.
const LOWER: OneLine<BoundLine> = OneLine {
    line: BoundLine {
        bound: Bound::Lower,
    },
};

/// The line of the upper bound.
const UPPER: OneLine<BoundLine> = OneLine {
    line: BoundLine {
        bound: Bound::Upper,
    },
};

/// What stands behind the first line, of a text with entries by pairs or without.
#[derive(Clone, Copy)]
pub(crate) struct ProductBody {
    /// Whether entries by pairs may stand there.
    pub pairs: bool,
}

impl Part for ProductBody {
    ghost use Rattle.effic_cert.specs.inner.Parts.{bodies};

    type Value = EfficCert;

    ghost rows = { λ p. (bodies p.pairs).rows };

    ghost may_say = { λ p. (bodies p.pairs).ranged };

    ghost can_read = { λ p. Unit {0} };

    fn read<S: Source>(&self, alloc: Global, source: &mut S) -> Result<EfficCert, ReadError> {
        let kind = OneLine { line: KindLine };
        let stations = OneLine { line: StationsLine };
        let asked = (kind, (TASKS, stations));
        let head = (asked, (CYCLE, (LOWER, UPPER))).read(alloc, source)?;
        let ((kind, (tasks, (least_m, most_m))), (cycle, (lower, upper))) = head;
        let tasks = tasks as u32;
        let end = OneLine { line: EndLine };
        let pairs = self.pairs;
        let behind = (
            SeatLines { kind, tasks },
            (EntryLines { tasks, pairs }, end),
        );
        let shown = behind.read(alloc, source)?;
        let (balance, (list, _)) = shown;
        let EntryList { entries, trail } = list;
        Ok(EfficCert {
            kind,
            tasks,
            least_m,
            most_m,
            cycle,
            lower,
            upper,
            balance,
            entries,
            trail,
        })
    }
}
