//! So many values, a line for each of them behind the line of their number, as a part of a text.
use cert_lines::line_forms::NumberLine;
use cert_lines::pattern::{Pattern, read_line, read_lines};
use cert_lines::{ReadError, Source};
use line_rules::Listed;
use std::alloc::Global;
use text_grammar::Part;

/// A line that says how many values there are, and a line for each of them.
#[derive(Clone, Copy)]
pub(crate) struct Counted<P> {
    /// The line of their number.
    pub count: NumberLine,
    /// The kind of line of a value.
    pub pattern: P,
}

impl<P: Pattern> Part for Counted<P>
where
    P::Value: Drop,
{
    ghost use Rattle.std.specs.Prelude.{◌≤◌, ◌<◌};
    ghost use Rattle.cert_lines.specs.Words.{greatest};
    ghost use Rattle.cert_lines.specs.LineForms.{key_text};
    ghost use Rattle.sequence_cert.specs.SequenceText.{counted_rows};
    ghost use Rattle.sequence_cert.specs.inner.Parts.{IsCounted};

    type Value = Listed<P::Value>;

    ghost rows = { λ p vs. counted_rows (key_text p.count.key) (P.line_of p.pattern) vs };

    ghost may_say = { λ p vs. IsCounted p.count.low p.count.high (P.may_say p.pattern) vs };

    ghost can_read = { λ p. ((p.count.low ≤ p.count.high) × (p.count.high < greatest))
        × (P.can_read p.pattern × ((v : P.Value) × P.may_say p.pattern v)) };

    fn read<S: Source>(
        &self,
        alloc: Global,
        source: &mut S,
    ) -> Result<Listed<P::Value>, ReadError> {
        let many = read_line(alloc, source, &self.count)?;
        let values = read_lines(alloc, source, &self.pattern, many)?;
        Ok(Listed::from_vec(values))
    }
}
