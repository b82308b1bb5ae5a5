//! The reading of one line for a value, and of so many.
//!
//! What is read of a line is a value that may be said, whose line it is; or a fault of form or of range. That lines
//! follow one another is proved once, here, for all kinds. Lines that are counted take memory as they come and not
//! beforehand, so a text can't ask for more than it has lines.
ghost use Rattle.std.specs.Prelude.{◌≡◌, MatchResult, IfOk, Ok, Err};
ghost use Rattle.cert_lines.specs.Rows.{Row};
ghost use Rattle.cert_lines.specs.Pattern.{IsJudged, IsRead, AreSaid, one, each};
ghost use Rattle.cert_lines.specs.inner.Answering.{error_at};
ghost use Rattle.cert_lines.specs.ReadingOn.{IsReadOn};

use crate::fault::{CertFault, CertKind, LineError, ReadError};
use crate::source::{Source, Taken};
use std::alloc::Global;

/// A kind of line, which says a value.
pub trait Pattern {
    /// What a line says.
    type Value;

    /// The line of a value.
    ghost line_of: { Self → Self.Value → Row };

    /// Which values may be said.
    ghost may_say: { Self → Self.Value → Type 0 };

    /// That the pattern can be read.
    ghost can_read: { Self → Type 0 };

    /// The value that a line says.
    fn read(&self, alloc: Global, line: &[u8]) -> Result<Self::Value, LineError>
        requires { can_read self.now }
        ensures { IsJudged (line_of self.now) (may_say self.now) line.now result };
}

// The error of a line, with its number.
fn numbered(error: LineError, line: u64) -> ReadError
    ensures { result ≡ error_at error line }
{
    match error {
        LineError::Memory => ReadError::Stopped,
        LineError::Form => ReadError::Fault(CertFault {
            line,
            kind: CertKind::Form,
        }),
        LineError::Range => ReadError::Fault(CertFault {
            line,
            kind: CertKind::Range,
        }),
    }
}

/// Reads the next line.
pub fn read_line<S: Source, P: Pattern>(
    alloc: Global,
    source: &mut S,
    pattern: &P,
) -> Result<P::Value, ReadError>
    requires can { P.can_read pattern.now }
    requires some { (v : P.Value) × P.may_say pattern.now v }
    ensures said { IfOk result (λ v. P.may_say pattern.now v) }
    ensures read { S.told → IsRead (one (P.line_of pattern.now) (P.may_say pattern.now))
        (S.number source.old) (S.left source.old) (S.left source.new) (S.number source.new) result }
    ensures source { IsReadOn S.base S.faults S.least source.old source.new }
{
    match source.advance() {
        Taken::Stopped => return Err(ReadError::Stopped),
        Taken::End => {
            return Err(ReadError::Fault(CertFault {
                line: source.number(),
                kind: CertKind::Ended,
            }));
        }
        Taken::Line => {}
    }
    match pattern.read(alloc, source.line()) {
        Ok(value) => Ok(value),
        Err(error) => Err(numbered(error, source.number())),
    }
}

/// Reads so many lines.
pub fn read_lines<S: Source, P: Pattern>(
    alloc: Global,
    source: &mut S,
    pattern: &P,
    count: u64,
) -> Result<Vec<P::Value>, ReadError>
where
    P::Value: Drop,
    requires can { P.can_read pattern.now }
    requires some { (v : P.Value) × P.may_say pattern.now v }
    ensures said { IfOk result (λ values. AreSaid (P.may_say pattern.now) count values.items) }
    ensures read { S.told → MatchResult result
        (λ values. IsRead (each (P.line_of pattern.now) (P.may_say pattern.now) count)
        (S.number source.old) (S.left source.old) (S.left source.new) (S.number source.new) (Ok values.items))
        (λ error. IsRead (each (P.line_of pattern.now) (P.may_say pattern.now) count)
        (S.number source.old) (S.left source.old) (S.left source.new) (S.number source.new) (Err error)) }
    ensures source { IsReadOn S.base S.faults S.least source.old source.new }
{
    let mut values = Vec::new(alloc);
    for _ in 0..count {
        let value = read_line(alloc, source, pattern)?;
        values.push(value)?;
    }
    Ok(values)
}
