//! The reading of a text from memory.
ghost use Rattle.std.specs.Prelude.{◌≡◌, ◌≢◌, List};
ghost use Rattle.cert_lines.specs.declared.fault.CertFault.{CertFault as Fault};
ghost use Rattle.cert_lines.specs.Rows.{Row};
ghost use Rattle.text_grammar.specs.Texts.{spelled, Tells, text_of, IsTextRead, IsEnded};

use crate::part::Part;
use cert_lines::{CertFault, CertKind, ReadError, Source, Taken};
use cert_text::SliceLines;
use std::alloc::Global;

/// What reading a text answers.
#[derive(Drop)]
pub enum TextRead<V> {
    /// The value that it says.
    Good(V),
    /// The first fault of the text.
    Fault(CertFault),
    /// Out of memory.
    NoMemory,
}

/// A kind of text, and its reader.
pub trait Text {
    /// What a text says.
    type Value: Drop;

    /// The lines of a value.
    ghost rows: { Self.Value → List Row };

    /// Which values may be said.
    ghost may_say: { Self.Value → Type 0 };

    /// Reads a text.
    fn read(&self, alloc: Global, bytes: &[u8]) -> TextRead<Self::Value>
        ensures read { IsTextRead (spelled rows may_say) bytes.now result }
        ensures none { (fault : Fault) → result ≡ TextRead.Fault fault → (v : Self.Value) → may_say v
            → bytes.now ≢ text_of (spelled rows may_say) v };
}

/// Reads a text: the lines of a part. A fault comes exactly at the first line that no such text passes, or at a byte
/// behind the last line.
pub fn read_text<P: Part>(alloc: Global, part: &P, bytes: &[u8]) -> TextRead<P::Value>
    requires can { P.can_read part.now }
    requires tells { Tells (spelled (P.rows part.now) (P.may_say part.now)) }
    ensures read { IsTextRead (spelled (P.rows part.now) (P.may_say part.now)) bytes.now result }
    ensures none { (fault : Fault) → result ≡ TextRead.Fault fault → (v : P.Value) → P.may_say part.now v
        → bytes.now ≢ text_of (spelled (P.rows part.now) (P.may_say part.now)) v }
{
    let mut lines = SliceLines::new(bytes);
    match part.read(alloc, &mut lines) {
        Err(ReadError::Stopped) => TextRead::NoMemory,
        Err(ReadError::Fault(fault)) => TextRead::Fault(fault),
        Ok(value) => ended(&mut lines, value),
    }
}

// The value, where nothing stands behind it.
fn ended<V: Drop>(lines: &mut SliceLines, value: V) -> TextRead<V>
    ensures { IsEnded value lines.old.left.now lines.old.number result }
{
    if lines.is_done() {
        return TextRead::Good(value);
    }
    match lines.advance() {
        Taken::Stopped => TextRead::NoMemory,
        Taken::Line | Taken::End => TextRead::Fault(CertFault {
            line: lines.number(),
            kind: CertKind::Trailing,
        }),
    }
}
