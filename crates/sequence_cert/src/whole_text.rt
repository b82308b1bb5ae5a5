//! The reading of a certificate's text from memory.
ghost use Rattle.std.specs.Prelude.{◌≡◌, ◌≢◌};
ghost use Rattle.cert_lines.specs.declared.fault.CertFault.{CertFault as Fault};
ghost use Rattle.text_grammar.specs.Texts.{IsEnded};
ghost use Rattle.sequence_rules.specs.Ranges.{IsInRange};
ghost use Rattle.sequence_values.specs.declared.types.SeqCert.{SeqCert as Cert};
ghost use Rattle.sequence_cert.specs.SequenceText.{sequence_text};
ghost use Rattle.sequence_cert.specs.Faults.{IsSeqRead};

use crate::body::SequenceBody;
use crate::version::FirstLine;
use cert_lines::pattern::read_line;
use cert_lines::{CertFault, CertKind, ReadError, Source, Taken};
use cert_text::SliceLines;
use sequence_values::SeqCert;
use std::alloc::Global;
use text_grammar::{Part, Text, TextRead};

/// What reading the text of a certificate answers: the certificate, within its ranges; the first fault of the text; or
/// out of memory.
pub type SeqCertRead = TextRead<SeqCert>;

/// All lines of a text: the first one, which tells the version, and what stands behind it.
#[derive(Clone, Copy)]
struct AllLines;

impl Part for AllLines {
    ghost use Rattle.sequence_rules.specs.Ranges.{IsInRange};
    ghost use Rattle.sequence_cert.specs.SequenceText.{sequence_rows};

    type Value = SeqCert;

    ghost rows = { λ p cert. sequence_rows cert };

    ghost may_say = { λ p cert. IsInRange cert };

    ghost can_read = { λ p. Unit {0} };

    fn read<S: Source>(&self, alloc: Global, source: &mut S) -> Result<SeqCert, ReadError> {
        let version = read_line(alloc, source, &FirstLine)?;
        let cert = SequenceBody { version }.read(alloc, source)?;
        Ok(cert)
    }
}

/// Reads the text of a certificate. A fault comes exactly at the first line that no certificate's text passes, or at a
/// byte behind the last line.
pub fn read_seq(alloc: Global, bytes: &[u8]) -> SeqCertRead
    ensures read { IsSeqRead bytes.now result }
    ensures none { (fault : Fault) → result ≡ TextRead.Fault fault → (cert : Cert) → IsInRange cert
        → bytes.now ≢ sequence_text cert }
{
    let mut lines = SliceLines::new(bytes);
    match AllLines.read(alloc, &mut lines) {
        Err(ReadError::Stopped) => TextRead::NoMemory,
        Err(ReadError::Fault(fault)) => TextRead::Fault(fault),
        Ok(cert) => ended(&mut lines, cert),
    }
}

// The certificate, where nothing stands behind it.
fn ended(lines: &mut SliceLines, cert: SeqCert) -> SeqCertRead
    ensures { IsEnded cert lines.old.left.now lines.old.number result }
{
    if lines.is_done() {
        return TextRead::Good(cert);
    }
    match lines.advance() {
        Taken::Stopped => TextRead::NoMemory,
        Taken::Line | Taken::End => TextRead::Fault(CertFault {
            line: lines.number(),
            kind: CertKind::Trailing,
        }),
    }
}

/// The texts of certificates.
#[derive(Clone, Copy)]
pub struct SeqText;

impl Text for SeqText {
    ghost use Rattle.sequence_rules.specs.Ranges.{IsInRange};
    ghost use Rattle.sequence_cert.specs.SequenceText.{sequence_rows};

    type Value = SeqCert;

    ghost rows = { sequence_rows };

    ghost may_say = { IsInRange };

    fn read(&self, alloc: Global, bytes: &[u8]) -> SeqCertRead {
        read_seq(alloc, bytes)
    }
}
