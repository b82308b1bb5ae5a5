//! The reading of a certificate's text from memory.
ghost use Rattle.std.specs.Prelude.{◌≡◌, ◌≢◌};
ghost use Rattle.cert_lines.specs.declared.fault.CertFault.{CertFault as Fault};
ghost use Rattle.line_rules.specs.Products.{IsSayable};
ghost use Rattle.effic_cert.specs.Product.{product_text, newer_text};
ghost use Rattle.effic_cert.specs.Faults.{IsEfficRead};
ghost use Rattle.line_rules.specs.declared.products.EfficCert.{EfficCert as Cert};

use crate::body::ProductBody;
use crate::version::{FirstLine, VersionedCert};
use cert_lines::pattern::read_line;
use cert_lines::{ReadError, Source};
use std::alloc::Global;
use text_grammar::{Part, Text, TextRead, read_text};

/// What reading the text of a certificate answers: the certificate, within its ranges, and the version of the text; the
/// first fault of the text; or out of memory.
pub type EfficRead = TextRead<VersionedCert>;

/// All lines of a text: the first one, which tells the version, and what stands behind it.
#[derive(Clone, Copy)]
struct AllLines;

impl Part for AllLines {
    ghost use Rattle.effic_cert.specs.Faults.{products};

    type Value = VersionedCert;

    ghost rows = { λ p. products.rows };

    ghost may_say = { λ p. products.ranged };

    ghost can_read = { λ p. Unit {0} };

    fn read<S: Source>(&self, alloc: Global, source: &mut S) -> Result<VersionedCert, ReadError> {
        let version = read_line(alloc, source, &FirstLine)?;
        let pairs = version.may_have_pairs();
        let cert = ProductBody { pairs }.read(alloc, source)?;
        Ok(VersionedCert { version, cert })
    }
}

/// Reads the text of a certificate. A fault comes exactly at the first line that no certificate's text passes, of
/// either version, or at a byte behind the last line.
pub fn read_effic(alloc: Global, bytes: &[u8]) -> EfficRead
    ensures read { IsEfficRead bytes.now result }
    ensures none { (fault : Fault) → result ≡ TextRead.Fault fault → (cert : Cert) → IsSayable cert
        → bytes.now ≢ product_text cert }
    ensures none_newer { (fault : Fault) → result ≡ TextRead.Fault fault → (cert : Cert) → IsSayable cert
        → bytes.now ≢ newer_text cert }
{
    EfficText.read(alloc, bytes)
}

/// The texts of certificates, of both versions.
#[derive(Clone, Copy)]
pub struct EfficText;

impl Text for EfficText {
    ghost use Rattle.effic_cert.specs.Faults.{products};

    type Value = VersionedCert;

    ghost rows = { products.rows };

    ghost may_say = { products.ranged };

    fn read(&self, alloc: Global, bytes: &[u8]) -> EfficRead {
        read_text(alloc, &AllLines, bytes)
    }
}
