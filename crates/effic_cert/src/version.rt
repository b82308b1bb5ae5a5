//! The versions of the text, and the first line, which tells the version.
ghost use Rattle.std.specs.Prelude.{◌≡◌};
ghost use Rattle.effic_cert.specs.Product.{version_line, may_have_pairs, least_version};

use cert_lines::LineError;
use cert_lines::pattern::Pattern;
use cert_text::has_pairs;
use line_rules::{EfficCert, Entries};
use std::alloc::Global;

/// The version of a text.
#[derive(Clone, Copy, Debug, PartialEq, Eq)]
pub enum Version {
    /// Version 1, without entries by pairs.
    One,
    /// Version 2, which may have entries by pairs.
    Two,
}

/// What a text says: its version, and a certificate.
#[derive(Drop)]
pub struct VersionedCert {
    /// The version of the text.
    pub version: Version,
    /// The certificate.
    pub cert: EfficCert,
}

impl Version {
    /// The first line.
    #[inline]
    pub(crate) fn text(self) -> &'static [u8]
        ensures { result.now ≡ version_line self }
    {
        match self {
            Version::One => b"line balance product 1",
            Version::Two => b"line balance product 2",
        }
    }

    /// Whether a text may have entries by pairs.
    #[inline]
    pub(crate) fn may_have_pairs(self) -> bool
        ensures { result ≡ may_have_pairs self }
    {
        match self {
            Version::One => false,
            Version::Two => true,
        }
    }
}

/// The least version of a text that can hold these entries.
pub(crate) fn version_of(entries: &Entries) -> Version
    ensures { result ≡ least_version entries.now }
{
    if has_pairs(entries) {
        Version::Two
    } else {
        Version::One
    }
}

/// The first line.
#[derive(Clone, Copy)]
pub(crate) struct FirstLine;

impl Pattern for FirstLine {
    ghost use Rattle.effic_cert.specs.inner.Parts.{version_row};

    type Value = Version;

    ghost line_of = { λ p v. version_row v };

    ghost may_say = { λ p v. Unit {0} };

    ghost can_read = { λ p. Unit {0} };

    fn read(&self, _alloc: Global, line: &[u8]) -> Result<Version, LineError> {
        if line == Version::One.text() {
            return Ok(Version::One);
        }
        if line == Version::Two.text() {
            return Ok(Version::Two);
        }
        Err(LineError::Form)
    }
}
