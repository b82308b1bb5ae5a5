//! The versions of the text, and the first line, which tells the version.
ghost use Rattle.std.specs.Prelude.{◌≡◌};
ghost use Rattle.sequence_cert.specs.inner.Versions.{version_line};

use cert_lines::LineError;
use cert_lines::pattern::Pattern;
use std::alloc::Global;

/// The version of a text.
#[derive(Clone, Copy, Debug, PartialEq, Eq)]
pub(crate) enum Version {
    /// Version 1, without charges.
    One,
    /// Version 2, with charges.
    Two,
}

impl Version {
    /// The first line.
    #[inline]
    pub(crate) fn text(self) -> &'static [u8]
        ensures { result.now ≡ version_line self }
    {
        match self {
            Version::One => b"utility sequence certificate 1",
            Version::Two => b"utility sequence certificate 2",
        }
    }
}

/// The first line.
#[derive(Clone, Copy)]
pub(crate) struct FirstLine;

impl Pattern for FirstLine {
    ghost use Rattle.sequence_cert.specs.inner.Versions.{version_row};

    type Value = Version;

    ghost line_of = { λ p v. version_row v };

    ghost may_say = { λ p v. Unit {0} };

    ghost can_read = { λ p. Unit {0} };

    fn read(&self, _alloc: Global, line: &[u8]) -> Result<Version, LineError> {
        if line == Version::Two.text() {
            return Ok(Version::Two);
        }
        if line == Version::One.text() {
            return Ok(Version::One);
        }
        Err(LineError::Form)
    }
}
