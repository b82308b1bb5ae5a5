//! The faults of the words.
//!
//! A fault is printed as one line: the number of the word, counted from 0, and two words for its kind. A script can
//! compare it.
ghost use Rattle.std.specs.Prelude.{◌≡◌, ◌++◌, string_bytes, OnOk};
ghost use Rattle.line_words.specs.Texts.{usage_text};

use std::alloc::AllocError;
use std::fmt;

/// What is wrong with the words.
#[derive(Clone, Copy, Debug, PartialEq, Eq)]
pub enum UsageKind {
    /// There are no words.
    NoCommand,
    /// The first word is no command.
    UnknownCommand,
    /// The key is none of the command.
    UnknownKey,
    /// The key stands before.
    RepeatedKey,
    /// The value is none of the key.
    BadValue,
    /// The name is one too many, or empty.
    ExtraName,
    /// The command wants a further name.
    MissingName,
    /// The command wants a further key.
    MissingKey,
}

impl fmt::Display for UsageKind {
    ghost use Rattle.std.specs.Prelude.{Some};
    ghost use Rattle.line_words.specs.Texts.{kind_text};

    ghost output = { λ kind. Some (kind_text kind) };

    fn fmt<W: fmt::Write>(&self, f: &mut fmt::Formatter<W>) -> fmt::Result {
        match self {
            UsageKind::NoCommand => write!(f, "no command"),
            UsageKind::UnknownCommand => write!(f, "unknown command"),
            UsageKind::UnknownKey => write!(f, "unknown key"),
            UsageKind::RepeatedKey => write!(f, "repeated key"),
            UsageKind::BadValue => write!(f, "bad value"),
            UsageKind::ExtraName => write!(f, "extra name"),
            UsageKind::MissingName => write!(f, "missing name"),
            UsageKind::MissingKey => write!(f, "missing key"),
        }
    }
}

/// Appends the line that tells a fault: the number of its word, counted from 0, and what is wrong.
/// An error where memory is wanting.
pub fn push_usage(text: &mut String, index: usize, kind: UsageKind) -> Result<(), AllocError>
    ensures { OnOk result (string_bytes text.new ≡ string_bytes text.old ++ usage_text index kind) }
{
    text.push_str("usage: word ")?;
    write!(text, "{index}")?;
    text.push_str(" ")?;
    write!(text, "{kind}")?;
    text.push_str("\n")
}
