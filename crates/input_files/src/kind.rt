//! The kind of line that the words of a command name.
ghost use Rattle.std.specs.Prelude.{◌≡◌};
ghost use Rattle.input_files.specs.Kind.{kind_of};

use line_rules::LineKind;
use line_words::LineWord;

/// The kind of line that the value of the key `line` names.
pub fn kind_of(line: LineWord) -> LineKind
    ensures { result ≡ kind_of line }
{
    match line {
        LineWord::Straight => LineKind::Straight,
        LineWord::U => LineKind::U,
    }
}
