//! Names as they stand in the text of a picture.
//!
//! A name is gone over character by character, and each is put as it is or, if XML keeps it for itself, by its word. So
//! a sign that was put is never looked at again.
ghost use Rattle.std.specs.Prelude.{◌≡◌, ◌++◌, OnOk, string_bytes};
ghost use Rattle.named_drawing.specs.Escapes.{escaped};
ghost use Rattle.named_drawing.specs.inner.Characters.{escaped_char};

use std::alloc::AllocError;

/// Puts a character behind a text, by its word where XML keeps it for itself.
fn push_char(text: &mut String, c: char) -> Result<(), AllocError>
    ensures { OnOk result (string_bytes text.new ≡ string_bytes text.old ++ escaped_char c) }
{
    match c {
        '&' => text.push_str("&amp;"),
        '<' => text.push_str("&lt;"),
        '>' => text.push_str("&gt;"),
        _ => text.push(c),
    }
}

/// Puts a name behind a text.
pub(crate) fn push_escaped(text: &mut String, name: &str) -> Result<(), AllocError>
    ensures { OnOk result (string_bytes text.new ≡ string_bytes text.old ++ escaped name.now) }
{
    for c in name.chars() {
        push_char(text, c)?;
    }
    Ok(())
}
