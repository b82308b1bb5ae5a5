//! The pieces of which printed texts are made.
ghost use Rattle.std.specs.Prelude.{◌≡◌, ◌++◌, map, OnOk, IfOk, string_bytes, decimal};
ghost use Rattle.command_outcome.specs.Print.{printed, printed_byte};

use std::alloc::{AllocError, Global};

/// A number, in decimal digits.
pub fn push_number(text: &mut String, n: u64) -> Result<(), AllocError>
    ensures { OnOk result (string_bytes text.new ≡ string_bytes text.old ++ decimal n) }
{
    write!(text, "{n}")
}

/// A number behind a text.
pub fn push_one(text: &mut String, front: &str, n: u64) -> Result<(), AllocError>
    ensures { OnOk result (string_bytes text.new ≡ string_bytes text.old ++ (front.now ++ decimal n)) }
{
    text.push_str(front)?;
    push_number(text, n)
}

/// A byte of a name as it is printed: `?` in place of one that could end or hide a line.
fn printed_byte(byte: u8) -> u8
    ensures { result ≡ printed_byte byte }
{
    if byte < 32 || byte == 127 { b'?' } else { byte }
}

/// A name as it is printed: each byte below 32 or equal to 127 stands as `?`, so that no name makes a second line.
pub fn push_printed(text: &mut Vec<u8>, name: &str) -> Result<(), AllocError>
    ensures { OnOk result (text.new.items ≡ text.old.items ++ printed name.now) }
{
    for byte in name.as_bytes() {
        text.push(printed_byte(*byte))?;
    }
    Ok(())
}

/// A text about a file: what stands before its name, the name as it is printed, and what stands behind it.
pub fn line_about(
    alloc: Global,
    before: &str,
    name: &str,
    behind: &str,
) -> Result<Vec<u8>, AllocError>
    ensures { IfOk result (λ t. t.items ≡ before.now ++ printed name.now ++ behind.now) }
{
    let mut text = Vec::from_slice(alloc, before.as_bytes())?;
    push_printed(&mut text, name)?;
    text.extend_from_slice(behind.as_bytes())?;
    Ok(text)
}
