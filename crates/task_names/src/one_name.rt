//! One name of a task.
ghost use Rattle.std.specs.Prelude.{◌≡◌, true, IfOk};
ghost use Rattle.std.specs.List.{list_all};
ghost use Rattle.std.specs.Str.{chars};
ghost use Rattle.task_names.specs.TaskNames.{is_task_name, is_name_char, has_no_edge};

use std::alloc::{AllocError, Global};
use std::marker::Model;

/// The most bytes of a name.
const MAX_BYTES: usize = 64;

/// A name of a task: 1 to 64 bytes of UTF-8. Contracts see the list of its bytes.
#[derive(Drop)]
pub struct Name {
    owned: String,
}

impl Model for Name {
    ghost use Rattle.std.specs.Prelude.{◌≡◌, true, List, ℕ, string_bytes};
    ghost use Rattle.task_names.specs.TaskNames.{is_task_name};

    ghost Value = { List ℕ };

    ghost view = { λ s. string_bytes s.owned };

    ghost invariant = { λ s. is_task_name (string_bytes s.owned) ≡ true };
}

/// Whether a name may have a character: no control character, no semicolon, and neither of the two codes U+FFFE and
/// U+FFFF.
fn is_name_char(c: char) -> bool
    ensures { result ≡ is_name_char c }
{
    let code = u32::from(c);
    code >= 32 && !(code >= 127 && code <= 159) && code != 59 && code != 0xFFFE && code != 0xFFFF
}

/// Whether a text neither begins nor ends with a blank.
fn has_no_edge(name: &[u8]) -> bool
    ensures { result ≡ has_no_edge name.now }
{
    let first = name.first().copied().unwrap_or(0);
    let last = name.last().copied().unwrap_or(0);
    first != 32 && last != 32
}

/// Whether each character of a text is one that a name may have.
fn has_name_chars(text: &str) -> bool
    ensures { result ≡ list_all is_name_char (chars text.now) }
{
    text.chars().all(is_name_char)
}

/// Whether bytes are a name of a task: 1 to 64 bytes of UTF-8 without control characters and semicolons, and without a
/// blank at either end.
pub fn is_task_name(bytes: &[u8]) -> bool
    ensures { result ≡ is_task_name bytes.now }
{
    if bytes.is_empty() || bytes.len() > MAX_BYTES {
        return false;
    }
    match str::from_utf8(bytes) {
        Ok(text) => has_name_chars(text) && has_no_edge(bytes),
        Err(_) => false,
    }
}

impl Name {
    /// A copy of a name.
    pub fn new(alloc: Global, name: &[u8]) -> Result<Name, AllocError>
        requires { is_task_name name.now ≡ true }
        ensures { IfOk result (λ n. n ≡ name.now) }
    {
        match str::from_utf8(name) {
            Ok(text) => Ok(Name {
                owned: String::from_str(alloc, text)?,
            }),
            Err(_) => unreachable!(),
        }
    }

    /// An equal name.
    pub fn copy(&self, alloc: Global) -> Result<Name, AllocError>
        ensures { IfOk result (λ n. n ≡ self.now) }
    {
        Ok(Name {
            owned: String::from_str(alloc, self.owned.as_str())?,
        })
    }

    /// The text of the name.
    #[inline]
    pub fn text(&self) -> &str
        ensures text { result.now ≡ self.now }
        ensures name { is_task_name self.now ≡ true }
    {
        self.owned.as_str()
    }
}
