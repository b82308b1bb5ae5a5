//! The writing of a certificate's text into memory.
//!
//! The lines are put into a text in memory, so the cost is that of the bytes, and out of memory the only failure.
ghost use Rattle.std.specs.Prelude.{◌≡◌, ◌≤◌, IfOk};
ghost use Rattle.cert_text.specs.Cert.{cert_text, list_rows};
ghost use Rattle.cert_lines.specs.Rows.{rows_text};
ghost use Rattle.line_rules.specs.Ranges.{IsInRange};

use crate::kept_text::KeptText;
use crate::lines::{put_cert, put_list};
use line_rules::{Certificate, Entries, Trail};
use std::alloc::{AllocError, Global};

/// The text of a certificate within its ranges, in version 2. An error where memory is wanting.
pub fn write_cert(alloc: Global, cert: &Certificate) -> Result<Vec<u8>, AllocError>
    requires { IsInRange cert.now }
    ensures { IfOk result (λ bytes. bytes.items ≡ cert_text cert.now) }
{
    let mut text = KeptText::new(alloc);
    put_cert(&mut text, cert);
    text.finish()
}

/// The text of entries and a trail over so many tasks, from the number of entries to the last frame. An error where
/// memory is wanting.
pub fn write_list(
    alloc: Global,
    entries: &Entries,
    trail: &Option<Trail>,
    tasks: u32,
) -> Result<Vec<u8>, AllocError>
    requires { tasks ≤ 1024 }
    ensures { IfOk result (λ bytes. bytes.items ≡ rows_text (list_rows tasks entries.now trail.now)) }
{
    let mut text = KeptText::new(alloc);
    put_list(&mut text, entries, trail, tasks);
    text.finish()
}
