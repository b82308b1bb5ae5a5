//! The writing of a certificate into a file.
//!
//! The memory is taken first, then the file is made empty, and then it grows piece by piece. So out of memory nothing
//! was touched, and after a call that failed the file is as before or has a prefix of the text. A text of B bytes costs
//! at most B / 65,536 calls and two more.
ghost use Rattle.std.specs.Prelude.{◌≡◌, ◌≢◌, ◌≤◌, ℕ, true, List, [], Some, take, vec_capacity};
ghost use Rattle.cert_text.specs.Cert.{cert_text};
ghost use Rattle.line_io.specs.Outside.{Rises};
ghost use Rattle.line_io.specs.Whole.{IsPrefixWritten};
ghost use Rattle.line_rules.specs.Ranges.{IsInRange};
ghost use Rattle.cert_files.specs.declared.streaming.Streamed.TheVariants.{Done, WriteFault, NoMemory};

use crate::file_text::FileText;
use cert_text::put_cert;
use line_io::{PIECE, Shelf, Stored};
use line_rules::Certificate;
use std::alloc::Global;

/// What writing a certificate into a file came to.
#[derive(Clone, Copy, Debug, PartialEq, Eq)]
pub enum Streamed {
    /// The file has the certificate's text.
    Done,
    /// A write failed, and the count of failed writes rose: the file is as before, or has a prefix of the text.
    WriteFault,
    /// Out of memory: nothing was called.
    NoMemory,
}

/// Makes a file of the text of a certificate within its ranges, in the least version that can hold it: takes its
/// memory, makes the file empty, and then writes pieces of 65,536 bytes behind it, the last one shorter. The other files
/// stay.
pub fn stream_cert<S: Shelf>(
    alloc: Global,
    shelf: &mut S,
    name: &str,
    cert: &Certificate,
) -> Streamed
    requires { IsInRange cert.now }
    ensures count { S.write_faults shelf.old ≤ S.write_faults shelf.new }
    ensures fault { result ≡ WriteFault → Rises (S.write_faults shelf.old) (S.write_faults shelf.new) }
    ensures blame { S.tells → result ≡ WriteFault → S.blames shelf.new name.now ≡ true }
    ensures done { S.tells → result ≡ Done → S.file shelf.new name.now ≡ Some (cert_text cert.now) }
    ensures prefix { S.tells → IsPrefixWritten (S.file shelf.old name.now) (cert_text cert.now)
        (S.file shelf.new name.now) }
    ensures others { S.tells → (q : List ℕ) → q ≢ name.now → S.file shelf.new q ≡ S.file shelf.old q }
    ensures nothing { result ≡ NoMemory → shelf.new ≡ shelf.old }
{
    let Ok(buffer) = Vec::with_capacity(alloc, PIECE) else {
        return Streamed::NoMemory;
    };
    match shelf.fresh(name) {
        Stored::Failed => Streamed::WriteFault,
        Stored::Done => fill(shelf, name, cert, buffer),
    }
}

// Puts the text of a certificate into an empty file, by way of a buffer.
fn fill<S: Shelf>(shelf: &mut S, name: &str, cert: &Certificate, buffer: Vec<u8>) -> Streamed
    requires few { cert.now.tasks ≤ 1024 }
    requires room { 65536 ≤ vec_capacity buffer }
    requires none { buffer.items ≡ [] }
    requires there { S.tells → S.file shelf.old name.now ≡ Some [] }
    ensures count { S.write_faults shelf.old ≤ S.write_faults shelf.new }
    ensures fault { result ≡ WriteFault → Rises (S.write_faults shelf.old) (S.write_faults shelf.new) }
    ensures blame { S.tells → result ≡ WriteFault → S.blames shelf.new name.now ≡ true }
    ensures done { S.tells → S.file shelf.old name.now ≡ Some [] → result ≡ Done
        → S.file shelf.new name.now ≡ Some (cert_text cert.now) }
    ensures prefix { S.tells → S.file shelf.old name.now ≡ Some []
        → (k : ℕ) × (S.file shelf.new name.now ≡ Some (take k (cert_text cert.now))) }
    ensures others { S.tells → (q : List ℕ) → q ≢ name.now → S.file shelf.new q ≡ S.file shelf.old q }
    ensures memory { result ≢ NoMemory }
{
    let mut text = FileText {
        shelf,
        name,
        buffer,
        failed: false,
    };
    put_cert(&mut text, cert);
    let FileText {
        shelf,
        name: _,
        buffer,
        failed,
    } = text;
    if failed {
        return Streamed::WriteFault;
    }
    match shelf.append(name, &buffer) {
        Stored::Failed => Streamed::WriteFault,
        Stored::Done => Streamed::Done,
    }
}
