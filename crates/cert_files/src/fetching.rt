//! The reading of a certificate from a file.
//!
//! A certificate may have 4 GiB, so it never stands in memory as a text: one piece of 65,536 bytes and one line do. The
//! lines are read as those of a text in memory are, by the same code. After a fault the file is still read to its end:
//! a file that is too long is refused as such, whatever its text is.
ghost use Rattle.std.specs.Prelude.{◌≡◌, ◌≢◌, ◌⊎◌, ◌≤◌, ℕ, suc, true, List, Some};
ghost use Rattle.cert_text.specs.Cert.{cert_text, newest_text};
ghost use Rattle.cert_text.specs.OldCert.{old_text};
ghost use Rattle.entry_lists.specs.OldRanges.{IsOldInRange};
ghost use Rattle.cert_lines.specs.declared.fault.CertFault.{CertFault};
ghost use Rattle.entry_lists.specs.declared.version_one.OldCertificate.{OldCertificate};
ghost use Rattle.line_io.specs.Outside.{Rises};
ghost use Rattle.line_rules.specs.Ranges.{IsInRange};
ghost use Rattle.line_rules.specs.declared.types.Certificate.{Certificate};
ghost use Rattle.cert_files.specs.From.{IsCertFrom, IsGoodInRange, IsGoodFrom, stopped_from, fault_from};
ghost use Rattle.cert_files.specs.declared.fetching.CertFrom.TheVariants.{Fault, ReadFault, NoMemory};

use crate::file_lines::{FileLines, read_on};
use crate::stop::{Rest, Stop};
use crate::window::Window;
use cert_text::{CertFault, CertKind, ReadError, read_all};
use line_io::{PIECE, Shelf, zeros};
use line_rules::Certificate;
use std::alloc::Global;

/// What reading a certificate from a file gave.
#[derive(Drop)]
pub enum CertFrom {
    /// The certificate, within its ranges.
    Good(Certificate),
    /// The first fault of the text, which is within the limit.
    Fault(CertFault),
    /// The file has more bytes than the limit.
    TooLong,
    /// A fetch failed, and the count of failed fetches rose.
    ReadFault,
    /// Out of memory.
    NoMemory,
}

/// Reads a certificate from a file of at most `limit` bytes, in pieces of 65,536 bytes and line by line. After a fault
/// it reads on to the end: a longer file is TooLong whatever its text is. A line of more than 2^28 bytes is answered as
/// out of memory. The files stay.
pub fn cert_from<S: Shelf>(alloc: Global, shelf: &mut S, name: &str, limit: u64) -> CertFrom
    ensures count { S.fetch_faults shelf.old ≤ S.fetch_faults shelf.new }
    ensures writes { S.write_faults shelf.new ≡ S.write_faults shelf.old }
    ensures fault { result ≡ ReadFault → Rises (S.fetch_faults shelf.old) (S.fetch_faults shelf.new) }
    ensures blame { S.tells → result ≡ ReadFault → S.blames shelf.new name.now ≡ true }
    ensures read { S.tells → IsCertFrom (S.file shelf.old name.now) limit result }
    ensures none { S.tells → (fault : CertFault) → result ≡ Fault fault → (cert : Certificate) → IsInRange cert
        → S.file shelf.old name.now ≢ Some (cert_text cert) }
    ensures none_newest { S.tells → (fault : CertFault) → result ≡ Fault fault → (cert : Certificate) → IsInRange cert
        → S.file shelf.old name.now ≢ Some (newest_text cert) }
    ensures none_old { S.tells → (fault : CertFault) → result ≡ Fault fault → (old : OldCertificate) → IsOldInRange old
        → S.file shelf.old name.now ≢ Some (old_text old) }
    ensures range { IsGoodInRange result }
    ensures files { S.tells → (q : List ℕ) → S.file shelf.new q ≡ S.file shelf.old q }
{
    let Ok(piece) = zeros(alloc, PIECE) else {
        return CertFrom::NoMemory;
    };
    let mut lines = FileLines {
        shelf,
        name,
        limit,
        at: 0,
        window: Window {
            piece,
            from: 0,
            to: 0,
        },
        line: Vec::new(alloc),
        number: 0,
        stop: Stop::Going,
    };
    let answer = read_all(alloc, &mut lines);
    let FileLines {
        shelf,
        name: _,
        limit: _,
        at,
        window,
        line: _line,
        number,
        stop,
    } = lines;
    match answer {
        Ok(cert) => ended(read_on(shelf, name, limit, at, window), cert, number),
        Err(error) => match error {
            ReadError::Stopped => stopped(stop),
            ReadError::Fault(fault) => faulty(read_on(shelf, name, limit, at, window), fault),
        },
    }
}

// The answer where the lines couldn't go on.
fn stopped(stop: Stop) -> CertFrom
    ensures { result ≡ stopped_from stop }
{
    match stop {
        Stop::Going => CertFrom::NoMemory,
        Stop::Failed => CertFrom::ReadFault,
        Stop::TooLong => CertFrom::TooLong,
        Stop::Memory => CertFrom::NoMemory,
    }
}

// The answer where the text has a fault.
fn faulty(rest: Rest, fault: CertFault) -> CertFrom
    ensures { result ≡ fault_from rest fault }
{
    match rest {
        Rest::Nothing => CertFrom::Fault(fault),
        Rest::More => CertFrom::Fault(fault),
        Rest::TooLong => CertFrom::TooLong,
        Rest::Failed => CertFrom::ReadFault,
    }
}

// The answer where a certificate of so many lines was read.
fn ended(rest: Rest, cert: Certificate, lines: u64) -> CertFrom
    ensures { IsGoodFrom rest cert lines result }
{
    match rest {
        Rest::Nothing => CertFrom::Good(cert),
        Rest::More => trailing(lines),
        Rest::TooLong => CertFrom::TooLong,
        Rest::Failed => CertFrom::ReadFault,
    }
}

// The answer where a byte stands behind a certificate of so many lines.
fn trailing(lines: u64) -> CertFrom
    ensures { (result ≡ Fault (record { line = suc lines; kind = CertKind.Trailing })) ⊎ (result ≡ NoMemory) }
{
    if lines == u64::MAX {
        return CertFrom::NoMemory;
    }
    CertFrom::Fault(CertFault {
        line: lines + 1,
        kind: CertKind::Trailing,
    })
}
