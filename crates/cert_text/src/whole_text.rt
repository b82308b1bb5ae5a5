//! The reading of a certificate's text from memory.
//!
//! The text is read once, from front to back. After its last line nothing may stand: a byte there is a fault of that
//! byte's line. `read_list` reads the entries and the trail alone, from a place of a text on, and tells where the text
//! goes on.
ghost use Rattle.std.specs.Prelude.{◌≡◌, ◌≢◌, ◌≤◌, ◌++◌, length, drop, ℕ, List, Option};
ghost use Rattle.cert_text.specs.WholeText.{IsCertRead, IsEnded, IsListRead, IsListed};
ghost use Rattle.cert_text.specs.Cert.{cert_text, newest_text, list_rows};
ghost use Rattle.cert_text.specs.Parts.{MayHave};
ghost use Rattle.cert_text.specs.OldCert.{old_text};
ghost use Rattle.line_rules.specs.declared.types.Entry.{Entry};
ghost use Rattle.line_rules.specs.declared.types.Trail.{Trail};
ghost use Rattle.cert_lines.specs.Rows.{rows_text};
ghost use Rattle.entry_lists.specs.OldRanges.{IsOldInRange};
ghost use Rattle.entry_lists.specs.declared.version_one.OldCertificate.{OldCertificate};
ghost use Rattle.cert_lines.specs.declared.fault.CertFault.{CertFault};
ghost use Rattle.line_rules.specs.declared.types.Certificate.{Certificate};
ghost use Rattle.line_rules.specs.Ranges.{IsInRange, AreEntries, IsTrailOrNone};

use crate::parts::{EntryList, read_all, read_entries};
use crate::slice_lines::SliceLines;
use cert_lines::{CertFault, CertKind, ReadError, Source, Taken};
use line_rules::{Certificate, Entries, Trail};
use std::alloc::Global;

/// What reading a certificate's text answers.
#[derive(Drop)]
pub enum CertRead {
    /// The certificate, within its ranges.
    Good(Certificate),
    /// The first fault of the text.
    Fault(CertFault),
    /// Memory is wanting.
    NoMemory,
}

/// Reads a certificate's text of version 2 or 3, or one of version 1, whose lift is the answer.
pub fn read_cert(alloc: Global, bytes: &[u8]) -> CertRead
    ensures read { IsCertRead bytes.now result }
    ensures within { (cert : Certificate) → result ≡ CertRead.Good cert → IsInRange cert }
    ensures none { (fault : CertFault) → result ≡ CertRead.Fault fault → (cert : Certificate) → IsInRange cert
        → bytes.now ≢ cert_text cert }
    ensures none_newest { (fault : CertFault) → result ≡ CertRead.Fault fault → (cert : Certificate) → IsInRange cert
        → bytes.now ≢ newest_text cert }
    ensures none_old { (fault : CertFault) → result ≡ CertRead.Fault fault → (old : OldCertificate) → IsOldInRange old
        → bytes.now ≢ old_text old }
{
    let mut lines = SliceLines::new(bytes);
    match read_all(alloc, &mut lines) {
        Err(ReadError::Stopped) => CertRead::NoMemory,
        Err(ReadError::Fault(fault)) => CertRead::Fault(fault),
        Ok(cert) => ended(&mut lines, cert),
    }
}

// The certificate, where nothing stands behind it.
fn ended(lines: &mut SliceLines, cert: Certificate) -> CertRead
    requires { IsInRange cert }
    ensures { IsEnded cert lines.old.left.now lines.old.number result }
{
    if lines.is_done() {
        return CertRead::Good(cert);
    }
    match lines.advance() {
        Taken::Stopped => CertRead::NoMemory,
        Taken::Line => CertRead::Fault(CertFault {
            line: lines.number(),
            kind: CertKind::Trailing,
        }),
        Taken::End => CertRead::Fault(CertFault {
            line: lines.number(),
            kind: CertKind::Trailing,
        }),
    }
}

/// What reading entries and a trail answers.
#[derive(Drop)]
pub enum ListRead {
    /// The entries and the trail, the place behind them, and the number of the line there.
    Good {
        entries: Entries,
        trail: Option<Trail>,
        next: usize,
        line: u64,
    },
    /// The first fault of the text.
    Fault(CertFault),
    /// Memory is wanting.
    NoMemory,
}

/// Reads entries and a trail over so many tasks, from the line of the number of entries to the last frame. They begin
/// at the place `from` of the bytes, where the line of number `line` begins. An entry by pairs is read where `pairs`
/// says so; else its line hasn't the form.
pub fn read_list(
    alloc: Global,
    bytes: &[u8],
    from: usize,
    line: u64,
    tasks: u32,
    pairs: bool,
) -> ListRead
    requires within { from ≤ length bytes.now }
    requires first { 1 ≤ line }
    requires some { 1 ≤ tasks }
    requires few { tasks ≤ 1024 }
    ensures read { IsListRead bytes.now from line tasks pairs result }
    ensures none { (fault : CertFault) → result ≡ ListRead.Fault fault
        → (es : List Entry) (t : Option Trail) (rest : List ℕ) → AreEntries tasks es → IsTrailOrNone tasks (length es) t
        → MayHave pairs es → drop from bytes.now ≢ rows_text (list_rows tasks es t) ++ rest }
{
    let mut lines = SliceLines::behind(&bytes[from..], line - 1);
    match read_entries(alloc, &mut lines, tasks, pairs) {
        Err(ReadError::Stopped) => ListRead::NoMemory,
        Err(ReadError::Fault(fault)) => ListRead::Fault(fault),
        Ok(list) => listed(bytes, &lines, list),
    }
}

// The entries and the trail, and where the text goes on.
fn listed(bytes: &[u8], lines: &SliceLines, list: EntryList) -> ListRead
    ensures { IsListed list bytes.now lines.now.left.now lines.now.number result }
{
    let EntryList { entries, trail } = list;
    let number = lines.number();
    if number == u64::MAX {
        return ListRead::NoMemory;
    }
    ListRead::Good {
        entries,
        trail,
        next: bytes.len().saturating_sub(lines.left_len()),
        line: number + 1,
    }
}
