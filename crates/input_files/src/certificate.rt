//! Certificates of files.
ghost use Rattle.std.specs.Prelude.{◌≡◌, ◌≤◌, ℕ, List, IfOk, MatchResult};
ghost use Rattle.line_io.specs.Outside.{Rises};
ghost use Rattle.line_rules.specs.Ranges.{IsInRange};
ghost use Rattle.command_outcome.specs.Outcome.{Stops, MayStop, outside};
ghost use Rattle.input_files.specs.Certificate.{IsCertificateOf, IsNoCertificate, cert_fault_line, cert_kind_text};

use cert_files::{CertFrom, cert_from};
use cert_text::{CertFault, CertKind};
use command_outcome::{EarlyEnd, Status, line_about, push_number, refuse};
use line_io::Shelf;
use line_rules::Certificate;
use std::alloc::{AllocError, Global};

/// The most bytes of a certificate's file: 4 GiB. No certificate of `solve` takes more than 3.5 GB, and none of `cycle`
/// more than 4.0 GB. One of `effic` may take more, where it has all lemmas that it may have of a line of 1,024 tasks.
pub const MAX_CERTIFICATE: u64 = 4_294_967_296;

/// What is wrong with a line of a certificate.
fn kind_text(kind: CertKind) -> &'static str
    ensures { result.now ≡ cert_kind_text kind }
{
    match kind {
        CertKind::Ended => "ended",
        CertKind::Form => "form",
        CertKind::Range => "range",
        CertKind::Trailing => "trailing",
    }
}

/// The line about the first fault of a certificate's text.
pub fn cert_fault_line_of(alloc: Global, fault: CertFault) -> Result<Vec<u8>, AllocError>
    ensures { IfOk result (λ t. t.items ≡ cert_fault_line fault) }
{
    let mut text = String::from_str(alloc, "certificate: line ")?;
    push_number(&mut text, fault.line)?;
    text.push_str(" ")?;
    text.push_str(kind_text(fault.kind))?;
    text.push_str("\n")?;
    Ok(text.into_bytes())
}

/// The certificate of a file, within its ranges.
pub fn certificate_of<S: Shelf>(
    alloc: Global,
    file: &str,
    shelf: &mut S,
) -> Result<Certificate, EarlyEnd>
    ensures said { S.tells → MatchResult result (IsCertificateOf (S.file shelf.old) file.now)
        (Stops (IsNoCertificate (outside (S.file shelf.old) (S.blames shelf.new)) file.now)) }
    ensures range { IfOk result IsInRange }
    ensures fault { MatchResult result (λ _. Unit {0})
        (MayStop (Rises (S.fetch_faults shelf.old) (S.fetch_faults shelf.new))) }
    ensures count { S.fetch_faults shelf.old ≤ S.fetch_faults shelf.new }
    ensures writes { S.write_faults shelf.new ≡ S.write_faults shelf.old }
    ensures files { S.tells → (q : List ℕ) → S.file shelf.new q ≡ S.file shelf.old q }
{
    match cert_from(alloc, shelf, file, MAX_CERTIFICATE) {
        CertFrom::Good(cert) => Ok(cert),
        CertFrom::Fault(fault) => {
            let text = cert_fault_line_of(alloc, fault)?;
            Err(refuse(Status::Refused, text))
        }
        CertFrom::TooLong => {
            let text = line_about(alloc, "input: ", file, " too long\n")?;
            Err(refuse(Status::Input, text))
        }
        CertFrom::ReadFault => {
            let text = line_about(alloc, "read fault: ", file, "\n")?;
            Err(refuse(Status::ReadFault, text))
        }
        CertFrom::NoMemory => Err(EarlyEnd::Memory),
    }
}
