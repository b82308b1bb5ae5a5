//! The check of a certificate in threads.
//!
//! The entries are walked only where the check comes to them. That is where the number of tasks is that of the line,
//! and the balance shows the upper bound.
ghost use Rattle.std.specs.Prelude.{◌≤◌, IfOk};
ghost use Rattle.line_rules.specs.Ranges.{IsInRange};
ghost use Rattle.line_check.specs.Certificates.{NeedsEntries, AreFoundOf};
ghost use Rattle.wide_check.specs.Wide.{IsWideVerdict, IsInOrder, IsWideAccepted, IsWideRejected, IsWideTrue};

use crate::batches::entries_found;
use line_check::{ListFound, Verified, needs_entries, verify_found};
use line_instance::Instance;
use line_rules::{Certificate, Claim};
use std::alloc::{AllocError, Global};
use std::thread::Threads;

/// What the check in threads answers.
#[derive(Clone, Copy)]
pub enum Wide {
    /// What `verify` answers.
    Done(Verified),
    /// Memory is wanting.
    NoMemory,
}

/// What is found of the entries of a certificate, where the check comes to them.
fn found_of<R: Threads + Sync>(
    rt: &R,
    alloc: Global,
    inst: &Instance,
    cert: &Certificate,
    steps: u64,
) -> Result<ListFound, AllocError>
    requires range { IsInRange cert.now }
    ensures { IfOk result (λ found. NeedsEntries inst.now cert.now → AreFoundOf inst.now cert.now steps found) }
{
    if !needs_entries(inst, cert) {
        return Ok(ListFound::StepsEnded);
    }
    match &cert.claim {
        Claim::TooLong { .. } => Ok(ListFound::StepsEnded),
        Claim::Bounds { entries, .. } => entries_found(rt, alloc, inst, cert.kind, entries, steps),
    }
}

/// Checks a certificate against a line as [`verify`](line_check::verify) does, and answers the same, with the entries
/// checked side by side. At most `steps` loads are counted, 1 to 20,000,000; more may be walked.
pub fn verify_wide<R: Threads + Sync>(
    rt: &R,
    alloc: Global,
    inst: &Instance,
    cert: &Certificate,
    steps: u64,
) -> Wide
    requires range { IsInRange cert.now }
    requires some { 1 ≤ steps }
    requires few { steps ≤ 20000000 }
    ensures verdict { IsWideVerdict inst.now cert.now steps result }
    ensures in_order { IsInOrder inst.now cert.now steps result }
    ensures accepted { IsWideAccepted inst.now cert.now steps result }
    ensures rejected { IsWideRejected inst.now cert.now steps result }
    ensures true_bounds { IsWideTrue inst.now cert.now result }
{
    let _tasks = inst.tasks();
    match found_of(rt, alloc, inst, cert, steps) {
        Ok(found) => Wide::Done(verify_found(inst, cert, steps, found)),
        Err(_) => Wide::NoMemory,
    }
}
