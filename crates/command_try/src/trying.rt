//! What `try` answers of a seed.
//!
//! The certificate goes through its text on purpose. What is printed is told of what the text says, and not of what the
//! search had in hand. The check has its default steps, which are enough for every certificate of a run.
ghost use Rattle.std.specs.Prelude.{◌≡◌, ◌⊎◌, ℕ, ◌≤◌, IfOk, MatchResult};
ghost use Rattle.line_instance.specs.Line.{tasks};
ghost use Rattle.line_rules.specs.Bounds.{IsTooLong};
ghost use Rattle.line_rules.specs.Checked.{IsLeastWhere};
ghost use Rattle.line_rules.specs.Ranges.{IsCycle, IsInRange};
ghost use Rattle.line_check.specs.Certificates.{IsVerdict, IsAcceptedSo, IsRejectedSo};
ghost use Rattle.cert_text.specs.Cert.{cert_text};
ghost use Rattle.cert_text.specs.WholeText.{IsCertRead};
ghost use Rattle.cert_text.specs.declared.whole_text.CertRead.TheVariants.{Good};
ghost use Rattle.round_run.specs.Solving.{IsSolved, IsSpent};
ghost use Rattle.round_run.specs.Certified.{IsOptimum, IsStop};
ghost use Rattle.command_outcome.specs.declared.report.EarlyEnd.TheVariants.{Memory};
ghost use Rattle.command_outcome.specs.declared.status.Status.TheVariants as ends;
ghost use Rattle.command_try.specs.Tried.{alone, IsAcceptable, IsShown, IsTold, IsTried};

use crate::print_try::{bounds_text, none_text};
use cert_text::{CertRead, read_cert, write_cert};
use command_outcome::{EarlyEnd, Kept, Report, Status};
use lemma_core::Book;
use line_check::{Verified, verify};
use line_generator::{Generated, generate};
use line_instance::Instance;
use line_rules::{Certificate, Frames, LineKind};
use round_run::{
    AlwaysOpen, Cause, Outcome, Plan, certify_optimum, certify_stop, certify_too_long, solve,
};
use std::alloc::{AllocError, Global};
use std::sync::Wait;
use std::thread::Threads;
use wide_check::{Wide, verify_wide};

/// The most loads that the check walks: those of `check` by default.
const STEPS: u64 = 20_000_000;

/// The certificate that the text of a certificate is read as.
fn read_back(alloc: Global, cert: &Certificate) -> Result<Certificate, AllocError>
    requires { IsInRange cert.now }
    ensures same { IfOk result (λ again. again ≡ cert.now) }
    ensures reads { IfOk result (λ again. IsCertRead (cert_text again) (Good again)) }
{
    let bytes = write_cert(alloc, cert)?;
    match read_cert(alloc, &bytes) {
        CertRead::Good(again) => Ok(again),
        CertRead::NoMemory => Err(AllocError),
        CertRead::Fault(_) => unreachable!(),
    }
}

/// What the check of a certificate finds: with its entries side by side or, where there is no memory for that, in
/// order.
fn verdict_of<R: Threads + Sync>(
    rt: &R,
    alloc: Global,
    inst: &Instance,
    cert: &Certificate,
) -> Verified
    requires range { IsInRange cert.now }
    ensures verdict { IsVerdict inst.now cert.now 20000000 result }
    ensures accepted { IsAcceptedSo inst.now cert.now 20000000 result }
    ensures rejected { IsRejectedSo inst.now cert.now 20000000 result }
{
    match verify_wide(rt, alloc, inst, cert, STEPS) {
        Wide::Done(verified) => verified,
        Wide::NoMemory => verify(inst, cert, STEPS),
    }
}

/// The report of a certificate of bounds, once its text was read again and verified. The units that the check counted
/// are kept beside it.
fn told<R: Threads + Sync>(
    rt: &R,
    alloc: Global,
    inst: &Instance,
    seed: u64,
    status: Status,
    cert: Certificate,
) -> Result<Report, AllocError>
    requires { IsAcceptable inst.now cert }
    ensures { IfOk result (IsTold inst.now seed status cert) }
{
    let tasks = inst.tasks();
    let cert = read_back(alloc, &cert)?;
    let verified = verdict_of(rt, alloc, inst, &cert);
    let Verified::Accepted {
        lower,
        upper,
        units,
    } = verified
    else {
        unreachable!()
    };
    let text = bounds_text(alloc, seed, tasks, status.code(), lower, upper)?;
    let kept = Kept::Checked {
        certificate: cert,
        units,
    };
    Ok(Report { status, text, kept })
}

/// The certificate of a run that was solved, which the check accepts.
fn optimum_certificate(
    alloc: Global,
    inst: &Instance,
    kind: LineKind,
    cycle: u64,
    book: Book,
) -> Result<Certificate, AllocError>
    requires cycle { IsCycle cycle }
    requires solved { (N : ℕ) × (N ≤ 3000000) × IsSolved kind inst.now cycle (alone N) book }
    ensures acceptable { IfOk result (IsAcceptable inst.now) }
    ensures optimum { IfOk result (λ cert. (N : ℕ) → N ≤ 3000000 → IsSolved kind inst.now cycle (alone N) book
        → IsOptimum kind inst.now cycle (alone N) book.state.best cert) }
{
    certify_optimum(alloc, inst, kind, cycle, book)
}

/// The report of a run that was solved.
fn optimal<R: Threads + Sync>(
    rt: &R,
    alloc: Global,
    inst: &Instance,
    seed: u64,
    kind: LineKind,
    cycle: u64,
    book: Book,
) -> Result<Report, AllocError>
    requires cycle { IsCycle cycle }
    requires solved { (N : ℕ) × (N ≤ 3000000) × IsSolved kind inst.now cycle (alone N) book }
    ensures { IfOk result (λ r. (N : ℕ) → N ≤ 3000000 → IsSolved kind inst.now cycle (alone N) book
        → IsShown kind inst.now seed (tasks inst.now) cycle N r.status r.text.items r.kept) }
{
    let cert = optimum_certificate(alloc, inst, kind, cycle, book)?;
    let report = told(rt, alloc, inst, seed, Status::Done, cert)?;
    Ok(report)
}

/// The certificate of a run whose units ended, which the check accepts.
fn stop_certificate(
    inst: &Instance,
    kind: LineKind,
    cycle: u64,
    lower: u32,
    book: Book,
    trail: Frames,
) -> Certificate
    requires cycle { IsCycle cycle }
    requires spent { (N : ℕ) × (N ≤ 3000000) × IsSpent kind inst.now cycle (alone N) lower book trail }
    ensures acceptable { IsAcceptable inst.now result }
    ensures stop { (N : ℕ) → N ≤ 3000000
        → IsSpent kind inst.now cycle (alone N) lower book trail
        → IsStop kind inst.now cycle (alone N) lower book.state.best result }
{
    certify_stop(inst, kind, cycle, lower, book, trail)
}

/// The report of a run whose units ended.
fn stopped<R: Threads + Sync>(
    rt: &R,
    alloc: Global,
    inst: &Instance,
    seed: u64,
    kind: LineKind,
    cycle: u64,
    lower: u32,
    book: Book,
    trail: Frames,
) -> Result<Report, AllocError>
    requires cycle { IsCycle cycle }
    requires spent { (N : ℕ) × (N ≤ 3000000) × IsSpent kind inst.now cycle (alone N) lower book trail }
    ensures { IfOk result (λ r. (N : ℕ) → N ≤ 3000000
        → IsSpent kind inst.now cycle (alone N) lower book trail
        → IsShown kind inst.now seed (tasks inst.now) cycle N r.status r.text.items r.kept) }
{
    let cert = stop_certificate(inst, kind, cycle, lower, book, trail);
    let report = told(rt, alloc, inst, seed, Status::Stopped, cert)?;
    Ok(report)
}

/// The report that a task is longer than the cycle.
fn infeasible(
    alloc: Global,
    inst: &Instance,
    seed: u64,
    kind: LineKind,
    cycle: u64,
    task: u32,
) -> Result<Report, AllocError>
    requires cycle { IsCycle cycle }
    requires long { IsLeastWhere (IsTooLong inst.now cycle) task }
    ensures { IfOk result (λ r. (N : ℕ) → IsShown kind inst.now seed (tasks inst.now) cycle N r.status r.text.items
        r.kept) }
{
    let text = none_text(alloc, seed, inst.tasks())?;
    Ok(Report {
        status: Status::Done,
        text,
        kept: Kept::Line(certify_too_long(inst, kind, cycle, task)),
    })
}

/// What is told of a line.
fn report_of<R: Threads + Wait + Sync>(
    rt: &R,
    alloc: Global,
    inst: &Instance,
    seed: u64,
    kind: LineKind,
    cycle: u64,
    units: u64,
) -> Result<Report, AllocError>
    requires cycle { IsCycle cycle }
    requires some { 1 ≤ units }
    requires few { units ≤ 3000000 }
    ensures { IfOk result (λ r. IsShown kind inst.now seed (tasks inst.now) cycle units r.status r.text.items r.kept) }
{
    let plan = Plan {
        helpers: 0,
        units,
        pairs: true,
        seek: 0,
    };
    match solve(rt, alloc, inst, kind, cycle, &plan, &AlwaysOpen) {
        Outcome::TooLong(task) => infeasible(alloc, inst, seed, kind, cycle, task),
        Outcome::Solved { book } => optimal(rt, alloc, inst, seed, kind, cycle, book),
        Outcome::Stopped {
            cause,
            lower,
            book,
            trail,
        } => match cause {
            Cause::Units => stopped(rt, alloc, inst, seed, kind, cycle, lower, book, trail),
            Cause::Memory => Err(AllocError),
        },
        Outcome::NoMemory => Err(AllocError),
    }
}

/// The report of `try` for a seed, 1 to 1,024 tasks, a cycle of 1 to 10^18 in the times' unit, the kind of line, and 1
/// to 3,000,000 units. The search has no helpers. It stops only where memory is wanting.
pub fn try_report<R: Threads + Wait + Sync>(
    rt: &R,
    alloc: Global,
    seed: u64,
    tasks: u32,
    cycle: u64,
    kind: LineKind,
    units: u64,
) -> Result<Report, EarlyEnd>
    requires some { 1 ≤ tasks }
    requires most { tasks ≤ 1024 }
    requires cycle { IsCycle cycle }
    requires unit { 1 ≤ units }
    requires few { units ≤ 3000000 }
    ensures tried { IfOk result (λ r. IsTried seed tasks cycle kind units r.status r.text.items r.kept) }
    ensures good { IfOk result (λ r. (r.status ≡ ends.Done) ⊎ (r.status ≡ ends.Stopped)) }
    ensures memory { MatchResult result (λ _. Unit {0}) (λ s. s ≡ Memory) }
{
    let Generated::Good(inst) = generate(alloc, seed, tasks) else {
        return Err(EarlyEnd::Memory);
    };
    Ok(report_of(rt, alloc, &inst, seed, kind, cycle, units)?)
}
