//! Codes, printed names and what is kept, as calls.
use command_outcome::{Kept, Report, Status, finish, line_about};
use line_io::MemSink;
use line_rules::{Ask, Certificate, Claim, LineKind};
use std::alloc::{AllocError, Global};
use std::test::Fail;

#[test]
fn codes_are_in_order(rt: HostRuntime) -> Result<(), Fail> {
    assert_eq!(rt; Status::Done.code(), 0);
    assert_eq!(rt; Status::Steps.code(), 8);
    Ok(())
}

#[test]
fn a_name_makes_no_second_line(rt: HostRuntime) -> Result<(), Fail> {
    let text = line_about(rt.alloc(), "written ", "x\nbalance 1\u{7f}", "\n")?;
    assert_eq!(rt; text.as_slice(), b"written x?balance 1?\n".as_slice());
    Ok(())
}

/// A certificate that a task is too long.
fn certificate(tasks: u32) -> Kept {
    Kept::Line(Certificate {
        kind: LineKind::Straight,
        tasks,
        ask: Ask::Stations { cycle: 1 },
        claim: Claim::TooLong { task: 0 },
    })
}

/// How many tasks the certificate has that is kept of a report with one of five tasks, where one of two tasks was kept
/// before. The puts of these numbers fail.
fn tasks_kept(alloc: Global, fails: &[u64]) -> Result<Option<u32>, AllocError> {
    let mut out = MemSink::new(alloc, Vec::from_slice(alloc, fails)?);
    let mut kept = certificate(2);
    let report = Report {
        status: Status::Done,
        text: Vec::from_slice(alloc, b"optimal 1\n")?,
        kept: certificate(5),
    };
    let _status = finish(&mut out, Ok(report), &mut kept);
    Ok(match &kept {
        Kept::Nothing => None,
        Kept::Line(certificate) => Some(certificate.tasks),
        Kept::Checked { certificate, .. } => Some(certificate.tasks),
        Kept::Product(certificate) => Some(certificate.tasks),
        Kept::Sequence(certificate) => Some(certificate.models),
    })
}

#[test]
fn what_is_put_is_kept(rt: HostRuntime) -> Result<(), Fail> {
    let kept = tasks_kept(rt.alloc(), &[])?;
    assert_eq!(rt; kept, Some(5));
    let kept = tasks_kept(rt.alloc(), &[0])?;
    assert_eq!(rt; kept, None);
    Ok(())
}
