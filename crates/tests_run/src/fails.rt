//! Runs over calls that fail: files that can't be read or written, an output that fails, and a certificate that is torn.
use crate::runs::{Left, files, first_wrong, run_words, slashed};
use command_outcome::Status;
use line_io::{MemShelf, MemSink};
use std::alloc::{AllocError, Global};
use std::sync::Wait;
use std::test::Fail;
use std::thread::Threads;

/// The optimum of five tasks: its words, what is printed, and its certificate, one refutation of 15 loads.
const FIVE: &str = "solve five.in2 cycle=7 helpers=0 cert=t.cert";

const FIVE_SHOWN: &str = "optimal 3\nidle 7\nstation 1: 1 3\nstation 2: 2 4\nstation 3: 5\n";

const FIVE_PROVED: &str =
    "line balance certificate 2\nline straight\ntasks 5\ncycle 7\nlower 3\nupper 3\nbalance 3\n1\n2\n1\n2\n3\n\
    entries 1\nbranch f 7 f8 2 -\ntrail 0\nend\n";

/// What a run leaves, over files and an output whose calls of these numbers fail, and how long the file `b` is then.
fn run_failing<R: Threads + Wait + Sync>(
    rt: &R,
    alloc: Global,
    words: &str,
    shelf_fails: &[u64],
    sink_fails: &[u64],
) -> Result<(Left, usize), AllocError> {
    let mut shelf = files(alloc, shelf_fails)?;
    let mut out = MemSink::new(alloc, Vec::from_slice(alloc, sink_fails)?);
    let left = run_words(rt, alloc, words, &mut shelf, &mut out)?;
    let long = match shelf.file("b") {
        Some(bytes) => bytes.len(),
        None => 0,
    };
    Ok((left, long))
}

#[test]
fn calls_that_fail(rt: HostRuntime) -> Result<(), Fail> {
    let rows: [(&str, &[u64], &[u64], Status, &str); 5] = [
        (
            "balance five.in2 cycle=7",
            &[0],
            &[],
            Status::ReadFault,
            "read fault: five.in2/",
        ),
        (
            "balance five.in2 cycle=7",
            &[],
            &[0],
            Status::WriteFault,
            "",
        ),
        ("--help", &[], &[0], Status::WriteFault, ""),
        (
            "convert chain.in2 b to=alb",
            &[2],
            &[],
            Status::WriteFault,
            "",
        ),
        (
            "convert chain.in2 b to=alb",
            &[3],
            &[],
            Status::WriteFault,
            "",
        ),
    ];
    for (words, shelf_fails, sink_fails, status, shown) in rows {
        let (left, long) = run_failing(&rt, rt.alloc(), words, shelf_fails, sink_fails)?;
        assert!(rt;
            (left.status == status) & (left.shown.as_str() == shown) & (long == 0),
            "{words}"
        );
    }
    Ok(())
}

#[test]
fn faults_of_fetches(rt: HostRuntime) -> Result<(), Fail> {
    for (call, wanted) in [
        (0u64, "check five.in2 five.cert|4|read fault: five.in2/"),
        (1, "check five.in2 five.cert|4|read fault: five.in2/"),
        (2, "check five.in2 five.cert|4|read fault: five.cert/"),
        (3, "check five.in2 five.cert|4|read fault: five.cert/"),
    ] {
        let mut shelf = files(rt.alloc(), &[call])?;
        let wrong = first_wrong(&rt, rt.alloc(), wanted, &mut shelf)?;
        assert_eq!(rt; wrong.as_str(), "");
    }
    Ok(())
}

/// What `check` puts of the certificate that a run wrote for the instance of its words.
fn checked<R: Threads + Wait + Sync>(
    rt: &R,
    alloc: Global,
    words: &str,
    shelf: &mut MemShelf,
) -> Result<String, AllocError> {
    let mut out = MemSink::new(alloc, Vec::new(alloc));
    let mut line = String::from_str(alloc, "check ")?;
    line.push_str(words.split(' ').nth(1).unwrap_or(""))?;
    line.push_str(" t.cert")?;
    Ok(run_words(rt, alloc, &line, shelf, &mut out)?.shown)
}

/// How the optimum of five tasks ends where a call of the shelf or of the output fails.
fn five_failing<R: Threads + Wait + Sync>(
    rt: &R,
    alloc: Global,
    shelf_fails: &[u64],
    sink_fails: &[u64],
) -> Result<(Left, bool), AllocError> {
    let mut shelf = files(alloc, shelf_fails)?;
    let mut out = MemSink::new(alloc, Vec::from_slice(alloc, sink_fails)?);
    let left = run_words(rt, alloc, FIVE, &mut shelf, &mut out)?;
    let whole = shelf.file("t.cert") == Some(FIVE_PROVED.as_bytes());
    Ok((left, whole))
}

#[test]
fn the_optimum_over_calls_that_fail(rt: HostRuntime) -> Result<(), Fail> {
    for fail in 0..4 {
        let (left, _whole) = five_failing(&rt, rt.alloc(), &[fail], &[])?;
        let read = fail < 2;
        let status = if read {
            Status::ReadFault
        } else {
            Status::WriteFault
        };
        let shown = if read { "read fault: five.in2/" } else { "" };
        assert_eq!(rt; left.status, status);
        assert_eq!(rt; left.shown.as_str(), shown);
        assert_eq!(rt; left.kept.as_str(), "");
    }
    Ok(())
}

#[test]
fn an_output_that_fails(rt: HostRuntime) -> Result<(), Fail> {
    let (left, whole) = five_failing(&rt, rt.alloc(), &[], &[0])?;
    assert_eq!(rt; left.status, Status::WriteFault);
    assert_eq!(rt; left.kept.as_str(), "");
    assert!(rt; whole);
    Ok(())
}

#[test]
fn what_is_written_is_kept(rt: HostRuntime) -> Result<(), Fail> {
    let (left, whole) = five_failing(&rt, rt.alloc(), &[], &[])?;
    assert_eq!(rt; left.status, Status::Done);
    assert_eq!(rt;
        left.kept.as_str(),
        slashed(rt.alloc(), FIVE_PROVED.as_bytes())?.as_str()
    );
    assert_eq!(rt;
        left.shown.as_str(),
        slashed(rt.alloc(), FIVE_SHOWN.as_bytes())?.as_str()
    );
    assert!(rt; whole);
    Ok(())
}

/// Whether the optimum of five tasks ends with a failed write where its certificate is torn behind so many bytes, and
/// the check of what is left says that its text ended.
fn torn_at<R: Threads + Wait + Sync>(rt: &R, alloc: Global, keep: u64) -> Result<bool, AllocError> {
    let mut shelf = files(alloc, &[])?;
    shelf.tear(3, keep)?;
    let mut out = MemSink::new(alloc, Vec::new(alloc));
    let left = run_words(rt, alloc, FIVE, &mut shelf, &mut out)?;
    let check = checked(rt, alloc, FIVE, &mut shelf)?;
    Ok(
        left.status == Status::WriteFault
            && check.starts_with("certificate: line ")
            && check.ends_with(" ended/"),
    )
}

#[test]
fn a_torn_certificate(rt: HostRuntime) -> Result<(), Fail> {
    for keep in 0..FIVE_PROVED.len() {
        let right = torn_at(&rt, rt.alloc(), keep as u64)?;
        assert!(rt; right);
    }
    Ok(())
}

/// A run over a mix: a call on the files that fails, the exit code, and what is printed.
const FAILING: &str = "0 4|read fault: m.csv/
1 4|read fault: m.csv/
2 4|read fault: mix-of-one.cert/
3 4|read fault: mix-of-one.cert/
4 4|read fault: three.txt/
5 4|read fault: three.txt/
6 0|station 1 utility 1/total utility 1/";

/// What is wrong with a row of calls that fail.
fn wrong_failing<R: Threads + Wait + Sync>(
    rt: &R,
    alloc: Global,
    row: &str,
) -> Result<String, AllocError> {
    let (call, told) = row.split_once(' ').unwrap_or(("", ""));
    let fails = [call.parse::<u64>().unwrap_or(0)];
    let mut shelf = files(alloc, &fails)?;
    let step = format!(in alloc;
        "utility m.csv mix-of-one.cert three.txt interval=7 length=8|{told}"
    )?;
    first_wrong(rt, alloc, step.as_str(), &mut shelf)
}

#[test]
fn files_of_a_mix_that_cannot_be_read(rt: HostRuntime) -> Result<(), Fail> {
    for row in FAILING.lines() {
        let wrong = wrong_failing(&rt, rt.alloc(), row)?;
        assert_eq!(rt; wrong.as_str(), "");
    }
    Ok(())
}

/// How a run that combines a mix ends where this call on the files fails, and how long the file is that it writes.
fn combined_failing<R: Threads + Wait + Sync>(
    rt: &R,
    alloc: Global,
    call: u64,
) -> Result<(Status, Option<usize>), AllocError> {
    let mut shelf = files(alloc, &[call])?;
    let mut out = MemSink::new(alloc, Vec::new(alloc));
    let left = run_words(rt, alloc, "combine m.csv k.in2", &mut shelf, &mut out)?;
    Ok((left.status, shelf.file("k.in2").map(|bytes| bytes.len())))
}

#[test]
fn a_combined_line_that_cannot_be_written(rt: HostRuntime) -> Result<(), Fail> {
    let read = combined_failing(&rt, rt.alloc(), 1)?;
    let made = combined_failing(&rt, rt.alloc(), 2)?;
    let written = combined_failing(&rt, rt.alloc(), 3)?;
    assert!(rt; read.0 == Status::ReadFault && read.1.is_none());
    assert!(rt; made.0 == Status::WriteFault && made.1.is_none());
    assert!(rt; written.0 == Status::WriteFault && written.1 == Some(0));
    Ok(())
}
