//! Runs over files in memory, and what they leave: what the tests of runs share.
//!
//! In the tables a line is a row, its fields stand between `|`, and `/` stands for the end of a line in a text.
use cert_ranges::is_in_range;
use cert_text::write_cert;
use command_outcome::{Kept, Status};
use line_io::{MemShelf, MemSink};
use line_run::run;
use std::alloc::{AllocError, Global};
use std::sync::Wait;
use std::thread::Threads;

/// An instance, a chain, a mix and a sequence of it, and two certificates: a name and a text each.
const FILES: &str = "five.in2 5/4/4/2/2/2/-1,-1/
chain.in2 3/1/2/1/1,2/2,3/-1,-1/
m.csv tasks,1,,/model,A,1,/model,B,1,/model,C,1,/time,A,1,6/time,B,1,9/time,C,1,4/
three.txt A/B/C/
five.cert line balance certificate 2/line straight/tasks 5/cycle 7/lower 3/upper 3/balance 3/1/2/1/2/3/entries 1/\
    branch f 7 f8 2 -/trail 0/end/
mix-of-one.cert line balance certificate 2/line straight/tasks 1/cycle 21/lower 1/upper 1/balance 1/1/entries 0/\
    trail 0/end/";

/// The bytes of a text of a table.
fn unslashed(alloc: Global, text: &str) -> Result<Vec<u8>, AllocError> {
    let mut bytes = Vec::from_slice(alloc, text.as_bytes())?;
    for byte in bytes.iter_mut() {
        if *byte == b'/' {
            *byte = b'\n';
        }
    }
    Ok(bytes)
}

/// Bytes as a text of a table.
pub fn slashed(alloc: Global, bytes: &[u8]) -> Result<String, AllocError> {
    let mut text = String::new(alloc);
    for byte in bytes {
        text.push(if *byte == b'\n' {
            '/'
        } else {
            char::from(*byte)
        })?;
    }
    Ok(text)
}

/// A shelf with the files of the table, whose calls of these numbers fail.
pub fn files(alloc: Global, fails: &[u64]) -> Result<MemShelf, AllocError> {
    let mut shelf = MemShelf::new(alloc, Vec::from_slice(alloc, fails)?);
    for row in FILES.lines() {
        let (name, text) = row.split_once(' ').unwrap_or((row, ""));
        shelf.put_file(name, &unslashed(alloc, text)?)?;
    }
    Ok(shelf)
}

/// The text of a certificate that is kept, and nothing where none is.
fn kept_text(alloc: Global, kept: &Kept) -> Result<Vec<u8>, AllocError> {
    match kept {
        Kept::Line(certificate) if is_in_range(certificate) => write_cert(alloc, certificate),
        Kept::Checked { certificate, .. } if is_in_range(certificate) => {
            write_cert(alloc, certificate)
        }
        _ => Ok(Vec::new(alloc)),
    }
}

/// What a run leaves: how it ended, what it put, and the text of the certificate that it keeps.
#[derive(Drop)]
pub struct Left {
    pub status: Status,
    pub shown: String,
    pub kept: String,
}

/// The words of a line, with one blank between two; no words of an empty line.
fn words_of(alloc: Global, line: &str) -> Result<Vec<String>, AllocError> {
    let mut words = Vec::new(alloc);
    if line.is_empty() {
        return Ok(words);
    }
    for word in line.split(' ') {
        words.push(String::from_str(alloc, word)?)?;
    }
    Ok(words)
}

/// A run with the words of a line over a shelf.
pub fn run_words<R: Threads + Wait + Sync>(
    rt: &R,
    alloc: Global,
    line: &str,
    shelf: &mut MemShelf,
    out: &mut MemSink,
) -> Result<Left, AllocError> {
    let words = words_of(alloc, line)?;
    let mut kept = Kept::Nothing;
    let status = run(rt, alloc, &words, shelf, out, &mut kept);
    let shown = slashed(alloc, out.bytes())?;
    let text = kept_text(alloc, &kept)?;
    Ok(Left {
        status,
        shown,
        kept: slashed(alloc, &text)?,
    })
}

/// What is wrong with a step, and nothing where it comes to what it should.
fn wrong_with<R: Threads + Wait + Sync>(
    rt: &R,
    alloc: Global,
    step: &str,
    shelf: &mut MemShelf,
) -> Result<String, AllocError> {
    let mut fields = step.split('|');
    let words = fields.next().unwrap_or("");
    let code = fields.next().unwrap_or("");
    let shown = fields.next().unwrap_or("");
    let is_front = fields.next().is_some();
    let mut out = MemSink::new(alloc, Vec::new(alloc));
    let left = run_words(rt, alloc, words, shelf, &mut out)?;
    let ended = left.status.code();
    let told = format!(in alloc; "{ended}")?;
    let whole = left.shown.as_str() == shown || is_front && left.shown.starts_with(shown);
    if told.as_str() == code && whole {
        return Ok(String::new(alloc));
    }
    let found = left.shown;
    format!(in alloc; "{words}: {ended} {found}")
}

/// The first of some steps over the same files that doesn't come to what it should, with what it comes to; nothing
/// where each does. A step has its words, the exit code, and what is put, or, where a fourth field follows, what that
/// begins with.
pub fn first_wrong<R: Threads + Wait + Sync>(
    rt: &R,
    alloc: Global,
    steps: &str,
    shelf: &mut MemShelf,
) -> Result<String, AllocError> {
    for step in steps.lines() {
        let wrong = wrong_with(rt, alloc, step, shelf)?;
        if !wrong.is_empty() {
            return Ok(wrong);
        }
    }
    Ok(String::new(alloc))
}
