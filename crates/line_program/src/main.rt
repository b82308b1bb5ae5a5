//! Balances of assembly lines, and a proved check of their certificates.
//!
//! `main` makes the files and the standard output, and hands them with the words to `run`, whose contract says what is
//! printed. It does so in a thread of its own, whose stack is there from the start: the first thread's grows as it is
//! used, and where a limit on addresses leaves it no room then, the system ends the program.
#![tactic(auto)]

ghost use Rattle.std.specs.Prelude.{◌≡◌};
ghost use Rattle.command_outcome.specs.Codes.{code_of};
ghost use Rattle.command_outcome.specs.declared.status.Status.{Status};

use command_outcome::{EarlyEnd, Kept, finish};
use line_io::{DiskShelf, OutSink};
use line_run::run;
use std::alloc::AllocGlobal;
use std::io::ErrorKind;
use std::process::ExitCode;
use std::rt::Runtime;
use std::sync::Wait;
use std::thread::{Builder, Threads};
use std::{env, io};

/// Bytes of stack: many times what any run was seen to use.
const STACK: usize = 2_097_152;

/// The words after the program's name.
fn words_of<R: Runtime + AllocGlobal>(rt: &R) -> io::Result<Vec<String>> {
    let words = env::args(rt)?.skip(1).collect(rt.alloc())?;
    Ok(words)
}

/// The exit code of a run that memory ends before it begins: that of a status.
fn end_by_memory<R: Runtime>(rt: &R) -> u8
    ensures { (status : Status) × (result ≡ code_of status) }
{
    let mut out = OutSink::new(rt);
    finish(&mut out, Err(EarlyEnd::Memory), &mut Kept::Nothing).code()
}

/// The exit code of a run over the system's files and the standard output: that of a status.
fn run_words<R: Runtime + AllocGlobal + Threads + Wait + Sync>(rt: &R) -> u8
    ensures { (status : Status) × (result ≡ code_of status) }
{
    // Words that aren't text are taken for no words.
    let words = match words_of(rt) {
        Ok(words) => words,
        Err(error) if error.kind() == ErrorKind::InvalidData => Vec::new(rt.alloc()),
        Err(_) => return end_by_memory(rt),
    };
    let mut out = OutSink::new(rt);
    let mut shelf = DiskShelf::new(rt);
    run(
        rt,
        rt.alloc(),
        &words,
        &mut shelf,
        &mut out,
        &mut Kept::Nothing,
    )
    .code()
}

fn main(rt: HostRuntime) -> ExitCode {
    let started = Builder::new()
        .stack_size(STACK)
        .spawn(&rt, move || run_words(&rt));
    let code = match started {
        Ok(thread) => thread.join(&rt),
        Err(_) => end_by_memory(&rt),
    };
    ExitCode::from(code)
}
