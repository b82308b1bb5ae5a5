//! A run of the program: the words are read, the job that they ask for is done over the files, and one report is put.
//!
//! Each command is a crate of its own, whose contract says what it comes to; here they are only joined. A run goes in
//! this order: the words; each named file, fetched and read in turn; the job; the file that it writes; one put of the
//! whole report. The first refusal ends it.
ghost use Rattle.line_words.specs.Words.{texts};
ghost use Rattle.line_run.specs.Ran.{DoesWords, IsRun, shelf_seen};

use crate::jobs::do_job;
use crate::usage::usage_report;
use command_outcome::{EarlyEnd, Kept, Report, Status, finish};
use command_solve::{AlwaysOpen, Gate};
use line_io::{Shelf, Sink};
use line_words::{JobRead, job_of};
use std::alloc::Global;
use std::sync::Wait;
use std::thread::Threads;

/// Does what the words ask for.
fn do_words<R: Threads + Wait + Sync, S: Shelf, G: Gate>(
    rt: &R,
    alloc: Global,
    words: &[String],
    shelf: &mut S,
    gate: &G,
) -> Result<Report, EarlyEnd>
    ensures { DoesWords (texts words.now) (shelf_seen S.tells (S.file shelf.old) (S.file shelf.new) (S.blames shelf.new)
        (S.fetch_faults shelf.old) (S.fetch_faults shelf.new) (S.write_faults shelf.old) (S.write_faults shelf.new)) result }
{
    match job_of(alloc, words) {
        JobRead::Good(job) => do_job(rt, alloc, &job, shelf, gate),
        JobRead::Usage { index, kind } => Ok(usage_report(alloc, index, kind)?),
        JobRead::NoMemory => Err(EarlyEnd::Memory),
    }
}

/// Runs the program: reads the words, fetches the files that they name, writes the one that the job writes, and puts
/// one report. Helpers meet the gate before each publish; it has no effect on any answer.
///
/// `--help` puts the page with all commands. `balance` puts the ranked balance of an instance, as a straight line or a
/// U-line, at a cycle time, with the bound by total time and the idle time, or the least task that is longer than the
/// cycle. `solve` puts a balance of the fewest stations, or bounds and the best balance where its units ended, and
/// writes the certificate where the words name a file; `cycle` does the same of the least cycle time in so many
/// stations. `check` puts what the check of a certificate finds: what it accepts is true of the line. `convert` writes
/// the canonical text of an instance in the other form, or of a certificate. `combine` writes the line that a mix of
/// models combines to, `utility` puts the utility work of a sequence of units, and `timeline` puts it unit by unit.
/// `try` draws a line from a seed, solves it, and tells the bounds of a certificate that was read again and verified.
/// `draw` writes the picture of a certificate's balance. `effic` puts the least product of stations and cycle time, and
/// writes its certificate, and `effic-check` puts what the check of such a certificate finds. `sequence` puts the order
/// of the units of a mix with the least utility work, and writes its certificate, and `sequence-check` puts what the
/// check of such a certificate finds. A fault of the words is answered by the line `usage`, with the number of the word
/// and what is wrong. Each refusal is one line, and nothing is put with it. All files stay but the one that a job
/// writes. `kept` then holds the certificate that the run made, where its answer was put, and else nothing; what it
/// held before is dropped.
pub fn run_gated<R: Threads + Wait + Sync, S: Shelf, K: Sink, G: Gate>(
    rt: &R,
    alloc: Global,
    words: &[String],
    shelf: &mut S,
    out: &mut K,
    gate: &G,
    kept: &mut Kept,
) -> Status
    ensures { IsRun (texts words.now) (record {
      tells = S.tells;
      files = S.file shelf.old;
      after = S.file shelf.new;
      blames = S.blames shelf.new;
      fetch_faults_before = S.fetch_faults shelf.old;
      fetch_faults = S.fetch_faults shelf.new;
      write_faults_before = S.write_faults shelf.old;
      write_faults = S.write_faults shelf.new;
    }) (record {
      tells = K.tells;
      shown_before = K.shown out.old;
      shown = K.shown out.new;
      puts_before = K.puts out.old;
      puts = K.puts out.new;
      faults_before = K.faults out.old;
      faults = K.faults out.new;
    }) result kept.new }
{
    let ended = do_words(rt, alloc, words, shelf, gate);
    finish(out, ended, kept)
}

/// The same with a gate that holds nobody.
pub fn run<R: Threads + Wait + Sync, S: Shelf, K: Sink>(
    rt: &R,
    alloc: Global,
    words: &[String],
    shelf: &mut S,
    out: &mut K,
    kept: &mut Kept,
) -> Status
    ensures { IsRun (texts words.now) (record {
      tells = S.tells;
      files = S.file shelf.old;
      after = S.file shelf.new;
      blames = S.blames shelf.new;
      fetch_faults_before = S.fetch_faults shelf.old;
      fetch_faults = S.fetch_faults shelf.new;
      write_faults_before = S.write_faults shelf.old;
      write_faults = S.write_faults shelf.new;
    }) (record {
      tells = K.tells;
      shown_before = K.shown out.old;
      shown = K.shown out.new;
      puts_before = K.puts out.old;
      puts = K.puts out.new;
      faults_before = K.faults out.old;
      faults = K.faults out.new;
    }) result kept.new }
{
    run_gated(rt, alloc, words, shelf, out, &AlwaysOpen, kept)
}
