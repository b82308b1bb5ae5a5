//! What each job does over the files, group by group.
//!
//! Each command is a crate of its own, whose contract says what it comes to; here the values of the job are handed to
//! it. Nothing is searched or kept here, so a job costs what its command costs.
ghost use Rattle.std.specs.Prelude.{◌≡◌, option_map};
ghost use Rattle.line_words.specs.Ranges.{IsInRange, IsSearchInRange, IsCheckInRange, IsLineInRange, IsMixInRange};
ghost use Rattle.line_words.specs.Ranges.{AreRunUnits, AreRunUnitsOrNone, AreSeekLoadsOrNone};
ghost use Rattle.command_solve.specs.Effort.{IsEffort};
ghost use Rattle.line_run.specs.Run.{planned, meaning_of, search_meaning, check_meaning, line_meaning, mix_meaning};
ghost use Rattle.line_run.specs.Run.{effort_of, units_of};
ghost use Rattle.line_run.specs.Ran.{Does, shelf_seen};

use crate::pages::page_report;
use command_balance::balance_report;
use command_check::check_report;
use command_convert::convert_report;
use command_cycle::cycle_report;
use command_draw::{draw_report, plan_report};
use command_effic::{effic_check_report, effic_report};
use command_mix::{combine_report, timeline_draw_report, timeline_report, utility_report};
use command_outcome::{EarlyEnd, Report};
use command_sequence::{sequence_check_report, sequence_report};
use command_solve::{Effort, Gate, Plan, solve_report};
use command_try::try_report;
use input_files::kind_of;
use line_io::Shelf;
use line_words::{
    BoundWord, CheckJob, CycleJob, EfficJob, Job, LineJob, MixJob, Name, SearchJob, SequenceJob,
    SolveJob,
};
use std::alloc::Global;
use std::sync::Wait;
use std::thread::Threads;

/// The name of an optional file.
fn name_of(name: &Option<Name>) -> Option<&str>
    ensures { option_map (λ a. a.now) result ≡ name.now }
{
    match name {
        Some(name) => Some(name.text()),
        None => None,
    }
}

/// The plan of a search, with the loads of a seek at each cycle that it tries.
fn plan_of(helpers: u32, units: u64, bound: BoundWord, seek: u64) -> Plan
    ensures { result ≡ planned helpers units bound seek }
{
    Plan {
        helpers,
        units,
        pairs: bound.asks_pairs(),
        seek,
    }
}

/// What `solve` spends before its search, by the units and the loads of a seek that the words name. Where they name
/// neither, it goes in turns: a first search of 50,000 units closes most lines, and a seek of 1,000,000 loads most
/// others.
fn effort_of(units: Option<u64>, seek: Option<u64>) -> Effort
    ensures value { result ≡ effort_of units seek }
    ensures range { AreSeekLoadsOrNone seek → IsEffort result }
{
    match seek {
        Some(seek) => Effort { first: 0, seek },
        None => match units {
            Some(_) => Effort { first: 0, seek: 0 },
            None => Effort {
                first: 50_000,
                seek: 1_000_000,
            },
        },
    }
}

/// The units of the search of `solve`.
fn units_of(units: Option<u64>) -> u64
    ensures value { result ≡ units_of units }
    ensures range { AreRunUnitsOrNone units → AreRunUnits result }
{
    match units {
        Some(units) => units,
        None => 1_000_000,
    }
}

/// Searches for a balance of the fewest stations.
fn solve<R: Threads + Wait + Sync, S: Shelf, G: Gate>(
    rt: &R,
    alloc: Global,
    job: &SolveJob,
    shelf: &mut S,
    gate: &G,
) -> Result<Report, EarlyEnd>
    requires range { IsSearchInRange (SearchJob.Solve job.now) }
    ensures { Does (shelf_seen S.tells (S.file shelf.old) (S.file shelf.new) (S.blames shelf.new)
        (S.fetch_faults shelf.old) (S.fetch_faults shelf.new) (S.write_faults shelf.old) (S.write_faults shelf.new))
        (search_meaning (SearchJob.Solve job.now)) result }
{
    let kind = kind_of(job.line);
    let plan = plan_of(job.helpers, units_of(job.units), job.bound, 0);
    let effort = effort_of(job.units, job.seek);
    let cert = name_of(&job.cert);
    solve_report(
        rt,
        alloc,
        job.file.text(),
        name_of(&job.apart),
        name_of(&job.warm),
        effort,
        job.cycle,
        kind,
        &plan,
        cert,
        shelf,
        gate,
    )
}

/// Searches for the least cycle time of a number of stations.
fn cycle<R: Threads + Wait + Sync, S: Shelf, G: Gate>(
    rt: &R,
    alloc: Global,
    job: &CycleJob,
    shelf: &mut S,
    gate: &G,
) -> Result<Report, EarlyEnd>
    requires range { IsSearchInRange (SearchJob.Cycle job.now) }
    ensures { Does (shelf_seen S.tells (S.file shelf.old) (S.file shelf.new) (S.blames shelf.new)
        (S.fetch_faults shelf.old) (S.fetch_faults shelf.new) (S.write_faults shelf.old) (S.write_faults shelf.new))
        (search_meaning (SearchJob.Cycle job.now)) result }
{
    let kind = kind_of(job.line);
    let plan = plan_of(job.helpers, job.units, job.bound, job.seek);
    cycle_report(
        rt,
        alloc,
        job.file.text(),
        kind,
        job.stations,
        &plan,
        name_of(&job.cert),
        shelf,
        gate,
    )
}

/// Searches for the least product of stations and cycle time.
fn effic<R: Threads + Wait + Sync, S: Shelf, G: Gate>(
    rt: &R,
    alloc: Global,
    job: &EfficJob,
    shelf: &mut S,
    gate: &G,
) -> Result<Report, EarlyEnd>
    requires range { IsSearchInRange (SearchJob.Effic job.now) }
    ensures { Does (shelf_seen S.tells (S.file shelf.old) (S.file shelf.new) (S.blames shelf.new)
        (S.fetch_faults shelf.old) (S.fetch_faults shelf.new) (S.write_faults shelf.old) (S.write_faults shelf.new))
        (search_meaning (SearchJob.Effic job.now)) result }
{
    let kind = kind_of(job.line);
    let plan = plan_of(job.helpers, job.units, job.bound, job.seek);
    effic_report(
        rt,
        alloc,
        job.file.text(),
        kind,
        job.least,
        job.most,
        &plan,
        name_of(&job.cert),
        shelf,
        gate,
    )
}

/// Searches for the sequence of a mix with the least utility work.
fn sequence<S: Shelf>(alloc: Global, job: &SequenceJob, shelf: &mut S) -> Result<Report, EarlyEnd>
    requires range { IsSearchInRange (SearchJob.Sequence job.now) }
    ensures { Does (shelf_seen S.tells (S.file shelf.old) (S.file shelf.new) (S.blames shelf.new)
        (S.fetch_faults shelf.old) (S.fetch_faults shelf.new) (S.write_faults shelf.old) (S.write_faults shelf.new))
        (search_meaning (SearchJob.Sequence job.now)) result }
{
    sequence_report(
        alloc,
        job.mix.text(),
        job.cert.text(),
        job.interval,
        job.length,
        job.units,
        job.seek,
        name_of(&job.out),
        shelf,
    )
}

/// Does a search.
fn do_search<R: Threads + Wait + Sync, S: Shelf, G: Gate>(
    rt: &R,
    alloc: Global,
    job: &SearchJob,
    shelf: &mut S,
    gate: &G,
) -> Result<Report, EarlyEnd>
    requires range { IsSearchInRange job.now }
    ensures { Does (shelf_seen S.tells (S.file shelf.old) (S.file shelf.new) (S.blames shelf.new)
        (S.fetch_faults shelf.old) (S.fetch_faults shelf.new) (S.write_faults shelf.old) (S.write_faults shelf.new))
        (search_meaning job.now) result }
{
    match job {
        SearchJob::Solve(job) => solve(rt, alloc, job, shelf, gate),
        SearchJob::Cycle(job) => cycle(rt, alloc, job, shelf, gate),
        SearchJob::Effic(job) => effic(rt, alloc, job, shelf, gate),
        SearchJob::Sequence(job) => sequence(alloc, job, shelf),
        SearchJob::Try(job) => {
            let kind = kind_of(job.line);
            try_report(rt, alloc, job.seed, job.tasks, job.cycle, kind, job.units)
        }
    }
}

/// Tests a certificate.
fn do_check<R: Threads + Sync, S: Shelf>(
    rt: &R,
    alloc: Global,
    job: &CheckJob,
    shelf: &mut S,
) -> Result<Report, EarlyEnd>
    requires range { IsCheckInRange job.now }
    ensures { Does (shelf_seen S.tells (S.file shelf.old) (S.file shelf.new) (S.blames shelf.new)
        (S.fetch_faults shelf.old) (S.fetch_faults shelf.new) (S.write_faults shelf.old) (S.write_faults shelf.new))
        (check_meaning job.now) result }
{
    match job {
        CheckJob::LineCheck(job) => check_report(
            rt,
            alloc,
            job.file.text(),
            job.cert.text(),
            name_of(&job.apart),
            job.steps,
            shelf,
        ),
        CheckJob::EfficCheck(job) => {
            effic_check_report(alloc, job.file.text(), job.cert.text(), job.steps, shelf)
        }
        CheckJob::SequenceCheck(job) => sequence_check_report(
            alloc,
            job.mix.text(),
            job.cert.text(),
            job.seq.text(),
            job.interval,
            job.length,
            job.steps,
            shelf,
        ),
    }
}

/// Tells or writes something of a line.
fn do_line<S: Shelf>(alloc: Global, job: &LineJob, shelf: &mut S) -> Result<Report, EarlyEnd>
    requires range { IsLineInRange job.now }
    ensures { Does (shelf_seen S.tells (S.file shelf.old) (S.file shelf.new) (S.blames shelf.new)
        (S.fetch_faults shelf.old) (S.fetch_faults shelf.new) (S.write_faults shelf.old) (S.write_faults shelf.new))
        (line_meaning job.now) result }
{
    match job {
        LineJob::Balance(job) => {
            let kind = kind_of(job.line);
            let apart = name_of(&job.apart);
            balance_report(alloc, job.file.text(), apart, job.cycle, kind, shelf)
        }
        LineJob::Convert(job) => convert_report(
            alloc,
            job.file.text(),
            job.out.text(),
            job.to,
            name_of(&job.apart),
            job.cycle,
            shelf,
        ),
        LineJob::Draw(job) => draw_report(
            alloc,
            job.file.text(),
            job.cert.text(),
            job.out.text(),
            name_of(&job.apart),
            shelf,
        ),
        LineJob::Plan(job) => plan_report(
            alloc,
            job.file.text(),
            job.cert.text(),
            name_of(&job.apart),
            shelf,
        ),
    }
}

/// Tells or writes something of a mix of models.
fn do_mix<S: Shelf>(alloc: Global, job: &MixJob, shelf: &mut S) -> Result<Report, EarlyEnd>
    requires range { IsMixInRange job.now }
    ensures { Does (shelf_seen S.tells (S.file shelf.old) (S.file shelf.new) (S.blames shelf.new)
        (S.fetch_faults shelf.old) (S.fetch_faults shelf.new) (S.write_faults shelf.old) (S.write_faults shelf.new))
        (mix_meaning job.now) result }
{
    match job {
        MixJob::Combine(job) => combine_report(alloc, job.mix.text(), job.out.text(), shelf),
        MixJob::Utility(job) => utility_report(
            alloc,
            job.mix.text(),
            job.cert.text(),
            job.seq.text(),
            job.interval,
            job.length,
            shelf,
        ),
        MixJob::Timeline(job) => timeline_report(
            alloc,
            job.mix.text(),
            job.cert.text(),
            job.seq.text(),
            job.interval,
            job.length,
            shelf,
        ),
        MixJob::TimelineDraw(job) => timeline_draw_report(
            alloc,
            job.mix.text(),
            job.cert.text(),
            job.seq.text(),
            job.out.text(),
            job.interval,
            job.length,
            shelf,
        ),
    }
}

/// Does a job.
pub(crate) fn do_job<R: Threads + Wait + Sync, S: Shelf, G: Gate>(
    rt: &R,
    alloc: Global,
    job: &Job,
    shelf: &mut S,
    gate: &G,
) -> Result<Report, EarlyEnd>
    requires range { IsInRange job.now }
    ensures { Does (shelf_seen S.tells (S.file shelf.old) (S.file shelf.new) (S.blames shelf.new)
        (S.fetch_faults shelf.old) (S.fetch_faults shelf.new) (S.write_faults shelf.old) (S.write_faults shelf.new))
        (meaning_of job.now) result }
{
    match job {
        Job::Page(page) => page_report(alloc, page),
        Job::Search(job) => do_search(rt, alloc, job, shelf, gate),
        Job::Check(job) => do_check(rt, alloc, job, shelf),
        Job::Line(job) => do_line(alloc, job, shelf),
        Job::Mix(job) => do_mix(alloc, job, shelf),
    }
}
