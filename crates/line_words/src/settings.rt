//! What the words of a command set: the job with the values of all its keys.
//!
//! The words are right here, and nothing is missing. A value costs a look through the words, of which there are few.
ghost use Rattle.std.specs.Prelude.{◌≡◌, ◌≤◌, ◌<◌, ◌^◌, IfOk, IfSome, option_map, ℕ, codes};
ghost use Rattle.line_words.specs.Words.{texts, names_of, value_of};
ghost use Rattle.line_words.specs.Table.{most_of, most_count_of};
ghost use Rattle.line_words.specs.Jobs.{number_set, number_or, line_set, bound_set, form_set, name_at, job_for};
ghost use Rattle.line_words.specs.Jobs.{solve_job, cycle_job, effic_job, sequence_job, try_job, line_check_job};
ghost use Rattle.line_words.specs.Jobs.{effic_check_job, sequence_check_job, balance_job, convert_job, draw_job};
ghost use Rattle.line_words.specs.Jobs.{plan_job, combine_job, utility_job, timeline_draw_job};

use crate::command::Command;
use crate::job::{
    BalanceJob, BoundWord, CheckJob, CombineJob, ConvertJob, CycleJob, DrawJob, EfficCheckJob,
    EfficJob, FormWord, Job, LineCheckJob, LineJob, LineWord, MixJob, PlanJob, SearchJob,
    SequenceCheckJob, SequenceJob, SolveJob, TimelineDrawJob, TryJob, UtilityJob,
};
use crate::name::Name;
use crate::number::number_up_to;
use crate::word::{is_name, value_of};
use std::alloc::{AllocError, Global};

/// The name at a place among the names.
fn name_at(alloc: Global, words: &[String], place: usize) -> Result<Name, AllocError>
    ensures { IfOk result (λ n. n ≡ name_at (texts words.now) place) }
{
    let mut left = place;
    for i in 0..words.len() {
        let word = words[i].as_str();
        if is_name(word) {
            if left == 0 {
                return Name::new(alloc, word);
            }
            left -= 1;
        }
    }
    Name::new(alloc, "")
}

/// The name that the words set a key to, where they set it.
fn name_set(alloc: Global, words: &[String], key: &str) -> Result<Option<Name>, AllocError>
    ensures { IfOk result (λ o. o ≡ value_of (texts words.now) key.now) }
{
    match value_of(words, key) {
        None => Ok(None),
        Some(value) => Ok(Some(Name::new(alloc, value)?)),
    }
}

/// The greatest number that a key takes of those that count something else than loads and time. There are at most as
/// many stations as tasks, 1,024. A seed is any number of 64 bits.
fn most_count_of(key: &str) -> u64
    ensures { result ≡ most_count_of key.now }
{
    if key == "helpers" {
        return 64;
    }
    if key == "stations" || key == "least" || key == "most" {
        return 1024;
    }
    if key == "tasks" {
        return 1024;
    }
    u64::MAX
}

/// The greatest number that a key takes. A cycle time of 10^18 is more than all tasks of a line take together. With
/// 20,000,000 steps a check gets through every certificate that a search here writes. An interval and a length are at
/// most 10^9, as a time of a model is. A seek may list as many loads as a search has units.
pub(crate) fn most_of(command: Command, key: &str) -> u64
    ensures { result ≡ most_of command key.now }
{
    if key == "cycle" {
        return 1_000_000_000_000_000_000;
    }
    if key == "units" {
        return command.units_most();
    }
    if key == "steps" {
        return 20_000_000;
    }
    if key == "interval" {
        return 1_000_000_000;
    }
    if key == "length" {
        return 1_000_000_000;
    }
    if key == "seek" {
        return 3_000_000;
    }
    most_count_of(key)
}

/// The number that the words set a key to, where they set it.
pub(crate) fn number_set(command: Command, words: &[String], key: &str) -> Option<u64>
    ensures value { result ≡ number_set command (texts words.now) key.now }
    ensures most { IfSome result (λ n. n ≤ most_of command key.now) }
{
    match value_of(words, key) {
        None => None,
        Some(value) => number_up_to(most_of(command, key), value),
    }
}

/// The number that the words set a key to, else the default.
fn number_or(command: Command, words: &[String], key: &str, default: u64) -> u64
    ensures value { result ≡ number_or command (texts words.now) key.now default }
    ensures most { default ≤ most_of command key.now → result ≤ most_of command key.now }
{
    match number_set(command, words, key) {
        None => default,
        Some(number) => number,
    }
}

/// The number of helpers.
fn helpers_set(command: Command, words: &[String]) -> u32
    ensures { result ≡ number_or command (texts words.now) (codes "helpers") 4 }
{
    number_or(command, words, "helpers", 4) as u32
}

/// The number of stations.
fn stations_set(command: Command, words: &[String]) -> u32
    ensures { result ≡ number_or command (texts words.now) (codes "stations") 1 }
{
    number_or(command, words, "stations", 1) as u32
}

/// The least number of stations.
fn least_set(command: Command, words: &[String]) -> u32
    ensures { result ≡ number_or command (texts words.now) (codes "least") 1 }
{
    number_or(command, words, "least", 1) as u32
}

/// The most stations.
fn most_set(command: Command, words: &[String]) -> u32
    ensures { result ≡ number_or command (texts words.now) (codes "most") 1024 }
{
    number_or(command, words, "most", 1024) as u32
}

/// The number of tasks.
fn tasks_set(command: Command, words: &[String]) -> u32
    ensures { result ≡ number_or command (texts words.now) (codes "tasks") 1 }
{
    number_or(command, words, "tasks", 1) as u32
}

/// The kind of line that the words set.
fn line_set(words: &[String]) -> LineWord
    ensures { result ≡ line_set (texts words.now) }
{
    match value_of(words, "line") {
        None => LineWord::Straight,
        Some(value) => {
            if value == "u" {
                return LineWord::U;
            }
            LineWord::Straight
        }
    }
}

/// What the words have a search ask.
fn bound_set(words: &[String]) -> BoundWord
    ensures { result ≡ bound_set (texts words.now) }
{
    match value_of(words, "bound") {
        None => BoundWord::Pairs,
        Some(value) => {
            if value == "plain" {
                return BoundWord::Plain;
            }
            BoundWord::Pairs
        }
    }
}

/// The form that the words set.
fn form_set(words: &[String]) -> FormWord
    ensures { result ≡ form_set (texts words.now) }
{
    match value_of(words, "to") {
        None => FormWord::In2,
        Some(value) => {
            if value == "alb" {
                return FormWord::Alb;
            }
            if value == "csv" {
                return FormWord::Csv;
            }
            if value == "cert" {
                return FormWord::Cert;
            }
            FormWord::In2
        }
    }
}

/// The search for a balance of the fewest stations that the words set.
fn solve_job(alloc: Global, words: &[String]) -> Result<SolveJob, AllocError>
    ensures { IfOk result (λ j. j ≡ solve_job (texts words.now)) }
{
    let command = Command::Solve;
    Ok(SolveJob {
        file: name_at(alloc, words, 0)?,
        cycle: number_set(command, words, "cycle"),
        line: line_set(words),
        helpers: helpers_set(command, words),
        units: number_set(command, words, "units"),
        cert: name_set(alloc, words, "cert")?,
        apart: name_set(alloc, words, "apart")?,
        warm: name_set(alloc, words, "warm")?,
        seek: number_set(command, words, "seek"),
        bound: bound_set(words),
    })
}

/// The search for the least cycle time that the words set.
fn cycle_job(alloc: Global, words: &[String]) -> Result<CycleJob, AllocError>
    ensures { IfOk result (λ j. j ≡ cycle_job (texts words.now)) }
{
    let command = Command::Cycle;
    Ok(CycleJob {
        file: name_at(alloc, words, 0)?,
        stations: stations_set(command, words),
        line: line_set(words),
        helpers: helpers_set(command, words),
        units: number_or(command, words, "units", 1_000_000),
        cert: name_set(alloc, words, "cert")?,
        seek: number_or(command, words, "seek", 0),
        bound: bound_set(words),
    })
}

/// The search for the least product that the words set.
fn effic_job(alloc: Global, words: &[String]) -> Result<EfficJob, AllocError>
    ensures { IfOk result (λ j. j ≡ effic_job (texts words.now)) }
{
    let command = Command::Effic;
    Ok(EfficJob {
        file: name_at(alloc, words, 0)?,
        least: least_set(command, words),
        most: most_set(command, words),
        line: line_set(words),
        helpers: helpers_set(command, words),
        units: number_or(command, words, "units", 1_000_000),
        cert: name_set(alloc, words, "cert")?,
        seek: number_or(command, words, "seek", 0),
        bound: bound_set(words),
    })
}

/// The search for a sequence that the words set.
fn sequence_job(alloc: Global, words: &[String]) -> Result<SequenceJob, AllocError>
    ensures { IfOk result (λ j. j ≡ sequence_job (texts words.now)) }
{
    let command = Command::Sequence;
    Ok(SequenceJob {
        mix: name_at(alloc, words, 0)?,
        cert: name_at(alloc, words, 1)?,
        interval: number_or(command, words, "interval", 1),
        length: number_or(command, words, "length", 1),
        units: number_or(command, words, "units", 1_000_000),
        out: name_set(alloc, words, "out")?,
        seek: number_or(command, words, "seek", 0),
    })
}

/// The generated line that the words set.
fn try_job(words: &[String]) -> TryJob
    ensures { result ≡ try_job (texts words.now) }
{
    TryJob {
        seed: number_or(Command::Try, words, "seed", 0),
        tasks: tasks_set(Command::Try, words),
        cycle: number_or(Command::Try, words, "cycle", 200),
        line: line_set(words),
        units: number_or(Command::Try, words, "units", 1_000_000),
    }
}

/// The test of a certificate that the words set.
fn line_check_job(alloc: Global, words: &[String]) -> Result<LineCheckJob, AllocError>
    ensures { IfOk result (λ j. j ≡ line_check_job (texts words.now)) }
{
    Ok(LineCheckJob {
        file: name_at(alloc, words, 0)?,
        cert: name_at(alloc, words, 1)?,
        steps: number_or(Command::Check, words, "steps", 20_000_000),
        apart: name_set(alloc, words, "apart")?,
    })
}

/// The test of a certificate of a least product that the words set.
fn effic_check_job(alloc: Global, words: &[String]) -> Result<EfficCheckJob, AllocError>
    ensures { IfOk result (λ j. j ≡ effic_check_job (texts words.now)) }
{
    Ok(EfficCheckJob {
        file: name_at(alloc, words, 0)?,
        cert: name_at(alloc, words, 1)?,
        steps: number_or(Command::EfficCheck, words, "steps", 20_000_000),
    })
}

/// The test of a certificate of a sequence that the words set.
fn sequence_check_job(alloc: Global, words: &[String]) -> Result<SequenceCheckJob, AllocError>
    ensures { IfOk result (λ j. j ≡ sequence_check_job (texts words.now)) }
{
    let command = Command::SequenceCheck;
    Ok(SequenceCheckJob {
        mix: name_at(alloc, words, 0)?,
        cert: name_at(alloc, words, 1)?,
        seq: name_at(alloc, words, 2)?,
        interval: number_or(command, words, "interval", 1),
        length: number_or(command, words, "length", 1),
        steps: number_or(command, words, "steps", 20_000_000),
    })
}

/// The ranked balance that the words set.
fn balance_job(alloc: Global, words: &[String]) -> Result<BalanceJob, AllocError>
    ensures { IfOk result (λ j. j ≡ balance_job (texts words.now)) }
{
    Ok(BalanceJob {
        file: name_at(alloc, words, 0)?,
        cycle: number_set(Command::Balance, words, "cycle"),
        line: line_set(words),
        apart: name_set(alloc, words, "apart")?,
    })
}

/// The file in another form that the words set.
fn convert_job(alloc: Global, words: &[String]) -> Result<ConvertJob, AllocError>
    ensures { IfOk result (λ j. j ≡ convert_job (texts words.now)) }
{
    Ok(ConvertJob {
        file: name_at(alloc, words, 0)?,
        out: name_at(alloc, words, 1)?,
        to: form_set(words),
        cycle: number_set(Command::Convert, words, "cycle"),
        apart: name_set(alloc, words, "apart")?,
    })
}

/// The picture of a balance that the words set.
fn draw_job(alloc: Global, words: &[String]) -> Result<DrawJob, AllocError>
    ensures { IfOk result (λ j. j ≡ draw_job (texts words.now)) }
{
    Ok(DrawJob {
        file: name_at(alloc, words, 0)?,
        cert: name_at(alloc, words, 1)?,
        out: name_at(alloc, words, 2)?,
        apart: name_set(alloc, words, "apart")?,
    })
}

/// The plan of a balance that the words set.
fn plan_job(alloc: Global, words: &[String]) -> Result<PlanJob, AllocError>
    ensures { IfOk result (λ j. j ≡ plan_job (texts words.now)) }
{
    Ok(PlanJob {
        file: name_at(alloc, words, 0)?,
        cert: name_at(alloc, words, 1)?,
        apart: name_set(alloc, words, "apart")?,
    })
}

/// The combined instance that the words set.
fn combine_job(alloc: Global, words: &[String]) -> Result<CombineJob, AllocError>
    ensures { IfOk result (λ j. j ≡ combine_job (texts words.now)) }
{
    Ok(CombineJob {
        mix: name_at(alloc, words, 0)?,
        out: name_at(alloc, words, 1)?,
    })
}

/// The utility work that the words of this command set.
fn utility_job(alloc: Global, command: Command, words: &[String]) -> Result<UtilityJob, AllocError>
    ensures { IfOk result (λ j. j ≡ utility_job command (texts words.now)) }
{
    Ok(UtilityJob {
        mix: name_at(alloc, words, 0)?,
        cert: name_at(alloc, words, 1)?,
        seq: name_at(alloc, words, 2)?,
        interval: number_or(command, words, "interval", 1),
        length: number_or(command, words, "length", 1),
    })
}

/// The picture of utility work that the words set.
fn timeline_draw_job(alloc: Global, words: &[String]) -> Result<TimelineDrawJob, AllocError>
    ensures { IfOk result (λ j. j ≡ timeline_draw_job (texts words.now)) }
{
    let command = Command::TimelineDraw;
    Ok(TimelineDrawJob {
        mix: name_at(alloc, words, 0)?,
        cert: name_at(alloc, words, 1)?,
        seq: name_at(alloc, words, 2)?,
        out: name_at(alloc, words, 3)?,
        interval: number_or(command, words, "interval", 1),
        length: number_or(command, words, "length", 1),
    })
}

/// The job of a command with these words, in which nothing is wrong or missing.
pub(crate) fn job_for(alloc: Global, command: Command, words: &[String]) -> Result<Job, AllocError>
    ensures { IfOk result (λ j. j ≡ job_for command (texts words.now)) }
{
    match command {
        Command::Balance => Ok(Job::Line(LineJob::Balance(balance_job(alloc, words)?))),
        Command::Solve => Ok(Job::Search(SearchJob::Solve(solve_job(alloc, words)?))),
        Command::Cycle => Ok(Job::Search(SearchJob::Cycle(cycle_job(alloc, words)?))),
        Command::Check => Ok(Job::Check(CheckJob::LineCheck(line_check_job(alloc, words)?))),
        Command::Convert => Ok(Job::Line(LineJob::Convert(convert_job(alloc, words)?))),
        Command::Combine => Ok(Job::Mix(MixJob::Combine(combine_job(alloc, words)?))),
        Command::Utility => Ok(Job::Mix(MixJob::Utility(utility_job(alloc, command, words)?))),
        Command::Timeline => Ok(Job::Mix(MixJob::Timeline(utility_job(alloc, command, words)?))),
        Command::TimelineDraw => Ok(Job::Mix(MixJob::TimelineDraw(timeline_draw_job(
            alloc, words,
        )?))),
        Command::Try => Ok(Job::Search(SearchJob::Try(try_job(words)))),
        Command::Draw => Ok(Job::Line(LineJob::Draw(draw_job(alloc, words)?))),
        Command::Plan => Ok(Job::Line(LineJob::Plan(plan_job(alloc, words)?))),
        Command::Effic => Ok(Job::Search(SearchJob::Effic(effic_job(alloc, words)?))),
        Command::EfficCheck => Ok(Job::Check(CheckJob::EfficCheck(effic_check_job(alloc, words)?))),
        Command::Sequence => Ok(Job::Search(SearchJob::Sequence(sequence_job(alloc, words)?))),
        Command::SequenceCheck => Ok(Job::Check(CheckJob::SequenceCheck(sequence_check_job(
            alloc, words,
        )?))),
    }
}
