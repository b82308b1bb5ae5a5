//! The reading of the words as a job.
//!
//! The words after the command are gone over from left to right, and each is tested with those before it. The first
//! that is wrong ends the reading. Then missing names are told, and then missing keys. Only a line without any of these
//! makes a job, and only a job takes memory.
ghost use Rattle.std.specs.Prelude.{◌≡◌, ◌<◌, Option, None, MatchOption, ℕ};
ghost use Rattle.line_words.specs.Words.{texts};
ghost use Rattle.line_words.specs.Table.{least_of, names_file, takes_words, is_word_of, is_value};
ghost use Rattle.line_words.specs.Ranges.{HasRange};
ghost use Rattle.line_words.specs.Jobs.{are_ordered, ends_agree, setting_fault, name_fault, word_fault, missing};
ghost use Rattle.line_words.specs.Jobs.{AreRight, IsFirstFault, IsBehind, IsJobRead};

use crate::command::{Command, command_named};
use crate::fault::UsageKind;
use crate::job::{Job, PageJob};
use crate::number::number_up_to;
use crate::settings::{job_for, most_of, number_set};
use crate::word::{count_names, is_one_of, sets, sets_all, setting};
use std::alloc::Global;

/// What reading the words answers.
#[derive(Drop)]
pub enum JobRead {
    /// The job that the words ask for.
    Good(Job),
    /// The first fault of the words.
    Usage {
        /// The place of the word at fault, counted from 0; the number of words where a name or a key is missing.
        index: usize,
        /// What is wrong.
        kind: UsageKind,
    },
    /// Memory is wanting.
    NoMemory,
}

/// The least number that a key takes.
fn least_of(key: &str) -> u64
    ensures { result ≡ least_of key.now }
{
    if key == "helpers" || key == "seed" || key == "seek" {
        return 0;
    }
    1
}

/// Whether a key names a file.
fn names_file(key: &str) -> bool
    ensures { result ≡ names_file key.now }
{
    key == "cert" || key == "apart" || key == "warm" || key == "out"
}

/// Whether a key is set to one of a few words.
fn takes_words(key: &str) -> bool
    ensures { result ≡ takes_words key.now }
{
    key == "line" || key == "bound" || key == "to"
}

/// Whether a word is one of those that the key is set to.
fn is_word_of(key: &str, word: &str) -> bool
    ensures { result ≡ is_word_of key.now word.now }
{
    if key == "line" {
        return word == "straight" || word == "u";
    }
    if key == "bound" {
        return word == "plain" || word == "pairs";
    }
    word == "in2" || word == "alb" || word == "csv" || word == "cert"
}

/// Whether a key of a command takes the value.
fn is_value(command: Command, key: &str, value: &str) -> bool
    ensures { result ≡ is_value command key.now value.now }
{
    if takes_words(key) {
        return is_word_of(key, value);
    }
    if names_file(key) {
        return !value.is_empty();
    }
    match number_up_to(most_of(command, key), value) {
        Some(number) => least_of(key) <= number,
        None => false,
    }
}

/// Whether the first of two numbers isn't above the second, where both are there.
fn are_ordered(least: Option<u64>, most: Option<u64>) -> bool
    ensures { result ≡ are_ordered least most }
{
    match (least, most) {
        (Some(least), Some(most)) => least <= most,
        _ => true,
    }
}

/// Whether the least number of stations isn't above the most, where one of them is set here and the other before.
fn ends_agree(command: Command, before: &[String], key: &str, value: &str) -> bool
    ensures { result ≡ ends_agree command (texts before.now) (key.now, value.now) }
{
    let number = number_up_to(most_of(command, key), value);
    if key == "least" {
        return are_ordered(number, number_set(command, before, "most"));
    }
    if key == "most" {
        return are_ordered(number_set(command, before, "least"), number);
    }
    true
}

/// What is wrong with a setting behind other words, where something is.
fn setting_fault(command: Command, before: &[String], key: &str, value: &str) -> Option<UsageKind>
    ensures { result ≡ setting_fault command (texts before.now) (key.now, value.now) }
{
    if !is_one_of(key, command.keys_taken()) {
        return Some(UsageKind::UnknownKey);
    }
    if sets(before, key) {
        return Some(UsageKind::RepeatedKey);
    }
    if is_value(command, key, value) && ends_agree(command, before, key, value) {
        return None;
    }
    Some(UsageKind::BadValue)
}

/// What is wrong with a name behind other words, where something is.
fn name_fault(command: Command, before: &[String], word: &str) -> Option<UsageKind>
    ensures { result ≡ name_fault command (texts before.now) word.now }
{
    if word.is_empty() {
        return Some(UsageKind::ExtraName);
    }
    if count_names(before) < command.names_wanted() {
        return None;
    }
    Some(UsageKind::ExtraName)
}

/// What is wrong with a word behind others, where something is.
fn word_fault(command: Command, before: &[String], word: &str) -> Option<UsageKind>
    ensures { result ≡ word_fault command (texts before.now) word.now }
{
    match setting(word) {
        Some((key, value)) => setting_fault(command, before, key, value),
        None => name_fault(command, before, word),
    }
}

/// The place of the first word with which something is wrong, and what.
fn first_fault(command: Command, words: &[String]) -> Option<(usize, UsageKind)>
    ensures { MatchOption result (AreRight command (texts words.now))
        (λ p. IsFirstFault command (texts words.now) p.0 p.1) }
{
    for i in 0..words.len() {
        match word_fault(command, &words[..i], words[i].as_str()) {
            Some(kind) => return Some((i, kind)),
            None => {}
        }
    }
    None
}

/// What is missing among the words of a command, where something is.
fn missing(command: Command, words: &[String]) -> Option<UsageKind>
    ensures { result ≡ missing command (texts words.now) }
{
    if count_names(words) < command.names_wanted() {
        return Some(UsageKind::MissingName);
    }
    if sets_all(words, command.keys_wanted()) {
        return None;
    }
    Some(UsageKind::MissingKey)
}

/// The reading of the words behind a command.
fn behind(alloc: Global, command: Command, words: &[String]) -> JobRead
    ensures read { IsBehind command (texts words.now) result }
    ensures range { HasRange result }
{
    if let Some((at, kind)) = first_fault(command, words) {
        return JobRead::Usage {
            index: at + 1,
            kind,
        };
    }
    if let Some(kind) = missing(command, words) {
        return JobRead::Usage {
            index: words.len() + 1,
            kind,
        };
    }
    match job_for(alloc, command, words) {
        Ok(job) => JobRead::Good(job),
        Err(_) => JobRead::NoMemory,
    }
}

/// The job that the words ask for, or their first fault: at word 0 there is no command or an unknown one; then the
/// words from left to right, each for what is wrong with it; then a missing name, and then a missing key, at the number
/// of words.
pub fn job_of(alloc: Global, words: &[String]) -> JobRead
    ensures read { IsJobRead (texts words.now) result }
    ensures range { HasRange result }
{
    let [first, rest @ ..] = words else {
        return JobRead::Usage {
            index: 0,
            kind: UsageKind::NoCommand,
        };
    };
    if rest.is_empty() && first.as_str() == "--help" {
        return JobRead::Good(Job::Page(PageJob::Help));
    }
    if rest.is_empty() && first.as_str() == "--version" {
        return JobRead::Good(Job::Page(PageJob::Version));
    }
    match command_named(first.as_str()) {
        Some(command) => behind(alloc, command, rest),
        None => JobRead::Usage {
            index: 0,
            kind: UsageKind::UnknownCommand,
        },
    }
}
