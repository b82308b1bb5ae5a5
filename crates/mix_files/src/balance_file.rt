//! Straight balances of certificates, tested on a line.
//!
//! Of the certificate only the number of tasks, the kind of line and the balance count; its entries aren't looked at.
ghost use Rattle.std.specs.Prelude.{◌≡◌, ◌≤◌, ◌++◌, ◌+◌, ℕ, List, length, string_bytes, codes, decimal, IfOk, OnOk};
ghost use Rattle.std.specs.Prelude.{MatchResult};
ghost use Rattle.line_io.specs.Outside.{Rises};
ghost use Rattle.line_instance.specs.Line.{tasks};
ghost use Rattle.line_rules.specs.Balance.{IsRight};
ghost use Rattle.line_rules.specs.Ranges.{IsInRange};
ghost use Rattle.line_rules.specs.declared.types.LineKind.TheVariants.{Straight};
ghost use Rattle.command_outcome.specs.Outcome.{Stops, MayStop, outside, told};
ghost use Rattle.command_outcome.specs.declared.status.Status.TheVariants as ends;
ghost use Rattle.mix_files.specs.BalanceFile.{IsBalanceFile, IsNoBalance, IsTested, IsRefused, IsWrong, check_text};
ghost use Rattle.mix_files.specs.BalanceFile.{refused_line, tasks_text};

use command_outcome::{EarlyEnd, Status, push_number, refuse};
use input_files::certificate_of;
use line_instance::Instance;
use line_io::Shelf;
use line_rules::{Balance, BalanceCheck, Certificate, Claim, LineKind, check_balance};
use std::alloc::{AllocError, Global};

/// A task, counted from 1, behind a text.
fn push_task(text: &mut String, front: &str, task: u32) -> Result<(), AllocError>
    ensures { OnOk result (string_bytes text.new ≡ string_bytes text.old ++ (front.now ++ decimal (task + 1))) }
{
    text.push_str(front)?;
    push_number(text, u64::from(task) + 1)?;
    Ok(())
}

/// Two numbers behind a text, with a blank between.
fn push_two(text: &mut String, front: &str, a: u64, b: u64) -> Result<(), AllocError>
    ensures { OnOk result (string_bytes text.new ≡ string_bytes text.old
        ++ (front.now ++ decimal a ++ codes " " ++ decimal b)) }
{
    text.push_str(front)?;
    push_number(text, a)?;
    text.push_str(" ")?;
    push_number(text, b)?;
    Ok(())
}

/// Two tasks, counted from 1, behind a text.
fn push_pair(text: &mut String, front: &str, i: u32, j: u32) -> Result<(), AllocError>
    ensures { OnOk result (string_bytes text.new ≡ string_bytes text.old
        ++ (front.now ++ decimal (i + 1) ++ codes " " ++ decimal (j + 1))) }
{
    push_two(text, front, u64::from(i) + 1, u64::from(j) + 1)
}

/// What the test of a balance finds. Tasks are counted from 1.
fn push_check(text: &mut String, found: BalanceCheck) -> Result<(), AllocError>
    ensures { OnOk result (string_bytes text.new ≡ string_bytes text.old ++ check_text found) }
{
    match found {
        BalanceCheck::Right => Ok(()),
        BalanceCheck::Unplaced(task) => push_task(text, "balance station ", task),
        BalanceCheck::StationRange(task) => push_task(text, "balance station ", task),
        BalanceCheck::SideWrong(task) => push_task(text, "balance side ", task),
        BalanceCheck::Overfull(station, time) => {
            push_two(text, "balance overfull ", u64::from(station), time)
        }
        BalanceCheck::Broken(i, j) => push_pair(text, "balance broken ", i, j),
        BalanceCheck::Together(i, j) => push_pair(text, "balance together ", i, j),
    }
}

/// A refusal of the certificate, or out of memory.
fn refused(alloc: Global, what: &str) -> EarlyEnd
    ensures told { Stops (λ out. out ≡ told ends.Refused (refused_line what.now)) result }
    ensures status { MayStop ⊥ result }
{
    let mut text = String::new(alloc);
    match write!(text, "refused: {what}\n") {
        Ok(()) => refuse(Status::Refused, text.into_bytes()),
        Err(_) => EarlyEnd::Memory,
    }
}

/// The numbers of tasks that a certificate and a line have.
fn tasks_text(alloc: Global, said: u32, real: u32) -> Result<String, AllocError>
    ensures { IfOk result (λ t. string_bytes t ≡ tasks_text said real) }
{
    let mut text = String::new(alloc);
    write!(text, "tasks {said} {real}")?;
    Ok(text)
}

/// The balance, where it is right for the line at the cycle time.
fn right(alloc: Global, line: &Instance, cycle: u64, balance: Balance) -> Result<Balance, EarlyEnd>
    requires places { length balance.place ≡ tasks line.now }
    requires stations { balance.stations ≤ 1024 }
    ensures said { MatchResult result (λ b. (b ≡ balance) × IsRight Straight line.now cycle b)
        (Stops (IsWrong line.now cycle balance)) }
    ensures status { MatchResult result (λ _. Unit {0}) (MayStop ⊥) }
{
    let found = check_balance(line, LineKind::Straight, cycle, &balance);
    if found == BalanceCheck::Right {
        return Ok(balance);
    }
    let mut text = String::new(alloc);
    push_check(&mut text, found)?;
    Err(refused(alloc, &text))
}

/// The balance of a certificate, where it is a straight one that is right for the line at the cycle time.
fn tested(
    alloc: Global,
    line: &Instance,
    cycle: u64,
    cert: Certificate,
) -> Result<Balance, EarlyEnd>
    requires { IsInRange cert }
    ensures said { MatchResult result (IsTested line.now cycle cert) (Stops (IsRefused line.now cycle cert)) }
    ensures few { IfOk result (λ b. b.stations ≤ 1024) }
    ensures status { MatchResult result (λ _. Unit {0}) (MayStop ⊥) }
{
    let tasks = line.tasks();
    if cert.tasks != tasks {
        let text = tasks_text(alloc, cert.tasks, tasks)?;
        return Err(refused(alloc, &text));
    }
    match cert.kind {
        LineKind::U => return Err(refused(alloc, "not straight")),
        LineKind::Straight => {}
    }
    match cert.claim {
        Claim::TooLong { task: _ } => Err(refused(alloc, "no balance")),
        Claim::Bounds { balance, .. } => right(alloc, line, cycle, balance),
    }
}

/// The balance of a certificate's file, where it is a straight one that is right for the line at the cycle time.
pub fn balance_of<S: Shelf>(
    alloc: Global,
    file: &str,
    line: &Instance,
    cycle: u64,
    shelf: &mut S,
) -> Result<Balance, EarlyEnd>
    ensures said { S.tells → MatchResult result (IsBalanceFile (S.file shelf.old) file.now line.now cycle)
        (Stops (IsNoBalance (outside (S.file shelf.old) (S.blames shelf.new)) file.now line.now cycle)) }
    ensures right { IfOk result (IsRight Straight line.now cycle) }
    ensures few { IfOk result (λ b. b.stations ≤ 1024) }
    ensures fault { MatchResult result (λ _. Unit {0})
        (MayStop (Rises (S.fetch_faults shelf.old) (S.fetch_faults shelf.new))) }
    ensures count { S.fetch_faults shelf.old ≤ S.fetch_faults shelf.new }
    ensures writes { S.write_faults shelf.new ≡ S.write_faults shelf.old }
    ensures files { S.tells → (q : List ℕ) → S.file shelf.new q ≡ S.file shelf.old q }
{
    let cert = certificate_of(alloc, file, shelf)?;
    let balance = tested(alloc, line, cycle, cert)?;
    Ok(balance)
}
