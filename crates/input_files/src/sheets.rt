//! What a file with an instance says: a table, or an ALB or an IN2 text.
ghost use Rattle.std.specs.Prelude.{◌≡◌, ◌≤◌, ◌<◌, ◌^◌, ℕ, true, false, List, Some, None, length, IfOk, MatchResult};
ghost use Rattle.line_io.specs.Outside.{Rises};
ghost use Rattle.line_instance.specs.Line.{Apart};
ghost use Rattle.line_words.specs.Ranges.{IsCycleTimeOrNone};
ghost use Rattle.task_table.specs.Marks.{table_mark};
ghost use Rattle.task_table.specs.Tables.{IsRightTable, IsTable};
ghost use Rattle.command_outcome.specs.Outcome.{Stops, MayStop, outside};
ghost use Rattle.in2_reader.specs.Texts.{fault_text};
ghost use Rattle.alb_reader.specs.Texts.{fault_text as alb_fault_text};
ghost use Rattle.input_files.specs.InputFile.{fault_line};
ghost use Rattle.input_files.specs.Instance.{Says, IsFaulty, IsInstance, IsNoInstance, is_alb};
ghost use Rattle.input_files.specs.Sheet.{IsRightSheet, IsSheetFrom, IsSheetIn};
ghost use Rattle.input_files.specs.TableTexts.{table_fault_text};

use crate::fetch_file::fetch;
use crate::table_texts::push_table_fault;
use alb_reader::{AlbFault, AlbRead, begins_heading, push_fault as push_alb_fault, read_alb};
use command_outcome::{EarlyEnd, Status, line_about, refuse};
use in2_reader::{In2Fault, In2Read, next_content, push_fault, read_in2};
use line_instance::{Instance, Prec};
use line_io::Shelf;
use std::alloc::{AllocError, Global};
use task_names::Naming;
use task_table::{Table, TableFault, TableRead, read_table, table_mark};

/// What a file with an instance says.
#[derive(Drop)]
pub struct Sheet {
    /// The instance; the tasks that a table says are apart are so in it.
    pub inst: Instance,
    /// The cycle time, where the file has one.
    pub cycle: Option<u64>,
    /// What its tasks are called.
    pub naming: Naming,
    /// The pairs of tasks that are apart, as a table lists them; no other file has any.
    pub pairs: Vec<Prec>,
    /// The number of the first record of a table that lists such a task, counted from 1.
    pub pairs_at: Option<u64>,
    /// The mark between the fields of a table; a comma for other files.
    pub mark: u8,
    /// Whether the file is a table behind a byte-order mark.
    pub bom: bool,
}

/// What a file without names says.
fn plain_sheet(alloc: Global, inst: Instance, cycle: Option<u64>) -> Sheet
    requires { (i j : ℕ) → Apart inst i j → ⊥ }
    ensures inst { result.inst ≡ inst }
    ensures cycle { result.cycle ≡ cycle }
    ensures right { IsRightSheet result }
    ensures sheet { (bytes : List ℕ) → table_mark bytes ≡ None → IsSheetIn bytes result }
{
    Sheet {
        inst,
        cycle,
        naming: Naming::Numbered,
        pairs: Vec::new(alloc),
        pairs_at: None,
        mark: b',',
        bom: false,
    }
}

/// Whether the first line with a content begins, in its content, with `<`.
fn is_alb(bytes: &[u8]) -> bool
    requires { length bytes.now < 2 ^ 63 }
    ensures { result ≡ is_alb bytes.now }
{
    match next_content(bytes, 1) {
        Ok(content) => begins_heading(content.bytes),
        Err(_) => false,
    }
}

/// The line about the first fault of a file.
pub fn fault_line_of(alloc: Global, file: &str, fault: &str) -> Result<Vec<u8>, AllocError>
    ensures { IfOk result (λ t. t.items ≡ fault_line file.now fault.now) }
{
    let mut text = line_about(alloc, "input: ", file, " ")?;
    text.extend_from_slice(fault.as_bytes())?;
    text.push(b'\n')?;
    Ok(text)
}

/// The line about the first fault of an IN2 file.
pub(crate) fn in2_fault_line(
    alloc: Global,
    file: &str,
    fault: &In2Fault,
) -> Result<Vec<u8>, AllocError>
    ensures { IfOk result (λ t. t.items ≡ fault_line file.now (fault_text fault.now)) }
{
    let mut what = String::new(alloc);
    push_fault(&mut what, fault)?;
    fault_line_of(alloc, file, &what)
}

/// The line about the first fault of an ALB file.
fn alb_fault_line(alloc: Global, file: &str, fault: &AlbFault) -> Result<Vec<u8>, AllocError>
    ensures { IfOk result (λ t. t.items ≡ fault_line file.now (alb_fault_text fault.now)) }
{
    let mut what = String::new(alloc);
    push_alb_fault(&mut what, fault)?;
    fault_line_of(alloc, file, &what)
}

/// What the bytes of an IN2 file say.
fn in2_sheet(alloc: Global, file: &str, bytes: &[u8]) -> Result<Sheet, EarlyEnd>
    requires length { length bytes.now < 2 ^ 63 }
    requires no_table { table_mark bytes.now ≡ None }
    requires in2 { is_alb bytes.now ≡ false }
    ensures said { MatchResult result (λ s. Says bytes.now s.inst s.cycle) (Stops (IsFaulty file.now bytes.now)) }
    ensures limit { IfOk result (λ s. IsCycleTimeOrNone s.cycle) }
    ensures right { IfOk result IsRightSheet }
    ensures sheet { IfOk result (IsSheetIn bytes.now) }
    ensures status { MatchResult result (λ _. Unit {0}) (MayStop ⊥) }
{
    match read_in2(alloc, bytes) {
        In2Read::Good(inst) => Ok(plain_sheet(alloc, inst, None)),
        In2Read::Fault(fault) => {
            let text = in2_fault_line(alloc, file, &fault)?;
            Err(refuse(Status::Input, text))
        }
        In2Read::NoMemory => Err(EarlyEnd::Memory),
    }
}

/// What the bytes of an ALB file say.
fn alb_sheet(alloc: Global, file: &str, bytes: &[u8]) -> Result<Sheet, EarlyEnd>
    requires length { length bytes.now < 2 ^ 63 }
    requires no_table { table_mark bytes.now ≡ None }
    requires alb { is_alb bytes.now ≡ true }
    ensures said { MatchResult result (λ s. Says bytes.now s.inst s.cycle) (Stops (IsFaulty file.now bytes.now)) }
    ensures limit { IfOk result (λ s. IsCycleTimeOrNone s.cycle) }
    ensures right { IfOk result IsRightSheet }
    ensures sheet { IfOk result (IsSheetIn bytes.now) }
    ensures status { MatchResult result (λ _. Unit {0}) (MayStop ⊥) }
{
    match read_alb(alloc, bytes) {
        AlbRead::Good(inst, cycle) => Ok(plain_sheet(alloc, inst, cycle)),
        AlbRead::Fault(fault) => {
            let text = alb_fault_line(alloc, file, &fault)?;
            Err(refuse(Status::Input, text))
        }
        AlbRead::NoMemory => Err(EarlyEnd::Memory),
    }
}

/// The line about the first fault of a table.
fn table_fault_line(alloc: Global, file: &str, fault: &TableFault) -> Result<Vec<u8>, AllocError>
    ensures { IfOk result (λ t. t.items ≡ fault_line file.now (table_fault_text fault.now)) }
{
    let mut what = String::new(alloc);
    push_table_fault(&mut what, fault)?;
    fault_line_of(alloc, file, &what)
}

/// What a table says.
fn sheet_by(table: Table) -> Sheet
    requires right { IsRightTable table }
    requires table { (bytes : List ℕ) × (mark : ℕ) × IsTable mark bytes table }
    ensures right { IsRightSheet result }
    ensures sheet { (bytes : List ℕ) (mark : ℕ) → table_mark bytes ≡ Some mark → IsTable mark bytes table
        → IsSheetIn bytes result }
    ensures inst { result.inst ≡ table.inst }
    ensures cycle { result.cycle ≡ None }
{
    let Table {
        inst,
        names,
        mark,
        bom,
        pairs,
        pairs_at,
    } = table;
    Sheet {
        inst,
        cycle: None,
        naming: Naming::Named(names),
        pairs,
        pairs_at,
        mark,
        bom,
    }
}

/// What the bytes of a table with this mark say.
fn table_sheet(alloc: Global, file: &str, bytes: &[u8], mark: u8) -> Result<Sheet, EarlyEnd>
    requires length { length bytes.now < 2 ^ 63 }
    requires mark { table_mark bytes.now ≡ Some mark }
    ensures said { MatchResult result (λ s. Says bytes.now s.inst s.cycle) (Stops (IsFaulty file.now bytes.now)) }
    ensures limit { IfOk result (λ s. IsCycleTimeOrNone s.cycle) }
    ensures right { IfOk result IsRightSheet }
    ensures sheet { IfOk result (IsSheetIn bytes.now) }
    ensures status { MatchResult result (λ _. Unit {0}) (MayStop ⊥) }
{
    match read_table(alloc, bytes, mark) {
        TableRead::Good(table) => Ok(sheet_by(table)),
        TableRead::Fault(fault) => {
            let text = table_fault_line(alloc, file, &fault)?;
            Err(refuse(Status::Input, text))
        }
        TableRead::NoMemory => Err(EarlyEnd::Memory),
    }
}

/// What the bytes of a file with an instance say, in any form.
fn sheet_in(alloc: Global, file: &str, bytes: &[u8]) -> Result<Sheet, EarlyEnd>
    requires { length bytes.now < 2 ^ 63 }
    ensures said { MatchResult result (λ s. Says bytes.now s.inst s.cycle) (Stops (IsFaulty file.now bytes.now)) }
    ensures limit { IfOk result (λ s. IsCycleTimeOrNone s.cycle) }
    ensures right { IfOk result IsRightSheet }
    ensures sheet { IfOk result (IsSheetIn bytes.now) }
    ensures status { MatchResult result (λ _. Unit {0}) (MayStop ⊥) }
{
    match table_mark(bytes) {
        Some(mark) => table_sheet(alloc, file, bytes, mark),
        None => {
            if is_alb(bytes) {
                return alb_sheet(alloc, file, bytes);
            }
            in2_sheet(alloc, file, bytes)
        }
    }
}

/// What a file with an instance says.
pub fn sheet_of<S: Shelf>(alloc: Global, file: &str, shelf: &mut S) -> Result<Sheet, EarlyEnd>
    ensures said { S.tells → MatchResult result (λ s. IsInstance (S.file shelf.old) file.now s.inst s.cycle)
        (Stops (IsNoInstance (outside (S.file shelf.old) (S.blames shelf.new)) file.now)) }
    ensures limit { IfOk result (λ s. IsCycleTimeOrNone s.cycle) }
    ensures right { IfOk result IsRightSheet }
    ensures sheet { S.tells → IfOk result (IsSheetFrom (S.file shelf.old file.now)) }
    ensures fault { MatchResult result (λ _. Unit {0})
        (MayStop (Rises (S.fetch_faults shelf.old) (S.fetch_faults shelf.new))) }
    ensures count { S.fetch_faults shelf.old ≤ S.fetch_faults shelf.new }
    ensures writes { S.write_faults shelf.new ≡ S.write_faults shelf.old }
    ensures files { S.tells → (q : List ℕ) → S.file shelf.new q ≡ S.file shelf.old q }
{
    let bytes = fetch(alloc, file, shelf)?;
    let sheet = sheet_in(alloc, file, &bytes)?;
    Ok(sheet)
}
