//! Instances written in another form, and certificates written anew.
ghost use Rattle.std.specs.Prelude.{◌≡◌, ◌≢◌, ◌++◌, ℕ, List, Some, None, length, IfOk, MatchResult};
ghost use Rattle.std.specs.Prelude.{option_map};
ghost use Rattle.line_io.specs.Outside.{Rises};
ghost use Rattle.line_instance.specs.Line.{tasks};
ghost use Rattle.line_words.specs.declared.job.FormWord.TheVariants.{Cert};
ghost use Rattle.command_outcome.specs.Outcome.{Ends, MayEnd, outside};
ghost use Rattle.command_outcome.specs.declared.report.Kept.TheVariants.{Nothing};
ghost use Rattle.command_outcome.specs.declared.status.Status.TheVariants as ends;
ghost use Rattle.input_files.specs.Instance.{cycle_of};
ghost use Rattle.task_names.specs.Naming.{FitTasks, names_for};
ghost use Rattle.command_outcome.specs.Wrote.{written_line};
ghost use Rattle.command_convert.specs.Convert.{IsConvertOutcome, IsTextIn, left_out};

use alb_reader::write_alb;
use cert_files::{Streamed, stream_cert};
use command_outcome::{EarlyEnd, Report, write_page, written};
use in2_reader::write_in2;
use input_files::{Listed, certificate_of, listed_line};
use line_instance::Instance;
use line_io::Shelf;
use line_words::FormWord;
use std::alloc::{AllocError, Global};
use table_text::{has_pair, write_table};
use task_names::{Names, Naming};

/// The cycle time of the words, and else that of the file.
fn cycle_of(word: Option<u64>, given: Option<u64>) -> Option<u64>
    ensures { result ≡ cycle_of word given }
{
    match word {
        Some(cycle) => Some(cycle),
        None => given,
    }
}

/// The canonical text of an instance, whose tasks have these names, in a form.
fn text_in(
    alloc: Global,
    inst: &Instance,
    names: &Names,
    to: FormWord,
    cycle: Option<u64>,
) -> Result<Vec<u8>, AllocError>
    requires to { to ≢ Cert }
    requires many { length names.now ≡ tasks inst.now }
    ensures { IfOk result (λ v. IsTextIn to inst.now names.now cycle v.items) }
{
    match to {
        FormWord::In2 => write_in2(alloc, inst),
        FormWord::Alb => write_alb(alloc, inst, cycle),
        FormWord::Csv => write_table(alloc, inst, names),
        FormWord::Cert => unreachable!(),
    }
}

/// The text of a line in a form, with the names that its file gives its tasks.
fn text_by(
    alloc: Global,
    inst: &Instance,
    naming: Naming,
    to: FormWord,
    cycle: Option<u64>,
) -> Result<Vec<u8>, AllocError>
    requires to { to ≢ Cert }
    requires names { FitTasks naming (tasks inst.now) }
    ensures { IfOk result (λ v. IsTextIn to inst.now (names_for naming (tasks inst.now)) cycle v.items) }
{
    let names = naming.into_names(alloc, inst.tasks())?;
    text_in(alloc, inst, &names, to, cycle)
}

/// What is told of a form that has no pairs of tasks that are apart, where the line has some.
fn left_out(inst: &Instance, to: FormWord) -> &'static [u8]
    ensures { result.now ≡ left_out to inst.now }
{
    match to {
        FormWord::In2 | FormWord::Alb => {
            if has_pair(inst) {
                b"apart left out\n"
            } else {
                b""
            }
        }
        FormWord::Csv | FormWord::Cert => b"",
    }
}

/// The report about a file that was written, and more behind it.
fn written_and(alloc: Global, name: &str, more: &[u8]) -> Result<Report, AllocError>
    ensures status { IfOk result (λ r. r.status ≡ ends.Done) }
    ensures text { IfOk result (λ r. r.text.items ≡ written_line name.now ++ more.now) }
    ensures kept { IfOk result (λ r. r.kept ≡ Nothing) }
{
    let Report { status, text, kept } = written(alloc, name)?;
    let mut text = text;
    text.extend_from_slice(more)?;
    Ok(Report { status, text, kept })
}

/// Writes an instance in another form.
fn convert_line<S: Shelf>(
    alloc: Global,
    file: &str,
    name: &str,
    to: FormWord,
    apart: Option<&str>,
    word: Option<u64>,
    shelf: &mut S,
) -> Result<Report, EarlyEnd>
    requires { to ≢ Cert }
    ensures ends { S.tells → Ends (outside (S.file shelf.old) (S.blames shelf.new))
        (IsConvertOutcome (outside (S.file shelf.old) (S.blames shelf.new)) file.now name.now to
        (option_map (λ a. a.now) apart.entry) word) (S.file shelf.new) result }
    ensures good { IfOk result (λ r. r.status ≡ ends.Done) }
    ensures kept { IfOk result (λ r. r.kept ≡ Nothing) }
    ensures fault { MatchResult result (λ _. Unit {0})
        (MayEnd (Rises (S.fetch_faults shelf.old) (S.fetch_faults shelf.new))
        (Rises (S.write_faults shelf.old) (S.write_faults shelf.new))) }
{
    let line = listed_line(alloc, file, apart, shelf)?;
    let Listed {
        inst,
        cycle,
        naming,
        ..
    } = line;
    let bytes = text_by(alloc, &inst, naming, to, cycle_of(word, cycle))?;
    let report = written_and(alloc, name, left_out(&inst, to))?;
    write_page(shelf, name, &bytes, report)
}

/// Writes a certificate anew.
fn convert_cert<S: Shelf>(
    alloc: Global,
    file: &str,
    name: &str,
    apart: Option<&str>,
    word: Option<u64>,
    shelf: &mut S,
) -> Result<Report, EarlyEnd>
    ensures ends { S.tells → Ends (outside (S.file shelf.old) (S.blames shelf.new))
        (IsConvertOutcome (outside (S.file shelf.old) (S.blames shelf.new)) file.now name.now Cert
        (option_map (λ a. a.now) apart.entry) word) (S.file shelf.new) result }
    ensures good { IfOk result (λ r. r.status ≡ ends.Done) }
    ensures kept { IfOk result (λ r. r.kept ≡ Nothing) }
    ensures fault { MatchResult result (λ _. Unit {0})
        (MayEnd (Rises (S.fetch_faults shelf.old) (S.fetch_faults shelf.new))
        (Rises (S.write_faults shelf.old) (S.write_faults shelf.new))) }
{
    let cert = certificate_of(alloc, file, shelf)?;
    let report = written(alloc, name)?;
    match stream_cert(alloc, shelf, name, &cert) {
        Streamed::Done => Ok(report),
        Streamed::WriteFault => Err(EarlyEnd::Unwritten),
        Streamed::NoMemory => Err(EarlyEnd::Memory),
    }
}

/// The report of `convert` for a file and the name of the one that is written, in a form, with the file of the tasks
/// that are apart, where there is one, and the cycle time of the words, where they have one. Of a certificate the file
/// of the tasks apart isn't fetched.
pub fn convert_report<S: Shelf>(
    alloc: Global,
    file: &str,
    name: &str,
    to: FormWord,
    apart: Option<&str>,
    word: Option<u64>,
    shelf: &mut S,
) -> Result<Report, EarlyEnd>
    ensures ends { S.tells → Ends (outside (S.file shelf.old) (S.blames shelf.new))
        (IsConvertOutcome (outside (S.file shelf.old) (S.blames shelf.new)) file.now name.now to
        (option_map (λ a. a.now) apart.entry) word) (S.file shelf.new) result }
    ensures good { IfOk result (λ r. r.status ≡ ends.Done) }
    ensures kept { IfOk result (λ r. r.kept ≡ Nothing) }
    ensures fault { MatchResult result (λ _. Unit {0})
        (MayEnd (Rises (S.fetch_faults shelf.old) (S.fetch_faults shelf.new))
        (Rises (S.write_faults shelf.old) (S.write_faults shelf.new))) }
{
    match to {
        FormWord::Cert => convert_cert(alloc, file, name, apart, word, shelf),
        FormWord::In2 | FormWord::Alb | FormWord::Csv => {
            convert_line(alloc, file, name, to, apart, word, shelf)
        }
    }
}
