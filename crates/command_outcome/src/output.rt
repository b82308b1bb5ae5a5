//! The end of a run: its report is put, whole and in one call, and its certificate is kept once that is done.
ghost use Rattle.std.specs.Prelude.{◌≡◌, ◌≢◌};
ghost use Rattle.line_io.specs.Outside.{Rises};
ghost use Rattle.command_outcome.specs.Output.{Finishes, IsOnePut, Puts, kept_of, status_of};
ghost use Rattle.command_outcome.specs.declared.report.Kept.TheVariants.{Nothing};
ghost use Rattle.command_outcome.specs.declared.report.EarlyEnd.TheVariants.{Unwritten};
ghost use Rattle.command_outcome.specs.declared.status.Status.TheVariants as ends;

use crate::report::{EarlyEnd, Kept, Report};
use crate::status::Status;
use line_io::{Sink, Stored};

/// Keeps nothing, and answers that something could not be written.
fn give_up(kept: &mut Kept) -> Status
    ensures status { result ≡ ends.WriteFault }
    ensures kept { kept.new ≡ Nothing }
{
    *kept = Kept::Nothing;
    Status::WriteFault
}

/// Puts a text and keeps what was made with it, and answers the status; or that the put failed, and then nothing is
/// kept.
fn put<K: Sink>(out: &mut K, text: &[u8], status: Status, made: Kept, kept: &mut Kept) -> Status
    requires { status ≢ ends.WriteFault }
    ensures puts { K.tells → Puts status text.now made (K.shown out.old) (K.shown out.new) (K.faults out.old)
        (K.faults out.new) result kept.new }
    ensures one_put { IsOnePut (K.puts out.old) (K.puts out.new) }
    ensures write { result ≡ ends.WriteFault → Rises (K.faults out.old) (K.faults out.new) }
    ensures status { result ≢ ends.WriteFault → result ≡ status }
    ensures kept { result ≢ ends.WriteFault → kept.new ≡ made }
    ensures nothing { result ≡ ends.WriteFault → kept.new ≡ Nothing }
{
    match out.put(text) {
        Stored::Done => {
            *kept = made;
            status
        }
        Stored::Failed => give_up(kept),
    }
}

/// Puts a report and keeps its certificate.
fn put_report<K: Sink>(out: &mut K, report: Report, kept: &mut Kept) -> Status
    requires { report.status ≢ ends.WriteFault }
    ensures puts { K.tells → Puts report.status report.text.items report.kept (K.shown out.old) (K.shown out.new)
        (K.faults out.old) (K.faults out.new) result kept.new }
    ensures one_put { IsOnePut (K.puts out.old) (K.puts out.new) }
    ensures write { result ≡ ends.WriteFault → Rises (K.faults out.old) (K.faults out.new) }
    ensures status { result ≢ ends.WriteFault → result ≡ report.status }
    ensures kept { result ≢ ends.WriteFault → kept.new ≡ report.kept }
    ensures nothing { result ≡ ends.WriteFault → kept.new ≡ Nothing }
{
    let Report {
        status,
        text,
        kept: made,
    } = report;
    put(out, &text, status, made, kept)
}

/// Puts what a run ended with: a report, in one put; the line `memory`; or nothing, where a file could not be written.
/// It answers the status, or that the put failed. `kept` then holds the certificate of the report, where it was put,
/// and else nothing.
pub fn finish<K: Sink>(out: &mut K, ended: Result<Report, EarlyEnd>, kept: &mut Kept) -> Status
    requires { status_of ended ≡ ends.WriteFault → ended ≡ Err Unwritten }
    ensures finishes { K.tells → Finishes ended (K.shown out.old) (K.shown out.new) (K.faults out.old)
        (K.faults out.new) result kept.new }
    ensures one_put { IsOnePut (K.puts out.old) (K.puts out.new) }
    ensures write { result ≡ ends.WriteFault → ended ≢ Err Unwritten → Rises (K.faults out.old) (K.faults out.new) }
    ensures status { result ≢ ends.WriteFault → result ≡ status_of ended }
    ensures kept { result ≢ ends.WriteFault → kept.new ≡ kept_of ended }
    ensures nothing { result ≡ ends.WriteFault → kept.new ≡ Nothing }
{
    match ended {
        Ok(report) => put_report(out, report, kept),
        Err(stop) => match stop {
            EarlyEnd::Report(report) => put_report(out, report, kept),
            EarlyEnd::Memory => put(out, b"memory\n", Status::Memory, Kept::Nothing, kept),
            EarlyEnd::Unwritten => give_up(kept),
        },
    }
}
