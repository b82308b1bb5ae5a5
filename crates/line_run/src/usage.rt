//! What is answered to words that ask for no job.
ghost use Rattle.std.specs.Prelude.{◌≡◌, IfOk};
ghost use Rattle.line_words.specs.Texts.{usage_text};
ghost use Rattle.command_outcome.specs.declared.report.Kept.TheVariants.{Nothing};
ghost use Rattle.command_outcome.specs.declared.status.Status.TheVariants as ends;

use command_outcome::{Report, Status};
use line_words::{UsageKind, push_usage};
use std::alloc::{AllocError, Global};

/// The report about the first fault of the words.
pub fn usage_report(alloc: Global, index: usize, kind: UsageKind) -> Result<Report, AllocError>
    ensures status { IfOk result (λ r. r.status ≡ ends.Usage) }
    ensures text { IfOk result (λ r. r.text.items ≡ usage_text index kind) }
    ensures kept { IfOk result (λ r. r.kept ≡ Nothing) }
{
    let mut text = String::new(alloc);
    push_usage(&mut text, index, kind)?;
    Ok(Report::told(Status::Usage, text.into_bytes()))
}
