//! The line that is printed of the check of a certificate of a sequence: what is accepted, or the first check that
//! fails with its values.
ghost use Rattle.std.specs.Prelude.{◌≡◌, ◌++◌, ◌+◌, IfOk, OnOk, string_bytes, decimal};
ghost use Rattle.command_outcome.specs.declared.report.Kept.TheVariants.{Nothing};
ghost use Rattle.command_sequence.specs.VerdictText.{accepted_text, entry_fault_text, found_text, frame_fault_text};
ghost use Rattle.command_sequence.specs.VerdictText.{place_text, verdict_status, verdict_text};

use command_outcome::{Report, Status, push_one};
use sequence_check::{SeqEntryFault, SeqFrameFault, SeqPlace, SeqVerified};
use std::alloc::{AllocError, Global};

/// A model, counted from 1, behind a text.
fn push_model(text: &mut String, front: &str, model: u32) -> Result<(), AllocError>
    ensures { OnOk result (string_bytes text.new ≡ string_bytes text.old ++ (front.now ++ decimal (model + 1))) }
{
    push_one(text, front, u64::from(model) + 1)
}

/// Why an entry is refused.
fn push_entry_fault(text: &mut String, why: SeqEntryFault) -> Result<(), AllocError>
    ensures { OnOk result (string_bytes text.new ≡ string_bytes text.old ++ entry_fault_text why) }
{
    match why {
        SeqEntryFault::Bound(bound) => push_one(text, " bound ", bound),
        SeqEntryFault::Empty => text.push_str(" empty"),
        SeqEntryFault::Cite(cite) => push_one(text, " cite ", cite),
        SeqEntryFault::Uncovered(model) => push_model(text, " uncovered ", model),
        SeqEntryFault::Spare => text.push_str(" spare"),
    }
}

/// Why a frame is refused.
fn push_frame_fault(text: &mut String, why: SeqFrameFault) -> Result<(), AllocError>
    ensures { OnOk result (string_bytes text.new ≡ string_bytes text.old ++ frame_fault_text why) }
{
    match why {
        SeqFrameFault::Allowed => text.push_str(" allowed"),
        SeqFrameFault::Set => text.push_str(" set"),
        SeqFrameFault::Last => text.push_str(" last"),
        SeqFrameFault::Cite(cite) => push_one(text, " cite ", cite),
        SeqFrameFault::Uncovered(model) => push_model(text, " uncovered ", model),
        SeqFrameFault::Spare => text.push_str(" spare"),
    }
}

/// Where a certificate is refused, with the values.
fn push_place(text: &mut String, place: SeqPlace) -> Result<(), AllocError>
    ensures { OnOk result (string_bytes text.new ≡ string_bytes text.old ++ place_text place) }
{
    match place {
        SeqPlace::Models(models) => push_one(text, "models ", u64::from(models)),
        SeqPlace::Stations(stations) => push_one(text, "stations ", u64::from(stations)),
        SeqPlace::Sequence => text.push_str("sequence"),
        SeqPlace::Total(total) => push_one(text, "total ", total),
        SeqPlace::Entry { entry, why } => {
            push_one(text, "entry ", entry)?;
            push_entry_fault(text, why)
        }
        SeqPlace::Goal => text.push_str("goal"),
        SeqPlace::Frame { frame, why } => {
            push_one(text, "frame ", u64::from(frame))?;
            push_frame_fault(text, why)
        }
    }
}

/// The bounds that are accepted, and the units.
fn push_accepted(text: &mut String, lower: u64, upper: u64, units: u64) -> Result<(), AllocError>
    ensures { OnOk result (string_bytes text.new ≡ string_bytes text.old ++ accepted_text lower upper units) }
{
    push_one(text, "accepted utility lower ", lower)?;
    push_one(text, " upper ", upper)?;
    push_one(text, " units ", units)
}

/// What was found of a certificate.
fn push_found(text: &mut String, verified: SeqVerified) -> Result<(), AllocError>
    ensures { OnOk result (string_bytes text.new ≡ string_bytes text.old ++ found_text verified) }
{
    match verified {
        SeqVerified::Accepted {
            lower,
            upper,
            units,
        } => push_accepted(text, lower, upper, units),
        SeqVerified::Refused(place) => {
            text.push_str("refused: ")?;
            push_place(text, place)
        }
        SeqVerified::StepsEnded(steps) => push_one(text, "steps ended at ", steps),
    }
}

/// The status of what was found.
fn verdict_status(verified: SeqVerified) -> Status
    ensures { result ≡ verdict_status verified }
{
    match verified {
        SeqVerified::Accepted { .. } => Status::Done,
        SeqVerified::Refused(_) => Status::Refused,
        SeqVerified::StepsEnded(_) => Status::Steps,
    }
}

/// The report about what was found of a certificate.
pub(crate) fn verdict_report(alloc: Global, verified: SeqVerified) -> Result<Report, AllocError>
    ensures status { IfOk result (λ r. r.status ≡ verdict_status verified) }
    ensures text { IfOk result (λ r. r.text.items ≡ verdict_text verified) }
    ensures kept { IfOk result (λ r. r.kept ≡ Nothing) }
{
    let mut text = String::new(alloc);
    push_found(&mut text, verified)?;
    text.push_str("\n")?;
    Ok(Report::told(verdict_status(verified), text.into_bytes()))
}
