//! The line that is printed of the check of a certificate of a product: what is accepted, or the first check that fails
//! with its values.
ghost use Rattle.std.specs.Prelude.{◌≡◌, ◌++◌, ◌≤◌, IfOk, OnOk, string_bytes, codes, decimal};
ghost use Rattle.printed_verdict.specs.VerdictText.{kind_text};
ghost use Rattle.command_outcome.specs.declared.report.Kept.TheVariants.{Nothing};
ghost use Rattle.command_effic.specs.ProductText.{accepted_text, bounds_text, found_text, place_text};
ghost use Rattle.command_effic.specs.ProductText.{verdict_status, verdict_text};

use command_outcome::{Report, Status, push_one};
use effic_check::{EfficPlace, EfficVerified};
use line_rules::{EfficCert, LineKind};
use printed_verdict::{
    entry_mode, frame_mode, push_entry_fault, push_frame_fault, push_pair, push_task, push_two,
};
use std::alloc::{AllocError, Global};

/// A wide number behind a text.
fn push_wide(text: &mut String, front: &str, n: u128) -> Result<(), AllocError>
    ensures { OnOk result (string_bytes text.new ≡ string_bytes text.old ++ (front.now ++ decimal n)) }
{
    text.push_str(front)?;
    write!(text, "{n}")
}

/// Where a certificate is refused, with the values.
fn push_place(
    alloc: Global,
    text: &mut String,
    cert: &EfficCert,
    place: &EfficPlace,
) -> Result<(), AllocError>
    requires { cert.now.tasks ≤ 1024 }
    ensures { OnOk result (string_bytes text.new ≡ string_bytes text.old ++ place_text cert.now place.now) }
{
    match place {
        EfficPlace::Tasks { said, real } => {
            push_two(text, "tasks ", u64::from(*said), u64::from(*real))
        }
        EfficPlace::Stations(stations) => {
            push_one(text, "balance stations ", u64::from(*stations))
        }
        EfficPlace::Station(task) => push_task(text, "balance station ", *task),
        EfficPlace::Side(task) => push_task(text, "balance side ", *task),
        EfficPlace::Overfull(station, time) => {
            push_two(text, "balance overfull ", u64::from(*station), *time)
        }
        EfficPlace::Broken(i, j) => push_pair(text, "balance broken ", *i, *j),
        EfficPlace::Upper(upper) => push_wide(text, "upper ", *upper),
        EfficPlace::Entry { entry, why } => {
            push_one(text, "entry ", *entry)?;
            let mode = entry_mode(&cert.entries, *entry);
            push_entry_fault(alloc, text, cert.tasks, mode, why)
        }
        EfficPlace::Goal(stations) => push_one(text, "goal ", u64::from(*stations)),
        EfficPlace::Frame { frame, why } => {
            push_one(text, "frame ", u64::from(*frame))?;
            let mode = frame_mode(&cert.trail, *frame);
            push_frame_fault(alloc, text, cert.tasks, mode, why)
        }
    }
}

/// The kind of line and the range of stations of a certificate.
fn push_question(text: &mut String, cert: &EfficCert) -> Result<(), AllocError>
    ensures { OnOk result (string_bytes text.new ≡ string_bytes text.old ++ accepted_text cert.now) }
{
    text.push_str("accepted ")?;
    match cert.kind {
        LineKind::Straight => text.push_str("straight")?,
        LineKind::U => text.push_str("u")?,
    }
    push_two(
        text,
        " product ",
        u64::from(cert.least_m),
        u64::from(cert.most_m),
    )
}

/// Bounds that are accepted.
fn push_bounds(text: &mut String, lower: u128, upper: u128, units: u64) -> Result<(), AllocError>
    ensures { OnOk result (string_bytes text.new ≡ string_bytes text.old ++ bounds_text lower upper units) }
{
    push_wide(text, " lower ", lower)?;
    push_wide(text, " upper ", upper)?;
    push_one(text, " units ", units)
}

/// What was found of a certificate.
fn push_found(
    alloc: Global,
    text: &mut String,
    cert: &EfficCert,
    verified: &EfficVerified,
) -> Result<(), AllocError>
    requires { cert.now.tasks ≤ 1024 }
    ensures { OnOk result (string_bytes text.new ≡ string_bytes text.old ++ found_text cert.now verified.now) }
{
    match verified {
        EfficVerified::Accepted {
            lower,
            upper,
            units,
        } => {
            push_question(text, cert)?;
            push_bounds(text, *lower, *upper, *units)
        }
        EfficVerified::Refused(place) => {
            text.push_str("refused: ")?;
            push_place(alloc, text, cert, place)
        }
        EfficVerified::StepsEnded(steps) => push_one(text, "steps ended at ", *steps),
    }
}

/// The status of what was found.
fn verdict_status(verified: &EfficVerified) -> Status
    ensures { result ≡ verdict_status verified.now }
{
    match verified {
        EfficVerified::Accepted { .. } => Status::Done,
        EfficVerified::Refused(_) => Status::Refused,
        EfficVerified::StepsEnded(_) => Status::Steps,
    }
}

/// The report about what was found of a certificate.
pub(crate) fn verdict_report(
    alloc: Global,
    cert: &EfficCert,
    verified: &EfficVerified,
) -> Result<Report, AllocError>
    requires { cert.now.tasks ≤ 1024 }
    ensures status { IfOk result (λ r. r.status ≡ verdict_status verified.now) }
    ensures text { IfOk result (λ r. r.text.items ≡ verdict_text cert.now verified.now) }
    ensures kept { IfOk result (λ r. r.kept ≡ Nothing) }
{
    let mut text = String::new(alloc);
    push_found(alloc, &mut text, cert, verified)?;
    text.push_str("\n")?;
    Ok(Report::told(verdict_status(verified), text.into_bytes()))
}
