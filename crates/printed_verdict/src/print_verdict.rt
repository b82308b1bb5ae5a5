//! The line that is printed of the check of a certificate: what is accepted, or the first check that fails with its
//! values.
ghost use Rattle.std.specs.Prelude.{◌≡◌, ◌++◌, ◌+◌, ◌≤◌, ◌<◌, ◌^◌, IfOk, OnOk, slice_get, string_bytes, codes, decimal};
ghost use Rattle.cert_lines.specs.Numbers.{load_text};
ghost use Rattle.command_outcome.specs.declared.report.Kept.TheVariants.{Nothing};
ghost use Rattle.printed_verdict.specs.VerdictText.{ask_text, entry_fault_text, entry_mode, found_text};
ghost use Rattle.printed_verdict.specs.VerdictText.{frame_fault_text, frame_mode, frame_of, kind_text};
ghost use Rattle.printed_verdict.specs.VerdictText.{mode_at_entry, mode_at_frame};
ghost use Rattle.printed_verdict.specs.VerdictText.{place_text, two_text, verdict_status, verdict_text};

use cert_text::{KeptText, put_load};
use command_outcome::{Report, Status, push_number, push_one};
use line_check::{EntryFault, FrameFault, Place, Verified};
use line_rules::{Ask, Certificate, Claim, Entries, LineKind, Load, Mode, Trail, Why};
use std::alloc::{AllocError, Global};

/// The text of a load, as the parts that the mode has.
fn load_text(alloc: Global, tasks: u32, mode: Mode, load: &Load) -> Result<String, AllocError>
    requires { tasks ≤ 1024 }
    ensures { IfOk result (λ t. string_bytes t ≡ load_text tasks mode load.now) }
{
    let mut kept = KeptText::new(alloc);
    put_load(&mut kept, load, mode, tasks);
    // Digits and a stroke are always text.
    match String::from_utf8(kept.finish()?) {
        Ok(text) => Ok(text),
        Err(_) => Err(AllocError),
    }
}

/// Two numbers with a blank between, behind a text.
pub fn push_two(text: &mut String, front: &str, a: u64, b: u64) -> Result<(), AllocError>
    ensures { OnOk result (string_bytes text.new ≡ string_bytes text.old ++ (front.now ++ two_text a b)) }
{
    text.push_str(front)?;
    push_number(text, a)?;
    text.push_str(" ")?;
    push_number(text, b)?;
    Ok(())
}

/// A task, counted from 1, behind a text.
pub fn push_task(text: &mut String, front: &str, task: u32) -> Result<(), AllocError>
    ensures { OnOk result (string_bytes text.new ≡ string_bytes text.old ++ (front.now ++ decimal (task + 1))) }
{
    push_one(text, front, u64::from(task) + 1)
}

/// Two tasks, counted from 1, behind a text.
pub fn push_pair(text: &mut String, front: &str, i: u32, j: u32) -> Result<(), AllocError>
    ensures { OnOk result (string_bytes text.new ≡ string_bytes text.old ++ (front.now ++ two_text (i + 1) (j + 1))) }
{
    push_two(text, front, u64::from(i) + 1, u64::from(j) + 1)
}

/// A task that is said to be too long, and a number behind a word.
fn push_infeasible(text: &mut String, task: u32, word: &str, n: u64) -> Result<(), AllocError>
    ensures { OnOk result (string_bytes text.new ≡ string_bytes text.old
        ++ (codes "infeasible " ++ decimal (task + 1) ++ word.now ++ decimal n)) }
{
    push_task(text, "infeasible ", task)?;
    push_one(text, word, n)?;
    Ok(())
}

/// The line that is about a load that no cite covers.
fn push_uncovered(
    alloc: Global,
    text: &mut String,
    tasks: u32,
    mode: Mode,
    load: &Load,
) -> Result<(), AllocError>
    requires { tasks ≤ 1024 }
    ensures { OnOk result (string_bytes text.new ≡ string_bytes text.old
        ++ (codes " uncovered " ++ load_text tasks mode load.now)) }
{
    let load = load_text(alloc, tasks, mode, load)?;
    text.push_str(" uncovered ")?;
    text.push_str(&load)?;
    Ok(())
}

/// Why an entry is refused.
pub fn push_entry_fault(
    alloc: Global,
    text: &mut String,
    tasks: u32,
    mode: Mode,
    why: &EntryFault,
) -> Result<(), AllocError>
    requires { tasks ≤ 1024 }
    ensures { OnOk result (string_bytes text.new ≡ string_bytes text.old ++ entry_fault_text tasks mode why.now) }
{
    match why {
        EntryFault::Bound(stations) => push_one(text, " bound ", u64::from(*stations)),
        EntryFault::Mode => text.push_str(" mode"),
        EntryFault::Most => text.push_str(" most"),
        EntryFault::Cite(cite) => push_one(text, " cite ", *cite),
        EntryFault::Uncovered(load) => push_uncovered(alloc, text, tasks, mode, load),
        EntryFault::Spare => text.push_str(" spare"),
        EntryFault::Swap => text.push_str(" swap"),
        EntryFault::Pairs => text.push_str(" pairs"),
    }
}

/// Why a frame is refused.
pub fn push_frame_fault(
    alloc: Global,
    text: &mut String,
    tasks: u32,
    mode: Mode,
    why: &FrameFault,
) -> Result<(), AllocError>
    requires { tasks ≤ 1024 }
    ensures { OnOk result (string_bytes text.new ≡ string_bytes text.old ++ frame_fault_text tasks mode why.now) }
{
    match why {
        FrameFault::Allowed => text.push_str(" allowed"),
        FrameFault::Set => text.push_str(" set"),
        FrameFault::Mode => text.push_str(" mode"),
        FrameFault::Last => text.push_str(" last"),
        FrameFault::Cite(cite) => push_one(text, " cite ", *cite),
        FrameFault::Uncovered(load) => push_uncovered(alloc, text, tasks, mode, load),
        FrameFault::Spare => text.push_str(" spare"),
    }
}

/// The mode of the entry of this number, in which its loads are printed.
pub fn entry_mode(entries: &Entries, entry: u64) -> Mode
    ensures { result ≡ entry_mode (slice_get entries.now entry) }
{
    let Some(entry) = entries.as_slice().get(entry as usize) else {
        return Mode::Fore;
    };
    match &entry.why {
        Why::Branch { mode, .. } => *mode,
        Why::Bound | Why::Swap { .. } | Why::Pairs { .. } => Mode::Fore,
    }
}

/// The mode of the frame of this number, in which its loads are printed.
pub fn frame_mode(trail: &Option<Trail>, frame: u32) -> Mode
    ensures { result ≡ frame_mode (frame_of trail.now frame) }
{
    let Some(trail) = trail else {
        return Mode::Fore;
    };
    match trail.frames.as_slice().get(frame as usize) {
        Some(frame) => frame.mode,
        None => Mode::Fore,
    }
}

/// The mode of the entry of this number of a claim.
fn mode_at_entry(claim: &Claim, entry: u64) -> Mode
    ensures { result ≡ mode_at_entry claim.now entry }
{
    match claim {
        Claim::TooLong { .. } => Mode::Fore,
        Claim::Bounds { entries, .. } => entry_mode(entries, entry),
    }
}

/// The mode of the frame of this number of a claim.
fn mode_at_frame(claim: &Claim, frame: u32) -> Mode
    ensures { result ≡ mode_at_frame claim.now frame }
{
    match claim {
        Claim::TooLong { .. } => Mode::Fore,
        Claim::Bounds { trail, .. } => frame_mode(trail, frame),
    }
}

/// Where a certificate is refused, with the values.
fn push_place(
    alloc: Global,
    text: &mut String,
    cert: &Certificate,
    place: &Place,
) -> Result<(), AllocError>
    requires { cert.now.tasks ≤ 1024 }
    ensures { OnOk result (string_bytes text.new ≡ string_bytes text.old ++ place_text cert.now place.now) }
{
    match place {
        Place::Tasks { said, real } => {
            push_two(text, "tasks ", u64::from(*said), u64::from(*real))
        }
        Place::Infeasible { task, time } => push_infeasible(text, *task, " time ", *time),
        Place::Earlier { task, least } => {
            push_infeasible(text, *task, " earlier ", u64::from(*least) + 1)
        }
        Place::Stations(stations) => push_one(text, "balance stations ", u64::from(*stations)),
        Place::Station(task) => push_task(text, "balance station ", *task),
        Place::Side(task) => push_task(text, "balance side ", *task),
        Place::Overfull(station, time) => {
            push_two(text, "balance overfull ", u64::from(*station), *time)
        }
        Place::Broken(i, j) => push_pair(text, "balance broken ", *i, *j),
        Place::Together(i, j) => push_pair(text, "balance together ", *i, *j),
        Place::Entry { entry, why } => {
            push_one(text, "entry ", *entry)?;
            push_entry_fault(
                alloc,
                text,
                cert.tasks,
                mode_at_entry(&cert.claim, *entry),
                why,
            )
        }
        Place::Goal => text.push_str("goal"),
        Place::Frame { frame, why } => {
            push_one(text, "frame ", u64::from(*frame))?;
            push_frame_fault(
                alloc,
                text,
                cert.tasks,
                mode_at_frame(&cert.claim, *frame),
                why,
            )
        }
    }
}

/// The kind of line and the question of a certificate.
fn push_question(text: &mut String, kind: LineKind, ask: Ask) -> Result<(), AllocError>
    ensures { OnOk result (string_bytes text.new ≡ string_bytes text.old
        ++ (codes "accepted " ++ kind_text kind ++ codes " " ++ ask_text ask)) }
{
    text.push_str("accepted ")?;
    match kind {
        LineKind::Straight => text.push_str("straight ")?,
        LineKind::U => text.push_str("u ")?,
    }
    match ask {
        Ask::Stations { cycle } => push_one(text, "cycle ", cycle),
        Ask::Cycle { stations } => push_one(text, "stations ", u64::from(stations)),
    }
}

/// Bounds that are accepted.
fn push_accepted(
    text: &mut String,
    cert: &Certificate,
    lower: u64,
    upper: u64,
    units: u64,
) -> Result<(), AllocError>
    ensures { OnOk result (string_bytes text.new ≡ string_bytes text.old
        ++ (codes "accepted " ++ kind_text cert.now.kind ++ codes " " ++ ask_text cert.now.ask ++ codes " lower "
        ++ decimal lower ++ codes " upper " ++ decimal upper ++ codes " units " ++ decimal units)) }
{
    push_question(text, cert.kind, cert.ask)?;
    push_one(text, " lower ", lower)?;
    push_one(text, " upper ", upper)?;
    push_one(text, " units ", units)?;
    Ok(())
}

/// A task that is accepted as too long.
fn push_too_long(text: &mut String, cert: &Certificate, task: u32) -> Result<(), AllocError>
    ensures { OnOk result (string_bytes text.new ≡ string_bytes text.old
        ++ (codes "accepted " ++ kind_text cert.now.kind ++ codes " " ++ ask_text cert.now.ask ++ codes " infeasible "
        ++ decimal (task + 1))) }
{
    push_question(text, cert.kind, cert.ask)?;
    push_task(text, " infeasible ", task)?;
    Ok(())
}

/// Where a certificate is refused.
fn push_refused(
    alloc: Global,
    text: &mut String,
    cert: &Certificate,
    place: &Place,
) -> Result<(), AllocError>
    requires { cert.now.tasks ≤ 1024 }
    ensures { OnOk result (string_bytes text.new ≡ string_bytes text.old
        ++ (codes "refused: " ++ place_text cert.now place.now)) }
{
    text.push_str("refused: ")?;
    push_place(alloc, text, cert, place)?;
    Ok(())
}

/// What was found of a certificate.
fn push_found(
    alloc: Global,
    text: &mut String,
    cert: &Certificate,
    verified: &Verified,
) -> Result<(), AllocError>
    requires { cert.now.tasks ≤ 1024 }
    ensures { OnOk result (string_bytes text.new ≡ string_bytes text.old ++ found_text cert.now verified.now) }
{
    match verified {
        Verified::Accepted {
            lower,
            upper,
            units,
        } => push_accepted(text, cert, *lower, *upper, *units),
        Verified::TooLong(task) => push_too_long(text, cert, *task),
        Verified::Refused(place) => push_refused(alloc, text, cert, place),
        Verified::StepsEnded(steps) => push_one(text, "steps ended at ", *steps),
    }
}

/// The status of what was found.
fn verdict_status(verified: &Verified) -> Status
    ensures { result ≡ verdict_status verified.now }
{
    match verified {
        Verified::Accepted { .. } | Verified::TooLong(_) => Status::Done,
        Verified::Refused(_) => Status::Refused,
        Verified::StepsEnded(_) => Status::Steps,
    }
}

/// The report about what was found of a certificate.
pub fn verdict_report(
    alloc: Global,
    cert: &Certificate,
    verified: &Verified,
) -> Result<Report, AllocError>
    requires { cert.now.tasks ≤ 1024 }
    ensures status { IfOk result (λ r. r.status ≡ verdict_status verified.now) }
    ensures text { IfOk result (λ r. r.text.items ≡ verdict_text cert.now verified.now) }
    ensures kept { IfOk result (λ r. r.kept ≡ Nothing) }
{
    let mut text = String::new(alloc);
    push_found(alloc, &mut text, cert, verified)?;
    text.push_str("\n")?;
    Ok(Report::told(verdict_status(verified), text.into_bytes()))
}
