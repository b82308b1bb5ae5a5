//! The writing of the lines of a certificate.
//!
//! There is a function for each form of line, and each goes over its value once. None of them answers anything: the
//! output remembers its first failure, and the answer comes once, at the end. Of the ranges only that of the tasks is
//! asked for, at most 1,024, since a set has that many places.
ghost use Rattle.std.specs.Prelude.{◌≡◌, ◌≤◌, ◌<◌, ◌∷◌, ◌++◌, [], map};
ghost use Rattle.cert_lines.specs.ValueRows.{kind_row, ask_row, seat_row, entry_row, frame_row};
ghost use Rattle.cert_lines.specs.LineForms.{version_row};
ghost use Rattle.cert_text.specs.Cert.{trail_rows, list_rows, bounds_rows, claim_rows, cert_text, least_version};
ghost use Rattle.entry_lists.specs.PairEntries.{is_by_pairs as by_pairs, has_pairs as some_pairs};
ghost use Rattle.cert_text.specs.inner.Pieces.{question_text, swap_text};
ghost use Rattle.cert_lines.specs.Rows.{keyed, line_text, rows_text};
ghost use Rattle.cert_text.specs.Sent.{Puts};

use crate::output::Output;
use crate::writing::{put_cites, put_last, put_mode, put_number, put_set, put_text};
use cert_lines::line_forms::Version;
use line_rules::{
    Ask, Balance, Certificate, Claim, Entries, Entry, LineKind, OpenFrame, Seatplace, Side, Trail,
    Why,
};

/// Puts the line of a word and a number.
pub fn put_keyed<O: Output>(out: &mut O, key: &[u8], n: u64)
    ensures { Puts O.told (O.sent out.old) (line_text (keyed key.now n)) (O.sent out.new) }
{
    put_text(out, key);
    out.put(b' ');
    put_number(out, n);
    out.put(b'\n');
}

/// Puts the first line of a version.
fn put_version<O: Output>(out: &mut O, version: Version)
    ensures { Puts O.told (O.sent out.old) (line_text (version_row version)) (O.sent out.new) }
{
    match version {
        Version::One => put_text(out, b"line balance certificate 1\n"),
        Version::Two => put_text(out, b"line balance certificate 2\n"),
        Version::Three => put_text(out, b"line balance certificate 3\n"),
    }
}

/// Puts the line of the kind of line.
pub fn put_kind<O: Output>(out: &mut O, kind: LineKind)
    ensures { Puts O.told (O.sent out.old) (line_text (kind_row kind)) (O.sent out.new) }
{
    match kind {
        LineKind::Straight => put_text(out, b"line straight\n"),
        LineKind::U => put_text(out, b"line u\n"),
    }
}

/// Puts the line of the question.
fn put_ask<O: Output>(out: &mut O, ask: Ask)
    ensures { Puts O.told (O.sent out.old) (line_text (ask_row ask)) (O.sent out.new) }
{
    match ask {
        Ask::Stations { cycle } => put_keyed(out, b"cycle", cycle),
        Ask::Cycle { stations } => put_keyed(out, b"stations", u64::from(stations)),
    }
}

/// Puts the line of a place.
fn put_seat<O: Output>(out: &mut O, kind: LineKind, place: &Seatplace)
    ensures { Puts O.told (O.sent out.old) (line_text (seat_row kind place.now)) (O.sent out.new) }
{
    put_number(out, u64::from(place.station));
    match kind {
        LineKind::Straight => put_text(out, b"\n"),
        LineKind::U => match place.side {
            Side::Front => put_text(out, b" f\n"),
            Side::Back => put_text(out, b" b\n"),
        },
    }
}

/// Puts the cycle, the set and the number of stations of an entry, each behind a blank.
fn put_question<O: Output>(out: &mut O, entry: &Entry, tasks: u32)
    requires { tasks ≤ 1024 }
    ensures { Puts O.told (O.sent out.old) (question_text tasks entry.now) (O.sent out.new) }
{
    out.put(b' ');
    put_number(out, entry.cycle);
    out.put(b' ');
    put_set(out, &entry.set, tasks);
    out.put(b' ');
    put_number(out, u64::from(entry.most));
}

/// Puts the line of an entry, its tasks counted from 1.
fn put_entry<O: Output>(out: &mut O, entry: &Entry, tasks: u32)
    requires { tasks ≤ 1024 }
    ensures { Puts O.told (O.sent out.old) (line_text (entry_row tasks entry.now)) (O.sent out.new) }
{
    match &entry.why {
        Why::Bound => {
            put_text(out, b"bound");
            put_question(out, entry, tasks);
            out.put(b'\n');
        }
        Why::Branch { mode, cites } => {
            put_text(out, b"branch ");
            put_mode(out, *mode);
            put_question(out, entry, tasks);
            out.put(b' ');
            put_cites(out, cites.as_slice());
            out.put(b'\n');
        }
        Why::Swap {
            cite,
            out_task,
            in_task,
        } => {
            put_text(out, b"swap");
            put_question(out, entry, tasks);
            put_swap(out, *cite, *out_task, *in_task);
            out.put(b'\n');
        }
        Why::Pairs { two } => {
            put_text(out, b"pairs");
            put_question(out, entry, tasks);
            out.put(b' ');
            put_set(out, two.set(), tasks);
            out.put(b'\n');
        }
    }
}

/// Puts the cite and the tasks of a swap, counted from 1, each behind a blank.
fn put_swap<O: Output>(out: &mut O, cite: u64, out_task: u32, in_task: u32)
    ensures { Puts O.told (O.sent out.old) (swap_text cite out_task in_task) (O.sent out.new) }
{
    out.put(b' ');
    put_number(out, cite);
    out.put(b' ');
    put_number(out, u64::from(out_task) + 1);
    out.put(b' ');
    put_number(out, u64::from(in_task) + 1);
}

/// Puts the line of a frame.
fn put_frame<O: Output>(out: &mut O, frame: &OpenFrame, tasks: u32)
    requires { tasks ≤ 1024 }
    ensures { Puts O.told (O.sent out.old) (line_text (frame_row tasks frame.now)) (O.sent out.new) }
{
    put_text(out, b"open ");
    put_mode(out, frame.mode);
    out.put(b' ');
    put_set(out, &frame.set, tasks);
    out.put(b' ');
    put_number(out, u64::from(frame.most));
    out.put(b' ');
    put_last(out, &frame.last, frame.mode, tasks);
    out.put(b' ');
    put_cites(out, frame.cites.as_slice());
    out.put(b'\n');
}

/// Puts the lines of a trail, or that of none.
fn put_trail<O: Output>(out: &mut O, left: &Option<Trail>, tasks: u32)
    requires { tasks ≤ 1024 }
    ensures { Puts O.told (O.sent out.old) (rows_text (trail_rows tasks left.now)) (O.sent out.new) }
{
    let Some(trail) = left else {
        put_text(out, b"trail 0\n");
        return;
    };
    put_text(out, b"trail ");
    put_number(out, trail.frames.len() as u64);
    put_text(out, b" at ");
    put_number(out, trail.cycle);
    out.put(b'\n');
    for frame in trail.frames.as_slice() {
        put_frame(out, frame, tasks);
    }
}

/// Puts the lines of entries and a trail.
pub fn put_list<O: Output>(out: &mut O, entries: &Entries, left: &Option<Trail>, tasks: u32)
    requires { tasks ≤ 1024 }
    ensures { Puts O.told (O.sent out.old) (rows_text (list_rows tasks entries.now left.now)) (O.sent out.new) }
{
    put_keyed(out, b"entries", entries.len() as u64);
    for entry in entries.as_slice() {
        put_entry(out, entry, tasks);
    }
    put_trail(out, left, tasks);
}

/// Puts the lines of places.
pub fn put_seats<O: Output>(out: &mut O, kind: LineKind, places: &[Seatplace])
    ensures { Puts O.told (O.sent out.old) (rows_text (map (seat_row kind) places.now)) (O.sent out.new) }
{
    for place in places {
        put_seat(out, kind, place);
    }
}

/// Puts the lines of bounds, up to the places.
fn put_bounds<O: Output>(out: &mut O, kind: LineKind, lower: u64, upper: u64, balance: &Balance)
    ensures { Puts O.told (O.sent out.old) (rows_text (bounds_rows kind lower upper balance.now)) (O.sent out.new) }
{
    put_keyed(out, b"lower", lower);
    put_keyed(out, b"upper", upper);
    put_keyed(out, b"balance", u64::from(balance.stations));
    put_seats(out, kind, balance.place.as_slice());
}

/// Puts the lines of a claim.
fn put_claim<O: Output>(out: &mut O, kind: LineKind, tasks: u32, claim: &Claim)
    requires { tasks ≤ 1024 }
    ensures { Puts O.told (O.sent out.old) (rows_text (claim_rows kind tasks claim.now)) (O.sent out.new) }
{
    match claim {
        Claim::TooLong { task } => {
            put_keyed(out, b"infeasible", u64::from(*task) + 1);
            put_text(out, b"end\n");
        }
        Claim::Bounds {
            lower,
            upper,
            balance,
            entries,
            trail,
        } => {
            put_bounds(out, kind, *lower, *upper, balance);
            put_list(out, entries, trail, tasks);
            put_text(out, b"end\n");
        }
    }
}

/// Whether an entry holds by pairs.
fn is_by_pairs(why: &Why) -> bool
    ensures { result ≡ by_pairs why.now }
{
    matches!(why, Why::Pairs { two: _ })
}

/// Whether some entry holds by pairs.
pub fn has_pairs(entries: &Entries) -> bool
    ensures { result ≡ some_pairs entries.now }
{
    entries
        .as_slice()
        .iter()
        .any(|entry| is_by_pairs(&entry.why))
}

// The least version that can hold a claim.
fn version_of(claim: &Claim) -> Version
    ensures { result ≡ least_version claim.now }
{
    match claim {
        Claim::TooLong { task: _ } => Version::Two,
        Claim::Bounds {
            lower: _,
            upper: _,
            balance: _,
            entries,
            trail: _,
        } => {
            if has_pairs(entries) {
                Version::Three
            } else {
                Version::Two
            }
        }
    }
}

/// Puts the lines of a certificate, in version 3 where an entry is by pairs, else in version 2.
pub fn put_cert<O: Output>(out: &mut O, cert: &Certificate)
    requires { cert.now.tasks ≤ 1024 }
    ensures { Puts O.told (O.sent out.old) (cert_text cert.now) (O.sent out.new) }
{
    put_version(out, version_of(&cert.claim));
    put_kind(out, cert.kind);
    put_keyed(out, b"tasks", u64::from(cert.tasks));
    put_ask(out, cert.ask);
    put_claim(out, cert.kind, cert.tasks, &cert.claim);
}
