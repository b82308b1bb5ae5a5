//! The writing of a certificate's text.
ghost use Rattle.std.specs.Prelude.{◌≡◌, ◌<◌, All, IfOk};
ghost use Rattle.cert_lines.specs.Rows.{number_or_none, fixed, line_text, rows_text};
ghost use Rattle.cert_text.specs.Sent.{Puts};
ghost use Rattle.sequence_rules.specs.Ranges.{IsInRange};
ghost use Rattle.sequence_cert.specs.SequenceText.{unit_row, entry_row, counted, frame_row, first_line};
ghost use Rattle.sequence_cert.specs.SequenceText.{size_rows, charges_rows, bound_rows, unit_rows, entry_rows};
ghost use Rattle.sequence_cert.specs.SequenceText.{frame_rows, sequence_text};
ghost use Rattle.sequence_cert.specs.inner.Pieces.{state_text, cited_text};

use cert_text::{KeptText, Output, put_cites, put_keyed, put_number, put_text};
use sequence_values::{Numbers, SeqCert, SeqEntries, SeqEntry, SeqFrame, SeqFrames, SeqWhy};
use std::alloc::{AllocError, Global};

// Puts what is left and the starts, each behind a blank, and a blank.
fn put_state<O: Output>(out: &mut O, rem: &Numbers, starts: &Numbers)
    ensures { Puts O.told (O.sent out.old) (state_text rem.now starts.now) (O.sent out.new) }
{
    out.put(b' ');
    put_cites(out, rem.as_slice());
    out.put(b' ');
    put_cites(out, starts.as_slice());
    out.put(b' ');
}

// Puts what an entry with cites says behind its first word.
fn put_cited<O: Output>(out: &mut O, entry: &SeqEntry, cites: &Numbers)
    ensures { Puts O.told (O.sent out.old) (cited_text entry.now.rem entry.now.starts entry.now.least cites.now)
        (O.sent out.new) }
{
    put_state(out, &entry.rem, &entry.starts);
    put_number(out, entry.least);
    out.put(b' ');
    put_cites(out, cites.as_slice());
    out.put(b'\n');
}

// Puts the line of an entry.
fn put_entry<O: Output>(out: &mut O, entry: &SeqEntry)
    ensures { Puts O.told (O.sent out.old) (line_text (entry_row entry.now)) (O.sent out.new) }
{
    match &entry.why {
        SeqWhy::Bound => {
            put_text(out, b"bound");
            put_state(out, &entry.rem, &entry.starts);
            put_number(out, entry.least);
            out.put(b'\n');
        }
        SeqWhy::Branch { cites } => {
            put_text(out, b"branch");
            put_cited(out, entry, cites);
        }
        SeqWhy::Charge { cites } => {
            put_text(out, b"charge");
            put_cited(out, entry, cites);
        }
    }
}

// Puts a model, counted from 1, or `-` for none.
fn put_last<O: Output>(out: &mut O, last: Option<u32>)
    ensures { Puts O.told (O.sent out.old) (number_or_none (counted last)) (O.sent out.new) }
{
    match last {
        Some(model) => put_number(out, u64::from(model) + 1),
        None => out.put(b'-'),
    }
}

// Puts the line of a frame.
fn put_frame<O: Output>(out: &mut O, frame: &SeqFrame)
    ensures { Puts O.told (O.sent out.old) (line_text (frame_row frame.now)) (O.sent out.new) }
{
    put_text(out, b"open");
    put_state(out, &frame.rem, &frame.starts);
    put_number(out, frame.need);
    out.put(b' ');
    put_last(out, frame.last);
    out.put(b' ');
    put_cites(out, frame.cites.as_slice());
    out.put(b'\n');
}

// Puts the line of a unit: its model, counted from 1.
fn put_unit<O: Output>(out: &mut O, model: u64)
    requires { model < 16 }
    ensures { Puts O.told (O.sent out.old) (line_text (unit_row model)) (O.sent out.new) }
{
    put_number(out, model + 1);
    out.put(b'\n');
}

// Puts the lines of a sequence.
fn put_units<O: Output>(out: &mut O, sequence: &Numbers)
    requires { All (λ m. m < 16) sequence.now }
    ensures { Puts O.told (O.sent out.old) (rows_text (unit_rows sequence.now)) (O.sent out.new) }
{
    put_keyed(out, b"units", sequence.len() as u64);
    for model in sequence.as_slice() {
        put_unit(out, *model);
    }
}

// Puts the lines of entries.
fn put_entries<O: Output>(out: &mut O, entries: &SeqEntries)
    ensures { Puts O.told (O.sent out.old) (rows_text (entry_rows entries.now)) (O.sent out.new) }
{
    put_keyed(out, b"entries", entries.len() as u64);
    for entry in entries.as_slice() {
        put_entry(out, entry);
    }
}

// Puts the lines of frames.
fn put_frames<O: Output>(out: &mut O, frames: &SeqFrames)
    ensures { Puts O.told (O.sent out.old) (rows_text (frame_rows frames.now)) (O.sent out.new) }
{
    put_keyed(out, b"trail", frames.len() as u64);
    for frame in frames.as_slice() {
        put_frame(out, frame);
    }
}

// Puts the first line: version 2 where there are charges, else version 1.
fn put_first<O: Output>(out: &mut O, charges: &Option<Numbers>)
    ensures { Puts O.told (O.sent out.old) (line_text (fixed (first_line charges.now))) (O.sent out.new) }
{
    match charges {
        None => put_text(out, b"utility sequence certificate 1\n"),
        Some(_) => put_text(out, b"utility sequence certificate 2\n"),
    }
}

// Puts the lines of the numbers of models and of stations.
fn put_sizes<O: Output>(out: &mut O, models: u32, stations: u32)
    ensures { Puts O.told (O.sent out.old) (rows_text (size_rows models stations)) (O.sent out.new) }
{
    put_keyed(out, b"models", u64::from(models));
    put_keyed(out, b"stations", u64::from(stations));
}

// Puts the line of the charges, where there are some.
fn put_charges<O: Output>(out: &mut O, charges: &Option<Numbers>)
    ensures { Puts O.told (O.sent out.old) (rows_text (charges_rows charges.now)) (O.sent out.new) }
{
    match charges {
        None => {}
        Some(charges) => {
            put_text(out, b"charges ");
            put_cites(out, charges.as_slice());
            out.put(b'\n');
        }
    }
}

// Puts the lines of the bounds.
fn put_bounds<O: Output>(out: &mut O, lower: u64, upper: u64)
    ensures { Puts O.told (O.sent out.old) (rows_text (bound_rows lower upper)) (O.sent out.new) }
{
    put_keyed(out, b"lower", lower);
    put_keyed(out, b"upper", upper);
}

// Puts the lines of a certificate.
fn put_sequence<O: Output>(out: &mut O, cert: &SeqCert)
    requires { All (λ m. m < 16) cert.now.sequence }
    ensures { Puts O.told (O.sent out.old) (sequence_text cert.now) (O.sent out.new) }
{
    put_first(out, &cert.charges);
    put_sizes(out, cert.models, cert.stations);
    put_charges(out, &cert.charges);
    put_bounds(out, cert.lower, cert.upper);
    put_units(out, &cert.sequence);
    put_entries(out, &cert.entries);
    put_frames(out, &cert.frames);
    put_text(out, b"end\n");
}

/// The text of a certificate within its ranges. An error where memory is out.
pub fn write_seq(alloc: Global, cert: &SeqCert) -> Result<Vec<u8>, AllocError>
    requires { IsInRange cert.now }
    ensures { IfOk result (λ bytes. bytes.items ≡ sequence_text cert.now) }
{
    let mut text = KeptText::new(alloc);
    put_sequence(&mut text, cert);
    text.finish()
}
