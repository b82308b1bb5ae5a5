//! The lines of a file that is fetched piece by piece.
//!
//! Bytes of a line are taken out of the piece that waits, and a new piece is fetched where the line isn't ended yet. So
//! each byte is fetched once, looked at once for the end of its line, and copied once. The first thing that stops the
//! lines is remembered, and no line comes after it.
ghost use Rattle.std.specs.Prelude.{◌≡◌, ◌≢◌, ◌⊎◌, ◌+◌, ◌<◌, ◌≤◌, ◌++◌, [], ℕ, true, List, length, slice_range};
ghost use Rattle.line_io.specs.Outside.{Rises};
ghost use Rattle.cert_lines.specs.Taking.{IsTaken, IsAtEnd};
ghost use Rattle.cert_files.specs.inner.Pieces.{bytes_of};
ghost use Rattle.cert_files.specs.inner.Rest.{bytes_from, IsWithin};
ghost use Rattle.cert_files.specs.declared.stop.Next.{Next};
ghost use Rattle.cert_files.specs.declared.stop.Rest.{Rest};
ghost use Rattle.cert_files.specs.declared.stop.Stop.{Stop};

use crate::stop::{Next, Part, Refill, Rest, Stop};
use crate::window::Window;
use cert_text::{Source, Taken};
use line_io::Shelf;

/// The lines of the file of a name, which has at most `limit` bytes; `at` of them were fetched.
#[derive(Drop)]
pub(crate) struct FileLines<'a, 'b, S: Shelf> {
    pub(crate) shelf: &'a mut S,
    pub(crate) name: &'b str,
    pub(crate) limit: u64,
    pub(crate) at: u64,
    pub(crate) window: Window,
    pub(crate) line: Vec<u8>,
    pub(crate) number: u64,
    pub(crate) stop: Stop,
    ghost within: { at ≤ limit },
    ghost blame: { S.tells → stop ≡ Stop.Failed → S.blames shelf.now name.now ≡ true },
    ghost long: { S.tells → stop ≡ Stop.TooLong → limit < length (bytes_of (S.file shelf.now name.now)) },
}

// Takes the next line of a file, of which `at` bytes were fetched and those in the window wait.
fn next_line<S: Shelf>(
    shelf: &mut S,
    name: &str,
    limit: u64,
    at: &mut u64,
    window: &mut Window,
    line: &mut Vec<u8>,
) -> Next
    requires within { at.old ≤ limit }
    requires none { line.old.items ≡ [] }
    ensures count { S.fetch_faults shelf.old ≤ S.fetch_faults shelf.new }
    ensures writes { S.write_faults shelf.new ≡ S.write_faults shelf.old }
    ensures fault { result ≡ Next.Failed → Rises (S.fetch_faults shelf.old) (S.fetch_faults shelf.new) }
    ensures blame { S.tells → result ≡ Next.Failed → S.blames shelf.new name.now ≡ true }
    ensures files { S.tells → (q : List ℕ) → S.file shelf.new q ≡ S.file shelf.old q }
    ensures within { at.new ≤ limit }
    ensures line { S.tells → result ≡ Next.Line → IsTaken (slice_range window.old.piece.items window.old.from
        window.old.to ++ bytes_from at.old (S.file shelf.old name.now)) line.new.items
        (slice_range window.new.piece.items window.new.from window.new.to
        ++ bytes_from at.new (S.file shelf.old name.now)) }
    ensures end { S.tells → result ≡ Next.End → IsAtEnd (slice_range window.old.piece.items window.old.from
        window.old.to ++ bytes_from at.old (S.file shelf.old name.now)) }
    ensures long { S.tells → result ≡ Next.TooLong → limit < length (bytes_of (S.file shelf.old name.now)) }
{
    'pieces: loop {
        match window.take_line(line) {
            Part::Line => return Next::Line,
            Part::Memory => return Next::Memory,
            Part::Open => {}
        }
        match window.refill(shelf, name, *at, limit) {
            Refill::End => return Next::End,
            Refill::Failed => return Next::Failed,
            Refill::TooLong => return Next::TooLong,
            Refill::More => {}
        }
        *at += window.len() as u64;
    }
}

impl<'a, 'b, S: Shelf> Source for FileLines<'a, 'b, S> {
    ghost use Rattle.std.specs.Prelude.{◌++◌, slice_range};
    ghost use Rattle.cert_files.specs.inner.Rest.{Reading, bytes_from, least_of};

    ghost told = { S.tells };

    ghost left = { λ s. slice_range s.window.piece.items s.window.from s.window.to
        ++ bytes_from s.at (S.file s.shelf.now s.name.now) };

    ghost line = { λ s. s.line.items };

    ghost number = { λ s. s.number };

    ghost Base = { Reading S.tells };

    ghost base = { λ s. (
      s.shelf.ghost_name,
      s.name.now,
      s.limit,
      S.write_faults s.shelf.now,
      λ told. S.file s.shelf.now,
    ) };

    ghost faults = { λ s. S.fetch_faults s.shelf.now };

    ghost least = { λ s. least_of s.stop (S.fetch_faults s.shelf.now) };

    fn advance(&mut self) -> Taken {
        if self.stop != Stop::Going || self.number == u64::MAX {
            return Taken::Stopped;
        }
        self.line.clear();
        match next_line(
            self.shelf,
            self.name,
            self.limit,
            &mut self.at,
            &mut self.window,
            &mut self.line,
        ) {
            Next::Line => {
                self.number += 1;
                Taken::Line
            }
            Next::End => {
                self.number += 1;
                Taken::End
            }
            Next::Failed => {
                self.stop = Stop::Failed;
                Taken::Stopped
            }
            Next::TooLong => {
                self.stop = Stop::TooLong;
                Taken::Stopped
            }
            Next::Memory => {
                self.stop = Stop::Memory;
                Taken::Stopped
            }
        }
    }

    fn line(&self) -> &[u8] {
        self.line.as_slice()
    }

    fn number(&self) -> u64 {
        self.number
    }
}

/// Reads on to the end of a file, of which `at` bytes were fetched and those in the window wait.
pub(crate) fn read_on<S: Shelf>(
    shelf: &mut S,
    name: &str,
    limit: u64,
    from: u64,
    mut window: Window,
) -> Rest
    requires { from ≤ limit }
    ensures count { S.fetch_faults shelf.old ≤ S.fetch_faults shelf.new }
    ensures writes { S.write_faults shelf.new ≡ S.write_faults shelf.old }
    ensures fault { result ≡ Rest.Failed → Rises (S.fetch_faults shelf.old) (S.fetch_faults shelf.new) }
    ensures blame { S.tells → result ≡ Rest.Failed → S.blames shelf.new name.now ≡ true }
    ensures files { S.tells → (q : List ℕ) → S.file shelf.new q ≡ S.file shelf.old q }
    ensures nothing { S.tells → result ≡ Rest.Nothing → slice_range window.piece.items window.from window.to
        ++ bytes_from from (S.file shelf.old name.now) ≡ [] }
    ensures more { S.tells → result ≡ Rest.More → 0 < length
        (slice_range window.piece.items window.from window.to ++ bytes_from from (S.file shelf.old name.now)) }
    ensures whole { S.tells → result ≡ Rest.Nothing → IsWithin (S.file shelf.old name.now) limit }
    ensures within { S.tells → result ≡ Rest.More → IsWithin (S.file shelf.old name.now) limit }
    ensures long { S.tells → result ≡ Rest.TooLong → limit < length (bytes_of (S.file shelf.old name.now)) }
{
    let waiting = window.len();
    let mut at = from;
    'pieces: loop {
        match window.refill(shelf, name, at, limit) {
            Refill::Failed => return Rest::Failed,
            Refill::TooLong => return Rest::TooLong,
            Refill::End => return behind(waiting, from, at),
            Refill::More => {}
        }
        at += window.len() as u64;
    }
}

// What stands behind a place from which so many bytes wait, and bytes were fetched up to another place.
fn behind(waiting: usize, from: u64, to: u64) -> Rest
    ensures nothing { result ≡ Rest.Nothing → (waiting ≡ 0) × (from ≡ to) }
    ensures more { result ≡ Rest.More → (0 < waiting) ⊎ (from ≢ to) }
    ensures whole { (result ≡ Rest.Nothing) ⊎ (result ≡ Rest.More) }
{
    if waiting == 0 && from == to {
        return Rest::Nothing;
    }
    Rest::More
}
