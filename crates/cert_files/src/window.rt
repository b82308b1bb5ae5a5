//! The bytes of a file that were fetched and wait to be read.
//!
//! The piece has one size. A line is put together in a vector of its own, and may be longer than a piece.
ghost use Rattle.std.specs.Prelude.{◌≡◌, ◌≢◌, ◌+◌, ◌<◌, ◌≤◌, ◌∷◌, ◌++◌, [], ℕ, true, List, length, slice_range};
ghost use Rattle.std.specs.Prelude.{vec_len};
ghost use Rattle.line_io.specs.Outside.{Rises};
ghost use Rattle.cert_lines.specs.Faults.{IsLine};
ghost use Rattle.cert_files.specs.inner.Pieces.{bytes_of};
ghost use Rattle.cert_files.specs.inner.Rest.{IsNext, IsEnd};
ghost use Rattle.cert_files.specs.declared.stop.Refill.{Refill};
ghost use Rattle.cert_files.specs.declared.stop.Part.{Part};

use crate::stop::{Part, Refill};
use line_io::{Fetched, Shelf, line_end};

/// The most bytes of a line: 2^28. A certificate that is accepted has shorter ones. Each cite needs a load that was
/// walked, so a line has at most 20,000,000 cites, each of at most eight digits and a comma. A longer line is answered
/// as out of memory, so that it never stands there.
const MAX_LINE: usize = 1 << 28;

/// A piece that was fetched: its bytes from `from` up to `to` wait.
#[derive(Drop)]
pub(crate) struct Window {
    pub(crate) piece: Vec<u8>,
    pub(crate) from: usize,
    pub(crate) to: usize,
    ghost span: { from ≤ to },
    ghost room: { to ≤ vec_len piece },
    ghost some: { 0 < vec_len piece },
}

impl Window {
    /// How many bytes wait.
    pub(crate) fn len(&self) -> usize
        ensures { result ≡ length (slice_range self.now.piece.items self.now.from self.now.to) }
    {
        self.to - self.from
    }

    /// Takes the bytes that wait up to the next LF behind a line's, and the LF out, or all where there is none.
    pub(crate) fn take_line(&mut self, line: &mut Vec<u8>) -> Part
        ensures line { result ≡ Part.Line → (part : List ℕ)
            × (slice_range self.old.piece.items self.old.from self.old.to ≡ part
            ++ 10 ∷ slice_range self.new.piece.items self.new.from self.new.to)
            × (line.new.items ≡ line.old.items ++ part) × IsLine part }
        ensures open { result ≡ Part.Open → line.new.items ≡ line.old.items
            ++ slice_range self.old.piece.items self.old.from self.old.to }
        ensures none { result ≡ Part.Open → IsLine (slice_range self.old.piece.items self.old.from self.old.to) }
    {
        let rest = &self.piece[self.from..self.to];
        let end = line_end(rest, 0);
        let is_last = end == rest.len();
        if line.len().saturating_add(end) > MAX_LINE
            || line.extend_from_slice(&rest[..end]).is_err()
        {
            return Part::Memory;
        }
        if is_last {
            return Part::Open;
        }
        self.from += end + 1;
        Part::Line
    }

    /// Fetches the bytes of a file from `at` on in place of those that wait; at most `limit` bytes in all.
    pub(crate) fn refill<S: Shelf>(
        &mut self,
        shelf: &mut S,
        name: &str,
        at: u64,
        limit: u64,
    ) -> Refill
        requires { at ≤ limit }
        ensures count { S.fetch_faults shelf.old ≤ S.fetch_faults shelf.new }
        ensures writes { S.write_faults shelf.new ≡ S.write_faults shelf.old }
        ensures fault { result ≡ Refill.Failed → Rises (S.fetch_faults shelf.old) (S.fetch_faults shelf.new) }
        ensures blame { S.tells → result ≡ Refill.Failed → S.blames shelf.new name.now ≡ true }
        ensures files { S.tells → (q : List ℕ) → S.file shelf.new q ≡ S.file shelf.old q }
        ensures within { result ≡ Refill.More → at + length (slice_range self.new.piece.items self.new.from self.new.to)
            ≤ limit }
        ensures some { result ≡ Refill.More → 0 < length (slice_range self.new.piece.items self.new.from self.new.to) }
        ensures next { S.tells → result ≡ Refill.More → IsNext (S.file shelf.old name.now) at
            (slice_range self.new.piece.items self.new.from self.new.to) }
        ensures end { S.tells → result ≡ Refill.End → IsEnd (S.file shelf.old name.now) at }
        ensures long { S.tells → result ≡ Refill.TooLong → limit < length (bytes_of (S.file shelf.old name.now)) }
    {
        self.from = 0;
        self.to = 0;
        match shelf.fetch(name, at, &mut self.piece) {
            Fetched::Failed => Refill::Failed,
            Fetched::Got(0) => Refill::End,
            Fetched::Got(n) => {
                if n as u64 > limit - at {
                    return Refill::TooLong;
                }
                self.to = n;
                Refill::More
            }
        }
    }
}
