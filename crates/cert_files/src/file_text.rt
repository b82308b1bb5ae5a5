//! A text that is put into a file piece by piece.
//!
//! A byte costs a push into a buffer whose memory is taken before the file is touched. A full buffer, 65,536 bytes, is
//! one call on the shelf. After the first call that fails nothing more is put, so that the file has a prefix of the
//! text.
ghost use Rattle.std.specs.Prelude.{◌≡◌, ◌≢◌, ◌≤◌, true, None, vec_len, vec_capacity};

use cert_text::Output;
use line_io::{PIECE, Shelf, Stored};

/// A text that is put into the file of a name: its bytes wait in a buffer until that is full. It remembers its first
/// failure.
#[derive(Drop)]
pub(crate) struct FileText<'a, 'b, S: Shelf> {
    pub(crate) shelf: &'a mut S,
    pub(crate) name: &'b str,
    pub(crate) buffer: Vec<u8>,
    pub(crate) failed: bool,
    ghost room: { 65536 ≤ vec_capacity buffer },
    ghost full: { vec_len buffer ≤ 65536 },
    ghost blame: { S.tells → failed ≡ true → S.blames shelf.now name.now ≡ true },
    ghost there: { S.tells → S.file shelf.now name.now ≢ None },
}

impl<'a, 'b, S: Shelf> Output for FileText<'a, 'b, S> {
    ghost use Rattle.cert_files.specs.inner.Pieces.{Staying, sent_into};

    ghost told = { S.tells };

    ghost Base = { Staying S.tells };

    ghost sent = { λ s. sent_into S.tells s.failed s.buffer.items s.shelf.ghost_name s.name.now (S.file s.shelf.now)
        (S.write_faults s.shelf.now) };

    #[inline]
    fn put(&mut self, byte: u8) {
        if self.failed {
            return;
        }
        if self.buffer.len() < PIECE {
            self.buffer.push_reserved(byte);
            return;
        }
        match self.shelf.append(self.name, &self.buffer) {
            Stored::Failed => {
                self.failed = true;
                return;
            }
            Stored::Done => {}
        }
        self.buffer.clear();
        self.buffer.push_reserved(byte);
    }
}
