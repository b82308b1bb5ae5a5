//! Files in memory, which tell what they hold, and fail at chosen calls. Each call looks for its file by name from the
//! first one on: they are for the tests, which have few.
ghost use Rattle.std.specs.Prelude.{◌≡◌, ◌≢◌, ◌≤◌, ◌-◌, ◌⊎◌, ℕ, true, Some, None, IsSome, length, min, take, List, []};
ghost use Rattle.std.specs.Prelude.{option_map, OnOk, OnErr};
ghost use Rattle.line_io.specs.Outside.{up, Rises, BlamesAlone, Copies, Fetches, Gives, Grows, GrowsWhole};
ghost use Rattle.line_io.specs.inner.Places.{IsPlace};
ghost use Rattle.line_io.specs.Kept.{file_in, fetched, given_after, unused, counted, failed, IsToFail, blames};
ghost use Rattle.line_io.specs.Kept.{next_keep, torn, after_fetch, after_write, after_append, KeepsTorn};
ghost use Rattle.line_io.specs.declared.kept_files.Blame.TheVariants.{Nothing, File};
ghost use Rattle.line_io.specs.declared.outside.Fetched.TheVariants.{Failed as FetchFailed};
ghost use Rattle.line_io.specs.declared.outside.Stored.TheVariants.{Failed, Done};

use crate::calls::Calls;
use crate::kept_files::{
    Blame, MemFile, add, bytes_of, extend, extend_by_prefix, place_of, replace,
};
use crate::outside::{Fetched, Shelf, Stored};
use std::alloc::{AllocError, Global};
use std::marker::Model;

/// Files in memory. Its calls are `fetch`, `fresh` and `append`, numbered from 0 up to 2^64 - 1, where the number
/// stays; those of chosen numbers fail, each with a fault.
#[derive(Drop)]
pub struct MemShelf {
    alloc: Global,
    files: Vec<MemFile>,
    blame: Blame,
    calls: Calls,
    unfetched: u64,
    given: u64,
}

impl Model for MemShelf {
    ghost use Rattle.line_io.specs.Kept.{Kept};

    ghost Value = { Kept };

    ghost view = { λ s. record {
      files = s.files.items;
      blame = s.blame;
      calls = s.calls;
      unfetched = s.unfetched;
      given = s.given;
    } };
}

impl MemShelf {
    /// No files. The calls of these numbers, from 0, fail. It takes no memory itself.
    pub fn new(alloc: Global, fails: Vec<u64>) -> MemShelf
        ensures { result ≡ record {
          files = [];
          blame = Nothing;
          calls = unused fails.items;
          unfetched = 0;
          given = 0;
        } }
    {
        MemShelf {
            alloc,
            files: Vec::new(alloc),
            blame: Blame::Nothing,
            calls: Calls::new(alloc, fails),
            unfetched: 0,
            given: 0,
        }
    }

    /// Makes a file of these bytes, or gives them to the file of that name. It is no call. Out of memory, nothing
    /// changes.
    pub fn put_file(&mut self, name: &str, bytes: &[u8]) -> Result<(), AllocError>
        ensures done { OnOk result (file_in self.new.files name.now ≡ Some bytes.now) }
        ensures others { OnOk result ((q : List ℕ) → q ≢ name.now
            → file_in self.new.files q ≡ file_in self.old.files q) }
        ensures calls { self.new.calls ≡ self.old.calls }
        ensures err { OnErr result (self.new ≡ self.old) }
    {
        let bytes = Vec::from_slice(self.alloc, bytes)?;
        match place_of(&self.files, name.as_bytes()) {
            Some(k) => {
                replace(&mut self.files, name.as_bytes(), k, bytes);
                Ok(())
            }
            None => add(self.alloc, &mut self.files, name.as_bytes(), bytes),
        }
    }

    /// The bytes of a file: None exactly where the name is missing. It is no call.
    pub fn file(&self, name: &str) -> Option<&[u8]>
        ensures { option_map (λ b. b.now) result ≡ file_in self.now.files name.now }
    {
        bytes_of(&self.files, name.as_bytes())
    }

    /// Lets the call of a number fail; where it is an `append`, after the first `keep` bytes of its piece are kept, or
    /// all where it has fewer. The first tear of a number counts. It is no call. Out of memory, nothing changes.
    pub fn tear(&mut self, call: u64, keep: u64) -> Result<(), AllocError>
        ensures ok { OnOk result (self.new ≡ record self.old { calls = torn self.old.calls call keep }) }
        ensures err { OnErr result (self.new ≡ self.old) }
    {
        self.calls.tear(call, keep)
    }

    // A call on the file of this name failed.
    fn fail_on(&mut self, name: &str)
        ensures same { self.new ≡ record self.old { blame = self.new.blame } }
        ensures blame { blames self.new.files self.new.blame name.now ≡ true }
        ensures alone { BlamesAlone (file_in self.new.files) name.now (blames self.new.files self.new.blame) }
    {
        self.blame = match place_of(&self.files, name.as_bytes()) {
            Some(k) => Blame::File(k),
            None => Blame::Missing,
        };
    }

    // The same of a fetch, which is counted.
    fn fail_fetch(&mut self, name: &str) -> Fetched
        ensures result { result ≡ FetchFailed }
        ensures files { self.new.files ≡ self.old.files }
        ensures calls { self.new.calls ≡ self.old.calls }
        ensures given { self.new.given ≡ self.old.given }
        ensures unfetched { self.new.unfetched ≡ up self.old.unfetched }
        ensures count { self.old.unfetched ≤ self.new.unfetched }
        ensures blame { blames self.new.files self.new.blame name.now ≡ true }
        ensures alone { BlamesAlone (file_in self.new.files) name.now (blames self.new.files self.new.blame) }
    {
        self.unfetched = self.unfetched.saturating_add(1);
        self.fail_on(name);
        Fetched::Failed
    }

    // The same of a write, which is counted.
    fn fail_write(&mut self, name: &str) -> Stored
        ensures result { result ≡ Failed }
        ensures files { self.new.files ≡ self.old.files }
        ensures calls { self.new.calls ≡ failed self.old.calls }
        ensures given { self.new.given ≡ self.old.given }
        ensures unfetched { self.new.unfetched ≡ self.old.unfetched }
        ensures blame { blames self.new.files self.new.blame name.now ≡ true }
        ensures alone { BlamesAlone (file_in self.new.files) name.now (blames self.new.files self.new.blame) }
        ensures count { self.old.calls.faults ≤ self.new.calls.faults }
    {
        self.calls.fail();
        self.fail_on(name);
        Stored::Failed
    }
}

/// Writes what a torn call keeps behind the bytes of the file at a place, and counts its faults.
fn extend_torn(
    files: &mut [MemFile],
    calls: &mut Calls,
    name: &[u8],
    k: usize,
    bytes: &[u8],
    keep: u64,
)
    requires { IsPlace files.old name.now k }
    ensures torn { KeepsTorn (file_in files.old name.now) (take keep bytes.now) calls.old (file_in files.new name.now)
        calls.new }
    ensures grows { Grows (file_in files.old name.now) bytes.now (file_in files.new name.now) }
    ensures others { (q : List ℕ) → q ≢ name.now → file_in files.new q ≡ file_in files.old q }
    ensures blame { blames files.new (File k) name.now ≡ true }
    ensures alone { BlamesAlone (file_in files.new) name.now (blames files.new (File k)) }
    ensures count { calls.old.faults ≤ calls.new.faults }
    ensures fault { up calls.old.faults ≤ calls.new.faults }
{
    calls.fail();
    match extend_by_prefix(files, name, k, bytes, keep) {
        Ok(()) => {}
        Err(_) => calls.fail(),
    }
}

fn copy_piece(bytes: &[u8], at: u64, piece: &mut [u8]) -> usize
    ensures copies { Copies bytes.now at piece.new result }
    ensures most { result ≡ min (length bytes.now - at) (length piece.old) }
{
    if at >= bytes.len() as u64 {
        return 0;
    }
    let rest = &bytes[at as usize..];
    let n = rest.len().min(piece.len());
    piece[..n].copy_from_slice(&rest[..n]);
    n
}

impl Shelf for MemShelf {
    ghost use Rattle.line_io.specs.inner.Places.{IsPlace};
    ghost use Rattle.line_io.specs.Kept.{file_in, blames};

    ghost tells = { Unit {0} };

    ghost file = { λ s. file_in s.files };

    ghost fetch_faults = { λ s. s.unfetched };

    ghost write_faults = { λ s. s.calls.faults };

    ghost blames = { λ s. blames s.files s.blame };

    ghost given = { λ s. s.given };

    /// Fails exactly where the call is one of those that fail or the name is missing.
    /// Otherwise it gives as many bytes as are left and fit into the piece.
    fn fetch(&mut self, name: &str, at: u64, piece: &mut [u8]) -> Fetched
        ensures count { self.old.unfetched ≤ self.new.unfetched }
        ensures blame { result ≡ FetchFailed → blames self.new.files self.new.blame name.now ≡ true }
        ensures alone { result ≡ FetchFailed
            → BlamesAlone (file_in self.new.files) name.now (blames self.new.files self.new.blame) }
        ensures given { self.new.given ≡ given_after self.old.given result }
        ensures got { Fetches (file_in self.old.files name.now) at piece.new result }
        ensures fails { IsToFail self.old.calls → result ≡ FetchFailed }
        ensures works { ¬ IsToFail self.old.calls → result ≡ fetched (file_in self.old.files name.now) at
            (length piece.old) }
        ensures files { self.new.files ≡ self.old.files }
        ensures calls { self.new.calls ≡ counted self.old.calls }
        ensures unfetched { self.new.unfetched ≡ after_fetch self.old.unfetched result }
    {
        if self.calls.begin().is_some() {
            return self.fail_fetch(name);
        }
        match bytes_of(&self.files, name.as_bytes()) {
            Some(bytes) => {
                let n = copy_piece(bytes, at, piece);
                self.given = self.given.saturating_add(n as u64);
                Fetched::Got(n)
            }
            None => self.fail_fetch(name),
        }
    }

    /// Fails where the call is one of those that fail, or a new file finds no memory, and
    /// changes no file then.
    fn fresh(&mut self, name: &str) -> Stored
        ensures count { self.old.calls.faults ≤ self.new.calls.faults }
        ensures fetches { self.new.unfetched ≡ self.old.unfetched }
        ensures blame { result ≡ Failed → blames self.new.files self.new.blame name.now ≡ true }
        ensures alone { result ≡ Failed
            → BlamesAlone (file_in self.new.files) name.now (blames self.new.files self.new.blame) }
        ensures fails { IsToFail self.old.calls → result ≡ Failed }
        ensures works { ¬ IsToFail self.old.calls → IsSome (file_in self.old.files name.now) → result ≡ Done }
        ensures done { result ≡ Done → file_in self.new.files name.now ≡ Some [] }
        ensures failed { result ≡ Failed → self.new.files ≡ self.old.files }
        ensures others { (q : List ℕ) → q ≢ name.now → file_in self.new.files q ≡ file_in self.old.files q }
        ensures calls { self.new.calls ≡ after_write self.old.calls result }
    {
        if self.calls.begin().is_some() {
            return self.fail_write(name);
        }
        let empty = Vec::new(self.alloc);
        match place_of(&self.files, name.as_bytes()) {
            Some(k) => {
                replace(&mut self.files, name.as_bytes(), k, empty);
                Stored::Done
            }
            None => match add(self.alloc, &mut self.files, name.as_bytes(), empty) {
                Ok(()) => Stored::Done,
                Err(_) => self.fail_write(name),
            },
        }
    }

    /// Fails where the call is one of those that fail, the name is missing, or the file finds no memory. A torn call
    /// keeps as many bytes as its tear says; where memory refuses them it keeps none, and a second fault is counted.
    /// Where the name is missing no fault is counted.
    fn append(&mut self, name: &str, bytes: &[u8]) -> Stored
        ensures count { self.old.calls.faults ≤ self.new.calls.faults }
        ensures fault { result ≡ Failed → Rises self.old.calls.faults self.new.calls.faults
            ⊎ (Unit {0} × (file_in self.old.files name.now ≡ None)) }
        ensures lost { file_in self.old.files name.now ≡ None → self.new.calls.faults ≡ self.old.calls.faults }
        ensures fetches { self.new.unfetched ≡ self.old.unfetched }
        ensures blame { result ≡ Failed → blames self.new.files self.new.blame name.now ≡ true }
        ensures alone { result ≡ Failed
            → BlamesAlone (file_in self.new.files) name.now (blames self.new.files self.new.blame) }
        ensures fails { IsToFail self.old.calls → result ≡ Failed }
        ensures missing { file_in self.old.files name.now ≡ None → result ≡ Failed }
        ensures done { result ≡ Done → GrowsWhole (file_in self.old.files name.now) bytes.now
            (file_in self.new.files name.now) }
        ensures failed { result ≡ Failed → Grows (file_in self.old.files name.now) bytes.now
            (file_in self.new.files name.now) }
        ensures refused { result ≡ Failed → ¬ IsToFail self.old.calls
            → file_in self.new.files name.now ≡ file_in self.old.files name.now }
        ensures torn { IsToFail self.old.calls → KeepsTorn (file_in self.old.files name.now)
            (take (next_keep self.old.calls) bytes.now) (counted self.old.calls) (file_in self.new.files name.now)
            self.new.calls }
        ensures others { (q : List ℕ) → q ≢ name.now → file_in self.new.files q ≡ file_in self.old.files q }
        ensures calls { ¬ IsToFail self.old.calls
            → self.new.calls ≡ after_append (file_in self.old.files name.now) self.old.calls result }
    {
        let keep = self.calls.begin();
        let Some(k) = place_of(&self.files, name.as_bytes()) else {
            self.blame = Blame::Missing;
            return Stored::Failed;
        };
        if let Some(keep) = keep {
            self.blame = Blame::File(k);
            extend_torn(
                &mut self.files,
                &mut self.calls,
                name.as_bytes(),
                k,
                bytes,
                keep,
            );
            return Stored::Failed;
        }
        match extend(&mut self.files, name.as_bytes(), k, bytes) {
            Ok(()) => Stored::Done,
            Err(_) => self.fail_write(name),
        }
    }
}
