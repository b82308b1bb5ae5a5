//! What no clause says: that texts are written and read where there is memory and no call fails, and how many calls are
//! made.
ghost use Rattle.std.specs.Prelude.{◌≡◌, ◌<◌, ◌≤◌, ◌+◌, ◌-◌, ◌^◌, ℕ, min, IsTrue};
ghost use Rattle.std.specs.List.{Contains};
ghost use Rattle.line_rules.specs.Entries.{HasAnswer};
ghost use Rattle.entry_lists.specs.Trim.{cited_by, CitesEarlier};

use cert_files::{CertFrom, Streamed, cert_from, stream_cert};
use cert_text::{CertFault, CertKind, CertRead, ListRead, read_cert, read_list, write_list};
use entry_lists::{answers, trim};
use line_instance::TaskSet;
use line_io::{Fetched, MemShelf, Shelf, Stored, Whole, read_whole};
use line_rules::{Entries, Why};
use std::alloc::{AllocError, Global};
use std::test::Fail;

const V5: &str =
    "line balance certificate 2\nline straight\ntasks 5\ncycle 7\nlower 3\nupper 3\nbalance 3\n1\n2\n1\n2\n3\n\
    entries 1\nbranch f 7 f8 2 -\ntrail 0\nend\n";

/// A shelf with a file `f` of this text; the call of number `fails` fails.
fn shelf_of(alloc: Global, text: &[u8], fails: u64) -> Result<MemShelf, Fail> {
    let mut list = Vec::new(alloc);
    list.push(fails)?;
    let mut shelf = MemShelf::new(alloc, list);
    shelf.put_file("f", text)?;
    Ok(shelf)
}

/// The word of a kind.
fn word_of(kind: CertKind) -> &'static str {
    match kind {
        CertKind::Ended => "ended",
        CertKind::Form => "form",
        CertKind::Range => "range",
        CertKind::Trailing => "trailing",
    }
}

/// What reading the file gave, in words.
fn told(alloc: Global, answer: CertFrom) -> Result<String, AllocError> {
    let mut text = String::new(alloc);
    match answer {
        CertFrom::Good(_) => text.push_str("good")?,
        CertFrom::Fault(fault) => {
            let CertFault { line, kind } = fault;
            write!(text, "line {line} ")?;
            text.push_str(word_of(kind))?;
        }
        CertFrom::TooLong => text.push_str("too long")?,
        CertFrom::ReadFault => text.push_str("read fault")?,
        CertFrom::NoMemory => text.push_str("no memory")?,
    }
    Ok(text)
}

/// Writes the certificate of the file `f` into the file `g`.
fn copied<S: Shelf>(alloc: Global, shelf: &mut S) -> Streamed {
    match cert_from(alloc, shelf, "f", 100000) {
        CertFrom::Good(cert) => stream_cert(alloc, shelf, "g", &cert),
        _ => Streamed::NoMemory,
    }
}

#[test]
fn a_certificate_is_written_as_it_was_read(rt: HostRuntime) -> Result<(), Fail> {
    let mut shelf = shelf_of(rt.alloc(), V5.as_bytes(), 99)?;
    assert_eq!(rt; copied(rt.alloc(), &mut shelf), Streamed::Done);
    let bytes = shelf.file("g").ok_or("missing")?;
    assert!(rt; bytes == V5.as_bytes());
    Ok(())
}

/// What reading a text gives, up to a limit, where the call of number `fails` fails.
fn read_up_to(alloc: Global, text: &str, fails: u64, limit: u64) -> Result<String, Fail> {
    let mut shelf = shelf_of(alloc, text.as_bytes(), fails)?;
    let answer = cert_from(alloc, &mut shelf, "f", limit);
    Ok(told(alloc, answer)?)
}

#[test]
fn a_call_that_fails_is_a_fault_of_reading(rt: HostRuntime) -> Result<(), Fail> {
    // the call that fails, the limit, and what reading the file gives
    let rows = [
        (0, 1000, "read fault"),
        (1, 1000, "read fault"),
        (2, 1000, "good"),
        (99, 133, "good"),
        (99, 132, "too long"),
    ];
    for (fails, limit, wanted) in rows {
        let got = read_up_to(rt.alloc(), V5, fails, limit)?;
        assert!(rt; got.as_str() == wanted, "call {fails} fails, limit {limit}");
    }
    Ok(())
}

#[test]
fn a_missing_name_is_a_read_fault(rt: HostRuntime) -> Result<(), Fail> {
    let mut shelf = shelf_of(rt.alloc(), V5.as_bytes(), 99)?;
    let answer = cert_from(rt.alloc(), &mut shelf, "g", 1000);
    assert_eq!(rt; told(rt.alloc(), answer)?.as_str(), "read fault");
    Ok(())
}

#[test]
fn a_text_is_too_long_before_it_is_at_fault(rt: HostRuntime) -> Result<(), Fail> {
    for (limit, wanted) in [(12, "line 1 form"), (11, "too long")] {
        let got = read_up_to(rt.alloc(), "no text\nend\n", 99, limit)?;
        assert!(rt; got.as_str() == wanted, "limit {limit}");
    }
    Ok(())
}

/// How the file `f`, which has this text, is written into the file `g` where a call fails and keeps so many bytes, how
/// many `g` has then, and whether the text begins with them.
fn copied_torn(
    alloc: Global,
    shelf: &mut MemShelf,
    text: &str,
    call: u64,
    keep: u64,
) -> Result<(Streamed, usize, bool), Fail> {
    shelf.tear(call, keep)?;
    let written = copied(alloc, shelf);
    let bytes = shelf.file("g").ok_or("missing")?;
    Ok((written, bytes.len(), text.as_bytes().starts_with(bytes)))
}

#[test]
fn a_call_that_fails_leaves_a_front_of_the_text(rt: HostRuntime) -> Result<(), Fail> {
    // the call that fails behind the two of reading, the bytes that it keeps, the answer, the bytes of the file, and
    // whether they begin the text
    let rows = [
        (2, 0, Streamed::WriteFault, 3, false),
        (3, 0, Streamed::WriteFault, 0, true),
        (3, 7, Streamed::WriteFault, 7, true),
        (4, 0, Streamed::Done, 133, true),
    ];
    for (call, keep, answer, length, is_front) in rows {
        let mut shelf = shelf_of(rt.alloc(), V5.as_bytes(), 99)?;
        shelf.put_file("g", b"old".as_slice())?;
        let got = copied_torn(rt.alloc(), &mut shelf, V5, call, keep)?;
        assert!(rt;
            got == (answer, length, is_front),
            "call {call} fails and keeps {keep}"
        );
    }
    Ok(())
}

/// A certificate with 6,000 entries, a text of 78,118 bytes.
fn long_text(alloc: Global) -> Result<String, AllocError> {
    let mut text = String::new(alloc);
    text.push_str(
        "line balance certificate 2\nline straight\ntasks 5\ncycle 7\nlower 3\nupper 3\nbalance 3\n1\n2\n1\n2\n3\n\
        entries 6000\n",
    )?;
    for _ in 0..6000 {
        text.push_str("bound 7 f8 1\n")?;
    }
    text.push_str("trail 0\nend\n")?;
    Ok(text)
}

#[test]
fn a_long_text_is_written_in_pieces(rt: HostRuntime) -> Result<(), Fail> {
    let text = long_text(rt.alloc())?;
    // the call that fails behind the three of reading, the bytes that it keeps, the answer, and the bytes of the file
    let rows = [
        (4, 7, Streamed::WriteFault, 7),
        (5, 0, Streamed::WriteFault, 65536),
        (5, 9, Streamed::WriteFault, 65545),
        (6, 0, Streamed::Done, 78118),
    ];
    for (call, keep, answer, length) in rows {
        let mut shelf = shelf_of(rt.alloc(), text.as_bytes(), 99)?;
        let got = copied_torn(rt.alloc(), &mut shelf, text.as_str(), call, keep)?;
        assert!(rt;
            got == (answer, length, true),
            "call {call} fails and keeps {keep}"
        );
    }
    Ok(())
}

/// A shelf that gives the bytes of its files one at a time, and refuses each write.
#[derive(Drop)]
struct Drops<S: Shelf> {
    shelf: S,
    refused: u64,
}

impl<S: Shelf> Drops<S> {
    /// Refuses a write.
    fn refuse(&mut self) -> Stored
        ensures refused { self.new.refused ≡ min (self.old.refused + 1) (2 ^ 64 - 1) }
        ensures count { self.old.refused ≤ self.new.refused }
        ensures shelf { self.new.shelf ≡ self.old.shelf }
    {
        self.refused = self.refused.saturating_add(1);
        Stored::Failed
    }
}

impl<S: Shelf> Shelf for Drops<S> {
    ghost use Rattle.std.specs.Prelude.{None, false};

    ghost tells = { ⊥ };

    ghost file = { λ _ _. None };

    ghost fetch_faults = { λ s. S.fetch_faults s.shelf };

    ghost write_faults = { λ s. s.refused };

    ghost blames = { λ _ _. false };

    ghost given = { λ s. S.given s.shelf };

    fn fetch(&mut self, name: &str, at: u64, piece: &mut [u8]) -> Fetched {
        let n = piece.len().min(1);
        self.shelf.fetch(name, at, &mut piece[..n])
    }

    fn fresh(&mut self, _name: &str) -> Stored {
        self.refuse()
    }

    fn append(&mut self, _name: &str, _bytes: &[u8]) -> Stored {
        self.refuse()
    }
}

/// The answer by way of the whole text in memory.
fn read_at_once<S: Shelf>(alloc: Global, shelf: &mut S, name: &str, limit: u64) -> CertFrom {
    match read_whole(alloc, shelf, name, limit) {
        Whole::ReadFault => CertFrom::ReadFault,
        Whole::TooLong => CertFrom::TooLong,
        Whole::NoMemory => CertFrom::NoMemory,
        Whole::Bytes(bytes) => match read_cert(alloc, &bytes) {
            CertRead::Good(cert) => CertFrom::Good(cert),
            CertRead::Fault(fault) => CertFrom::Fault(fault),
            CertRead::NoMemory => CertFrom::NoMemory,
        },
    }
}

/// What reading a text gives line by line, and at once.
fn read_twice(alloc: Global, text: &[u8]) -> Result<(String, String), Fail> {
    let mut shelf = shelf_of(alloc, text, 9999)?;
    let by_lines = cert_from(alloc, &mut shelf, "f", 1000);
    let at_once = read_at_once(alloc, &mut shelf, "f", 1000);
    Ok((told(alloc, by_lines)?, told(alloc, at_once)?))
}

/// What reading a text gives, one byte a fetch.
fn read_in_drops(alloc: Global, text: &[u8]) -> Result<String, Fail> {
    let shelf = shelf_of(alloc, text, 9999)?;
    let mut drops = Drops { shelf, refused: 0 };
    let answer = cert_from(alloc, &mut drops, "f", 1000);
    Ok(told(alloc, answer)?)
}

/// Whether reading a text gives this in each of the three ways.
fn is_read_as(alloc: Global, text: &[u8], wanted: &str) -> Result<bool, Fail> {
    let (by_lines, at_once) = read_twice(alloc, text)?;
    let in_drops = read_in_drops(alloc, text)?;
    let same = (by_lines.as_str() == wanted) & (at_once.as_str() == wanted);
    Ok(same & (in_drops.as_str() == wanted))
}

const V1: &str =
    "line balance certificate 1\nline straight\ntasks 5\ncycle 7\nlower 3\nupper 3\nbalance 3\n1\n2\n1\n2\n3\nparts 1\n\
    part 7\nentries 1\nbranch f f8 2 -\ntrail 0\nend\n";

const V6: &str =
    "line balance certificate 2\nline straight\ntasks 5\ncycle 7\nlower 2\nupper 3\nbalance 3\n1\n2\n1\n2\n3\n\
    entries 1\nbound 7 f8 1\ntrail 1 at 7\nopen f f8 2 90 -\nend\n";

/// Whether each beginning of a text has ended in its last line.
fn have_ended(alloc: Global, text: &str) -> Result<bool, Fail> {
    let mut right = true;
    let mut line = 1u64;
    for (k, byte) in text.as_bytes().iter().enumerate() {
        let wanted = format!(in alloc; "line {line} ended")?;
        right &= is_read_as(alloc, &text.as_bytes()[..k], wanted.as_str())?;
        if *byte == b'\n' && line < 99 {
            line += 1;
        }
    }
    Ok(right)
}

#[test]
fn a_text_that_is_cut_short_has_ended(rt: HostRuntime) -> Result<(), Fail> {
    for text in [V1, V5] {
        let ended = have_ended(rt.alloc(), text)?;
        assert!(rt; ended & is_read_as(rt.alloc(), text.as_bytes(), "good")?);
    }
    Ok(())
}

/// Whether a text is read alike line by line and at once, whichever byte stands at this place.
fn is_read_alike(alloc: Global, text: &str, place: usize) -> Result<bool, Fail> {
    let mut alike = true;
    for byte in [b'0', b'1', b'9', b' ', b'\n'] {
        let mut changed = text.as_bytes().to_vec(alloc)?;
        if place < changed.len() {
            changed[place] = byte;
        }
        let (by_lines, at_once) = read_twice(alloc, &changed)?;
        alike &= by_lines == at_once;
    }
    Ok(alike)
}

#[test]
fn texts_with_a_byte_changed_are_read_alike(rt: HostRuntime) -> Result<(), Fail> {
    for text in [V5, V6] {
        for k in 0..text.len() {
            assert!(rt; is_read_alike(rt.alloc(), text, k)?, "byte {k}");
        }
    }
    Ok(())
}

#[test]
fn after_a_fault_the_file_is_read_to_its_end(rt: HostRuntime) -> Result<(), Fail> {
    for (fails, wanted) in [(0, "read fault"), (1, "read fault"), (2, "line 1 form")] {
        let got = read_up_to(rt.alloc(), "no text\nend\n", fails, 1000)?;
        assert!(rt; got.as_str() == wanted, "call {fails} fails");
    }
    Ok(())
}

/// Whether some entry answers the question.
fn is_answered(entries: &Entries, set: &TaskSet, most: u32, cycle: u64) -> bool
    ensures { IsTrue result → HasAnswer entries.now set.now most cycle }
{
    for entry in entries.as_slice() {
        if answers(entry, set, most, cycle) {
            return true;
        }
    }
    false
}

/// Whether all that is cited comes before `k`.
fn are_before(why: &Why, k: u64) -> bool
    ensures { IsTrue result → (cite : ℕ) → Contains (cited_by why.now) cite → cite < k }
{
    match why {
        Why::Bound => true,
        Why::Branch { mode: _, cites } => are_below(cites.as_slice(), k),
        Why::Swap {
            cite,
            out_task: _,
            in_task: _,
        } => *cite < k,
        Why::Pairs { two: _ } => true,
    }
}

/// Whether all these are below `k`.
fn are_below(cites: &[u64], k: u64) -> bool
    ensures { IsTrue result → (cite : ℕ) → Contains cites.now cite → cite < k }
{
    for cite in cites {
        if *cite >= k {
            return false;
        }
    }
    true
}

/// Whether each entry cites entries before it alone.
fn cite_earlier(entries: &Entries) -> bool
    ensures { IsTrue result → CitesEarlier entries.now }
{
    for (k, entry) in entries.as_slice().iter().enumerate() {
        if !are_before(&entry.why, k as u64) {
            return false;
        }
    }
    true
}

/// A list over 7 tasks, written again after it is trimmed to the question in 4 stations at cycle 7.
fn trimmed(alloc: Global, text: &[u8]) -> Result<Vec<u8>, AllocError> {
    if let ListRead::Good {
        entries,
        trail: _,
        next: _,
        line: _,
    } = read_list(alloc, text, 0, 1, 7, true)
    {
        let all = TaskSet::full_to(7);
        if is_answered(&entries, &all, 4, 7) && cite_earlier(&entries) {
            let short = trim(alloc, entries, 7, 4, 7)?;
            return write_list(alloc, &short, &None, 7);
        }
    }
    Ok(Vec::new(alloc))
}

const SWAP: &str =
    "entries 4\nbranch f 7 3e 2 -\nbranch f 7 be 3 0\nswap 7 7e 3 1 2 1\nbranch f 7 fe 4 1,2\ntrail 0\n";

const LOOSE: &str =
    "entries 7\nbound 7 80 0\nbranch f 7 3e 2 -\nbranch f 7 be 3 1\nbound 7 c0 0\nswap 7 7e 3 2 2 1\n\
    branch f 7 fe 4 2,4\nbranch f 7 fe 4 5\ntrail 0\n";

#[test]
fn a_list_without_spare_entries_stays(rt: HostRuntime) -> Result<(), Fail> {
    let got = trimmed(rt.alloc(), SWAP.as_bytes())?;
    assert!(rt; got.as_slice() == SWAP.as_bytes());
    Ok(())
}

#[test]
fn spare_entries_are_taken_out(rt: HostRuntime) -> Result<(), Fail> {
    let got = trimmed(rt.alloc(), LOOSE.as_bytes())?;
    assert!(rt; got.as_slice() == SWAP.as_bytes());
    Ok(())
}
