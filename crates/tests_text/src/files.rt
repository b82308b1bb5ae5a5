//! What no clause says: that calls succeed where there is memory, what the system does, and
//! how many calls are made.
ghost use Rattle.std.specs.Prelude.{◌≡◌, IfOk, length};

use line_io::{
    DiskShelf, Fetched, MemShelf, MemSink, Num, OutSink, Shelf, Sink, Span, Stored, Whole, Written,
    line_end, number, read_whole, strip, write_whole,
};
use std::alloc::{AllocError, Global};
use std::fs;
use std::test::Fail;

fn filled(alloc: Global, n: usize) -> Result<Vec<u8>, AllocError>
    ensures { IfOk result (λ v. length v.items ≡ n) }
{
    vec![in alloc; b'x'; n]
}

/// A shelf with a file `f` of n bytes; the call of number `fails` fails.
fn shelf_of(alloc: Global, n: usize, fails: u64) -> Result<MemShelf, Fail> {
    let mut list = Vec::new(alloc);
    list.push(fails)?;
    let mut shelf = MemShelf::new(alloc, list);
    let bytes = filled(alloc, n)?;
    shelf.put_file("f", &bytes)?;
    Ok(shelf)
}

/// How many bytes were read, or why none were.
type Got = Result<usize, &'static str>;

fn length_read(whole: Whole) -> Got {
    match whole {
        Whole::Bytes(bytes) => Ok(bytes.len()),
        Whole::ReadFault => Err("read fault"),
        Whole::TooLong => Err("too long"),
        Whole::NoMemory => Err("no memory"),
    }
}

/// What is read of a file of n bytes up to a limit, and then again; the call of number `fails` fails.
fn read_twice(alloc: Global, n: usize, limit: u64, fails: u64) -> Result<(Got, Got), Fail> {
    let mut shelf = shelf_of(alloc, n, fails)?;
    let first = length_read(read_whole(alloc, &mut shelf, "f", limit));
    let second = length_read(read_whole(alloc, &mut shelf, "f", limit));
    Ok((first, second))
}

#[test]
fn reads_up_to_the_limit(rt: HostRuntime) -> Result<(), Fail> {
    let fault = Err("read fault");
    let long = Err("too long");
    // the bytes of the file, the limit, the call that fails, and what reading it twice gives
    let rows = [
        (0, 0, 9, Ok(0), Ok(0)),
        (0, 0, 1, Ok(0), fault),
        (1, 0, 9, long, long),
        (40, 40, 9, Ok(40), Ok(40)),
        (41, 40, 9, long, long),
        (40, 40, 0, fault, Ok(40)),
        (40, 40, 1, fault, Ok(40)),
        (40, 40, 2, Ok(40), fault),
        (65536, 65536, 2, Ok(65536), fault),
        (65537, 65537, 2, fault, Ok(65537)),
        (65537, 65537, 3, Ok(65537), fault),
        (65537, 65536, 9, long, long),
    ];
    for (bytes, limit, fails, first, second) in rows {
        let got = read_twice(rt.alloc(), bytes, limit, fails)?;
        assert!(rt;
            got == (first, second),
            "{bytes} bytes, limit {limit}, call {fails} fails"
        );
    }
    Ok(())
}

#[test]
fn a_missing_name_is_a_read_fault(rt: HostRuntime) -> Result<(), Fail> {
    let mut shelf = shelf_of(rt.alloc(), 1, 9)?;
    let got = length_read(read_whole(rt.alloc(), &mut shelf, "g", 9));
    assert_eq!(rt; got, Err("read fault"));
    Ok(())
}

/// How a text is written over a file of five bytes, where a call fails and keeps so many bytes, and how many the file
/// has then.
fn written_over(alloc: Global, bytes: &[u8], call: u64, keep: u64) -> Result<(Written, usize), Fail>
    requires { length bytes.now ≡ 131073 }
{
    let mut shelf = shelf_of(alloc, 5, 9)?;
    shelf.tear(call, keep)?;
    let written = write_whole(&mut shelf, "f", bytes);
    Ok((written, shelf.file("f").ok_or("missing")?.len()))
}

#[test]
fn writes_in_pieces(rt: HostRuntime) -> Result<(), Fail> {
    let bytes = filled(rt.alloc(), 131073)?;
    // the call that fails, the bytes that it keeps, the answer, and the bytes of the file
    let rows = [
        (9, 0, Written::Done, 131073),
        (0, 0, Written::WriteFault, 5),
        (1, 0, Written::WriteFault, 0),
        (1, 7, Written::WriteFault, 7),
        (3, 0, Written::WriteFault, 131072),
        (3, 8, Written::WriteFault, 131073),
        (4, 0, Written::Done, 131073),
    ];
    for (call, keep, answer, length) in rows {
        let got = written_over(rt.alloc(), &bytes, call, keep)?;
        assert!(rt;
            got == (answer, length),
            "call {call} fails and keeps {keep}"
        );
    }
    Ok(())
}

#[test]
fn puts_in_memory(rt: HostRuntime) -> Result<(), Fail> {
    let mut fails = Vec::new(rt.alloc());
    fails.push(0)?;
    let mut sink = MemSink::new(rt.alloc(), fails);
    sink.tear(2, 1)?;
    sink.tear(2, 3)?;
    let answers = [
        sink.put(b"ab"),
        sink.put(b"cd"),
        sink.put(b"efg"),
        sink.put(b"h"),
    ];
    let wanted = [Stored::Failed, Stored::Done, Stored::Failed, Stored::Done];
    assert!(rt; (answers == wanted) & (sink.bytes() == b"cdeh".as_slice()));
    Ok(())
}

/// Whether a file is made anew, and two pieces are written behind each other.
fn is_written<S: Shelf>(shelf: &mut S, name: &str) -> bool {
    (shelf.fresh(name) == Stored::Done)
        & (shelf.append(name, b"abc") == Stored::Done)
        & (shelf.append(name, b"def") == Stored::Done)
}

/// Whether the file's six bytes are fetched from a place on, and none behind its end.
fn is_fetched<S: Shelf>(shelf: &mut S, name: &str) -> bool {
    let mut piece = [0; 4];
    let inside = shelf.fetch(name, 1, &mut piece) == Fetched::Got(4);
    let same = piece.as_slice() == b"bcde".as_slice();
    let behind = shelf.fetch(name, 6, &mut piece) == Fetched::Got(0);
    inside & same & behind
}

#[test]
fn keeps_files_on_disk(rt: HostRuntime) -> Result<(), Fail> {
    let mut shelf = DiskShelf::new(&rt);
    let mut piece = [0; 4];
    let missing = (shelf.fetch("line_io_kept", 0, &mut piece) == Fetched::Failed)
        & (shelf.append("line_io_kept", b"a") == Stored::Failed);
    let written = is_written(&mut shelf, "line_io_kept") & is_written(&mut shelf, "line_io_kept");
    let fetched = is_fetched(&mut shelf, "line_io_kept");
    let got = length_read(read_whole(rt.alloc(), &mut shelf, "line_io_kept", 6));
    fs::remove_file(&rt, "line_io_kept")?;
    assert!(rt; missing & written & fetched & (got == Ok(6)));
    Ok(())
}

#[test]
fn puts_on_standard_output(rt: HostRuntime) {
    let mut sink = OutSink::new(&rt);
    assert_eq!(rt; sink.put(b"a report\n"), Stored::Done);
}

#[test]
fn reads_lines_and_numbers(rt: HostRuntime) {
    let text = b" \t12\r\n\n0007\n1000000000000000000000000000000000000000".as_slice();
    let ends = [(0, 5), (5, 5), (6, 6), (7, 11), (12, 52), (52, 52)];
    for (from, end) in ends {
        if from <= text.len() {
            assert_eq!(rt; line_end(text, from), end, "from {from}");
        }
    }
    // a line, and what is read in its content up to 12
    let rows = [
        (0, 5, Num::Value(12)),
        (6, 6, Num::NotANumber),
        (7, 11, Num::Value(7)),
        (12, 52, Num::Above),
        (0, 11, Num::NotANumber),
    ];
    for (from, to, want) in rows {
        if from <= to && to <= text.len() {
            let span = strip(text, Span { from, to });
            assert_eq!(rt; number(text, span, 12), want, "{from} to {to}");
        }
    }
}
