//! What no clause says: that old entries that are taken in one after the other and side by side come to the same.
ghost use Rattle.std.specs.Prelude.{◌≡◌, IfOk};
ghost use Rattle.line_instance.specs.Line.{tasks};
ghost use Rattle.line_rules.specs.Ranges.{AreEntries, IsInRange};

use cert_text::{CertRead, read_cert};
use command_solve::entries_in;
use first_fit::{Ranked, ranked_balance};
use lemma_core::Book;
use line_instance::{Instance, Made, make};
use line_rules::{Certificate, Entries, LineKind};
use round_run::open_book;
use std::alloc::{AllocError, Global};
use std::test::Fail;
use warm_book::{Warmed, warm, warm_wide};

const CYCLE: u64 = 7;

/// The first lines of a certificate of six free tasks at 7, in four stations.
const SIX: &str =
    "line balance certificate 2\nline straight\ntasks 6\ncycle 7\nlower 4\nupper 4\nbalance 4\n1\n2\n3\n2\n3\n4\n";

fn six(alloc: Global) -> Result<Instance, Fail> {
    match make(alloc, Vec::from_slice(alloc, &[7, 4, 4, 2, 2, 2])?, &[]) {
        Made::Good(inst) => Ok(inst),
        _ => Err("no instance")?,
    }
}

/// Whether the round has lemmas that don't hold.
fn is_bad(round: u64, every: u64) -> bool {
    round.checked_rem(every) == Some(0)
}

/// A certificate with so many rounds of lemmas: that the last five tasks don't fit into two stations, with 15 loads,
/// and that all six don't fit into three, with 16 and a cite of the first. A bad round has two more: that the five
/// don't fit into three, which is false, and that all six don't fit into three, with a cite of that.
fn rounds_text(alloc: Global, rounds: u32, every: u32) -> Result<String, AllocError> {
    let mut lines = String::new(alloc);
    let mut count: u32 = 0;
    for round in 0..rounds {
        write!(lines, "branch f 7 7c 2 -\nbranch f 7 fc 3 {count}\n")?;
        count = count.saturating_add(2);
        if is_bad(u64::from(round), u64::from(every)) {
            write!(lines, "branch f 7 7c 3 -\nbranch f 7 fc 3 {count}\n")?;
            count = count.saturating_add(2);
        }
    }
    format!(in alloc; "{SIX}entries {count}\n{lines}trail 0\nend\n")
}

fn certificate(alloc: Global, text: &str) -> Result<Certificate, Fail>
    ensures { IfOk result IsInRange }
{
    match read_cert(alloc, text.as_bytes()) {
        CertRead::Good(cert) => Ok(cert),
        _ => Err("no certificate")?,
    }
}

/// How many old entries were kept, and how many entries the book has then.
fn counts(warmed: Warmed) -> Result<(u32, u64), Fail> {
    match warmed {
        Warmed::Done { book, kept } => Ok((kept, book.len())),
        Warmed::NoMemory(_) => Err("out of memory")?,
    }
}

/// The lemmas of a certificate of such rounds.
fn old_list(alloc: Global, inst: &Instance, rounds: u32, every: u32) -> Result<Entries, Fail>
    ensures { IfOk result (AreEntries (tasks inst.now)) }
{
    let text = rounds_text(alloc, rounds, every)?;
    let cert = certificate(alloc, text.as_str())?;
    match entries_in(alloc, inst, LineKind::Straight, cert) {
        Ok(old) => Ok(old),
        Err(_) => Err("another line")?,
    }
}

/// A book about the line, without entries.
fn empty_book(alloc: Global, inst: &Instance) -> Result<Book, Fail>
    ensures { IfOk result (λ b. b.about.line ≡ inst.now) }
{
    match ranked_balance(alloc, inst, LineKind::Straight, CYCLE) {
        Ranked::Good(best) => Ok(open_book(alloc, inst, LineKind::Straight, CYCLE, best)?),
        _ => Err("no balance")?,
    }
}

#[test]
fn both_forms_keep_the_same(rt: HostRuntime) -> Result<(), Fail> {
    let alloc = rt.alloc();
    let inst = six(alloc)?;
    // Few of the lemmas fail, or half of them, or none; there is room for three rounds; there is no lemma.
    for (rounds, every, room, kept, entries) in [
        (100, 32, 6_000_000, 200, 2),
        (100, 1, 6_000_000, 200, 2),
        (100, 0, 6_000_000, 200, 2),
        (100, 32, 93, 6, 2),
        (0, 1, 6_000_000, 0, 0),
    ] {
        let old = old_list(alloc, &inst, rounds, every)?;
        let plain = warm(alloc, &inst, empty_book(alloc, &inst)?, &old, room);
        assert_eq!(rt; counts(plain)?, (kept, entries), "{rounds} {every}");
        let wide = warm_wide(&rt, alloc, &inst, empty_book(alloc, &inst)?, &old, room);
        assert_eq!(rt; counts(wide)?, (kept, entries), "{rounds} {every}");
    }
    Ok(())
}
