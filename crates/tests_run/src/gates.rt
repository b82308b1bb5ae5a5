//! A run whose helpers meet at a gate.
use command_outcome::{Kept, Status};
use line_io::{MemShelf, MemSink};
use line_run::run_gated;
use round_run::Gate;
use std::hint;
use std::sync::atomic::AtomicU64;
use std::sync::atomic::Ordering::SeqCst;
use std::test::Fail;

const LOOKS: u32 = 50_000_000;

/// Two helpers, each of which waits before its first lemma until the other one is there too.
#[derive(Drop)]
struct Meeting {
    /// Who arrived: the first helper, and the second.
    first: AtomicU64,
    second: AtomicU64,
    /// How often a helper gave up.
    missed: AtomicU64,
}

impl Gate for Meeting {
    fn pass_gate(&self, helper: u32, publish: u64) {
        if publish != 0 {
            return;
        }
        let (own, other) = if helper == 1 {
            (&self.first, &self.second)
        } else {
            (&self.second, &self.first)
        };
        own.fetch_add(1, SeqCst);
        for _ in 0..LOOKS {
            if other.load(SeqCst) != 0 {
                return;
            }
            hint::spin_loop();
        }
        self.missed.fetch_add(1, SeqCst);
    }
}

#[test]
fn two_helpers_at_once(rt: HostRuntime) -> Result<(), Fail> {
    let alloc = rt.alloc();
    let mut shelf = MemShelf::new(alloc, Vec::new(alloc));
    shelf.put_file("p7.in2", b"7\n7\n7\n4\n4\n2\n2\n2\n-1,-1\n")?;
    let mut out = MemSink::new(alloc, Vec::new(alloc));
    let mut words = Vec::new(alloc);
    for word in ["solve", "p7.in2", "cycle=7", "helpers=2", "units=1000000"] {
        words.push(String::from_str(alloc, word)?)?;
    }
    let gate = Meeting {
        first: AtomicU64::new(0),
        second: AtomicU64::new(0),
        missed: AtomicU64::new(0),
    };
    let mut kept = Kept::Nothing;
    let status = run_gated(&rt, alloc, &words, &mut shelf, &mut out, &gate, &mut kept);
    assert_eq!(rt; status, Status::Done);
    assert!(rt; out.bytes().starts_with(b"optimal 5\nidle 7\n"));
    assert_eq!(rt; gate.first.load(SeqCst), 1);
    assert_eq!(rt; gate.second.load(SeqCst), 1);
    assert_eq!(rt; gate.missed.load(SeqCst), 0);
    Ok(())
}
