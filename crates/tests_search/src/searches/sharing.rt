//! Searches at a desk that isn't alone: another caller decides a question of its own, on the same book, between two of
//! their calls.
ghost use Rattle.std.specs.Prelude.{◌≡◌, ◌≤◌, length};
ghost use Rattle.line_rules.specs.declared.types.LineKind.TheVariants.{Straight};
ghost use Rattle.lemma_core.specs.Books.{desk_of};
ghost use Rattle.lemma_core.specs.Desks.{Keeps, Waits};
ghost use Rattle.station_search.specs.Decide.{IsFor};
ghost use Rattle.tests_search.specs.inner.Shared.{part_of};

use super::{CYCLE, answer_text, book_of, entries_text, five, seven, six};
use lemma_core::{Book, Desk, Looked, Offered, Published};
use line_instance::{Instance, TaskSet};
use line_rules::{Balance, Entry, LineKind};
use station_search::{Units, decide};
use std::alloc::{AllocError, Global};
use std::test::Fail;

/// A question of another caller: whether a set has a balance in `most` stations.
#[derive(Drop)]
struct Question {
    set: TaskSet,
    most: u32,
}

/// A part in a book. Another caller comes before one of its looks and publishes, and works on the book until it has
/// the answer to its question.
#[derive(Drop)]
struct Part {
    alloc: Global,
    book: Book,
    instance: Instance,
    question: Question,
    /// The other caller comes before this look or publish, counted from 1; 0 once it came.
    calls: u32,
    /// The events of the other caller: from this place on ..
    from: u64,
    /// .. up to below this one.
    to: u64,

    ghost is_for: { IsFor (desk_of book) instance Straight 7 },
    ghost turned: { from ≤ to },
    ghost within: { to ≤ length book.events },
}

/// The other caller decides its question on the book.
fn decide_other(alloc: Global, book: &mut Book, instance: &Instance, question: &Question)
    requires { IsFor (desk_of book.old) instance.now Straight 7 }
    ensures { Keeps (desk_of book.old) (desk_of book.new) }
{
    let (set, most) = (question.set, question.most);
    let _truths = set.capacity();
    if most > 1024 || !set.is_subset(&instance.all()) {
        return;
    }
    let mut units = Units {
        left: 1000,
        used: 0,
    };
    let decided = decide(
        alloc,
        book,
        instance,
        LineKind::Straight,
        CYCLE,
        &set,
        most,
        &mut units,
    );
    drop(decided);
}

impl Part {
    /// Lets the other caller come, where its turn is before this call.
    fn meet_other(&mut self)
        ensures { let was = part_of self.old.book self.old.from self.old.to in
            Waits was (part_of self.new.book self.new.from self.new.to) }
    {
        if self.calls == 1 && self.to == 0 {
            let from = self.book.log_len();
            decide_other(self.alloc, &mut self.book, &self.instance, &self.question);
            self.from = from;
            self.to = self.book.log_len();
        }
        self.calls = self.calls.saturating_sub(1);
    }
}

impl Desk for Part {
    ghost use Rattle.tests_search.specs.inner.Shared.{part_of};

    ghost desk = { λ s. part_of s.book s.from s.to };

    fn look(&mut self, set: &TaskSet, most: u32) -> Looked {
        self.meet_other();
        Desk::look(&mut self.book, set, most)
    }

    fn publish(&mut self, step: Entry) -> Published {
        self.meet_other();
        Desk::publish(&mut self.book, step)
    }

    fn offer(&mut self, balance: Balance) -> Offered {
        Desk::offer(&mut self.book, balance)
    }

    fn least(&mut self) -> u32 {
        Desk::least(&mut self.book)
    }
}

/// The answer on all tasks at a part, the units that it takes, the places of the other caller's events, and the
/// entries after it.
fn shared_answer(
    alloc: Global,
    inst: &Instance,
    question: &Question,
    calls: u32,
    most: u32,
    left: u64,
) -> Result<String, Fail>
    requires few { most ≤ 1024 }
    requires left { left ≤ 1000 }
{
    let mut part = Part {
        alloc,
        book: book_of(alloc, inst, LineKind::Straight)?,
        instance: inst.copy(alloc)?,
        question: Question {
            set: question.set,
            most: question.most,
        },
        calls,
        from: 0,
        to: 0,
    };
    let mut units = Units { left, used: 0 };
    let decided = decide(
        alloc,
        &mut part,
        inst,
        LineKind::Straight,
        CYCLE,
        &inst.all(),
        most,
        &mut units,
    );
    let answer = answer_text(alloc, &decided)?;
    let entries = entries_text(alloc, &part.book)?;
    let (from, to, used) = (part.from, part.to, units.used);
    Ok(format!(in alloc; "{answer} used {used} {from}..{to}|{entries}")?)
}

// Five tasks in two stations: the other caller refutes them before the search looks, or before it publishes.
#[test]
fn an_entry_of_another_caller_refutes(rt: HostRuntime) -> Result<(), Fail> {
    let alloc = rt.alloc();
    let inst = five(alloc)?;
    let question = Question {
        set: inst.all(),
        most: 2,
    };
    let at_once = shared_answer(alloc, &inst, &question, 1, 2, 1000)?;
    assert_eq!(rt;
        at_once.as_str(),
        "entry 0 used 0 0..1|branch Fore {0, 1, 2, 3, 4} 2|"
    );
    let late = shared_answer(alloc, &inst, &question, 2, 2, 1000)?;
    assert_eq!(rt;
        late.as_str(),
        "entry 0 used 15 0..1|branch Fore {0, 1, 2, 3, 4} 2|"
    );
    Ok(())
}

// Six tasks in three stations take 31 units, 15 of them on the rest of the first load: the other caller refutes that
// rest between the first look and the second.
#[test]
fn an_entry_of_another_caller_is_cited(rt: HostRuntime) -> Result<(), Fail> {
    let alloc = rt.alloc();
    let inst = six(alloc)?;
    let question = Question {
        set: inst.all().without(0),
        most: 2,
    };
    let text = shared_answer(alloc, &inst, &question, 2, 3, 1000)?;
    assert_eq!(rt;
        text.as_str(),
        "entry 1 used 16 0..1|branch Fore {1, 2, 3, 4, 5} 2|branch Fore {0, 1, 2, 3, 4, 5} 3 0|"
    );
    Ok(())
}

#[test]
fn a_balance_is_found_beside_another_caller(rt: HostRuntime) -> Result<(), Fail> {
    let alloc = rt.alloc();
    let inst = five(alloc)?;
    let question = Question {
        set: inst.all(),
        most: 2,
    };
    for calls in 1..4 {
        let text = shared_answer(alloc, &inst, &question, calls, 3, 1000)?;
        assert_eq!(rt;
            text.as_str(),
            "found 3 used 9 0..1|branch Fore {0, 1, 2, 3, 4} 2|"
        );
    }
    Ok(())
}

// Seven tasks in four stations take 48 units, 15 of them on the last five tasks, which the other caller refutes.
#[test]
fn the_units_end_beside_another_caller(rt: HostRuntime) -> Result<(), Fail> {
    let alloc = rt.alloc();
    let inst = seven(alloc)?;
    let question = Question {
        set: inst.all().without(0).without(1),
        most: 2,
    };
    for calls in 1..4 {
        let text = shared_answer(alloc, &inst, &question, calls, 4, 20)?;
        assert_eq!(rt;
            text.as_str(),
            "spent 2 used 20 0..1|branch Fore {2, 3, 4, 5, 6} 2|"
        );
    }
    let one_short = shared_answer(alloc, &inst, &question, 2, 4, 32)?;
    assert!(rt; one_short.as_str().starts_with("spent 1 used 32 0..1|"));
    let enough = shared_answer(alloc, &inst, &question, 2, 4, 33)?;
    assert!(rt; enough.as_str().starts_with("entry 3 used 33 0..1|"));
    Ok(())
}
