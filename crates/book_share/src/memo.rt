//! What a pass keeps of the entries that it has seen: marks of their sets, and rows of lemmas. With it most questions
//! are answered without a turn.
//!
//! What a pass has seen changes in its turns alone. In each turn its memo catches up with the book in hand. For each
//! entry that the pass hadn't seen that costs a hash of its set, two marks and a row. Both together take 3 MB. Where
//! there is memory for one of them alone, the other tells nothing. What an own entry adds is copied before the turn in
//! which it is published, and kept after it.
ghost use Rattle.std.specs.Prelude.{◌≡◌, ◌+◌, ◌<◌, ℕ, List, [], ◌∷◌, ◌++◌, length, take, IfSome, None};
ghost use Rattle.line_rules.specs.declared.types.Entry.{Entry as Lemma};
ghost use Rattle.lemma_core.specs.Desks.{DeskView};
ghost use Rattle.book_share.specs.Calls.{Glimpses, IsKnown};
ghost use Rattle.book_share.specs.inner.Memo.{HasKept, IsMemoOf, IsReady, IsMemoOfBook, IsMemoOfAll};
ghost use Rattle.book_share.specs.inner.Memo.{IsOwn, IsMemoBut, IsMemoBy};

use crate::lemma_rows::{LemmaRow, LemmaRows};
use crate::marks::Marks;
use crate::pass::Glimpsed;
use lemma_core::{Book, Published};
use line_instance::TaskSet;
use line_rules::Entry;
use std::alloc::Global;

/// What a pass keeps of the entries that it has seen.
pub struct Memo {
    pub(crate) marks: Marks,
    pub(crate) rows: LemmaRows,
    /// The cycle of the questions, as of its last turn.
    pub(crate) cycle: u64,
    /// How many entries are kept.
    pub(crate) count: u64,
    /// Whether it has caught up in a turn, so that all entries that the pass has seen are kept.
    pub(crate) ready: bool,
}

// By hand, and so a call: where a pass is let go its caller then has one goal for its memo, and not one for each part.
impl Drop for Memo {
    fn drop(self) {
        let Memo {
            marks: _marks,
            rows: _rows,
            cycle: _,
            count: _,
            ready: _,
        } = self;
    }
}

/// What is kept of an own entry, copied before it is published.
#[derive(Drop)]
pub struct OwnEntry {
    set: TaskSet,
    most: u32,
    cycle: u64,
}

impl OwnEntry {
    /// What is kept of an entry.
    #[inline]
    pub(crate) fn of(step: &Entry) -> OwnEntry
        ensures { IsOwn result step.now }
    {
        OwnEntry {
            set: step.set,
            most: step.most,
            cycle: step.cycle,
        }
    }
}

impl Memo {
    /// A memo for a pass that had no turn with it.
    pub(crate) fn new(alloc: Global) -> Memo
        ensures memo { (cycle : ℕ) (es : List Lemma) → IsMemoOf result cycle es }
        ensures ready { IsReady result → ⊥ }
    {
        Memo {
            marks: Marks::new(alloc),
            rows: LemmaRows::new(alloc),
            cycle: 0,
            count: 0,
            ready: false,
        }
    }

    // What is kept tells of a question.
    #[inline]
    pub(crate) fn glimpse(&self, set: &TaskSet, most: u32) -> Glimpsed
        requires { (cycle : ℕ) × (es : List Lemma) × IsMemoOf self.now cycle es }
        ensures tells { (cycle : ℕ) (es : List Lemma) → IsMemoOf self.now cycle es
            → (IsReady self.now → self.now.count ≡ length es) → Glimpses es set.now most cycle result }
        ensures ready { IsKnown result → IsReady self.now }
    {
        if !self.ready {
            return Glimpsed::Unknown;
        }
        let tag = set.tag();
        if self.marks.lack(tag) {
            return Glimpsed::Absent;
        }
        match self.rows.find(tag, set, most) {
            Some(id) => Glimpsed::Found(id),
            None => Glimpsed::Unknown,
        }
    }

    // Keeps one entry more of a book, that of number `id`. It goes into a row where it answers at the book's cycle.
    #[inline]
    fn keep(&mut self, id: u64, book: &Book)
        requires within { id < length book.now.state.entries }
        requires kept { HasKept self.old book.now.about.cycle (take id book.now.state.entries) }
        ensures { HasKept self.new book.now.about.cycle (take (id + 1) book.now.state.entries) }
    {
        let entry = book.entry(id);
        let tag = entry.set.tag();
        self.marks.put(tag);
        if entry.cycle < book.cycle() {
            return;
        }
        let row = LemmaRow {
            set: entry.set,
            most: entry.most,
            id,
        };
        self.rows.put(tag, row);
    }

    // Keeps what a book has more than what was kept.
    pub(crate) fn catch_up(&mut self, book: &Book)
        requires { IsMemoOf self.old book.now.about.cycle book.now.state.entries }
        ensures { IsMemoOfBook self.new book.now }
    {
        let _derived = book.entries();
        let len = book.len();
        for id in self.count..len {
            self.keep(id, book);
        }
        self.cycle = book.cycle();
        self.count = len;
        self.ready = true;
    }

    // Keeps an own entry, whose number comes next.
    #[inline]
    fn keep_own(&mut self, id: u64, own: &OwnEntry)
        requires { (cycle : ℕ) × (es : List Lemma) × IsMemoOfAll self.old cycle es × (id + 1 < 18446744073709551616) }
        ensures { (cycle : ℕ) (es : List Lemma) (e : Lemma) → IsOwn own.now e → id ≡ length es
            → IsMemoOfAll self.old cycle es → IsMemoOfAll self.new cycle (es ++ e ∷ []) }
    {
        let tag = own.set.tag();
        self.marks.put(tag);
        self.count = id + 1;
        if own.cycle < self.cycle {
            return;
        }
        let row = LemmaRow {
            set: own.set,
            most: own.most,
            id,
        };
        self.rows.put(tag, row);
    }
}

// Has a memo catch up with a book, where there is one.
pub(crate) fn catch_up(memo: &mut Option<Memo>, book: &Book)
    requires { IfSome memo.old (λ m. IsMemoOf m book.now.about.cycle book.now.state.entries) }
    ensures { IfSome memo.new (λ m. IsMemoOfBook m book.now) }
{
    if let Some(memo) = memo {
        memo.catch_up(book);
    }
}

// Keeps an own entry after the turn in which it was published, where it was added.
pub(crate) fn keep_published(memo: &mut Option<Memo>, published: Published, own: &OwnEntry)
    requires { (d : DeskView) × (e : Lemma) × IsMemoBut memo.old d e published }
    ensures { (d : DeskView) (e : Lemma) → IsOwn own.now e → IsMemoBut memo.old d e published → IsMemoBy memo.new d }
{
    let Published::Added(id) = published else {
        return;
    };
    let Some(memo) = memo else {
        return;
    };
    memo.keep_own(id, own);
}

// Gives a memo up.
pub(crate) fn forget(memo: &mut Option<Memo>)
    ensures { memo.new ≡ None }
{
    *memo = None;
}
