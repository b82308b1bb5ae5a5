//! A book: entries, each of which follows from those before it, the best balance so far, and a log of what was
//! published and offered.
//!
//! Its state is that of a small machine (specs/Machine.antt) after the events of the log: an entry is added where
//! none answers it, and a balance becomes the best where it has fewer stations. A look costs a hash of the set and a
//! step or a few in the index. A publish adds the entry at the end of three vectors, whose room is taken before
//! anything changes, so it does all or nothing. An entry takes about 214 bytes with its log item and its share of the
//! index. `reserve_offers` takes room for all offers to come, so an offer never takes memory.
ghost use Rattle.std.specs.Prelude.{◌≡◌, ℕ, ◌+◌, ◌<◌, ◌≤◌, List, [], ◌∷◌, length, take, slice_get, Some, None};
ghost use Rattle.std.specs.Prelude.{OnOk, OnErr};
ghost use Rattle.line_rules.specs.Balance.{Holds, IsRight};
ghost use Rattle.line_rules.specs.Entries.{IsDerived, IsFresh, Follows};
ghost use Rattle.lemma_core.specs.Machine.{last_answer, answers, found, answer};
ghost use Rattle.lemma_core.specs.History.{item_of, standing, replay, IsExact, AreExact};
ghost use Rattle.lemma_core.specs.declared.types.Event.TheVariants as event;
ghost use Rattle.lemma_core.specs.declared.types.Reply.TheVariants as reply;
ghost use Rattle.lemma_core.specs.Own.{IsStatable, AreStatable};
ghost use Rattle.lemma_core.specs.Books.{BookView, IsBook, IsReserved, MayBeBest, opened, reopened, ran, with_room};
ghost use Rattle.lemma_core.specs.Books.{DoesPublish};

use crate::index::Index;
use crate::plain_lookup::{find_plain, looked};
use crate::types::{LogItem, Looked, Offered, Published};
use line_rules::{Balance, Entries, Entry, Instance, LineKind, TaskSet};
use std::alloc::{AllocError, Global};
use std::marker::Model;

/// Entries, each of which follows from those before it, the best balance so far, and the log of what was published
/// and offered.
pub struct Book {
    instance: Instance,
    kind: LineKind,
    cycle: u64,
    entries: Entries,
    index: Index,
    log: Vec<LogItem>,
    best: Balance,
    start: usize,
    opening: u32,
    room: u32,
}

// By hand, and so a call: where a book is let go its caller then has one goal for it, and not one for each part.
impl Drop for Book {
    fn drop(self) {
        let Book {
            instance: _instance,
            kind: _,
            cycle: _,
            entries: _entries,
            index: _index,
            log: _log,
            best: _best,
            start: _,
            opening: _,
            room: _,
        } = self;
    }
}

impl Model for Book {
    ghost use Rattle.std.specs.Prelude.{◌+◌, ◌≤◌, vec_len, vec_capacity};
    ghost use Rattle.lemma_core.specs.inner.Chains.{IsIndexOf};
    ghost use Rattle.lemma_core.specs.Books.{BookView, IsBook};
    ghost use Rattle.lemma_core.specs.inner.Inside.{book_of, IsLogged};

    ghost Value = { BookView };

    ghost view = { λ s. book_of s.instance s.kind s.cycle s.entries s.log.items s.best s.start s.opening s.room };

    ghost invariant = { λ s.
        IsBook (book_of s.instance s.kind s.cycle s.entries s.log.items s.best s.start s.opening s.room)
        × IsLogged s.entries s.log.items s.start
        × (vec_len s.log + s.room ≤ vec_capacity s.log)
        × IsIndexOf s.entries s.index.heads.items s.index.links.items s.index.sieve.items };
}

impl Book {
    /// A book without entries, about the instance, the kind of line and the cycle, in the instance's time unit. The
    /// balance is its first best one.
    pub fn make(
        alloc: Global,
        instance: Instance,
        kind: LineKind,
        cycle: u64,
        best: Balance,
    ) -> Book
        requires { MayBeBest (record { line = instance; kind = kind; cycle = cycle }) best }
        ensures { result ≡ opened (record { line = instance; kind = kind; cycle = cycle }) best }
    {
        let opening = best.stations;
        Book {
            instance,
            kind,
            cycle,
            entries: Entries::from_vec(Vec::new(alloc)),
            index: Index::new(alloc),
            log: Vec::new(alloc),
            best,
            start: 0,
            opening,
            room: 0,
        }
    }

    /// The instance.
    pub fn instance(&self) -> &Instance
        ensures { result.now ≡ self.now.about.line }
    {
        &self.instance
    }

    /// The kind of line.
    pub fn kind(&self) -> LineKind
        ensures { result ≡ self.now.about.kind }
    {
        self.kind
    }

    /// The cycle at which the book is asked, in the instance's time unit.
    pub fn cycle(&self) -> u64
        ensures { result ≡ self.now.about.cycle }
    {
        self.cycle
    }

    /// How many entries there are.
    pub fn len(&self) -> u64
        ensures len { result ≡ length self.now.state.entries }
        ensures kept { IsBook self.now }
    {
        self.entries.len() as u64
    }

    /// The entry of number `id`, from 0 and below `len`: its set has no balance in its number of stations at its cycle.
    pub fn entry(&self, id: u64) -> &Entry
        requires { id < length self.now.state.entries }
        ensures entry { slice_get self.now.state.entries id ≡ Some result.now }
        ensures holds { Holds self.now.about.kind self.now.about.line result.now.cycle result.now.set result.now.most }
    {
        let _tasks = self.instance.tasks();
        line_rules::laws::every_entry_holds();
        self.entries.at(id as usize)
    }

    /// The entries: each follows from those before it, none is answered by an earlier one, and a certificate can say
    /// each.
    pub fn entries(&self) -> &Entries
        ensures entries { result.now ≡ self.now.state.entries }
        ensures derived { IsDerived self.now.about.kind self.now.about.line result.now }
        ensures fresh { IsFresh result.now }
        ensures statable { AreStatable result.now }
    {
        &self.entries
    }

    /// The best balance: right at the book's cycle, with at most as many stations as there are tasks.
    pub fn best(&self) -> &Balance
        ensures best { result.now ≡ self.now.state.best }
        ensures right { MayBeBest self.now.about result.now }
    {
        &self.best
    }

    /// The number of stations of the best balance.
    pub fn least(&self) -> u32
        ensures { result ≡ self.now.state.best.stations }
    {
        self.best.stations
    }

    /// The number of stations of the balance that the book opened with.
    pub fn opening(&self) -> u32
        ensures { result ≡ self.now.opening.stations }
    {
        self.opening
    }

    /// How many entries the book opened with.
    pub fn opening_len(&self) -> u64
        ensures { result ≡ length self.now.opening.entries }
    {
        self.start as u64
    }

    /// How many items the log has: one for each entry that was published, and one for each better balance, since the
    /// book opened.
    pub fn log_len(&self) -> u64
        ensures len { result ≡ length self.now.events }
        ensures replays { replay self.now.opening self.now.events ≡ standing self.now.state }
        ensures exact { AreExact self.now.opening self.now.events }
    {
        self.log.len() as u64
    }

    /// The item of the log at place `k`, from 0 and below `log_len`.
    pub fn log_at(&self, k: u64) -> LogItem
        requires { k < length self.now.events }
        ensures item { slice_get self.now.events k ≡ Some (item_of self.now.state.entries result) }
        ensures exact { let before = replay self.now.opening (take k self.now.events) in
            IsExact before (item_of self.now.state.entries result) }
    {
        self.log[k as usize]
    }

    /// The last entry that answers the question of the set and so many stations, at the book's cycle.
    pub fn look(&self, set: &TaskSet, most: u32) -> Looked
        ensures { let es = self.now.state.entries in
            result ≡ found es (last_answer es set.now most self.now.about.cycle) }
    {
        looked(
            &self.entries,
            self.index.find(&self.entries, set, most, self.cycle),
        )
    }

    /// The same by a search through all entries from the end: what `look` is measured by.
    pub fn look_plain(&self, set: &TaskSet, most: u32) -> Looked
        ensures { let es = self.now.state.entries in
            result ≡ found es (last_answer es set.now most self.now.about.cycle) }
    {
        looked(
            &self.entries,
            find_plain(&self.entries, set, most, self.cycle),
        )
    }

    /// Publishes an entry that follows from those of the book and that a certificate can say: at most 1,024 stations,
    /// at a cycle of 1 to 10^18. Where one answers it, the last such is named; else it is added. Out of memory, the
    /// book stays as it was, and the entry is given up.
    pub fn publish(&mut self, step: Entry) -> Published
        requires follows { Follows self.old.about.kind self.old.about.line self.old.state.entries step }
        requires range { IsStatable step }
        ensures does { DoesPublish self.old step result self.new }
        ensures reserved { IsReserved self.old → IsReserved self.new }
    {
        match self
            .index
            .find(&self.entries, &step.set, step.most, step.cycle)
        {
            Some(id) => self.know(id, step),
            None => self.add(step),
        }
    }

    // Notes in the log that the entry was known: `id` is the last one that answers it.
    fn know(&mut self, id: u64, step: Entry) -> Published
        requires follows { Follows self.old.about.kind self.old.about.line self.old.state.entries step }
        requires range { IsStatable step }
        requires known { last_answer self.old.state.entries step.set step.most step.cycle ≡ Some id }
        ensures { DoesPublish self.old step result self.new }
    {
        let most = step.most;
        drop(step);
        let Ok(()) = self.log.reserve(self.room as usize + 1) else {
            return Published::NoMemory;
        };
        self.log.push_reserved(LogItem::Known { id, most });
        Published::Known(id)
    }

    // Adds an entry that none answers, and notes that in the log.
    fn add(&mut self, step: Entry) -> Published
        requires follows { Follows self.old.about.kind self.old.about.line self.old.state.entries step }
        requires range { IsStatable step }
        requires unanswered { last_answer self.old.state.entries step.set step.most step.cycle ≡ None }
        ensures { DoesPublish self.old step result self.new }
    {
        let tag = step.set.tag();
        let Ok(()) = self.log.reserve(self.room as usize + 1) else {
            return Published::NoMemory;
        };
        let Ok(()) = self.index.reserve() else {
            return Published::NoMemory;
        };
        let id = self.entries.len() as u64;
        let Ok(()) = self.entries.push(step) else {
            return Published::NoMemory;
        };
        self.index.add(tag);
        self.log.push_reserved(LogItem::Added(id));
        Published::Added(id)
    }

    /// Offers a right balance of all tasks, once `reserve_offers` was done: it is the best from then on where it has
    /// fewer stations.
    pub fn offer(&mut self, balance: Balance) -> Offered
        requires right { IsRight self.old.about.kind self.old.about.line self.old.about.cycle balance }
        requires reserved { IsReserved self.old }
        ensures answer { reply.Offered result ≡ answer self.old.about.cycle self.old.state (event.Offer balance) }
        ensures ran { self.new ≡ ran self.old (event.Offer balance ∷ []) }
        ensures reserved { IsReserved self.new }
    {
        if balance.stations >= self.best.stations {
            return Offered::NotBetter;
        }
        self.log.push_reserved(LogItem::Offered {
            stations: balance.stations,
        });
        self.room -= 1;
        self.best = balance;
        Offered::Better
    }

    /// Takes room in the log for as many better balances as there are tasks: there can't be more. On an error nothing
    /// changes.
    pub fn reserve_offers(&mut self) -> Result<(), AllocError>
        ensures ok { OnOk result (IsReserved self.new) }
        ensures same { self.new ≡ with_room self.old self.new.room }
        ensures err { OnErr result (self.new ≡ self.old) }
    {
        self.log.reserve(self.instance.tasks() as usize)?;
        self.room = self.instance.tasks();
        Ok(())
    }

    /// The book asked at another cycle: its entries and this balance are what it opens with, and its log is empty.
    /// Where `reserve_offers` was done, there is room for as many offers again. It takes no memory.
    pub fn reopen(mut self, cycle: u64, best: Balance) -> Book
        requires { MayBeBest (record { line = self.about.line; kind = self.about.kind; cycle = cycle }) best }
        ensures reopened { result ≡ reopened self cycle best result.room }
        ensures reserved { IsReserved self → IsReserved result }
    {
        let tasks = self.instance.tasks() as usize;
        self.room = (self.log.len() + self.room as usize).min(tasks) as u32;
        self.log.clear();
        self.cycle = cycle;
        self.start = self.entries.len();
        self.opening = best.stations;
        self.best = best;
        self
    }

    /// The entries and the best balance, with what the book kept of them.
    pub fn into_parts(self) -> (Entries, Balance)
        ensures entries { result.0 ≡ self.state.entries }
        ensures best { result.1 ≡ self.state.best }
        ensures derived { IsDerived self.about.kind self.about.line result.0 }
        ensures fresh { IsFresh result.0 }
        ensures statable { AreStatable result.0 }
        ensures right { MayBeBest self.about result.1 }
    {
        let Book {
            instance: _instance,
            kind: _,
            cycle: _,
            entries,
            index: _index,
            log: _log,
            best,
            start: _,
            opening: _,
            room: _,
        } = self;
        (entries, best)
    }
}
