//! A desk: the four calls that a search makes, whether it works on a book of its own or on a part in one that others
//! work on too.
//!
//! Contracts see of a desk the list of events that it has seen, so that an answer can be said to be true at the time
//! of its call and to stay true. For a book the calls cost what the book's own cost: `offer` and `least` a few steps,
//! `look` and `publish` a look into the index.
ghost use Rattle.std.specs.Prelude.{◌≡◌, true};
ghost use Rattle.line_rules.specs.Balance.{IsRight};
ghost use Rattle.lemma_core.specs.Desks.{DeskView, entries, HasDerived, HasOwn, FollowsSeen, Waits, Finds};
ghost use Rattle.lemma_core.specs.Desks.{Publishes, Offers, Tells};
ghost use Rattle.lemma_core.specs.Own.{IsStatable};

use crate::book::Book;
use crate::types::{Looked, Offered, Published};
use line_rules::{Balance, Entry, TaskSet};

/// Where entries are looked up and published, and balances are offered: a book, or a part in a shared one.
///
/// Contracts see of it what it is about, the state that it opened with, the list of events that it has seen, and
/// which of them are its own. An answer speaks of that list after the call, without the call's own event, which
/// stands last.
pub trait Desk {
    ghost desk: { Self → DeskView };

    /// The last entry seen that answers the question of the set and so many stations, at the desk's cycle.
    fn look(&mut self, set: &TaskSet, most: u32) -> Looked
        ensures waits { Waits (desk self.old) (desk self.new) }
        ensures finds { Finds (entries (desk self.new)) set.now most (desk self.new).about.cycle result }
        ensures derived { HasDerived (desk self.new) }
        ensures own { HasOwn (desk self.new) };

    /// Publishes an entry that follows from those seen and that a certificate can say: it is added where none answers
    /// it.
    fn publish(&mut self, step: Entry) -> Published
        requires follows { FollowsSeen (desk self.old) step }
        requires range { IsStatable step }
        ensures publishes { Publishes (desk self.old) (desk self.new) step result }
        ensures derived { HasDerived (desk self.new) }
        ensures own { HasOwn (desk self.new) };

    /// Offers a right balance of all tasks: it is the best from then on where it has fewer stations.
    fn offer(&mut self, balance: Balance) -> Offered
        requires right { let about = (desk self.old).about in
            IsRight about.kind about.line about.cycle balance }
        requires roomy { (desk self.old).roomy ≡ true }
        ensures offers { Offers (desk self.old) (desk self.new) balance.stations result }
        ensures own { HasOwn (desk self.new) };

    /// The fewest stations of a balance, 1 to 1,024, as far as is known: never more than of those seen.
    fn least(&mut self) -> u32
        ensures tells { Tells (desk self.old) (desk self.new) result }
        ensures own { HasOwn (desk self.new) };
}

impl Desk for Book {
    ghost use Rattle.lemma_core.specs.Books.{desk_of};

    ghost desk = { desk_of };

    /// As of each desk; and the book stays as it was.
    fn look(&mut self, set: &TaskSet, most: u32) -> Looked
        ensures waits { Waits (desk_of self.old) (desk_of self.new) }
        ensures finds { Finds (entries (desk_of self.new)) set.now most (desk_of self.new).about.cycle result }
        ensures derived { HasDerived (desk_of self.new) }
        ensures own { HasOwn (desk_of self.new) }
        ensures same { self.new ≡ self.old }
    {
        let _len = self.len();
        Book::look(self, set, most)
    }

    fn publish(&mut self, step: Entry) -> Published {
        let _len = self.len();
        let published = Book::publish(self, step);
        let _grown = self.len();
        published
    }

    fn offer(&mut self, balance: Balance) -> Offered {
        let _len = self.len();
        Book::offer(self, balance)
    }

    /// As of each desk; and the book stays as it was.
    fn least(&mut self) -> u32
        ensures tells { Tells (desk_of self.old) (desk_of self.new) result }
        ensures own { HasOwn (desk_of self.new) }
        ensures same { self.new ≡ self.old }
    {
        let _len = self.len();
        Book::least(self)
    }
}
