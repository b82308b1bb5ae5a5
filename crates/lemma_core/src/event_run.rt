//! A run of events on a book, one after the other: what a book is when no part of the program holds it alone.
//!
//! An event costs what its call costs. Room for a reply is taken before its event is done, so the replies that were
//! appended name the events that were done, also where memory ends.
ghost use Rattle.std.specs.Prelude.{◌≡◌, [], ◌∷◌, ◌++◌, IfOk, OnOk, OnErr};
ghost use Rattle.lemma_core.specs.Machine.{answer, answers_of};
ghost use Rattle.lemma_core.specs.Laws.{MayCome, AllMayCome};
ghost use Rattle.lemma_core.specs.Books.{IsReserved, ran, DidSome};

use crate::book::Book;
use crate::types::{Event, Published, Reply};
use std::alloc::AllocError;

// Does one event. Out of memory, it does nothing.
fn respond(book: &mut Book, event: Event) -> Result<Reply, AllocError>
    requires reserved { IsReserved book.old }
    requires may { MayCome book.old.about book.old.state event }
    ensures reply { IfOk result (λ r. r ≡ answer book.old.about.cycle book.old.state event) }
    ensures ran { OnOk result (book.new ≡ ran book.old (event ∷ [])) }
    ensures same { OnErr result (book.new ≡ book.old) }
{
    match event {
        Event::Look { set, most } => Ok(Reply::Looked(book.look(&set, most))),
        Event::Publish(step) => match book.publish(step) {
            Published::Known(id) => Ok(Reply::Known(id)),
            Published::Added(id) => Ok(Reply::Added(id)),
            Published::NoMemory => Err(AllocError),
        },
        Event::Offer(balance) => Ok(Reply::Offered(book.offer(balance))),
    }
}

/// Does the events on the book, one after the other, and appends what the book answers to each one.
///
/// Room for offers must have been made, each entry must follow when its turn comes, with at most 1,024 stations and a
/// cycle of 1 to 10^18, and each balance must be right. Out of memory, the events whose answers were appended are
/// done, and no other.
pub fn run_events(
    book: &mut Book,
    events: Vec<Event>,
    replies: &mut Vec<Reply>,
) -> Result<(), AllocError>
    requires reserved { IsReserved book.old }
    requires may { AllMayCome book.old.about book.old.state events.items }
    ensures replies { let answers = answers_of book.old.about.cycle book.old.state events.items in
        OnOk result (replies.new.items ≡ replies.old.items ++ answers) }
    ensures ran { OnOk result (book.new ≡ ran book.old events.items) }
    ensures reserved { IsReserved book.new }
    ensures some { OnErr result (DidSome book.old events.items replies.old.items book.new replies.new.items) }
{
    for event in events {
        replies.reserve(1)?;
        let reply = respond(book, event)?;
        replies.push_reserved(reply);
    }
    Ok(())
}
