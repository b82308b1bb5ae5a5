//! The warm start of a run: old entries, of an earlier run over this line or over one like it, are taken into a book.
//!
//! Each old entry is checked on the line as it is now, after those that were kept before it, so nothing is believed of
//! the old list. It is gone over once, in order; an entry is walked once at most, and one of a smaller cycle, or one
//! that stands on what wasn't kept, isn't walked at all. `numbers` renumbers cites, and `warming` goes over the list.
//! `wide` answers the same, with the entries walked side by side.
#![tactic(auto)]

mod numbers;
mod warming;
mod wide;

pub use warming::{Warmed, warm};
pub use wide::{Counted, warm_counted, warm_wide};
