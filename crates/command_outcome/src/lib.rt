//! What every command comes to: a status, a text that is put, the file that it writes where it writes one, and the
//! certificate that the run keeps where it makes one.
//!
//! A command gives a [`Report`], or a [`EarlyEnd`] that says why there is none or why it came early. [`finish`] puts it. So
//! a command itself never puts anything, and its contract speaks of an outcome: the status, the text, the written page
//! and the kept certificate.
#![tactic(auto)]

mod bounds;
mod output;
mod page;
mod print;
mod report;
mod status;

pub use bounds::{
    cut_short, cut_short_text, push_bounds, room_for_bounds, seek_text, with_seek_line,
};
pub use output::finish;
pub use page::{write_page, written};
pub use print::{line_about, push_number, push_one, push_printed};
pub use report::{EarlyEnd, Kept, Report, refuse};
pub use status::Status;
