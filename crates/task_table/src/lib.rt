//! Task tables: tasks with names, as a planner keeps them in a spreadsheet, read from its comma-separated values.
//!
//! A text is known to be a table by its first word and the mark behind it. The records are read once, and each adds a
//! task to those before it; then the lists of tasks before and apart are read, member by member. A name is looked up in
//! an index, so the whole takes time proportional to the bytes and the members of lists, besides that of making the
//! instance and at most a comparison of each two names.
#![tactic(auto)]

mod fault;
mod heading;
mod links;
mod lists;
mod lookup;
mod mark;
mod records;
mod stop;
mod table;
mod tasks;

pub use fault::{TableFault, TableKind};
pub use mark::table_mark;
pub use table::{Table, TableRead, read_table};
