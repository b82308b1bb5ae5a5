//! Names of tasks: what a name may be, and lists of names, one for each task.
//!
//! A name is looked up by going over the list, so a reader that looks up many keeps an index of its own.
#![tactic(auto)]

mod name_list;
mod naming;
mod one_name;

pub use name_list::{Names, numbers};
pub use naming::Naming;
pub use one_name::{Name, is_task_name};
