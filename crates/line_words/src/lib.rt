//! The words of the command line: the job that they ask for, or the first fault in them.
//!
//! A word with `=` after letters a to z sets a key; every other word is a name. Names and keys may stand in any order,
//! so a word's fault depends on the words before it alone. The first fault is told with its place; where there is none,
//! what is missing. Each word is compared with those before it, which costs the square of their number; nothing is kept
//! but the job.
#![tactic(auto)]

mod command;
mod fault;
mod job;
mod name;
mod number;
mod reading;
mod settings;
mod word;

pub use command::Command;
pub use fault::{UsageKind, push_usage};
pub use job::{
    BalanceJob, BoundWord, CheckJob, CombineJob, ConvertJob, CycleJob, DrawJob, EfficCheckJob,
    EfficJob, FormWord, Job, LineCheckJob, LineJob, LineWord, MixJob, PageJob, PlanJob, SearchJob,
    SequenceCheckJob, SequenceJob, SolveJob, TimelineDrawJob, TryJob, UtilityJob,
};
pub use name::Name;
pub use reading::{JobRead, job_of};
