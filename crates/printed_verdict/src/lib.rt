//! The line that is printed of the check of a certificate, and the report that it makes.
//!
//! Each text is put piece by piece behind one that is there already, so it costs its own length; only a load that no
//! cite covers is first written apart. The pieces that tell tasks, entries and frames also serve other certificates.
#![tactic(auto)]

mod print_verdict;

pub use print_verdict::{
    entry_mode, frame_mode, push_entry_fault, push_frame_fault, push_pair, push_task, push_two,
    verdict_report,
};
