//! The reading of pairs of tasks that are apart.
//!
//! The text is what an IN2 text has after its times: pairs and the end mark, read by the same code. Two tasks that are
//! apart are two, so a pair of a task with itself is a fault. A pair may stand twice, and in either order.
ghost use Rattle.std.specs.Prelude.{◌≡◌, ◌≤◌, ◌<◌, ◌^◌, List, length};
ghost use Rattle.in2_reader.specs.ApartFile.{IsApartFile, IsApartAnswer, apart_refusal};
ghost use Rattle.in2_reader.specs.declared.fault.In2Fault.{In2Fault};
ghost use Rattle.line_instance.specs.declared.arcs.Prec.{Prec};

use crate::draft::{MAX_ARCS, read_pairs};
use crate::fault::{In2Fault, ReadError};
use crate::pair::Meaning;
use line_instance::Prec;
use std::alloc::Global;

/// What reading pairs of tasks that are apart answers.
#[derive(Drop)]
pub enum ApartRead {
    /// The pairs, each of two tasks, which are counted from 0.
    Good(Vec<Prec>),
    /// The first fault of the text.
    Fault(In2Fault),
    /// Memory is wanting.
    NoMemory,
}

/// Reads pairs of tasks that are apart, up to the end mark, of 1 to 1,024 tasks, which the text counts from 1.
pub fn read_apart(alloc: Global, tasks: u32, bytes: &[u8]) -> ApartRead
    requires length { length bytes.now < 2 ^ 63 }
    requires some { 1 ≤ tasks }
    requires few { tasks ≤ 1024 }
    ensures read { IsApartAnswer tasks bytes.now result }
    ensures none { (f : In2Fault) → result ≡ ApartRead.Fault f → (ps : List Prec) → ¬ IsApartFile tasks bytes.now ps }
{
    match read_pairs(alloc, Meaning::Apart, tasks, MAX_ARCS, bytes, 1) {
        Ok(read) => {
            let (pairs, _) = read;
            ApartRead::Good(pairs)
        }
        Err(error) => refused(error),
    }
}

// The answer where the pairs aren't read.
fn refused(error: ReadError) -> ApartRead
    ensures { result ≡ apart_refusal error }
{
    match error {
        ReadError::Fault(fault) => ApartRead::Fault(fault),
        ReadError::Memory => ApartRead::NoMemory,
    }
}
