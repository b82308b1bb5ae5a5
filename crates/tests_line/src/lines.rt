//! The lines of tests of bounds and of loads.
use line_instance::{Instance, Made, Prec, make};
use std::alloc::Global;

/// The line of these times and arcs.
pub fn instance(alloc: Global, times: Vec<u64>, arcs: &[Prec]) -> Result<Instance, &'static str> {
    match make(alloc, times, arcs) {
        Made::Good(inst) => Ok(inst),
        _ => Err("no instance"),
    }
}
