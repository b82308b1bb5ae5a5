//! Tests of runs over files in memory: calls that fail, certificates that are torn, helpers that meet at a gate, and
//! single calls.
#![tactic(auto)]

#[cfg(test)]
mod calls;
#[cfg(test)]
mod fails;
#[cfg(test)]
mod gates;
#[cfg(test)]
mod runs;
