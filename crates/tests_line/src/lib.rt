//! Tests of a line and of what is said of it: sets of tasks, instances and lines drawn from seeds, balances and bounds,
//! the loads of one station in their order, the book of lemmas, and the budget law.
#![tactic(auto)]

#[cfg(test)]
mod balances;
#[cfg(test)]
mod books;
#[cfg(test)]
mod bounds;
#[cfg(test)]
mod budgets;
#[cfg(test)]
mod drawn_lines;
#[cfg(test)]
mod instances;
#[cfg(test)]
mod lines;
#[cfg(test)]
mod loads;
#[cfg(test)]
mod sets;
#[cfg(test)]
mod u_loads;
