//! The parts of a seek in sequences: passes over a table, moves of the charges, and walks over states.
//!
//! The charges are prices on what is demanded, as in Lagrangean relaxation (Held and Karp 1970; Fisher 1981), moved by
//! Polyak's step (1969). A table of nodes relaxes the states (Christofides, Mingozzi and Toth 1981), and gets back
//! those that the cheapest row used (Righini and Salani 2008). A walk keeps few states a layer, in the order of what
//! the table tells of them.
//!
//! Nothing that these parts find has to be believed: a sequence is counted again, and a lemma is tested. So the clauses
//! say of what is found only that numbers are in their ranges. They are exact about states and about units. What is
//! taken for a state is one, and what isn't taken for one is none. A walk pays one unit for each step of each state of
//! its layers but the last, neither more nor less, and has one layer more than units are wanted. It is given up only
//! when no unit is left, or for want of memory.
#![tactic(auto)]

mod layers;
mod moving;
mod passes;
mod ranges;
mod steps;
mod walk;

pub use layers::{Indexed, Layer, Step};
pub use moving::{Grown, first_charges, moved};
pub use passes::{Charges, Pass, charged, charges_of, listed, make_pass};
pub use ranges::{are_at_most, is_state, is_state_of};
pub use steps::{Led, led_by};
pub use walk::{Costed, Walk, walk_from_root};
