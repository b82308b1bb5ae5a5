//! What a run of `solve` spends before its search.
//!
//! A first search of a few units closes most lines at once. Where it doesn't, a seek looks for a better balance and for
//! lemmas, and the search takes them in. What a first search proved stays in the book, so nothing is listed twice.
ghost use Rattle.std.specs.Prelude.{◌≡◌};
ghost use Rattle.command_solve.specs.Effort.{IsEffort, first_plan, first_room};

use round_run::Plan;

/// What a run spends before its search, in turns.
#[derive(Clone, Copy, Debug, PartialEq, Eq)]
pub struct Effort {
    /// The units of a first search without helpers, 0 to 50,000; 0 for none.
    pub first: u64,
    /// The most loads that a seek lists, 0 to 3,000,000; 0 for none.
    pub seek: u64,
}

impl Effort {
    /// The most entries that the first search adds to a book.
    pub(crate) fn first_room(&self) -> u64
        requires { IsEffort self.now }
        ensures { result ≡ first_room self.now.first }
    {
        match self.first {
            0 => 0,
            units => 2 * units + 1025,
        }
    }

    /// The plan of the first search, in a run of this plan.
    pub(crate) fn first_plan(&self, plan: &Plan) -> Plan
        ensures { result ≡ first_plan self.now.first plan.now }
    {
        Plan {
            helpers: 0,
            units: self.first,
            pairs: plan.pairs,
            seek: 0,
        }
    }
}
