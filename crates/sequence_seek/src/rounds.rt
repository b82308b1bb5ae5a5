//! The rounds of a seek: passes, walks and moves in turn.
//!
//! The budget of a round is twice that of the one before. Each round walks once, right after its first pass, with a
//! width in proportion to its budget; what is left goes into passes. A seek ends when a pass shows that the best total
//! is the least, when a walk has seen all that could be better, or when its units end.
ghost use Rattle.std.specs.Prelude.{◌≡◌, ◌≤◌, IfOk};

use crate::asking::Telling;
use crate::list::list;
use sequence_rules::MAX_MODELS;
use sequence_table::Table;
use sequence_values::SeqEntries;
use sequence_walk::{
    Charges, Costed, Grown, Indexed, Pass, Walk, charges_of, first_charges, make_pass, moved,
    walk_from_root,
};
use std::alloc::{AllocError, Global};

/// The budget of the first round, in units.
const FIRST_BUDGET: u64 = 1000;

/// Where a round is.
#[derive(Drop)]
struct Round {
    /// Its budget, in units.
    budget: u64,
    /// What is left of that.
    left: u64,
    /// The pass of the greatest value so far, the first of these.
    best: Option<Height>,
}

/// The value of a pass, and its charges.
#[derive(Clone, Copy)]
struct Height {
    /// What the whole row costs at least.
    value: u64,
    /// The charges of all that is wanted.
    owed: u64,
    charges: Charges,
}

/// How a seek ended.
#[derive(Drop)]
enum Ending {
    /// A pass showed that the best total is the least.
    Closed(Pass),
    /// A whole walk, of this pass, showed that.
    Walked(Pass, Walk),
    /// No utility work is needed.
    Free,
    /// The units ended.
    Stopped,
}

/// What a seek found.
#[derive(Drop)]
pub(crate) struct Found {
    /// The best sequence.
    pub best: Costed,
    /// The charges that the lemmas speak of.
    pub charges: Charges,
    /// The lemmas.
    pub lemmas: SeqEntries,
    /// How many units are left.
    pub left: u64,
}

/// A seek on its way.
#[derive(Drop)]
struct Seek {
    grown: Grown,
    best: Costed,
    charges: Charges,
    round: Round,
    /// The pass before the last walk.
    walked: Option<Pass>,
}

impl Height {
    /// The height of a pass.
    fn of(pass: &Pass, demands: &[u64]) -> Height {
        Height {
            value: pass.value(pass.units(), 0),
            owed: pass.owed(demands),
            charges: pass.charges,
        }
    }

    /// Whether it is greater than another.
    fn is_above(&self, other: &Height) -> bool {
        self.value.saturating_add(other.owed) > other.value.saturating_add(self.owed)
    }

    /// Whether it shows that a total is the least.
    fn closes(&self, total: u64) -> bool {
        self.value
            > total
                .saturating_sub(1)
                .saturating_mul(1000)
                .saturating_add(self.owed)
    }
}

impl Round {
    /// A round of so many units, before its first pass.
    fn of(budget: u64) -> Round {
        Round {
            budget,
            left: budget,
            best: None,
        }
    }

    /// Takes units from what is left of the budget, down to 0.
    fn spend(&mut self, units: u64) {
        self.left = self.left.saturating_sub(units);
    }

    /// Keeps the height of a pass where it is the greatest.
    fn keep(&mut self, height: Height) {
        let greater = match &self.best {
            Some(best) => height.is_above(best),
            None => true,
        };
        if greater {
            self.best = Some(height);
        }
    }
}

impl Seek {
    /// The width of a walk in this round: in proportion to the budget.
    fn width(&self) -> usize {
        let table = &self.grown.table;
        let steps = self.round.budget / u64::from(table.units());
        (steps / u64::from(table.models())).max(1) as usize
    }

    /// Walks after a pass, and takes over what is found. None where the units ended.
    fn walk(
        &mut self,
        alloc: Global,
        pass: &Pass,
        left: &mut u64,
    ) -> Result<Option<Walk>, AllocError>
        ensures { left.new ≤ left.old }
    {
        let width = self.width();
        let walk = walk_from_root(alloc, &self.grown.table, pass, self.best.total, width, left)?;
        let Some(walk) = walk else {
            return Ok(None);
        };
        if let Some(best) = walk.found(alloc)? {
            self.best = best;
        }
        Ok(Some(walk))
    }

    /// Goes on after a pass that didn't end the seek: moves the charges, and begins the next round where this one has
    /// no unit left for each node.
    fn go_on(&mut self, alloc: Global, pass: &Pass) -> Result<(), AllocError> {
        self.charges = moved(alloc, &mut self.grown, pass, self.best.total)?;
        if self.round.left < u64::from(self.grown.table.len()) {
            if let Some(best) = &self.round.best {
                self.charges = best.charges;
            }
            self.round = Round::of(self.round.budget.saturating_mul(2));
        }
        Ok(())
    }
}

impl Seek {
    /// Makes a pass, for which the units were taken, and what follows it. What ends the seek, where something does.
    fn turn(&mut self, alloc: Global, left: &mut u64) -> Result<Option<Ending>, AllocError>
        ensures { left.new ≤ left.old }
    {
        let pass = make_pass(alloc, &self.grown.table, &self.charges)?;
        let height = Height::of(&pass, self.grown.table.times().demands.as_slice());
        let is_first = self.round.best.is_none();
        self.round.spend(u64::from(self.grown.table.len()));
        self.round.keep(height);
        if is_first {
            return self.first_turn(alloc, pass, height, left);
        }
        if height.closes(self.best.total) {
            return Ok(Some(Ending::Closed(pass)));
        }
        self.go_on(alloc, &pass)?;
        Ok(None)
    }

    /// What follows the first pass of a round: a walk, and then what follows each.
    fn first_turn(
        &mut self,
        alloc: Global,
        pass: Pass,
        height: Height,
        left: &mut u64,
    ) -> Result<Option<Ending>, AllocError>
        ensures { left.new ≤ left.old }
    {
        let Some(walk) = self.walk(alloc, &pass, left)? else {
            self.walked = Some(pass);
            return Ok(Some(Ending::Stopped));
        };
        if self.best.total == 0 {
            return Ok(Some(Ending::Free));
        }
        if height.closes(self.best.total) {
            return Ok(Some(Ending::Closed(pass)));
        }
        if walk.whole {
            return Ok(Some(Ending::Walked(pass, walk)));
        }
        self.go_on(alloc, &pass)?;
        self.walked = Some(pass);
        Ok(None)
    }

    /// The lemmas that a pass tells, with the layers of a whole walk where there was one.
    fn tell(
        self,
        alloc: Global,
        pass: Pass,
        layers: Vec<Indexed>,
        left: u64,
    ) -> Result<Found, AllocError>
        ensures { IfOk result (λ f. f.left ≡ left) }
    {
        let Seek { grown, best, .. } = self;
        let charges = pass.charges;
        let list_of_charges = charges_of(alloc, &grown.table, &charges)?;
        let telling = Telling {
            grown,
            pass,
            charges: list_of_charges,
            total: best.total,
        };
        let lemmas = list(alloc, &telling, layers.as_slice())?;
        Ok(Found {
            best,
            charges,
            lemmas,
            left,
        })
    }

    /// What a seek found that tells no lemma.
    fn tell_nothing(self, alloc: Global, left: u64) -> Found
        ensures { result.left ≡ left }
    {
        let Seek { best, .. } = self;
        Found {
            best,
            charges: [0; MAX_MODELS],
            lemmas: SeqEntries::from_vec(Vec::new(alloc)),
            left,
        }
    }

    /// What a seek found that ended so, with so many units left.
    fn ended(mut self, alloc: Global, ending: Ending, left: u64) -> Result<Found, AllocError>
        ensures { IfOk result (λ f. f.left ≡ left) }
    {
        match ending {
            Ending::Closed(pass) => self.tell(alloc, pass, Vec::new(alloc), left),
            Ending::Walked(pass, walk) => self.tell(alloc, pass, walk.layers, left),
            Ending::Free => Ok(self.tell_nothing(alloc, left)),
            Ending::Stopped => match self.walked.take() {
                Some(pass) => self.tell(alloc, pass, Vec::new(alloc), left),
                None => Ok(self.tell_nothing(alloc, left)),
            },
        }
    }
}

/// Seeks from a table with node 0 alone, and a best sequence whose total is above 0. Uses up to `limit` units.
pub(crate) fn seek_from(
    alloc: Global,
    table: Table,
    best: Costed,
    limit: u64,
) -> Result<Found, AllocError>
    ensures { IfOk result (λ f. f.left ≤ limit) }
{
    let charges = first_charges(&table);
    let mut seek = Seek {
        grown: Grown::new(alloc, table)?,
        best,
        charges,
        round: Round::of(FIRST_BUDGET),
        walked: None,
    };
    let mut left = limit;
    let mut nodes = u64::from(seek.grown.table.len());
    while left >= nodes {
        left -= nodes;
        if let Some(ending) = seek.turn(alloc, &mut left)? {
            return seek.ended(alloc, ending, left);
        }
        nodes = u64::from(seek.grown.table.len());
    }
    seek.ended(alloc, Ending::Stopped, left)
}
