//! The words of the subject as types: the works of a mix on a balanced line, entries, open frames and certificates.
//!
//! All of them are plain data with public fields, and contracts see them as records of what they hold. Models and
//! entries are counted from 0, and times are in the mix's time unit. The `copy` of an entry or a frame takes memory and
//! makes an equal one.
ghost use Rattle.std.specs.Prelude.{◌≡◌, IfOk};

use line_rules::{EqualCopy, Listed};
use std::alloc::AllocError;

/// Numbers, in order.
pub type Numbers = Listed<u64>;

/// Entries, from number 0 on.
pub type SeqEntries = Listed<SeqEntry>;

/// Open frames, from the outermost on.
pub type SeqFrames = Listed<SeqFrame>;

/// What the models of a mix bring to the stations of a balanced line.
#[derive(Drop)]
pub struct Times {
    /// How many stations there are, 1 to 64.
    pub stations: u32,
    /// How many units of each model are wanted: 1 to 16 models, 1 to 1,000 units together.
    pub demands: Numbers,
    /// The work of model `m` at station `s`, counted from 1, stands at `m * stations + s - 1`: the sum of the model's
    /// times over the station's tasks, at most 1,024,000,000,000.
    pub work: Numbers,
}

/// Why every sequence from a state costs at least so much.
#[derive(Drop)]
pub enum SeqWhy {
    /// The bound of the state is so great.
    Bound,
    /// Whichever model is launched first, the step and what comes after it cost at least so much.
    Branch {
        /// The entries that show it of the states that the bound leaves open, in the order of the models.
        cites: Numbers,
    },
    /// Every row of so many units, with the charges of the models, has a charged cost of at least so much.
    Charge {
        /// The entries by Charge that show it of what comes after a unit, for each model whose unit has a charged cost
        /// below the base, in the order of the models.
        cites: Numbers,
    },
}

impl SeqWhy {
    /// An equal reason; an error where memory is wanting.
    pub fn copy(&self) -> Result<SeqWhy, AllocError>
        ensures equal { IfOk result (λ w. w ≡ self.now) }
    {
        Ok(match self {
            SeqWhy::Bound => SeqWhy::Bound,
            SeqWhy::Branch { cites } => SeqWhy::Branch {
                cites: cites.copy()?,
            },
            SeqWhy::Charge { cites } => SeqWhy::Charge {
                cites: cites.copy()?,
            },
        })
    }
}

/// A lemma. By Bound or Branch: every sequence of what is left, from these starts on, costs at least `least`. By
/// Charge: every row of so many units, from these starts on, has a charged cost of at least `least`.
#[derive(Drop)]
pub struct SeqEntry {
    /// The units left of each model, 0 to 1,000 each; by Charge one number, the units of the row.
    pub rem: Numbers,
    /// Where the next unit is begun at each station, 0 to 10^9 from the station's beginning.
    pub starts: Numbers,
    /// The least utility work, or by Charge the least charged cost, the base: 0 to 10^18.
    pub least: u64,
    /// Why that is so.
    pub why: SeqWhy,
}

impl SeqEntry {
    /// An equal entry; an error where memory is wanting.
    pub fn copy(&self) -> Result<SeqEntry, AllocError>
        ensures equal { IfOk result (λ e. e ≡ self.now) }
    {
        Ok(SeqEntry {
            rem: self.rem.copy()?,
            starts: self.starts.copy()?,
            least: self.least,
            why: self.why.copy()?,
        })
    }
}

impl EqualCopy for SeqEntry {
    fn equal_copy(&self) -> Result<SeqEntry, AllocError> {
        self.copy()
    }
}

/// A question of a search that stopped before it was decided: whether some sequence from a state costs less than
/// `need`.
#[derive(Drop)]
pub struct SeqFrame {
    /// The units left of each model, 0 to 1,000 each.
    pub rem: Numbers,
    /// Where the next unit is begun at each station, 0 to 10^9 from the station's beginning.
    pub starts: Numbers,
    /// The utility work that is asked about, 0 to 10^18.
    pub need: u64,
    /// The last model that was tried, from 0, where one was. All before it were tried too.
    pub last: Option<u32>,
    /// The entries that answer the states which the bound leaves open, in the order of the models.
    pub cites: Numbers,
}

impl SeqFrame {
    /// An equal frame; an error where memory is wanting.
    pub fn copy(&self) -> Result<SeqFrame, AllocError>
        ensures equal { IfOk result (λ f. f ≡ self.now) }
    {
        Ok(SeqFrame {
            rem: self.rem.copy()?,
            starts: self.starts.copy()?,
            need: self.need,
            last: self.last,
            cites: self.cites.copy()?,
        })
    }
}

impl EqualCopy for SeqFrame {
    fn equal_copy(&self) -> Result<SeqFrame, AllocError> {
        self.copy()
    }
}

/// A sequence of the demands with its utility work, and a proof that no sequence has less than a lower bound.
pub struct SeqCert {
    /// The number of models, 1 to 16.
    pub models: u32,
    /// The number of stations, 1 to 64.
    pub stations: u32,
    /// The charge of each model, 0 to 10^14, where there are entries by Charge.
    pub charges: Option<Numbers>,
    /// The lower bound on the utility work, 0 to 10^18.
    pub lower: u64,
    /// The upper bound, 0 to 10^18: the utility work of the sequence.
    pub upper: u64,
    /// The models in the order of their launch, from 0: 1 to 1,000 units.
    pub sequence: Numbers,
    /// Entries, each of which follows from those before it; they show the lower bound where that is above 0.
    pub entries: SeqEntries,
    /// Where the search was when its units ended; none where it came to its end.
    pub frames: SeqFrames,
}

// By hand, and so a call: where a certificate is let go its caller then has one goal for it, and not one for each part.
impl Drop for SeqCert {
    fn drop(self) {
        let SeqCert {
            models: _,
            stations: _,
            charges: _charges,
            lower: _,
            upper: _,
            sequence: _sequence,
            entries: _entries,
            frames: _frames,
        } = self;
    }
}
