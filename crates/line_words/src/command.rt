//! The commands, with the names and the keys that each one takes.
//!
//! A command is a row of a table: its word, how many names it wants, and which keys it wants and takes. The table is
//! small, and a look goes through it in order.
ghost use Rattle.std.specs.Prelude.{◌≡◌, map};
ghost use Rattle.line_words.specs.Table.{command_named, proof_command_named, mix_command_named};
ghost use Rattle.line_words.specs.Table.{names_wanted, keys_wanted, keys_taken, units_most};

/// A command of the program.
#[derive(Clone, Copy, Debug, PartialEq, Eq)]
pub enum Command {
    /// The ranked balance.
    Balance,
    /// A balance of the fewest stations at a cycle time.
    Solve,
    /// The least cycle time of a number of stations.
    Cycle,
    /// The test of a certificate.
    Check,
    /// Another form of a file.
    Convert,
    /// The combined instance of a mix of models.
    Combine,
    /// The utility work of a sequence.
    Utility,
    /// The utility work of a sequence, step by step.
    Timeline,
    /// The picture of the utility work of a sequence, step by step.
    TimelineDraw,
    /// A generated instance.
    Try,
    /// The picture of a balance.
    Draw,
    /// The plan of a balance, as a sheet.
    Plan,
    /// The least product of stations and cycle.
    Effic,
    /// The test of a certificate of a least product.
    EfficCheck,
    /// The sequence of a mix with the least utility work.
    Sequence,
    /// The test of a certificate of such a sequence.
    SequenceCheck,
}

/// The command for a mix of models that a word names. Each comparison of a chain makes the proof of the next one
/// longer, so the chain stands in three parts.
fn mix_command_named(word: &str) -> Option<Command>
    ensures { result ≡ mix_command_named word.now }
{
    if word == "combine" {
        return Some(Command::Combine);
    }
    if word == "utility" {
        return Some(Command::Utility);
    }
    if word == "timeline" {
        return Some(Command::Timeline);
    }
    if word == "timeline-draw" {
        return Some(Command::TimelineDraw);
    }
    None
}

/// The command for a certificate that a word names, or one for a mix.
fn proof_command_named(word: &str) -> Option<Command>
    ensures { result ≡ proof_command_named word.now }
{
    if word == "check" {
        return Some(Command::Check);
    }
    if word == "effic-check" {
        return Some(Command::EfficCheck);
    }
    if word == "sequence-check" {
        return Some(Command::SequenceCheck);
    }
    if word == "draw" {
        return Some(Command::Draw);
    }
    if word == "plan" {
        return Some(Command::Plan);
    }
    mix_command_named(word)
}

/// The command that a word names.
pub(crate) fn command_named(word: &str) -> Option<Command>
    ensures { result ≡ command_named word.now }
{
    if word == "balance" {
        return Some(Command::Balance);
    }
    if word == "solve" {
        return Some(Command::Solve);
    }
    if word == "cycle" {
        return Some(Command::Cycle);
    }
    if word == "effic" {
        return Some(Command::Effic);
    }
    if word == "sequence" {
        return Some(Command::Sequence);
    }
    if word == "convert" {
        return Some(Command::Convert);
    }
    if word == "try" {
        return Some(Command::Try);
    }
    proof_command_named(word)
}

impl Command {
    /// How many names the command wants.
    pub(crate) fn names_wanted(&self) -> usize
        ensures { result ≡ names_wanted self.now }
    {
        match self {
            Command::Balance => 1,
            Command::Solve => 1,
            Command::Cycle => 1,
            Command::Check => 2,
            Command::Convert => 2,
            Command::Combine => 2,
            Command::Utility => 3,
            Command::Timeline => 3,
            Command::TimelineDraw => 4,
            Command::Try => 0,
            Command::Draw => 3,
            Command::Plan => 2,
            Command::Effic => 1,
            Command::EfficCheck => 2,
            Command::Sequence => 2,
            Command::SequenceCheck => 3,
        }
    }

    /// The keys that the command wants.
    pub(crate) fn keys_wanted(&self) -> &'static [&'static str]
        ensures { map (λ k. k.now) result.now ≡ keys_wanted self.now }
    {
        match self {
            Command::Balance => &[],
            Command::Solve => &[],
            Command::Cycle => &["stations"],
            Command::Check => &[],
            Command::Convert => &["to"],
            Command::Combine => &[],
            Command::Utility => &["interval", "length"],
            Command::Timeline => &["interval", "length"],
            Command::TimelineDraw => &["interval", "length"],
            Command::Try => &["seed", "tasks"],
            Command::Draw => &[],
            Command::Plan => &[],
            Command::Effic => &["least", "most"],
            Command::EfficCheck => &[],
            Command::Sequence => &["interval", "length"],
            Command::SequenceCheck => &["interval", "length"],
        }
    }

    /// The keys that the command takes.
    pub(crate) fn keys_taken(&self) -> &'static [&'static str]
        ensures { map (λ k. k.now) result.now ≡ keys_taken self.now }
    {
        match self {
            Command::Balance => &["cycle", "line", "apart"],
            Command::Solve => &[
                "cycle", "line", "helpers", "units", "cert", "apart", "warm", "seek", "bound",
            ],
            Command::Cycle => &[
                "stations", "line", "helpers", "units", "cert", "seek", "bound",
            ],
            Command::Check => &["steps", "apart"],
            Command::Convert => &["to", "cycle", "apart"],
            Command::Combine => &[],
            Command::Utility => &["interval", "length"],
            Command::Timeline => &["interval", "length"],
            Command::TimelineDraw => &["interval", "length"],
            Command::Try => &["seed", "tasks", "cycle", "line", "units"],
            Command::Draw => &["apart"],
            Command::Plan => &["apart"],
            Command::Effic => &[
                "least", "most", "line", "helpers", "units", "cert", "seek", "bound",
            ],
            Command::EfficCheck => &["steps"],
            Command::Sequence => &["interval", "length", "units", "out", "seek"],
            Command::SequenceCheck => &["interval", "length", "steps"],
        }
    }

    /// The most work units that the command takes: 3,000,000 for one search, whose certificate then stays well within
    /// 20,000,000 entries; fewer for `cycle` and `effic`, which have as many anew for each cycle that is tried, and for
    /// `sequence`.
    pub(crate) fn units_most(&self) -> u64
        ensures { result ≡ units_most self.now }
    {
        match self {
            Command::Cycle | Command::Effic | Command::Sequence => 1_000_000,
            _ => 3_000_000,
        }
    }
}
