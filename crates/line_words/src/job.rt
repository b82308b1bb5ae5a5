//! Jobs: what the words of the command line ask for.
//!
//! A job has the values of all keys of its command, with the defaults put in, so that nothing after it reads words. Jobs
//! that are done alike stand in one group. A job costs its names alone.
ghost use Rattle.std.specs.Prelude.{◌≡◌};
ghost use Rattle.line_words.specs.Jobs.{asks_pairs};

use crate::name::Name;

/// The kind of a line.
#[derive(Clone, Copy, Debug, PartialEq, Eq)]
pub enum LineWord {
    /// A straight line.
    Straight,
    /// A U-line.
    U,
}

/// What a search asks of a set of tasks beside its loads.
#[derive(Clone, Copy, Debug, PartialEq, Eq)]
pub enum BoundWord {
    /// The bound and the lemmas that are known.
    Plain,
    /// Pairs too: tasks of which no two can share a station.
    Pairs,
}

impl BoundWord {
    /// Whether pairs are asked.
    pub fn asks_pairs(&self) -> bool
        ensures { result ≡ asks_pairs self.now }
    {
        match self {
            BoundWord::Plain => false,
            BoundWord::Pairs => true,
        }
    }
}

/// The form of a file.
#[derive(Clone, Copy, Debug, PartialEq, Eq)]
pub enum FormWord {
    /// An instance in the IN2 format.
    In2,
    /// An instance in the ALB format.
    Alb,
    /// A table of tasks, as comma-separated values.
    Csv,
    /// A certificate.
    Cert,
}

/// What the words ask for, by groups. Times are whole numbers of the instance's time unit.
#[derive(Drop)]
pub enum Job {
    /// A page of the program itself.
    Page(PageJob),
    /// A search for what is best, with a certificate of it.
    Search(SearchJob),
    /// The test of a certificate.
    Check(CheckJob),
    /// What is told of a line or written of it, without a search.
    Line(LineJob),
    /// What is told of a mix of models or written of it, without a search.
    Mix(MixJob),
}

/// A page of the program itself.
#[derive(Drop)]
pub enum PageJob {
    /// The page with the commands.
    Help,
    /// The version.
    Version,
}

/// A search for what is best, with a certificate of it.
#[derive(Drop)]
pub enum SearchJob {
    /// A balance of the fewest stations.
    Solve(SolveJob),
    /// The least cycle time of a number of stations.
    Cycle(CycleJob),
    /// The least product of stations and cycle time.
    Effic(EfficJob),
    /// The sequence of a mix with the least utility work.
    Sequence(SequenceJob),
    /// A generated line, solved and checked.
    Try(TryJob),
}

/// The test of a certificate, in at most as many steps.
#[derive(Drop)]
pub enum CheckJob {
    /// Of a certificate of a balance.
    LineCheck(LineCheckJob),
    /// Of a certificate of a least product.
    EfficCheck(EfficCheckJob),
    /// Of a certificate of a sequence.
    SequenceCheck(SequenceCheckJob),
}

/// What is told of a line or written of it, without a search.
#[derive(Drop)]
pub enum LineJob {
    /// The ranked balance.
    Balance(BalanceJob),
    /// A file, written in another form.
    Convert(ConvertJob),
    /// The picture of a certificate's balance.
    Draw(DrawJob),
    /// The plan of a certificate's balance, as a sheet.
    Plan(PlanJob),
}

/// What is told of a mix of models or written of it, without a search.
#[derive(Drop)]
pub enum MixJob {
    /// The combined instance.
    Combine(CombineJob),
    /// The utility work of a sequence.
    Utility(UtilityJob),
    /// The utility work of a sequence, step by step.
    Timeline(UtilityJob),
    /// The picture of the same.
    TimelineDraw(TimelineDrawJob),
}

/// A balance of the fewest stations of the line in a file.
#[derive(Drop)]
pub struct SolveJob {
    /// The file with the line.
    pub file: Name,
    /// The cycle time, 1 to 10^18; else that of the file.
    pub cycle: Option<u64>,
    /// The kind of the line.
    pub line: LineWord,
    /// How many helpers search, 0 to 64.
    pub helpers: u32,
    /// The most work units, 1 to 3,000,000, where the words name them.
    pub units: Option<u64>,
    /// The file that the certificate is written to.
    pub cert: Option<Name>,
    /// The file with pairs of tasks that may share no station.
    pub apart: Option<Name>,
    /// The file with an earlier certificate, from which the search takes what follows.
    pub warm: Option<Name>,
    /// The most loads that a seek before the search lists, 0 to 3,000,000, where the words name them.
    pub seek: Option<u64>,
    /// What the search asks.
    pub bound: BoundWord,
}

/// The least cycle time of a number of stations, for the line in a file.
#[derive(Drop)]
pub struct CycleJob {
    /// The file with the line.
    pub file: Name,
    /// The number of stations, 1 to 1,024.
    pub stations: u32,
    /// The kind of the line.
    pub line: LineWord,
    /// How many helpers search, 0 to 64.
    pub helpers: u32,
    /// The most work units at each cycle that is tried, 1 to 1,000,000.
    pub units: u64,
    /// The file that the certificate is written to.
    pub cert: Option<Name>,
    /// The most loads that a seek lists at each cycle that is tried, 0 to 3,000,000.
    pub seek: u64,
    /// What the search asks.
    pub bound: BoundWord,
}

/// The least product of stations and cycle time, in a range of stations, for the line in a file.
#[derive(Drop)]
pub struct EfficJob {
    /// The file with the line.
    pub file: Name,
    /// The least number of stations, 1 to 1,024.
    pub least: u32,
    /// The greatest number of stations, from the least one to 1,024.
    pub most: u32,
    /// The kind of the line.
    pub line: LineWord,
    /// How many helpers search, 0 to 64.
    pub helpers: u32,
    /// The most work units at each cycle that is tried, 1 to 1,000,000.
    pub units: u64,
    /// The file that the certificate is written to.
    pub cert: Option<Name>,
    /// The most loads that a seek lists at each cycle that is tried, 0 to 3,000,000.
    pub seek: u64,
    /// What the search asks.
    pub bound: BoundWord,
}

/// The sequence of a mix with the least utility work, for a balance of its combined line.
#[derive(Drop)]
pub struct SequenceJob {
    /// The file with the mix.
    pub mix: Name,
    /// The file with the certificate of the balance.
    pub cert: Name,
    /// The time from one launch to the next, 1 to 10^9.
    pub interval: u64,
    /// The length of each station, 1 to 10^9.
    pub length: u64,
    /// The most work units, 1 to 1,000,000.
    pub units: u64,
    /// The file that the certificate of the sequence is written to.
    pub out: Option<Name>,
    /// The most units of a seek before the search, 0 to 3,000,000.
    pub seek: u64,
}

/// A line that is generated, solved and checked.
#[derive(Drop)]
pub struct TryJob {
    /// The seed, any number of 64 bits.
    pub seed: u64,
    /// The number of tasks, 1 to 1,024.
    pub tasks: u32,
    /// The cycle time, 1 to 10^18.
    pub cycle: u64,
    /// The kind of the line.
    pub line: LineWord,
    /// The most work units, 1 to 3,000,000.
    pub units: u64,
}

/// The test of a certificate of a balance.
#[derive(Drop)]
pub struct LineCheckJob {
    /// The file with the line.
    pub file: Name,
    /// The file with the certificate.
    pub cert: Name,
    /// The most steps, 1 to 20,000,000.
    pub steps: u64,
    /// The file with pairs of tasks that may share no station.
    pub apart: Option<Name>,
}

/// The test of a certificate of a least product.
#[derive(Drop)]
pub struct EfficCheckJob {
    /// The file with the line.
    pub file: Name,
    /// The file with the certificate.
    pub cert: Name,
    /// The most steps, 1 to 20,000,000.
    pub steps: u64,
}

/// The test of a certificate of a sequence.
#[derive(Drop)]
pub struct SequenceCheckJob {
    /// The file with the mix.
    pub mix: Name,
    /// The file with the certificate of the balance.
    pub cert: Name,
    /// The file with the certificate of the sequence.
    pub seq: Name,
    /// The time from one launch to the next, 1 to 10^9.
    pub interval: u64,
    /// The length of each station, 1 to 10^9.
    pub length: u64,
    /// The most steps, 1 to 20,000,000.
    pub steps: u64,
}

/// The ranked balance of the line in a file.
#[derive(Drop)]
pub struct BalanceJob {
    /// The file with the line.
    pub file: Name,
    /// The cycle time, 1 to 10^18; else that of the file.
    pub cycle: Option<u64>,
    /// The kind of the line.
    pub line: LineWord,
    /// The file with pairs of tasks that may share no station.
    pub apart: Option<Name>,
}

/// A file, written in another form.
#[derive(Drop)]
pub struct ConvertJob {
    /// The file with a line or a certificate.
    pub file: Name,
    /// The file that is written.
    pub out: Name,
    /// The form of the file that is written.
    pub to: FormWord,
    /// The cycle time that is written, 1 to 10^18; else that of the file.
    pub cycle: Option<u64>,
    /// The file with pairs of tasks that may share no station.
    pub apart: Option<Name>,
}

/// The picture of a certificate's balance.
#[derive(Drop)]
pub struct DrawJob {
    /// The file with the line.
    pub file: Name,
    /// The file with the certificate.
    pub cert: Name,
    /// The file that the picture is written to.
    pub out: Name,
    /// The file with pairs of tasks that may share no station.
    pub apart: Option<Name>,
}

/// The plan of a certificate's balance, as a sheet.
#[derive(Drop)]
pub struct PlanJob {
    /// The file with the line.
    pub file: Name,
    /// The file with the certificate.
    pub cert: Name,
    /// The file with pairs of tasks that may share no station.
    pub apart: Option<Name>,
}

/// The combined instance of a mix of models.
#[derive(Drop)]
pub struct CombineJob {
    /// The file with the mix.
    pub mix: Name,
    /// The file that the instance is written to.
    pub out: Name,
}

/// The utility work of a sequence of models.
#[derive(Drop)]
pub struct UtilityJob {
    /// The file with the mix.
    pub mix: Name,
    /// The file with the certificate of the balance.
    pub cert: Name,
    /// The file with the sequence.
    pub seq: Name,
    /// The time from one launch to the next, 1 to 10^9.
    pub interval: u64,
    /// The length of each station, 1 to 10^9.
    pub length: u64,
}

/// The picture of the utility work of a sequence of models, step by step.
#[derive(Drop)]
pub struct TimelineDrawJob {
    /// The file with the mix.
    pub mix: Name,
    /// The file with the certificate of the balance.
    pub cert: Name,
    /// The file with the sequence.
    pub seq: Name,
    /// The file that the picture is written to.
    pub out: Name,
    /// The time from one launch to the next, 1 to 10^9.
    pub interval: u64,
    /// The length of each station, 1 to 10^9.
    pub length: u64,
}
