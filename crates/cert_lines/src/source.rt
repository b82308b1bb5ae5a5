//! Where the lines of a text come from.
//!
//! Lines may come from bytes in memory or from a file, piece by piece. A source tells what it stands on by its base,
//! and how often that has failed by its counts. So a reader needn't know which source it has.
ghost use Rattle.std.specs.Prelude.{◌≡◌, ℕ, List, suc};
ghost use Rattle.cert_lines.specs.Taking.{IsTaken, IsAtEnd};
ghost use Rattle.cert_lines.specs.ReadingOn.{IsReadOn};

/// What became of the next line.
#[derive(Clone, Copy, Debug, PartialEq, Eq)]
pub enum Taken {
    /// It was taken.
    Line,
    /// No LF is left in the text, so there is no further line.
    End,
    /// The lines can't go on: out of memory, or a fault of the outside.
    Stopped,
}

/// The lines of a text, one after the other.
pub trait Source {
    /// That the text is told.
    ghost told: { Type 0 };

    /// What is left of the text.
    ghost left: { Self → List ℕ };

    /// The line that was taken last.
    ghost line: { Self → List ℕ };

    /// How many lines were asked for.
    ghost number: { Self → ℕ };

    /// What taking lines doesn't change.
    ghost Base: { Type 0 };

    /// What taking lines doesn't change.
    ghost base: { Self → Base };

    /// How often the outside has failed.
    ghost faults: { Self → ℕ };

    /// How often the outside has failed at least once a fetch fails: one more than now, or as often as now where one
    /// has failed.
    ghost least: { Self → ℕ };

    /// Takes the next line.
    fn advance(&mut self) -> Taken
        ensures line { told → result ≡ Taken.Line → IsTaken (left self.old) (line self.new) (left self.new) }
        ensures end { told → result ≡ Taken.End → IsAtEnd (left self.old) }
        ensures count { result ≡ Taken.Line → number self.new ≡ suc (number self.old) }
        ensures last { result ≡ Taken.End → number self.new ≡ suc (number self.old) }
        ensures source { IsReadOn base faults least self.old self.new };

    /// The line that was taken last.
    fn line(&self) -> &[u8]
        ensures { result.now ≡ line self.now };

    /// How many lines were asked for.
    fn number(&self) -> u64
        ensures { result ≡ number self.now };
}
