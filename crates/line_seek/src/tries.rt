//! The tries of a round, in their turns.
ghost use Rattle.std.specs.Prelude.{◌+◌, ◌≤◌, IfSome, IsNone};
ghost use Rattle.line_seek.specs.inner.Tries.{Suits, lag};

use line_rules::{LineKind, Mode};

/// How many tasks a line has at least on which balances drift. On shorter ones beams and searches do as well.
const DRIFTING: u32 = 150;

/// A try: by a balance that drifts, or by a beam or a search, with stations filled from the ends of a mode.
#[derive(Clone, Copy)]
pub(crate) enum Try {
    Drift,
    Beam(Mode),
    Search(Mode),
}

impl Try {
    /// The first try of the first round on a line of this kind.
    pub(crate) fn first(kind: LineKind) -> Try
        ensures suits { Suits kind result }
        ensures lag { lag result ≤ 0 }
    {
        match kind {
            LineKind::Straight => Try::Beam(Mode::Fore),
            LineKind::U => Try::Beam(Mode::Both),
        }
    }

    /// The first try of a later round, on a line of so many tasks.
    pub(crate) fn first_again(kind: LineKind, tasks: u32) -> Try
        ensures suits { Suits kind result }
        ensures lag { lag result ≤ 1 }
    {
        if tasks >= DRIFTING {
            Try::Drift
        } else {
            Try::first(kind)
        }
    }

    /// The next try of the round, where there is one.
    pub(crate) fn next(self, kind: LineKind) -> Option<Try>
        requires { Suits kind self }
        ensures suits { IfSome result (Suits kind) }
        ensures lag { IfSome result (λ t. lag t + lag self ≤ 1) }
        ensures last { IsNone result → lag self ≤ 0 }
    {
        match self {
            Try::Drift => Some(Try::first(kind)),
            Try::Beam(Mode::Fore) => Some(Try::Beam(Mode::Back)),
            Try::Beam(Mode::Back) => Some(Try::Search(Mode::Fore)),
            Try::Search(Mode::Fore) => Some(Try::Search(Mode::Back)),
            Try::Beam(Mode::Both) => Some(Try::Search(Mode::Both)),
            Try::Search(Mode::Back) | Try::Search(Mode::Both) => None,
        }
    }
}
