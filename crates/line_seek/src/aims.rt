//! Which number of stations a seek goes for.
ghost use Rattle.std.specs.Prelude.{◌≡◌};
ghost use Rattle.line_seek.specs.inner.Aims.{asked_for};

/// What a seek goes for.
#[derive(Clone, Copy)]
pub(crate) enum Aim {
    /// A balance in fewer stations than the best one has, again and again.
    Fewer,
    /// A balance in at most so many stations.
    AtMost(u32),
}

impl Aim {
    /// The stations that the next try asks for, where the best balance has so many.
    pub(crate) fn asked_for(self, best: u32) -> u32
        ensures { result ≡ asked_for self best }
    {
        match self {
            Aim::Fewer => best.saturating_sub(1),
            Aim::AtMost(most) => most,
        }
    }
}
