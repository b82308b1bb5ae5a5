//! Where a text is put, byte by byte.
//!
//! What puts a text needn't know whether it goes into memory or, piece by piece, into a file. A put answers nothing, so
//! that what puts lines tests nothing in between. Who made the output asks it at the end.
ghost use Rattle.std.specs.Prelude.{[], ◌∷◌, ℕ, List};
ghost use Rattle.cert_text.specs.Sent.{Sent, Puts};

/// An output that remembers its first failure: what is put after it is let go.
pub trait Output {
    /// That what is put is told.
    ghost told: { Type 0 };

    /// What no put changes.
    ghost Base: { Type 0 };

    /// Whether no put has failed, what was put, what is kept of it, and how often the outside has failed.
    ghost sent: { Self → Sent Base };

    /// Puts a byte.
    fn put(&mut self, byte: u8)
        ensures { Puts told (sent self.old) (byte ∷ []) (sent self.new) };
}
