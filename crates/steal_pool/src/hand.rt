//! A hand: what it has of the deque that it owns, and a port for each deque of the pool.
ghost use Rattle.std.specs.Prelude.{◌≡◌};
ghost use Rattle.std.specs.Borrow.{sem};
ghost use Rattle.steal_pool.specs.Lending.{LendsHands};

use crate::port::{Home, Port};
use std::alloc::Global;
use std::marker::Model;

/// With a hand a worker puts and takes pieces. Contracts see what it knows (specs/Hands.antt).
#[derive(Drop)]
pub struct Hand {
    // Its number in the pool, from 0.
    pub(crate) name: u32,
    // How many pieces were dealt to it, and how many it has put.
    pub(crate) dealt: u32,
    pub(crate) put: u32,
    pub(crate) home: Home,
    pub(crate) ports: Vec<Port>,
}

impl Model for Hand {
    ghost use Rattle.std.specs.Prelude.{◌≡◌, ◌+◌, length};
    ghost use Rattle.steal_pool.specs.Hands.{HandView};

    ghost Value = { HandView };

    ghost view = { λ h. record { name = h.name; count = h.dealt; home = h.home; ports = h.ports.items } };

    ghost invariant = { λ h. h.dealt + h.put ≡ length h.home.log.own };
}

/// The hands of a pool, in order.
#[derive(Drop)]
pub struct Hands {
    pub(crate) hands: Vec<Hand>,
    pub(crate) alloc: Global,
}

impl Model for Hands {
    ghost use Rattle.std.specs.Prelude.{List};
    ghost use Rattle.steal_pool.specs.Hands.{HandView};

    ghost Value = { List HandView };

    ghost view = { λ h. h.hands.items };
}

impl Hands {
    /// Lends the hands in order, one to each worker.
    pub fn each(&mut self) -> &mut [Hand]
        ensures* gives_back { sem 𝓛 (LendsHands self.entry result) }
        ensures value { result.now ≡ self.old }
    {
        self.hands.as_mut_slice()
    }

    /// The hands in order, one for each worker to own.
    pub fn into_vec(self) -> Vec<Hand>
        ensures { result.items ≡ self }
    {
        let Hands { hands, .. } = self;
        hands
    }

    /// The hands that workers owned, in the order of the pool again.
    pub fn from_vec(alloc: Global, hands: Vec<Hand>) -> Hands
        ensures { result ≡ hands.items }
    {
        Hands { hands, alloc }
    }
}
