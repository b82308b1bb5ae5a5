//! What a pass tells: a value for each node and each number of units left.
ghost use Rattle.std.specs.Prelude.{◌≡◌, ◌<◌, ◌≤◌};
ghost use Rattle.sequence_table.specs.Values.{told};

use std::marker::Model;

/// The values of the nodes of a table, with up to so many units left.
///
/// Contracts see the number of units, the number of nodes and the values: those with none left, in the order of the
/// nodes, then those with one left, and so on.
#[derive(Drop)]
pub struct Told {
    pub(crate) left: u32,
    pub(crate) nodes: u32,
    pub(crate) all: Vec<u64>,
}

impl Model for Told {
    ghost use Rattle.sequence_table.specs.Values.{Values};
    ghost use Rattle.sequence_table.specs.inner.Kept.{values_of, AreKept};

    ghost Value = { Values };

    ghost view = { λ s. values_of s.left s.nodes s.all.items };

    ghost invariant = { λ s. AreKept s.left s.nodes s.all.items };
}

impl Told {
    /// Up to how many units left there are values.
    pub fn left(&self) -> u32
        ensures { result ≡ self.now.left }
    {
        self.left
    }

    /// Of how many nodes there are values.
    pub fn nodes(&self) -> u32
        ensures { result ≡ self.now.nodes }
    {
        self.nodes
    }

    /// The value of a node with so many units left: every row of so many units from the node's starts has a charged
    /// cost of at least it. Takes constant time.
    pub fn value(&self, left: u32, node: u32) -> u64
        requires left { left ≤ self.now.left }
        requires node { node < self.now.nodes }
        ensures value { result ≡ told self.now left node }
        ensures limit { result < 1000000000000000000 }
    {
        self.all[left as usize * self.nodes as usize + node as usize]
    }
}
