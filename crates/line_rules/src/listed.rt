//! Lists that contracts see as lists, and nothing more.
//!
//! A list is a vector whose view is the list of its items: its room and its allocator are no part of what a contract
//! says. So a balance, a certificate or a trail is a plain record of lists, and two of them are equal where their
//! items are. `from_vec`, `into_vec`, `len`, `at`, `as_slice` and `pop` take constant time and no memory. `push` may
//! move the items to a greater room, and leaves the list as it was where that takes more memory than there is. `copy`
//! takes memory for the items and for what they hold.
ghost use Rattle.std.specs.Prelude.{◌≡◌, ◌==◌, ◌<◌, [], ◌∷◌, ◌++◌, length, slice_get, Some, OnOk, OnErr, IfOk, IsNone};
ghost use Rattle.std.specs.Prelude.{IfSome};

use crate::types::{Entry, Load, OpenFrame, Seatplace};
use std::alloc::AllocError;
use std::marker::Model;

/// A list that contracts see as one: made from a vector without taking memory.
#[derive(Drop)]
pub struct Listed<T> {
    items: Vec<T>,
}

/// The places of the tasks, in the order of the tasks.
pub type Places = Listed<Seatplace>;

/// The numbers of the entries that something stands on, from 0.
pub type Cites = Listed<u64>;

/// Entries, from number 0 on.
pub type Entries = Listed<Entry>;

/// Open frames, from the outermost on.
pub type Frames = Listed<OpenFrame>;

/// Loads, in the order of their stations.
pub type Loads = Listed<Load>;

/// A value of which an equal one can be made, where there is memory for it.
pub trait EqualCopy: Drop {
    /// An equal value; an error where memory is wanting.
    fn equal_copy(&self) -> Result<Self, AllocError>
        ensures equal { IfOk result (λ v. v ≡ self.now) };
}

impl EqualCopy for u64 {
    fn equal_copy(&self) -> Result<u64, AllocError> {
        Ok(*self)
    }
}

impl EqualCopy for Seatplace {
    fn equal_copy(&self) -> Result<Seatplace, AllocError> {
        Ok(*self)
    }
}

impl EqualCopy for Load {
    fn equal_copy(&self) -> Result<Load, AllocError> {
        Ok(*self)
    }
}

impl EqualCopy for Entry {
    fn equal_copy(&self) -> Result<Entry, AllocError> {
        self.copy()
    }
}

impl EqualCopy for OpenFrame {
    fn equal_copy(&self) -> Result<OpenFrame, AllocError> {
        self.copy()
    }
}

impl<T> Model for Listed<T> {
    ghost use Rattle.std.specs.Prelude.{List};

    ghost Value = { List T };

    ghost view = { λ s. s.items.items };
}

impl<T> Listed<T> {
    /// The list of these items.
    pub fn from_vec(items: Vec<T>) -> Listed<T>
        ensures { result ≡ items.items }
    {
        Listed { items }
    }

    /// How many items there are.
    #[inline]
    pub fn len(&self) -> usize
        ensures { result ≡ length self.now }
    {
        self.items.len()
    }

    /// Whether there is none.
    pub fn is_empty(&self) -> bool
        ensures { result ≡ (length self.now == 0) }
    {
        self.items.is_empty()
    }

    /// The item at place `k`, from 0.
    #[inline]
    pub fn at(&self, k: usize) -> &T
        requires { k < length self.now }
        ensures { slice_get self.now k ≡ Some result.now }
    {
        &self.items[k]
    }

    /// The items, in order.
    #[inline]
    pub fn as_slice(&self) -> &[T]
        ensures { result.now ≡ self.now }
    {
        self.items.as_slice()
    }

    /// Puts an item at the end. Where memory is out the list stays as it was, and the item is given up.
    pub fn push(&mut self, item: T) -> Result<(), AllocError>
    where
        T: Drop,
        ensures ok { OnOk result (self.new ≡ self.old ++ item ∷ []) }
        ensures err { OnErr result (self.new ≡ self.old) }
    {
        self.items.push(item)?;
        Ok(())
    }

    /// Takes the last item from the list, or answers None where it has none.
    #[inline]
    pub fn pop(&mut self) -> Option<T>
        ensures none { IsNone result → self.old ≡ [] }
        ensures kept { IsNone result → self.new ≡ self.old }
        ensures some { IfSome result (λ item. self.old ≡ self.new ++ item ∷ []) }
    {
        self.items.pop()
    }

    /// The items as a vector, in order.
    #[inline]
    pub fn into_vec(self) -> Vec<T>
        ensures { result.items ≡ self }
    {
        let Listed { items } = self;
        items
    }
}

impl<T: EqualCopy> Listed<T> {
    /// An equal list; an error where memory is wanting.
    pub fn copy(&self) -> Result<Listed<T>, AllocError>
        ensures { IfOk result (λ v. v ≡ self.now) }
    {
        let mut items = Vec::with_capacity(*self.items.allocator(), self.items.len())?;
        for item in self.items.as_slice() {
            items.push(item.equal_copy()?)?;
        }
        Ok(Listed { items })
    }
}
