//! A set of tasks that stands beside what holds it, so that this stays small.
//!
//! Few lemmas hold a set beside their own. A box takes eight bytes in each lemma, where the set would take 128. `new` and
//! `copy` take memory for one set, and `set` takes none.
ghost use Rattle.std.specs.Prelude.{◌≡◌, IfOk};

use line_instance::TaskSet;
use std::alloc::{AllocError, Global};
use std::marker::Model;

/// A set of tasks in a box; contracts see it as the set.
#[derive(Drop)]
pub struct BoxedSet {
    inner: Box<TaskSet>,
}

impl Model for BoxedSet {
    ghost use Rattle.std.specs.Prelude.{List, Bool};

    ghost Value = { List Bool };

    ghost view = { λ s. s.inner.value };
}

impl BoxedSet {
    /// A box with this set; an error where memory is wanting.
    pub fn new(alloc: Global, set: &TaskSet) -> Result<BoxedSet, AllocError>
        ensures { IfOk result (λ s. s ≡ set.now) }
    {
        Ok(BoxedSet {
            inner: Box::new(alloc, *set)?,
        })
    }

    /// The set.
    #[inline]
    pub fn set(&self) -> &TaskSet
        ensures { result.now ≡ self.now }
    {
        &self.inner
    }

    /// An equal set in a box of its own; an error where memory is wanting.
    pub fn copy(&self) -> Result<BoxedSet, AllocError>
        ensures { IfOk result (λ s. s ≡ self.now) }
    {
        Ok(BoxedSet {
            inner: Box::new(*Box::allocator(&self.inner), *self.inner)?,
        })
    }
}
