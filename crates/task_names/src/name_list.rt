//! Lists of names.
ghost use Rattle.std.specs.Prelude.{◌≡◌, ◌≤◌, ◌<◌, ◌++◌, ◌∷◌, [], bytes_eq, decimal, length, IfOk, IfSome, OnOk, OnErr};
ghost use Rattle.std.specs.List.{list_any};
ghost use Rattle.task_names.specs.TaskNames.{AreNames, AreDistinct, name_at, numbers, task_named};

use crate::one_name::Name;
use std::alloc::{AllocError, Global};
use std::marker::Model;

/// The names of tasks, which are counted from 0. Contracts see a list of the names' bytes.
#[derive(Drop)]
pub struct Names {
    items: Vec<Name>,
}

impl Model for Names {
    ghost use Rattle.std.specs.Prelude.{List, ℕ};
    ghost use Rattle.task_names.specs.TaskNames.{AreNames};

    ghost Value = { List (List ℕ) };

    ghost view = { λ s. s.items.items };

    ghost invariant = { λ s. AreNames s.items.items };
}

impl Names {
    /// No names yet.
    pub fn new(alloc: Global) -> Names
        ensures { result ≡ [] }
    {
        Names {
            items: Vec::new(alloc),
        }
    }

    /// How many names there are.
    #[inline]
    pub fn len(&self) -> usize
        ensures many { result ≡ length self.now }
        ensures names { AreNames self.now }
    {
        self.items.len()
    }

    /// The name of a task.
    #[inline]
    pub fn at(&self, task: usize) -> &str
        requires { task < length self.now }
        ensures { result.now ≡ name_at self.now task }
    {
        self.items[task].text()
    }

    /// The name of a task; nothing where the list is shorter.
    #[inline]
    pub fn get(&self, task: usize) -> &str
        ensures { result.now ≡ name_at self.now task }
    {
        if task < self.items.len() {
            return self.items[task].text();
        }
        ""
    }

    /// Whether a task has this name.
    pub fn has(&self, name: &[u8]) -> bool
        ensures { result ≡ list_any (λ n. bytes_eq n name.now) self.now }
    {
        self.items.iter().any(|n| n.text().as_bytes() == name)
    }

    /// The first task of this name.
    pub fn place_of(&self, name: &[u8]) -> Option<usize>
        ensures place { result ≡ task_named self.now name.now }
        ensures within { IfSome result (λ task. task < length self.now) }
    {
        self.items.iter().position(|n| n.text().as_bytes() == name)
    }

    /// A copy of the name of a task.
    pub fn copy_of(&self, alloc: Global, task: usize) -> Result<Name, AllocError>
        requires { task < length self.now }
        ensures { IfOk result (λ name. name ≡ name_at self.now task) }
    {
        self.items[task].copy(alloc)
    }

    /// An equal list.
    pub fn copy(&self, alloc: Global) -> Result<Names, AllocError>
        ensures { IfOk result (λ names. names ≡ self.now) }
    {
        let mut names = Names::new(alloc);
        for task in 0..self.len() {
            names.push(self.copy_of(alloc, task)?)?;
        }
        Ok(names)
    }

    /// Puts a name at the end; without memory the list stays as it was.
    pub fn push(&mut self, name: Name) -> Result<(), AllocError>
        ensures ok { OnOk result (self.new ≡ self.old ++ name ∷ []) }
        ensures err { OnErr result (self.new ≡ self.old) }
    {
        self.items.push(name)?;
        Ok(())
    }
}

/// A number, at most 1,024, as a name.
fn number_name(alloc: Global, number: u32) -> Result<Name, AllocError>
    requires { number ≤ 1024 }
    ensures { IfOk result (λ name. name ≡ decimal number) }
{
    let mut text = String::new(alloc);
    write!(text, "{number}")?;
    Name::new(alloc, text.as_bytes())
}

/// The numbers of so many tasks, at most 1,024, as their names: 1 is the name of task 0.
pub fn numbers(alloc: Global, tasks: u32) -> Result<Names, AllocError>
    requires { tasks ≤ 1024 }
    ensures names { IfOk result (λ names. names ≡ numbers tasks) }
    ensures many { IfOk result (λ names. length names ≡ tasks) }
    ensures distinct { IfOk result (λ names. AreDistinct names) }
{
    let mut names = Names::new(alloc);
    for task in 0..tasks {
        names.push(number_name(alloc, task + 1)?)?;
    }
    Ok(names)
}
