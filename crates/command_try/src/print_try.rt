//! The printed lines of `try`.
//!
//! The text is one line: the seed, the number of tasks, the exit code of the search, and the bounds.
ghost use Rattle.std.specs.Prelude.{◌≡◌, ◌++◌, string_bytes, IfOk, OnOk};
ghost use Rattle.command_try.specs.TryText.{status_words, bounds_words, bounds_line, none_line};

use std::alloc::{AllocError, Global};

/// The line and its status.
fn push_status(text: &mut String, seed: u64, tasks: u32, code: u8) -> Result<(), AllocError>
    ensures { OnOk result (string_bytes text.new ≡ string_bytes text.old ++ status_words seed tasks code) }
{
    write!(text, "try seed {seed} tasks {tasks} status {code}")
}

/// The bounds, which are accepted.
fn push_bounds(text: &mut String, lower: u64, upper: u64) -> Result<(), AllocError>
    ensures { OnOk result (string_bytes text.new ≡ string_bytes text.old ++ bounds_words lower upper) }
{
    write!(text, " lower {lower} upper {upper} accepted\n")
}

/// The line of bounds, with the exit code of the solve.
pub fn bounds_text(
    alloc: Global,
    seed: u64,
    tasks: u32,
    code: u8,
    lower: u64,
    upper: u64,
) -> Result<Vec<u8>, AllocError>
    ensures { IfOk result (λ t. t.items ≡ bounds_line seed tasks code lower upper) }
{
    let mut text = String::new(alloc);
    push_status(&mut text, seed, tasks, code)?;
    push_bounds(&mut text, lower, upper)?;
    Ok(text.into_bytes())
}

/// The line where a task is longer than the cycle.
pub fn none_text(alloc: Global, seed: u64, tasks: u32) -> Result<Vec<u8>, AllocError>
    ensures { IfOk result (λ t. t.items ≡ none_line seed tasks) }
{
    let mut text = String::new(alloc);
    write!(text, "try seed {seed} tasks {tasks} infeasible\n")?;
    Ok(text.into_bytes())
}
