//! The line about a task that no station can hold.
ghost use Rattle.std.specs.Prelude.{◌≡◌, ◌++◌, IfOk, OnOk, string_bytes};
ghost use Rattle.task_names.specs.Naming.{called};
ghost use Rattle.station_report.specs.InfeasibleText.{infeasible_text};

use std::alloc::{AllocError, Global};
use task_names::Naming;

/// Puts what a task is called behind a text.
fn push_called(text: &mut String, naming: &Naming, task: u32) -> Result<(), AllocError>
    ensures { OnOk result (string_bytes text.new ≡ string_bytes text.old ++ called naming.now task) }
{
    match naming {
        Naming::Numbered => {
            let number = u64::from(task) + 1;
            write!(text, "{number}")?;
            Ok(())
        }
        Naming::Named(names) => text.push_str(names.get(task as usize)),
    }
}

/// The line about a task, from 0, that is longer than the cycle, with its time: the task by its number or its name. The
/// one error is that memory is out.
pub fn infeasible_line(
    alloc: Global,
    naming: &Naming,
    task: u32,
    time: u64,
) -> Result<Vec<u8>, AllocError>
    ensures { IfOk result (λ t. t.items ≡ infeasible_text naming.now task time) }
{
    let mut text = String::from_str(alloc, "infeasible: task ")?;
    push_called(&mut text, naming, task)?;
    text.push_str(" time ")?;
    write!(text, "{time}")?;
    text.push_str("\n")?;
    Ok(text.into_bytes())
}
