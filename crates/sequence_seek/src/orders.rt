//! The sequence in model order: what a seek begins with, and what stands in reserve.
ghost use Rattle.std.specs.Prelude.{◌≡◌, ◌++◌, replicate, IfOk, OnOk};
ghost use Rattle.sequence_rules.specs.States.{IsSequenceOf};

use sequence_values::Numbers;
use std::alloc::{AllocError, Global};

/// Puts so many units of a model at the end of a sequence.
fn push_units(sequence: &mut Vec<u64>, model: u64, count: u64) -> Result<(), AllocError>
    ensures { OnOk result (sequence.new.items ≡ sequence.old.items ++ replicate count model) }
{
    for k in 0..count {
        let _so_far = k;
        sequence.push(model)?;
    }
    Ok(())
}

/// The sequence of the demands in model order.
pub(crate) fn in_order(alloc: Global, demands: &[u64]) -> Result<Numbers, AllocError>
    ensures { IfOk result (λ v. IsSequenceOf demands.now v) }
{
    let mut sequence = Vec::new(alloc);
    for m in 0..demands.len() {
        push_units(&mut sequence, m as u64, demands[m])?;
    }
    Ok(Numbers::from_vec(sequence))
}
