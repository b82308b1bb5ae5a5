//! The printed texts of what `sequence` found.
ghost use Rattle.std.specs.Prelude.{◌≡◌, ◌++◌, ◌<◌, ◌≤◌, All, length, string_bytes, OnOk, IfOk};
ghost use Rattle.command_sequence.specs.SequenceText.{names_text, optimal_text, sequence_line, stopped_text};

use combined_graph::Mix;
use command_outcome::push_bounds;
use sequence_values::SeqCert;
use std::alloc::AllocError;

/// The names of the models of units, each behind a blank.
fn push_names(text: &mut Vec<u8>, mix: &Mix, units: &[u64]) -> Result<(), AllocError>
    requires few { length mix.now.models ≤ 16 }
    requires models { All (λ m. m < length mix.now.models) units.now }
    ensures { OnOk result (text.new.items ≡ text.old.items ++ names_text mix.now.models units.now) }
{
    for k in 0..units.len() {
        text.push(b' ')?;
        text.extend_from_slice(mix.name(units[k] as u32))?;
    }
    Ok(())
}

/// A heading, and the line of a sequence behind it.
fn with_sequence(heading: String, mix: &Mix, units: &[u64]) -> Result<Vec<u8>, AllocError>
    requires few { length mix.now.models ≤ 16 }
    requires models { All (λ m. m < length mix.now.models) units.now }
    ensures { IfOk result (λ t. t.items ≡ string_bytes heading ++ sequence_line mix.now units.now) }
{
    let mut text = heading.into_bytes();
    text.extend_from_slice(b"sequence:")?;
    push_names(&mut text, mix, units)?;
    text.extend_from_slice(b"\n")?;
    Ok(text)
}

/// The report of an optimum, with its sequence, behind what is said already.
pub(crate) fn optimal_text(said: String, mix: &Mix, cert: &SeqCert) -> Result<Vec<u8>, AllocError>
    requires few { length mix.now.models ≤ 16 }
    requires models { All (λ m. m < length mix.now.models) cert.now.sequence }
    ensures { IfOk result (λ t. t.items ≡ string_bytes said ++ optimal_text mix.now cert.now) }
{
    let least = cert.upper;
    let mut heading = said;
    write!(heading, "optimal utility {least}\n")?;
    with_sequence(heading, mix, cert.sequence.as_slice())
}

/// The report of a search that used its units, with its best sequence, behind what is said already.
pub(crate) fn stopped_text(said: String, mix: &Mix, cert: &SeqCert) -> Result<Vec<u8>, AllocError>
    requires few { length mix.now.models ≤ 16 }
    requires models { All (λ m. m < length mix.now.models) cert.now.sequence }
    ensures { IfOk result (λ t. t.items ≡ string_bytes said ++ stopped_text mix.now cert.now) }
{
    let mut heading = said;
    heading.push_str("stopped by units\n")?;
    push_bounds(&mut heading, u128::from(cert.lower), u128::from(cert.upper))?;
    with_sequence(heading, mix, cert.sequence.as_slice())
}
