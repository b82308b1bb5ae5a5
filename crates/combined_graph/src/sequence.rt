//! Sequences of models, one for each unit.
//!
//! A sequence is read line by line. A name is looked up among the models one after the other, since there are at most
//! 16 of them. So the time is proportional to the bytes of the text, and the memory to its units.
ghost use Rattle.std.specs.Prelude.{◌<◌, ◌≤◌, ◌^◌, length};
ghost use Rattle.combined_graph.specs.Sequences.{IsSequenceRead, AreOfModels};

use crate::draft::place_of;
use crate::mix::Mix;
use crate::model::MixModel;
use in2_reader::next_content;
use std::alloc::Global;

// The most units of a sequence.
const MAX_UNITS: usize = 100_000;

/// What reading a sequence answers.
#[derive(Drop)]
pub enum SeqRead {
    /// The model of each unit, counted from 0, in the order of the mix.
    Good(Vec<u32>),
    /// The first unit that names no model, counted from 1.
    UnknownModel(u64),
    /// The text has more than 100,000 units, and each of the first 100,000 names a model.
    TooManyUnits,
    /// Out of memory.
    NoMemory,
}

/// Reads a sequence: on each line that isn't empty the name of a model of the mix. Blanks, tabs and CR are taken off
/// both ends of a line.
pub fn read_sequence(alloc: Global, mix: &Mix, bytes: &[u8]) -> SeqRead
    requires { length bytes.now < 2 ^ 63 }
    ensures read { IsSequenceRead mix.now.models bytes.now result }
    ensures models { AreOfModels (length mix.now.models) result }
{
    let _models = mix.models();
    read_units(alloc, &mix.models, bytes)
}

// The models of the units.
fn read_units(alloc: Global, models: &[MixModel], bytes: &[u8]) -> SeqRead
    requires models { length models.now ≤ 16 }
    requires length { length bytes.now < 2 ^ 63 }
    ensures read { IsSequenceRead models.now bytes.now result }
    ensures models { AreOfModels (length models.now) result }
{
    let mut units = Vec::new(alloc);
    let mut left = bytes;
    let mut line = 1;
    'units: loop {
        let Ok(content) = next_content(left, line) else {
            return SeqRead::Good(units);
        };
        if units.len() == MAX_UNITS {
            return SeqRead::TooManyUnits;
        }
        let Some(model) = place_of(models, content.bytes) else {
            return SeqRead::UnknownModel(units.len() as u64 + 1);
        };
        if units.push(model as u32).is_err() {
            return SeqRead::NoMemory;
        }
        left = content.rest;
        line = content.line + 1;
    }
}
