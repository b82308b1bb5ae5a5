//! The reading of a mix.
//!
//! The number of a record is counted beside the reading, so a fault has its record, and the end of the records has the
//! number behind them.
ghost use Rattle.std.specs.Prelude.{◌≡◌, []};
ghost use Rattle.combined_graph.specs.MixText.{IsMixRead, IsSaid};
ghost use Rattle.combined_graph.specs.MixRecords.{rest_said};
ghost use Rattle.combined_graph.specs.Contents.{IsMixOf};
ghost use Rattle.combined_graph.specs.Faults.{IsFirstFault};
ghost use Rattle.combined_graph.specs.Mixes.{MixedLine};
ghost use Rattle.combined_graph.specs.Records.{IsReading, mix_records, records_of};
ghost use Rattle.combined_graph.specs.declared.fault.MixFault.{MixFault};

use crate::draft::{Draft, Stop, first_of};
use crate::fault::{MixFault, MixKind};
use crate::mix::Mix;
use crate::records::{next_record, reader_of};
use csv::{ByteRecord, Reader};
use std::alloc::Global;

/// What reading a mix answers.
#[derive(Drop)]
pub enum MixRead {
    /// The mix that the text says.
    Good(Mix),
    /// The first record at fault.
    Fault(MixFault),
    /// Out of memory.
    NoMemory,
}

/// Reads a mix: comma-separated values with the number of tasks, and then models, times and arcs in any order, each
/// model before its times and arcs. The text's tasks are counted from 1.
pub fn read_mix(alloc: Global, bytes: &[u8]) -> MixRead
    ensures read { IsMixRead bytes.now result }
    ensures told { (mix : MixedLine) → result ≡ MixRead.Good mix → IsMixOf (mix_records bytes.now) mix }
    ensures first { (f : MixFault) → result ≡ MixRead.Fault f → IsFirstFault (mix_records bytes.now) f }
{
    let mut reader = reader_of(alloc, bytes);
    let mut row = ByteRecord::new(alloc);
    match next_record(&mut reader, &mut row) {
        Err(_) => MixRead::NoMemory,
        Ok(false) => fault(1, MixKind::Form),
        Ok(true) => match first_of(alloc, &row) {
            Err(kind) => fault(1, kind),
            Ok(draft) => read_rest(alloc, draft, &mut reader, &mut row),
        },
    }
}

// The fault of a record.
fn fault(number: u64, kind: MixKind) -> MixRead
    ensures { result ≡ MixRead.Fault (record { row = number; kind = kind }) }
{
    MixRead::Fault(MixFault { row: number, kind })
}

// Takes the records behind the first one.
fn read_rest(
    alloc: Global,
    mut draft: Draft,
    reader: &mut Reader<&[u8]>,
    row: &mut ByteRecord,
) -> MixRead
    requires { IsReading reader.old }
    ensures { IsSaid (rest_said (records_of reader.old) 2 draft) result }
{
    for number in 2..u64::MAX {
        match next_record(reader, row) {
            Err(_) => return MixRead::NoMemory,
            Ok(false) => return finished(draft, number),
            Ok(true) => {}
        }
        match draft.take(alloc, row) {
            Err(Stop::Memory) => return MixRead::NoMemory,
            Err(Stop::Fault(kind)) => return fault(number, kind),
            Ok(()) => {}
        }
    }
    MixRead::NoMemory
}

// The mix of all records, where one of them has a model.
fn finished(draft: Draft, number: u64) -> MixRead
    ensures { IsSaid (rest_said [] number draft) result }
{
    let Draft {
        tasks,
        models,
        arcs: _,
    } = draft;
    if models.is_empty() {
        return fault(number, MixKind::NoModel);
    }
    MixRead::Good(Mix { tasks, models })
}
