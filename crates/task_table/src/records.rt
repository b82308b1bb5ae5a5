//! The records of a table, one after the other, and their fields.
//!
//! The room of one record is used for all of them. A record may have any number of fields, and one that it lacks is
//! empty.
ghost use Rattle.std.specs.Prelude.{◌≡◌, drop, IfOk};
ghost use Rattle.csv.specs.Records.{fields_of};
ghost use Rattle.task_table.specs.Records.{table_records, field, says};
ghost use Rattle.task_table.specs.inner.RecordsLeft.{IsReading, TakesRecord, records_of};

use csv::{ByteRecord, ErrorKind, Reader, ReaderBuilder};
use std::alloc::{AllocError, Global};

/// A reader of a table with this mark between its fields: records of any length, and no record of names.
pub fn reader_of(alloc: Global, bytes: &[u8], mark: u8) -> Reader<&[u8]>
    ensures reading { IsReading result }
    ensures records { records_of result ≡ table_records mark bytes.now }
{
    ReaderBuilder::new()
        .has_headers(false)
        .flexible(true)
        .delimiter(mark)
        .from_reader(alloc, bytes)
}

/// Takes the next record, and answers whether there is one. Over a text in memory the only error is that memory ran
/// out.
pub fn next_record(reader: &mut Reader<&[u8]>, row: &mut ByteRecord) -> Result<bool, AllocError>
    requires { IsReading reader.old }
    ensures { IfOk result (λ found. TakesRecord (records_of reader.old) reader.new found (fields_of row.new)) }
{
    match reader.read_byte_record(row) {
        Ok(found) => Ok(found),
        Err(error) => match error.into_kind() {
            ErrorKind::UnequalLengths { .. } => unreachable!(),
            ErrorKind::Utf8 { .. } => unreachable!(),
            _ => Err(AllocError),
        },
    }
}

/// A field of a record.
pub fn field_of(row: &ByteRecord, k: usize) -> &[u8]
    ensures { result.now ≡ field (fields_of row.now) k }
{
    row.get(k).unwrap_or(&[])
}

/// Whether one of the fields from a place on isn't empty.
pub fn says_from(row: &ByteRecord, from: usize) -> bool
    ensures { result ≡ says (drop from (fields_of row.now)) }
{
    for k in from..row.len() {
        if !field_of(row, k).is_empty() {
            return true;
        }
    }
    false
}
