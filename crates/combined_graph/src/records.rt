//! The records of a text, one after the other.
//!
//! The room of one record is used for all of them. A record may have any number of fields, so that one of a wrong
//! number is a fault of the mix and not of its text.
ghost use Rattle.std.specs.Prelude.{◌≡◌, ◌≢◌, ◌∷◌, [], IfOk, IfSome, IsNone, length};
ghost use Rattle.csv.specs.Records.{fields_of};
ghost use Rattle.combined_graph.specs.Records.{IsReading, TakesRecord, records_of, mix_records};

use csv::{ByteRecord, ErrorKind, Reader, ReaderBuilder};
use std::alloc::{AllocError, Global};

/// A reader of a text of comma-separated values: records of any length, and no record of names.
pub fn reader_of(alloc: Global, bytes: &[u8]) -> Reader<&[u8]>
    ensures reading { IsReading result }
    ensures records { records_of result ≡ mix_records bytes.now }
{
    ReaderBuilder::new()
        .has_headers(false)
        .flexible(true)
        .from_reader(alloc, bytes)
}

/// Takes the next record, and answers whether there is one. Over a text in memory the only error is that memory ran
/// out.
pub fn next_record(reader: &mut Reader<&[u8]>, row: &mut ByteRecord) -> Result<bool, AllocError>
    requires { IsReading reader.old }
    ensures { IfOk result (λ found. TakesRecord (records_of reader.old) reader.new found (fields_of row.new)) }
{
    match reader.read_byte_record(row) {
        Ok(found) => Ok(found),
        Err(error) => match error.into_kind() {
            ErrorKind::UnequalLengths { .. } => unreachable!(),
            ErrorKind::Utf8 { .. } => unreachable!(),
            _ => Err(AllocError),
        },
    }
}

/// The four fields of a record.
#[derive(Clone, Copy, Debug)]
pub struct Four<'a> {
    /// What the record is: `tasks`, `model`, `time` or `arc`.
    pub word: &'a [u8],
    /// The second field.
    pub second: &'a [u8],
    /// The third field.
    pub third: &'a [u8],
    /// The fourth field.
    pub fourth: &'a [u8],
}

/// The four fields of a record that has four.
pub fn four_of(row: &ByteRecord) -> Option<Four<'_>>
    ensures some { IfSome result (λ f.
        fields_of row.now ≡ f.word.now ∷ f.second.now ∷ f.third.now ∷ f.fourth.now ∷ []) }
    ensures none { IsNone result → length (fields_of row.now) ≢ 4 }
{
    if row.len() != 4 {
        return None;
    }
    let word = row.get(0)?;
    let second = row.get(1)?;
    let third = row.get(2)?;
    let fourth = row.get(3)?;
    Some(Four {
        word,
        second,
        third,
        fourth,
    })
}
