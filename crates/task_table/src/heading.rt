//! The heading of a table, its first record.
ghost use Rattle.std.specs.Prelude.{◌≡◌};
ghost use Rattle.csv.specs.Records.{fields_of};
ghost use Rattle.task_table.specs.Records.{columns_of};

use crate::mark::is_word;
use crate::records::{field_of, says_from};
use csv::ByteRecord;

/// How many columns a table has, where its first record is a heading: 4 with the word `apart`, or else 3.
pub fn columns_of(row: &ByteRecord) -> Option<usize>
    ensures { result ≡ columns_of (fields_of row.now) }
{
    if !is_word(field_of(row, 0), b"task")
        || !is_word(field_of(row, 1), b"time")
        || !is_word(field_of(row, 2), b"after")
    {
        return None;
    }
    if is_word(field_of(row, 3), b"apart") && !says_from(row, 4) {
        return Some(4);
    }
    if !says_from(row, 3) {
        return Some(3);
    }
    None
}
