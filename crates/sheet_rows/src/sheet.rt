//! A sheet that is being written.
//!
//! The records go through a writer of comma-separated values into a vector. Where one of them fails, a part of it may
//! have been written, so the sheet fails from then on.
ghost use Rattle.std.specs.Prelude.{◌≡◌, [], map, IfOk, OnOk};
ghost use Rattle.sheet_rows.specs.SheetRows.{with_row};

use csv::{Writer, WriterBuilder};
use std::alloc::{AllocError, Global};
use std::marker::Model;

/// A sheet that is being written, record by record. Contracts see its mark and the text so far.
#[derive(Drop)]
pub struct SheetWriter {
    mark: u8,
    failed: bool,
    table: Writer<Vec<u8>>,
}

impl Model for SheetWriter {
    ghost use Rattle.std.specs.Prelude.{Some};
    ghost use Rattle.sheet_rows.specs.SheetRows.{Sheet};
    ghost use Rattle.sheet_rows.specs.inner.Sheets.{IsSheetUnless, sheet_text};

    ghost Value = { Sheet };

    ghost view = { λ s. record { mark = s.mark; text = sheet_text (λ v. Some v.items) s.table } };

    ghost invariant = { λ s. IsSheetUnless s.failed (λ v. Some v.items) s.mark s.table };
}

impl SheetWriter {
    /// A sheet without records, with this mark between the fields of each.
    pub fn new(alloc: Global, mark: u8) -> SheetWriter
        ensures { result ≡ record { mark = mark; text = [] } }
    {
        let table = WriterBuilder::new()
            .delimiter(mark)
            .from_writer(Vec::new(alloc));
        SheetWriter {
            mark,
            failed: false,
            table,
        }
    }

    /// Writes a record of these fields. The one error is that memory is out; the sheet then fails from then on.
    pub fn put(&mut self, fields: &[&[u8]]) -> Result<(), AllocError>
        ensures { OnOk result (self.new ≡ with_row self.old (map (λ f. f.now) fields.now)) }
    {
        if self.failed {
            return Err(AllocError);
        }
        self.failed = self.table.write_fields(fields).is_err();
        if self.failed {
            return Err(AllocError);
        }
        Ok(())
    }

    /// The text of the records. The one error is that memory is out.
    pub fn finish(self) -> Result<Vec<u8>, AllocError>
        ensures { IfOk result (λ t. t.items ≡ self.text) }
    {
        if self.failed {
            return Err(AllocError);
        }
        match self.table.into_inner() {
            Ok(text) => Ok(text),
            Err(_) => Err(AllocError),
        }
    }
}
