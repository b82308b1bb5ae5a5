//! That records are read again.
//!
//! The function does nothing: its contract is the law. It ties the writing to the reading.
ghost use Rattle.sheet_rows.specs.SheetRows.{EverySheetIsRead};

/// Records with commas between their fields are read again as they were.
pub fn every_sheet_is_read()
    ensures { EverySheetIsRead }
{}
