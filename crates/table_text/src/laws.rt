//! That canonical tables are read back.
ghost use Rattle.table_text.specs.Laws.{EveryWrittenTableIsRead};

/// Each canonical table is read as the same tasks, with the same names, times, precedences and pairs apart.
pub fn every_written_table_is_read()
    ensures { EveryWrittenTableIsRead }
{}
