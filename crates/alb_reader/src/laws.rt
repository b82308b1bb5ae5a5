//! Laws of the definitions.
//!
//! The function does nothing: its contract is the law. It ties the writing to the reading.
ghost use Rattle.alb_reader.specs.Written.{EveryWrittenTextIsRead};

/// The canonical text of an instance is read as an instance with the same times, in which the same tasks are before
/// others, and with the same cycle time.
pub fn every_written_text_is_read()
    ensures { EveryWrittenTextIsRead }
{}
