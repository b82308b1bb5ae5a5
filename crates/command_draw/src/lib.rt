//! The commands `draw` and `plan`: the balance of a certificate as a picture in a file, and as a sheet.
//!
//! The files are fetched and read as `check` does; then the balance is tested, and nothing else of the certificate.
//! The picture and the report are made before the file is written, so that a run that is refused or out of memory
//! writes nothing.
#![tactic(auto)]

mod draw;
mod drawable;
mod plan;
mod shown;

pub use draw::draw_report;
pub use plan::plan_report;
