//! Why a reading ends early.
ghost use Rattle.std.specs.Prelude.{◌≡◌};
ghost use Rattle.task_table.specs.declared.stop.Stop.TheVariants as stop;
ghost use Rattle.task_table.specs.declared.fault.TableFault.TheVariants as fault;

use crate::fault::{TableFault, TableKind};
use std::alloc::{AllocError, AllocFailed};

/// Why a reading ends early.
#[derive(Drop)]
pub enum Stop {
    /// Out of memory.
    Memory,
    /// The table has a fault.
    Fault(TableFault),
}

impl From<AllocError> for Stop {
    ghost from_gives = { λ _ e. e ≡ stop.Memory };

    fn from(_e: AllocError) -> Stop {
        Stop::Memory
    }
}

impl<T: Drop> From<AllocFailed<T>> for Stop {
    ghost from_gives = { λ _ e. e ≡ stop.Memory };

    fn from(_e: AllocFailed<T>) -> Stop {
        Stop::Memory
    }
}

/// A fault of a record.
pub fn at_record(number: u64, kind: TableKind) -> Stop
    ensures { result ≡ stop.Fault (fault.Record number kind) }
{
    Stop::Fault(TableFault::Record {
        record: number,
        kind,
    })
}
