ghost use Rattle.std.specs.Prelude.{◌≡◌};
ghost use Rattle.st_table.specs.declared.fault.OpenTableFault.TheVariants.{Bad, OutOfMemory};

use st_base::TableFault;
use std::alloc::AllocError;

/// Why a table isn't opened.
#[derive(Drop)]
pub enum OpenTableFault {
    /// The bytes are no table of the kind: their first fault.
    Bad(TableFault),
    OutOfMemory,
}

impl From<AllocError> for OpenTableFault {
    ghost from_gives = { λ _ fault. fault ≡ OutOfMemory };

    fn from(_error: AllocError) -> OpenTableFault {
        OpenTableFault::OutOfMemory
    }
}

impl From<TableFault> for OpenTableFault {
    ghost from_gives = { λ table fault. fault ≡ Bad table };

    fn from(fault: TableFault) -> OpenTableFault {
        OpenTableFault::Bad(fault)
    }
}
