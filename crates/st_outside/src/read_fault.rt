ghost use Rattle.std.specs.Prelude.{◌≡◌};

use st_base::Failed;
use std::alloc::AllocError;

/// Why an object of the outside isn't read.
#[derive(Debug, Drop)]
pub enum ReadFault {
    /// The object has failed: its count of faults has risen, or stands at its end.
    Failed,
    OutOfMemory,
}

impl From<Failed> for ReadFault {
    ghost use Rattle.st_outside.specs.declared.read_fault.ReadFault.TheVariants.{Failed as failed_read};

    ghost from_gives = { λ _ fault. fault ≡ failed_read };

    fn from(_: Failed) -> ReadFault {
        ReadFault::Failed
    }
}

impl From<AllocError> for ReadFault {
    ghost use Rattle.st_outside.specs.declared.read_fault.ReadFault.TheVariants.{OutOfMemory as no_memory};

    ghost from_gives = { λ _ fault. fault ≡ no_memory };

    fn from(_: AllocError) -> ReadFault {
        ReadFault::OutOfMemory
    }
}
