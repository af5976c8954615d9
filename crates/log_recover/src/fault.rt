ghost use Rattle.std.specs.Prelude.{◌≡◌};

use st_device::{Failed, ReadFault};
use thiserror::Error;

/// Why a store isn't opened.
#[derive(Debug, Drop, Error)]
pub enum OpenFault {
    /// The disk has a store that is damaged: a file, and the offset of its first damage in bytes. In the log it is the
    /// offset of a record's gate, or 0 where the file isn't there or isn't a log.
    #[error("the store is damaged: file {file}, from its byte {at} on")]
    Damaged { file: u64, at: u64 },
    #[error("the disk has failed")]
    DiskFault,
    #[error("memory has run out")]
    OutOfMemory,
}

impl From<Failed> for OpenFault {
    ghost use Rattle.log_recover.specs.declared.fault.OpenFault.TheVariants.{DiskFault};

    ghost from_gives = { λ _ e. e ≡ DiskFault };

    fn from(_: Failed) -> Self {
        OpenFault::DiskFault
    }
}

impl From<ReadFault> for OpenFault {
    ghost use Rattle.log_recover.specs.Faults.{of_read};

    ghost from_gives = { λ fault e. e ≡ of_read fault };

    fn from(fault: ReadFault) -> Self {
        match fault {
            ReadFault::Failed => OpenFault::DiskFault,
            ReadFault::OutOfMemory => OpenFault::OutOfMemory,
        }
    }
}
