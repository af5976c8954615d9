ghost use Rattle.std.specs.Prelude.{◌≡◌};
ghost use Rattle.table_writer.specs.declared.fault.AddFault.TheVariants.{OutOfMemory};

use std::alloc::AllocError;

/// Why an entry isn't added to a table.
#[derive(Drop)]
pub enum AddFault {
    /// The finished table would have more bytes than its kind may have.
    TooLarge,
    OutOfMemory,
}

impl From<AllocError> for AddFault {
    ghost from_gives = { λ _ fault. fault ≡ OutOfMemory };

    fn from(_error: AllocError) -> AddFault {
        AddFault::OutOfMemory
    }
}
