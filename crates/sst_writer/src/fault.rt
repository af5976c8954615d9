ghost use Rattle.std.specs.Prelude.{◌≡◌};
ghost use Rattle.sst_writer.specs.Sst.{writer_fault};

use table_writer::AddFault;

/// Why an entry isn't added to a table.
#[derive(Drop, PartialEq)]
pub enum WriterFault {
    /// The key isn't greater than the last one.
    NotRising,
    /// The finished table would have more than 67,108,864 bytes.
    TooLarge,
    OutOfMemory,
}

/// Why a table isn't finished.
#[derive(Drop)]
pub enum FinishFault {
    /// Nothing was added.
    NoEntry,
    OutOfMemory,
}

impl From<AddFault> for WriterFault {
    ghost from_gives = { λ add fault. fault ≡ writer_fault add };

    fn from(fault: AddFault) -> WriterFault {
        match fault {
            AddFault::TooLarge => WriterFault::TooLarge,
            AddFault::OutOfMemory => WriterFault::OutOfMemory,
        }
    }
}
