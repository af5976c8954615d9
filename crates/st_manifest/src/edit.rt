use st_base::Family;

/// An edit of a manifest.
#[derive(Drop)]
pub enum Edit {
    /// A family is there from now on, without tables.
    AddFamily {
        id: u32,
        name: Family,
    },
    /// A family is gone, with its tables.
    DropFamily {
        id: u32,
    },
    /// A family has a table, the newest of its level: the level, 0 to 6, the table's file, the file's length in bytes,
    /// and the sequence number that all its entries act under, or 0 where each acts under its own.
    AddTable {
        family: u32,
        level: u8,
        file: u64,
        length: u64,
        number: u64,
    },
    /// A family has the table of this file no longer.
    DropTable {
        family: u32,
        file: u64,
    },
    /// The operations of a family up to this sequence number are in its tables.
    Flushed {
        family: u32,
        number: u64,
    },
    /// The last sequence number; it ends a group.
    Last {
        number: u64,
    },
    /// A write-ahead log counts from now on.
    AddLog {
        file: u64,
    },
    /// It counts no longer.
    DropLog {
        file: u64,
    },
}
