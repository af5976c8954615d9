ghost use Rattle.std.specs.Prelude.{◌≡◌};
ghost use Rattle.st_table.specs.Footer.{greatest_size};

use st_base::{OWN_TABLE_BYTES, TABLE_BYTES};

/// Which rules a table obeys.
#[derive(Clone, Copy, PartialEq)]
pub enum TableKind {
    /// A table that was made outside a store, to be ingested: at most 67,108,864 bytes, keys that rise strictly, and the
    /// sequence number 0 throughout.
    External,
    /// A table of a store: at most 4,294,967,295 bytes, and entries in strict order.
    Own,
}

/// The greatest length of a table of this kind, in bytes.
pub fn greatest_size(kind: TableKind) -> usize
    ensures { result ≡ greatest_size kind }
{
    match kind {
        TableKind::External => TABLE_BYTES,
        TableKind::Own => OWN_TABLE_BYTES,
    }
}
