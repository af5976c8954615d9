ghost use Rattle.std.specs.Prelude.{◌≤◌, length, List, [], ◌∷◌, ◌++◌};
ghost use Rattle.st_base.specs.declared.entry.Entry.{Entry};
ghost use Rattle.st_table.specs.Footer.{greatest_size};
ghost use Rattle.st_table.specs.IsTable.{IsTable};
ghost use Rattle.st_table.specs.declared.kind.TableKind.{TableKind};
ghost use Rattle.table_writer.specs.Written.{MayBeTable, written_table};
ghost use Rattle.table_writer.specs.Writer.{HoldsEntries, Writer, entry_added};

use st_block::written_block_opens;

/// An entry that is added to a writer comes after those that it holds.
pub fn table_writer_holds_what_is_added()
    ensures { (writer : Writer) (entries : List Entry) (entry : Entry)
        → HoldsEntries writer entries → HoldsEntries (entry_added writer entry) (entries ++ entry ∷ []) }
{}

/// The written table of entries is a table of its kind with these entries, where they are in strict order, each may stand
/// in a table of that kind, and the table is within the limit of its size.
pub fn written_table_opens()
    ensures { (kind : TableKind) (entries : List Entry) → MayBeTable kind entries
        → length (written_table kind entries) ≤ greatest_size kind → IsTable (written_table kind entries) kind entries }
{
    written_block_opens();
}
