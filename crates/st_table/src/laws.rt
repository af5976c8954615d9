ghost use Rattle.std.specs.Prelude.{◌≡◌, ◌↔◌, ℕ, List, IsTrue, None};
ghost use Rattle.st_base.specs.Range.{keys_rise};
ghost use Rattle.st_base.specs.declared.entry.Entry.{Entry};
ghost use Rattle.st_table.specs.IsTable.{IsTable};
ghost use Rattle.st_table.specs.Table.{acting, first_fault};
ghost use Rattle.st_table.specs.declared.kind.TableKind.{TableKind};
ghost use Rattle.st_table.specs.declared.kind.TableKind.TheVariants.{External, Own};

/// Bytes without a first fault are a table, with one list of entries, and bytes with one are none; the keys of an external
/// table rise strictly.
pub fn table_or_first_fault()
    ensures exact { (bytes : List ℕ) (kind : TableKind)
        → (first_fault bytes kind ≡ None) ↔ ((entries : List Entry) × IsTable bytes kind entries) }
    ensures one { (bytes : List ℕ) (kind : TableKind) (one other : List Entry)
        → IsTable bytes kind one → IsTable bytes kind other → one ≡ other }
    ensures external { (bytes : List ℕ) (entries : List Entry)
        → IsTable bytes External entries → IsTrue (keys_rise entries) }
{}

/// The bytes of an external table are an own table with the same entries.
pub fn external_is_own()
    ensures { (bytes : List ℕ) (entries : List Entry) → IsTable bytes External entries → IsTable bytes Own entries }
{}

/// Entries that act under their own numbers are as they are.
pub fn own_numbers_stay()
    ensures { (entries : List Entry) → acting 0 entries ≡ entries }
{}
