ghost use Rattle.std.specs.Prelude.{◌≡◌, ℕ, List};
ghost use Rattle.st_base.specs.declared.entry.Entry.{Entry};
ghost use Rattle.st_order.specs.Columns.{FallStrictly, FallWeakly, IsJoined, column, of_key};
ghost use Rattle.st_order.specs.Sorted.{merged};

/// The column of a key in the merged list is its column along the runs, where numbers don't rise along that.
pub fn merged_has_columns()
    ensures { (runs : List (List Entry)) (key : List ℕ) → FallWeakly (column key runs)
        → of_key key (merged runs) ≡ column key runs }
{}

/// The merged list is the one list in strict entry order that has the entries of the runs, where numbers fall along the
/// columns of all keys.
pub fn merged_is_joined()
    ensures { (runs : List (List Entry)) → ((key : List ℕ) → FallStrictly (column key runs))
        → IsJoined runs (merged runs) }
{}
