ghost use Rattle.std.specs.Prelude.{◌≡◌, ℕ, IsTrue, List, None, if◌then◌else◌};
ghost use Rattle.st_base.specs.Map.{value_at};
ghost use Rattle.st_base.specs.Range.{is_in_range};
ghost use Rattle.st_base.specs.Rows.{newest};
ghost use Rattle.st_base.specs.declared.entry.Entry.{Entry};
ghost use Rattle.st_base.specs.declared.entry.KeyRange.{KeyRange};
ghost use Rattle.st_merge.specs.Scan.{keys_rise_in, live_pairs, value_found};
ghost use Rattle.st_order.specs.Sorted.{merged};

/// The pairs of a scan have, at each key of the range, the value that a read of the merged list at the number finds there, if
/// it finds one, and at no other key; their keys rise.
pub fn scans_find_what_reads_find()
    ensures found { (range : KeyRange) (number : ℕ) (runs : List (List Entry)) (key : List ℕ)
        → value_at (live_pairs range number (merged runs)) key
        ≡ (if is_in_range range key then value_found (newest (merged runs) key number) else None) }
    ensures rise { (range : KeyRange) (number : ℕ) (runs : List (List Entry))
        → IsTrue (keys_rise_in (live_pairs range number (merged runs))) }
{}
