//! Laws of the words of `st_base`: the order of keys, ranges of keys, maps from byte strings, and lists.
//!
//! Each law is the contract of a function without a body. The lemmas behind them stand in `proofs/` as public modules, once
//! for all crates above: `Lists`, `Keys`, `Ranges`, `Maps`.
#![tactic(auto)]

ghost use Rattle.std.specs.Prelude.{◌≡◌, ℕ, IsTrue, IsFalse, List, None, Option, Some, max, option_map, if◌then◌else◌};
ghost use Rattle.std.specs.List.{AllByRecursion as Each};
ghost use Rattle.st_base.specs.Bytes.{at_most, below, same};
ghost use Rattle.st_base.specs.Entries.{add_charge};
ghost use Rattle.st_base.specs.Map.{changed_at, set_at, value_at, without};
ghost use Rattle.st_base.specs.Order.{in_order};
ghost use Rattle.st_base.specs.Range.{entries_charge, file_charge, is_in_range, keys_rise, meet, range_of, under_number};
ghost use Rattle.st_base.specs.declared.entry.Entry.{Entry};
ghost use Rattle.st_base.specs.declared.entry.KeyRange.{KeyRange};

/// Two ranges that have a key in common meet, and entries in order lie in their own range, which stays under one number.
pub fn ranges_have_their_keys()
    ensures meets { (one other : KeyRange) (key : List ℕ)
        → IsTrue (is_in_range one key) → IsTrue (is_in_range other key) → IsTrue (meet one other) }
    ensures swaps { (one other : KeyRange) → meet one other ≡ meet other one }
    ensures own { (entries : List Entry) → IsTrue (in_order entries)
        → Each (λ entry. IsTrue (is_in_range (range_of entries) entry.key)) entries }
    ensures numbered { (number : ℕ) (entries : List Entry) → range_of (under_number number entries) ≡ range_of entries }
{}

/// Entries whose keys rise are in order.
pub fn rising_keys_are_in_order()
    ensures { (entries : List Entry) → IsTrue (keys_rise entries) → IsTrue (in_order entries) }
{}

/// What a map has at a key, once a pair was set, a value was changed, or a pair went.
pub fn maps_are_looked_up<X>()
    ensures set { (pairs : List (List ℕ × X)) (key : List ℕ) (value : X) (other : List ℕ)
        → value_at (set_at pairs key value) other ≡ (if same key other then Some value else value_at pairs other) }
    ensures gone { (pairs : List (List ℕ × X)) (key other : List ℕ)
        → value_at (without pairs key) other ≡ (if same other key then None else value_at pairs other) }
{}

/// A file's charge is counted from the charge that its table keeps, which stands still at the end of 64 bits.
pub fn charges_of_files_are_kept()
    ensures { (charge : ℕ) (entries : List Entry)
        → add_charge charge (max 65536 (entries_charge entries)) ≡ add_charge charge (file_charge entries) }
{}
