ghost use Rattle.std.specs.Prelude.{◌≤◌, ◌++◌, List, None, ℕ, length, map, flat_map, take};
ghost use Rattle.std.specs.Option.{option_copied};
ghost use Rattle.st_base.specs.Range.{keys_of};
ghost use Rattle.st_drops.specs.Ends.{FindsLeastFrom, IsRaised, is_before_end};

use st_base::{KEY_BYTES, Rows, Scratch};
use st_order::{at_most, below};

// Takes the first key of the rows at or after the bound, where none was found before or where it is below that one, and says
// whether one was found. One search by halves.
fn least_in<T: Rows>(
    rows: &T,
    bound: &[u8],
    found: bool,
    key: &mut Scratch,
    scratch: &mut Scratch,
) -> bool
    ensures { (keys : List (List ℕ)) → FindsLeastFrom bound.now keys found key.old
        → FindsLeastFrom bound.now (keys ++ keys_of (T.rows rows.now)) result key.new }
{
    let index = rows.lower(bound, u64::MAX, scratch);
    if index == rows.len() {
        return found;
    }
    let entry = rows.at(index, scratch);
    if found && at_most(key.as_slice(), entry.key) {
        return true;
    }
    key.keep_and_add(0, entry.key);
    true
}

/// Takes the least key of the inputs at or after the bound, and says whether there is one: one search by halves in each.
pub fn least_from<T: Rows>(
    inputs: &[T],
    bound: &[u8],
    key: &mut Scratch,
    scratch: &mut Scratch,
) -> bool
    ensures { FindsLeastFrom bound.now (flat_map keys_of (map T.rows inputs.now)) result key.new }
{
    let mut found = false;
    for rows in inputs {
        found = least_in(rows, bound, found, key, scratch);
    }
    found
}

// Raises the key to the last one of so many first entries, where it is below that.
fn raise_to<T: Rows>(rows: &T, count: usize, last: &mut Scratch, scratch: &mut Scratch)
    requires count { count ≤ length (T.rows rows.now) }
    requires last { length last.old ≤ KEY_BYTES }
    ensures { IsRaised (is_before_end None) (keys_of (take count (T.rows rows.now))) last.old last.new }
{
    let _length = rows.len();
    if count == 0 {
        return;
    }
    let entry = rows.at(count - 1, scratch);
    if below(last.as_slice(), entry.key) {
        last.keep_and_add(0, entry.key);
    }
}

// Raises the key to the last one of the rows before the end, where it is below that: one search by halves.
fn raise_in<T: Rows>(rows: &T, end: Option<&[u8]>, last: &mut Scratch, scratch: &mut Scratch)
    requires { length last.old ≤ KEY_BYTES }
    ensures { IsRaised (is_before_end (option_copied end.entry)) (keys_of (T.rows rows.now)) last.old last.new }
{
    let length = rows.len();
    match end {
        Some(end) => {
            let count = rows.lower(end, u64::MAX, scratch);
            raise_to(rows, count, last, scratch);
        }
        None => raise_to(rows, length, last, scratch),
    }
}

/// Raises the key to the greatest one of the inputs before the end, or to their greatest where there is no end: one search by
/// halves in each.
pub fn raise<T: Rows>(inputs: &[T], end: Option<&[u8]>, last: &mut Scratch, scratch: &mut Scratch)
    requires { length last.old ≤ KEY_BYTES }
    ensures { IsRaised (is_before_end (option_copied end.entry)) (flat_map keys_of (map T.rows inputs.now))
        last.old last.new }
{
    for rows in inputs {
        raise_in(rows, end, last, scratch);
    }
}
