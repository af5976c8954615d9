ghost use Rattle.std.specs.Prelude.{◌≡◌, ◌<◌, length, option_map, slice_index};
ghost use Rattle.std.specs.Ordering.{is_gt};
ghost use Rattle.st_base.specs.Rows.{entry_of};
ghost use Rattle.st_merge.specs.Heads.{earlier, first_left, heads_cmp, rests};

use st_base::{EntryRef, Rows, Scratch};

// The first entry that is left of a part.
fn head<'a, T: Rows>(
    parts: &'a [T],
    indexes: &[usize],
    part: usize,
    scratch: &'a mut Scratch,
) -> Option<EntryRef<'a>>
    requires part { part < length parts.now }
    requires indexes { length indexes.now ≡ length parts.now }
    ensures { option_map entry_of result ≡ first_left (rests T.rows parts.now indexes.now) part }
{
    let rows = &parts[part];
    let index = indexes[part];
    if index < rows.len() {
        Some(rows.at(index, scratch))
    } else {
        None
    }
}

// Whether the first of what is left comes behind the other.
fn is_later(one: Option<EntryRef<'_>>, a: usize, other: Option<EntryRef<'_>>, b: usize) -> bool
    ensures { result
        ≡ is_gt (heads_cmp (option_map entry_of one.entry) a (option_map entry_of other.entry) b) }
{
    match one {
        Some(x) => match other {
            Some(y) => x
                .key
                .cmp(y.key)
                .then(y.number.cmp(&x.number))
                .then(a.cmp(&b))
                .is_gt(),
            None => false,
        },
        None => match other {
            Some(_y) => true,
            None => a > b,
        },
    }
}

/// Of two parts the one that has the earlier entry left.
pub(crate) fn earlier<T: Rows>(
    parts: &[T],
    indexes: &[usize],
    one: usize,
    other: usize,
    scratch: &mut Scratch,
    spare: &mut Scratch,
) -> usize
    requires one { one < length parts.now }
    requires other { other < length parts.now }
    requires indexes { length indexes.now ≡ length parts.now }
    ensures { result ≡ earlier (rests T.rows parts.now indexes.now) one other }
{
    let first = head(parts, indexes, one, scratch);
    let second = head(parts, indexes, other, spare);
    if is_later(first, one, second, other) {
        other
    } else {
        one
    }
}
