ghost use Rattle.std.specs.Prelude.{◌≡◌, ◌<◌, ◌||◌, [], ◌∷◌, map, filter, fold, false, is_some, IfSome};
ghost use Rattle.std.specs.List.{list_any};
ghost use Rattle.st_base.specs.Bytes.{below};
ghost use Rattle.st_base.specs.Range.{is_in_range, keys_of};
ghost use Rattle.st_order.specs.Least.{lesser_key};
ghost use Rattle.st_order.specs.Order.{between};
ghost use Rattle.job_model.specs.ByKey.{IsByKey, runs_before};
ghost use Rattle.job_model.specs.Level.{is_free_level, run_meets};
ghost use Rattle.st_level.specs.Found.{FindsLeast, HasKeyAt, held_key, is_lesser};

use st_base::{Rows, Scratch};
use st_order::{at_most, below};
use st_overlap::{first_key_of, last_key_of, meets_range, meets_rows};

/// How many tables, which stand by key, end in front of the key: the index of the first whose last key reaches it, or the
/// number of tables. One search by halves.
pub fn first_reaching<T: Rows>(tables: &[T], key: &[u8]) -> usize
    requires { IsByKey (map T.rows tables.now) }
    ensures { result ≡ runs_before key.now (map T.rows tables.now) }
{
    let mut low = 0;
    let mut high = tables.len();
    while low < high {
        let middle = low + (high - low) / 2;
        if below(last_key_of(&tables[middle]), key) {
            low = middle + 1;
        } else {
            high = middle;
        }
    }
    low
}

// Where the entry of the least key in the range stands, in tables that stand by key.
fn least_by_key<T: Rows>(
    tables: &[T],
    first: &[u8],
    last: &[u8],
    scratch: &mut Scratch,
) -> Option<(usize, usize)>
    requires { IsByKey (map T.rows tables.now) }
    ensures { FindsLeast (between first.now last.now) (map T.rows tables.now) result }
{
    let table = first_reaching(tables, first);
    if table == tables.len() {
        return None;
    }
    match meets_rows(&tables[table], first, last, scratch) {
        Some(entry) => Some((table, entry)),
        None => None,
    }
}

/// Whether the range of a table meets the range, in tables that stand by key: one search by halves.
pub fn meets_by_key<T: Rows>(tables: &[T], first: &[u8], last: &[u8]) -> bool
    requires { IsByKey (map T.rows tables.now) }
    ensures { result ≡ list_any (run_meets (between first.now last.now)) (map T.rows tables.now) }
{
    let table = first_reaching(tables, first);
    table < tables.len() && at_most(first_key_of(&tables[table]), last)
}

// Whether the key is below the one that was found, if one was.
fn is_lesser(found: bool, other: &[u8], key: &[u8]) -> bool
    ensures { result ≡ is_lesser (held_key found other.now) key.now }
{
    !found || below(key, other)
}

// Takes the least key of the rows in the range into the spare scratch, where it is below the key that was found before and
// stands there, and gives its index then.
fn lesser_in<T: Rows>(
    rows: &T,
    first: &[u8],
    last: &[u8],
    found: bool,
    scratch: &mut Scratch,
    spare: &mut Scratch,
) -> Option<usize>
    ensures key { held_key (found || is_some result) spare.new
        ≡ fold lesser_key (held_key found spare.old)
        (filter (is_in_range (between first.now last.now)) (keys_of (T.rows rows.now))) }
    ensures there { IfSome result (λ index. HasKeyAt (T.rows rows.now ∷ []) 0 index spare.new) }
    ensures kept { is_some result ≡ false → spare.new ≡ spare.old }
{
    let _length = rows.len();
    let Some(index) = meets_rows(rows, first, last, scratch) else {
        return None;
    };
    let entry = rows.at(index, scratch);
    if !is_lesser(found, spare.as_slice(), entry.key) {
        return None;
    }
    spare.keep_and_add(0, entry.key);
    Some(index)
}

// Where the entry of the least key in the range stands. The spare scratch holds that key meanwhile.
fn least_of_all<T: Rows>(
    tables: &[T],
    first: &[u8],
    last: &[u8],
    scratch: &mut Scratch,
    spare: &mut Scratch,
) -> Option<(usize, usize)>
    ensures { FindsLeast (between first.now last.now) (map T.rows tables.now) result }
{
    let mut least = None;
    for (table, rows) in tables.iter().enumerate() {
        if let Some(entry) = lesser_in(rows, first, last, least.is_some(), scratch, spare) {
            least = Some((table, entry));
        }
    }
    least
}

/// Where the entry of the least key in the range stands, in the tables of the level: the indexes of the table and of the
/// entry in it.
pub(crate) fn least_in<T: Rows>(
    tables: &[T],
    level: u8,
    first: &[u8],
    last: &[u8],
    scratch: &mut Scratch,
    spare: &mut Scratch,
) -> Option<(usize, usize)>
    requires { 0 < level → IsByKey (map T.rows tables.now) }
    ensures { FindsLeast (between first.now last.now) (map T.rows tables.now) result }
{
    if level == 0 {
        least_of_all(tables, first, last, scratch, spare)
    } else {
        least_by_key(tables, first, last, scratch)
    }
}

/// Whether no table of the level has a range that meets the range.
pub(crate) fn is_free<T: Rows>(tables: &[T], level: u8, first: &[u8], last: &[u8]) -> bool
    requires { 0 < level → IsByKey (map T.rows tables.now) }
    ensures { result ≡ is_free_level (between first.now last.now) (map T.rows tables.now) }
{
    if level == 0 {
        meets_range(tables, first, last).is_none()
    } else {
        !meets_by_key(tables, first, last)
    }
}
