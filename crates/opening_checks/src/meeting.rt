ghost use Rattle.std.specs.Prelude.{◌≡◌, ◌↔◌, IsTrue, drop, flat_map, map};
ghost use Rattle.std.specs.List.{AllByRecursion, list_any};
ghost use Rattle.std.specs.Option.{option_copied};
ghost use Rattle.st_base.specs.Levels.{levels_of};
ghost use Rattle.store_image.specs.Opens.{image_files_meeting, least_file};
ghost use Rattle.st_version.specs.Held.{tables_of};
ghost use Rattle.st_version.specs.Replace.{AreTables};
ghost use Rattle.opening_checks.specs.Least.{lesser_of};
ghost use Rattle.opening_checks.specs.Meeting.{AreByFirstKey, farther, is_amiss, is_reached, met_file, reaches_next};

use crate::least::lesser_of;
use st_base::{Levels, Rows};
use st_order::{at_most, below};
use st_overlap::{first_key_of, last_key_of};
use st_version::Held;
use std::sync::Arc;

/// Reads nothing: what is known of the tables, from their type.
pub(crate) fn know_tables<T: Rows + Drop>(tables: &[Arc<Held<T>>])
    ensures { AreTables (tables_of tables.now) }
{
    for table in tables {
        let _count = table.len();
    }
}

// Whether the greatest last key of the tables before this one is at or above its first key.
fn is_reached<T: Rows + Drop>(reach: Option<&[u8]>, table: &Held<T>) -> bool
    ensures { result ≡ is_reached (option_copied reach.entry) table.now.table }
{
    match reach {
        Some(key) => at_most(first_key_of(table), key),
        None => false,
    }
}

// Whether the first table of those behind this one starts at or below its last key.
fn reaches_next<T: Rows + Drop>(table: &Held<T>, others: &[Arc<Held<T>>]) -> bool
    ensures { result ≡ reaches_next table.now.table (tables_of others.now) }
{
    match others.first() {
        Some(next) => {
            let next: &Held<T> = next;
            at_most(first_key_of(next), last_key_of(table))
        }
        None => false,
    }
}

// The file of the table, if the table meets one before or behind it.
fn met_file<T: Rows + Drop>(
    reach: Option<&[u8]>,
    table: &Held<T>,
    others: &[Arc<Held<T>>],
) -> Option<u64>
    ensures { result ≡ met_file (option_copied reach.entry) table.now.table (tables_of others.now) }
{
    if is_reached(reach, table) || reaches_next(table, others) {
        Some(table.file())
    } else {
        None
    }
}

// The greatest last key, with this table too.
fn farther<'a, T: Rows + Drop>(reach: Option<&'a [u8]>, table: &'a Held<T>) -> &'a [u8]
    ensures { result.now ≡ farther (option_copied reach.entry) table.now.table }
{
    let end = last_key_of(table);
    match reach {
        Some(key) => { if below(key, end) { end } else { key } }
        None => end,
    }
}

/// The least file number of a table that meets another one of its level: None exactly where no two meet. The tables stand by
/// their first keys, and their files differ. One pass, which keeps the greatest last key so far.
pub fn least_meeting<T: Rows + Drop>(tables: &[Arc<Held<T>>]) -> Option<u64>
    requires { AreByFirstKey (tables_of tables.now) }
    ensures { result ≡ least_file (image_files_meeting (tables_of tables.now)) }
{
    know_tables(tables);
    let mut least = None;
    let mut reach: Option<&[u8]> = None;
    let mut left = tables;
    while let Some((first, others)) = left.split_first() {
        let table: &Held<T> = first;
        least = lesser_of(least, met_file(reach, table, others));
        reach = Some(farther(reach, table));
        left = others;
    }
    least
}

/// The least file number of a table of levels 1 to 6 that meets another one of its level: None exactly where no two meet.
/// The tables of each of these levels stand by their first keys, and their files differ.
pub fn least_meeting_in<T: Rows + Drop>(levels: &Levels<Arc<Held<T>>>) -> Option<u64>
    requires { AllByRecursion (λ tables. AreByFirstKey (tables_of tables)) (drop 1 (levels_of levels.now)) }
    ensures { result
        ≡ least_file (flat_map image_files_meeting (drop 1 (map tables_of (levels_of levels.now)))) }
{
    let mut least = None;
    let mut level = 1;
    while level <= 6 {
        least = lesser_of(least, least_meeting(levels.at(level)));
        level += 1;
    }
    least
}

// Whether the other table's first key is below the first one's, or its file is the same.
fn is_amiss<T: Rows + Drop>(one: &Held<T>, other: &Held<T>) -> bool
    ensures { result ≡ is_amiss one.now.table other.now.table }
{
    !at_most(first_key_of(one), first_key_of(other)) || one.file() == other.file()
}

// Whether one of the others stands amiss behind the table.
fn any_amiss<T: Rows + Drop>(table: &Held<T>, others: &[Arc<Held<T>>]) -> bool
    ensures { result ≡ list_any (λ other. is_amiss table.now.table other.value.table) others.now }
{
    others.iter().any(|other| is_amiss(table, other))
}

/// Whether the tables stand by their first keys, and their files differ: what `least_meeting` asks. It compares each table
/// with all behind it.
pub fn are_by_first_key<T: Rows + Drop>(tables: &[Arc<Held<T>>]) -> bool
    ensures { IsTrue result ↔ AreByFirstKey (tables_of tables.now) }
{
    let mut left = tables;
    while let Some((first, others)) = left.split_first() {
        if any_amiss(first, others) {
            return false;
        }
        left = others;
    }
    true
}
