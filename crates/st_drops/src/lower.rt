ghost use Rattle.std.specs.Prelude.{◌≤◌, ◌++◌, ℕ, List, map};
ghost use Rattle.st_base.specs.Range.{range_of};
ghost use Rattle.st_base.specs.declared.entry.KeyRange.{KeyRange};
ghost use Rattle.job_model.specs.ByKey.{IsByKey};
ghost use Rattle.job_model.specs.Drops.{lower_ranges_in};
ghost use Rattle.st_level.specs.Stops.{AreByKey, runs_of_levels};
ghost use Rattle.st_drops.specs.Covers.{TellsCover};

use crate::cover::Cover;
use st_base::{Levels, Rows};
use st_level::first_reaching;
use st_order::{at_most, below};
use st_overlap::{first_key_of, last_key_of};

// How far ranges cover keys, by how far those in front and the others do.
fn sooner<'a>(one: Cover<'a>, other: Cover<'a>) -> Cover<'a>
    ensures { (key : List ℕ) (front back : List KeyRange) → TellsCover front key one.entry
        → TellsCover back key other.entry → TellsCover (front ++ back) key result }
{
    match one {
        Cover::Through(_last) => one,
        Cover::Never => other,
        Cover::NoneBefore(first) => match other {
            Cover::Through(_last) => other,
            Cover::Never => one,
            Cover::NoneBefore(second) => { if below(second, first) { other } else { one } }
        },
    }
}

// How far the ranges of tables that stand by key cover keys: one search by halves.
fn cover_of<'a, U: Rows>(tables: &'a [U], key: &[u8]) -> Cover<'a>
    requires { IsByKey (map U.rows tables.now) }
    ensures { TellsCover (map range_of (map U.rows tables.now)) key.now result }
{
    let index = first_reaching(tables, key);
    if index == tables.len() {
        return Cover::Never;
    }
    let table = &tables[index];
    let first = first_key_of(table);
    if at_most(first, key) {
        Cover::Through(last_key_of(table))
    } else {
        Cover::NoneBefore(first)
    }
}

/// How far the ranges of the tables below the level cover keys: one search by halves in each lower level.
pub fn cover_below<'a, U: Rows>(levels: &'a Levels<U>, level: u8, key: &[u8]) -> Cover<'a>
    requires level { level ≤ 6 }
    requires by_key { AreByKey (runs_of_levels U.rows levels.now) }
    ensures { TellsCover (lower_ranges_in (runs_of_levels U.rows levels.now) level) key.now result }
{
    let mut cover = Cover::Never;
    for lower in level + 1..7 {
        cover = sooner(cover, cover_of(levels.at(lower), key));
    }
    cover
}
