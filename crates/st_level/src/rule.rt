ghost use Rattle.std.specs.Prelude.{◌≡◌, ◌<◌, ◌≤◌, ◌&&◌, nat_le, if◌then◌else◌, map};
ghost use Rattle.st_order.specs.Order.{between};
ghost use Rattle.job_model.specs.ByKey.{IsByKey};
ghost use Rattle.job_model.specs.Level.{is_free_level, level_rule, stop_in};
ghost use Rattle.st_level.specs.Stops.{AreByKey, TellsCause, runs_at_level, runs_of_levels};

use crate::choice::{Choice, Stop};
use crate::least::{is_free, least_in};
use st_base::{Levels, Rows, Running, Scratch};
use st_overlap::meets_running;

// What stops the walk at the level.
fn stop_at<T: Rows>(
    levels: &Levels<T>,
    level: u8,
    running: &[Running],
    first: &[u8],
    last: &[u8],
    scratch: &mut Scratch,
    spare: &mut Scratch,
) -> Option<Stop>
    requires level { level ≤ 6 }
    requires by_key { AreByKey (runs_of_levels T.rows levels.now) }
    ensures { TellsCause (runs_of_levels T.rows levels.now) running.now result
        (stop_in running.now level (between first.now last.now)
        (runs_at_level (runs_of_levels T.rows levels.now) level)) }
{
    let tables = levels.at(level);
    match least_in(tables, level, first, last, scratch, spare) {
        Some((table, entry)) => Some(Stop::AtEntry {
            level,
            table,
            entry,
        }),
        None => match meets_running(running, level, first, last) {
            Some(index) => Some(Stop::AtRunning(index)),
            None => None,
        },
    }
}

// The level, where it is at most the lowest and no table's range meets the range there; else what was found before.
fn found_at<T: Rows>(
    tables: &[T],
    level: u8,
    found: u8,
    first: &[u8],
    last: &[u8],
    lowest: u8,
) -> u8
    requires { 0 < level → IsByKey (map T.rows tables.now) }
    ensures { result ≡ (if (nat_le level lowest
        && is_free_level (between first.now last.now) (map T.rows tables.now)) then level else found) }
{
    if level <= lowest && is_free(tables, level, first, last) {
        level
    } else {
        found
    }
}

/// The level of a file that isn't behind, by its first and last key, and what stopped the walk down the levels; `lowest` is
/// the lowest level that it may have. The tables of levels 1 to 6 are to stand by key.
///
/// Level 0 is looked at table by table; each other level takes two searches over its tables and one in a table, and one pass
/// over the running jobs. No memory is taken. Both scratches may change.
pub fn choose_level<T: Rows>(
    levels: &Levels<T>,
    running: &[Running],
    first: &[u8],
    last: &[u8],
    lowest: u8,
    scratch: &mut Scratch,
    spare: &mut Scratch,
) -> Choice
    requires { AreByKey (runs_of_levels T.rows levels.now) }
    ensures level { result.level
        ≡ (level_rule (runs_of_levels T.rows levels.now) running.now (between first.now last.now) lowest).level }
    ensures stop { TellsCause (runs_of_levels T.rows levels.now) running.now result.stopped_by
        (level_rule (runs_of_levels T.rows levels.now) running.now (between first.now last.now) lowest).cause }
{
    let mut found = 0;
    for level in 0..7 {
        if let Some(stop) = stop_at(levels, level, running, first, last, scratch, spare) {
            return Choice {
                level: found,
                stopped_by: Some(stop),
            };
        }
        found = found_at(levels.at(level), level, found, first, last, lowest);
    }
    Choice {
        level: found,
        stopped_by: None,
    }
}
