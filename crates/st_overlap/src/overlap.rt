ghost use Rattle.std.specs.Prelude.{◌≡◌, map};
ghost use Rattle.std.specs.List.{position};
ghost use Rattle.st_base.specs.Range.{key_at_front, key_at_end};
ghost use Rattle.st_order.specs.Order.{between, first_index_in};
ghost use Rattle.job_model.specs.Level.{output_meets, run_meets};

use st_base::{Rows, Running, Scratch};
use st_order::at_most;

/// The index of the first entry whose key lies between the first key and the last, both included: None exactly where there
/// is none. One search by halves.
pub fn meets_rows<T: Rows>(
    rows: &T,
    first: &[u8],
    last: &[u8],
    scratch: &mut Scratch,
) -> Option<usize>
    ensures { result ≡ first_index_in (between first.now last.now) (T.rows rows.now) }
{
    let index = rows.lower(first, u64::MAX, scratch);
    if index == rows.len() {
        return None;
    }
    let entry = rows.at(index, scratch);
    if at_most(entry.key, last) {
        Some(index)
    } else {
        None
    }
}

/// The first key, or no bytes where there is no entry.
pub fn first_key_of<T: Rows>(rows: &T) -> &[u8]
    ensures { result.now ≡ key_at_front (T.rows rows.now) }
{
    match rows.first() {
        Some(key) => key,
        None => &[],
    }
}

/// The last key, or no bytes where there is no entry.
pub fn last_key_of<T: Rows>(rows: &T) -> &[u8]
    ensures { result.now ≡ key_at_end (T.rows rows.now) }
{
    match rows.last() {
        Some(key) => key,
        None => &[],
    }
}

/// Whether the range of the rows, from their first key to their last, meets the range; rows without entries have the range
/// from no bytes to no bytes.
pub fn range_meets<T: Rows>(rows: &T, first: &[u8], last: &[u8]) -> bool
    ensures { result ≡ run_meets (between first.now last.now) (T.rows rows.now) }
{
    at_most(first_key_of(rows), last) && at_most(first, last_key_of(rows))
}

/// The index of the first of these tables whose range meets the range: None exactly where there is none. Linear in the
/// tables, which may stand in any order.
pub fn meets_range<T: Rows>(tables: &[T], first: &[u8], last: &[u8]) -> Option<usize>
    ensures { result ≡ position (run_meets (between first.now last.now)) (map T.rows tables.now) }
{
    for (index, table) in tables.iter().enumerate() {
        if range_meets(table, first, last) {
            return Some(index);
        }
    }
    None
}

// Whether the job's outputs will stand at the level and may meet the range.
fn output_meets(job: &Running, level: u8, first: &[u8], last: &[u8]) -> bool
    ensures { result ≡ output_meets level (between first.now last.now) job.now }
{
    job.level == level
        && at_most(job.range.first.as_bytes(), last)
        && at_most(first, job.range.last.as_bytes())
}

/// The index of the first running job whose outputs will stand at the level and may meet the range: None exactly where there
/// is none.
pub fn meets_running(running: &[Running], level: u8, first: &[u8], last: &[u8]) -> Option<usize>
    ensures { result ≡ position (output_meets level (between first.now last.now)) running.now }
{
    for (index, job) in running.iter().enumerate() {
        if output_meets(job, level, first, last) {
            return Some(index);
        }
    }
    None
}
