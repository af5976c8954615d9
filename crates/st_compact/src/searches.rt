ghost use Rattle.std.specs.Prelude.{◌≡◌, ◌&&◌};
ghost use Rattle.job_model.specs.Column.{is_gone, is_read_between};
ghost use Rattle.job_model.specs.Drops.{AreApart, DontFall, covers};
ghost use Rattle.st_compact.specs.Search.{numbers_below, ranges_below};

use st_base::{Entry, KeyRange, Mark};
use st_order::{at_most, below};

// How many of the numbers are below this one.
fn numbers_below(live: &[u64], number: u64) -> usize
    requires { DontFall live.now }
    ensures { result ≡ numbers_below number live.now }
{
    let mut low = 0;
    let mut high = live.len();
    while low < high {
        let middle = low + (high - low) / 2;
        if live[middle] < number {
            low = middle + 1;
        } else {
            high = middle;
        }
    }
    low
}

/// Whether a read at a live number finds an entry of this number and not the one of the number before it.
pub(crate) fn is_read_between(live: &[u64], number: u64, before: u64) -> bool
    requires { DontFall live.now }
    ensures { result ≡ is_read_between live.now number before }
{
    let index = numbers_below(live, number);
    index < live.len() && live[index] < before
}

// How many of the ranges end in front of the key.
fn ranges_below(ranges: &[KeyRange], key: &[u8]) -> usize
    requires { AreApart ranges.now }
    ensures { result ≡ ranges_below key.now ranges.now }
{
    let mut low = 0;
    let mut high = ranges.len();
    while low < high {
        let middle = low + (high - low) / 2;
        if below(ranges[middle].last.as_bytes(), key) {
            low = middle + 1;
        } else {
            high = middle;
        }
    }
    low
}

// Whether one of the ranges has the key.
fn covers(drops: &[KeyRange], key: &[u8]) -> bool
    requires { AreApart drops.now }
    ensures { result ≡ covers drops.now key.now }
{
    let index = ranges_below(drops, key);
    index < drops.len() && at_most(drops[index].first.as_bytes(), key)
}

/// Whether the entry is a tombstone that may go.
pub(crate) fn may_go(drops: &[KeyRange], entry: &Entry) -> bool
    requires { AreApart drops.now }
    ensures { result ≡ (is_gone entry.now.mark && covers drops.now entry.now.key) }
{
    match entry.mark {
        Mark::Put(_) => false,
        Mark::Gone => covers(drops, entry.key.as_bytes()),
    }
}
