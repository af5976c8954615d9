//! Measures memtables and views. `write N` puts N entries into a memtable, one a call, and prints its runs. `find N` looks N
//! keys up in a family of 4 memtables and 20 tables, and prints how many are there. `scan N` scans N ranges of 10 keys in it,
//! and prints how many pairs there are. `long N` scans 1,000 pairs N times over 10 tables of 100,000 entries each, and `short N`
//! over 10 tables of 1,000. The time is taken by the script around it. Without words it does each once over few entries.
#![tactic(auto)]

mod family;
mod writer;

use crate::family::{Sizes, find_all, long_view, scan_all, view_of};
use crate::writer::written_anyhow;
use std::alloc::{AllocError, Global};
use std::rt::Env;
use std::{env, io};

// A family of 4 memtables and 20 tables, one of 10 large tables, and one of 10 small ones.
const MANY: Sizes = Sizes {
    table: 10_000,
    mem: 10_000,
    range: 100_000,
};

const LONG: Sizes = Sizes {
    table: 100_000,
    mem: 0,
    range: 1_000_000,
};

const SHORT: Sizes = Sizes {
    table: 1_000,
    mem: 0,
    range: 10_000,
};

const FEW: Sizes = Sizes {
    table: 10,
    mem: 10,
    range: 100,
};

// Writes so many entries, one a call, and tells how many runs the memtable has.
fn write(alloc: Global, count: u64) -> Result<u64, AllocError> {
    Ok(written_anyhow(alloc, count)?.runs() as u64)
}

// Finds so many keys, and tells how many were there.
fn find(alloc: Global, sizes: Sizes, count: u64) -> Result<u64, AllocError> {
    let view = view_of(alloc, sizes)?;
    find_all(alloc, &view, sizes, count)
}

// Scans so many ranges of ten keys, and tells how many pairs there were.
fn scan(alloc: Global, sizes: Sizes, count: u64) -> Result<u64, AllocError> {
    let view = view_of(alloc, sizes)?;
    scan_all(alloc, &view, sizes, count, 10, 1_000)
}

// Scans so many times 1,000 pairs of 10 tables, from keys behind which there are so many, and tells how many pairs there were.
fn long(alloc: Global, sizes: Sizes, count: u64) -> Result<u64, AllocError> {
    let view = long_view(alloc, sizes)?;
    let starts = Sizes {
        range: sizes.range.saturating_sub(1_000),
        ..sizes
    };
    scan_all(alloc, &view, starts, count, sizes.range, 1_000)
}

// Each of the four once, over few entries.
fn few(alloc: Global) -> Result<(u64, u64, u64, u64), AllocError> {
    Ok((
        write(alloc, 10)?,
        find(alloc, FEW, 10)?,
        scan(alloc, FEW, 2)?,
        long(alloc, FEW, 1)?,
    ))
}

// What the word names, so many times.
fn measured(alloc: Global, what: &str, count: u64) -> Result<u64, AllocError> {
    match what {
        "write" => write(alloc, count),
        "find" => find(alloc, MANY, count),
        "scan" => scan(alloc, MANY, count),
        "short" => long(alloc, SHORT, count),
        _ => long(alloc, LONG, count),
    }
}

fn main(rt: HostRuntime) -> io::Result<()> {
    let mut words = env::args(&rt)?;
    let _program = words.next();
    let (Some(what), Some(many)) = (words.next(), words.next()) else {
        let (runs, found, scanned, long) = few(rt.alloc())?;
        return println!(rt; "{runs} runs, {found} found, {scanned} pairs, {long} pairs");
    };
    let count = many.as_str().parse::<u64>().unwrap_or(1);
    let answer = measured(rt.alloc(), what.as_str(), count)?;
    println!(rt; "{answer}")
}
