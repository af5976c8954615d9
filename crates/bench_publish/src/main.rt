//! Measures the published history. `N THREADS` lets so many threads take the published state N times each, beside one writer
//! that publishes all the while, and prints how many were taken. The time is taken by the script around it. Without words one
//! thread takes it ten times.
#![tactic(auto)]

ghost use Rattle.std.specs.Prelude.{◌≡◌};

mod reading;
mod shown;

use crate::reading::{counted_of, entered_beside};
use crate::shown::opened;
use st_publish::{BlankHistory, HistoryName};
use std::alloc::{AllocError, Global};
use std::marker::Brand;
use std::rt::Env;
use std::sync::Wait;
use std::thread::Threads;
use std::{env, io};

// How often each thread takes the state, and how many threads there are, from 1 to 64.
fn words(rt: &(impl Env + Alloc)) -> io::Result<(u64, u32)> {
    let mut words = env::args(rt)?;
    let _program = words.next();
    let (Some(count), Some(threads)) = (words.next(), words.next()) else {
        return Ok((10, 1));
    };
    let count = count.as_str().parse::<u64>().unwrap_or(10);
    Ok((count, threads.as_str().parse::<u32>().unwrap_or(1)))
}

fn measured<J: HistoryName + Send + Sync, R: Threads + Wait + Drop + Copy + Send + Sync>(
    rt: R,
    alloc: Global,
    blank: BlankHistory,
    count: u64,
    threads: u32,
) -> Result<u64, AllocError>
    requires { blank.seen.book ≡ J.book }
{
    if threads == 0 || threads > 64 {
        return Err(AllocError);
    }
    let (mut refresher, viewers) = opened::<J, R>(rt, alloc, blank, threads)?;
    let mut readers = counted_of(alloc, viewers)?;
    Ok(entered_beside(&rt, &mut refresher, readers.as_mut_slice(), count))
}

fn main(rt: HostRuntime) -> io::Result<()> {
    let (count, threads) = words(&rt)?;
    let alloc = rt.alloc();
    let entered = measured::<Brand, _>(rt, alloc, BlankHistory::new(), count, threads)?;
    println!(rt; "{entered} entered")
}
