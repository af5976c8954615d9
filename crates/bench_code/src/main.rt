//! Measures sums and blocks. `crc N` sums N blocks of 65,536 bytes, and prints the sum. `open N` writes a block of 100
//! entries, opens it N times, and prints how many entries were tested. `lower N` looks for N keys in it, and prints the
//! sum of their offsets. The time is taken by the script around it. Without words it does each once.
#![tactic(auto)]

mod blocks;

use st_base::Bytes;
use st_code::Crc;
use std::alloc::{AllocError, Global};
use std::rt::Env;
use std::{env, io};

// So many bytes that differ from one to the next.
fn some_bytes(alloc: Global, length: usize) -> Result<Bytes, AllocError> {
    let mut bytes = Bytes::new(alloc);
    for place in 0..length {
        bytes.push((place % 251) as u8)?;
    }
    Ok(bytes)
}

// The sum of the bytes, taken so many times.
fn sum_of(bytes: &[u8], times: u64) -> u32 {
    let mut sum = Crc::start();
    for _ in 0..times {
        sum.update(bytes);
    }
    sum.finish()
}

// What is measured, and how often.
#[derive(Drop)]
struct Job {
    crc: u64,
    open: u64,
    lower: u64,
}

// The job that the words name.
fn job_of(rt: &(impl Env + Alloc)) -> io::Result<Job> {
    let mut words = env::args(rt)?;
    let _program = words.next();
    let (Some(what), Some(many)) = (words.next(), words.next()) else {
        return Ok(Job {
            crc: 1,
            open: 1,
            lower: 1,
        });
    };
    let many = many.as_str().parse::<u64>().unwrap_or(1);
    let many_if = |word: &str| if what.as_str() == word { many } else { 1 };
    Ok(Job {
        crc: many_if("crc"),
        open: many_if("open"),
        lower: many_if("lower"),
    })
}

fn main(rt: HostRuntime) -> io::Result<()> {
    let job = job_of(&rt)?;
    let bytes = some_bytes(rt.alloc(), 65_536)?;
    let crc = sum_of(bytes.as_slice(), job.crc);
    let (entries, places) = blocks::measure(rt.alloc(), job.open, job.lower)?;
    println!(rt; "crc32c {crc}, {entries} entries, places {places}")
}
