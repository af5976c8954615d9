//! Measures the gated log: `append N` appends N records of 64 bytes to a log on a disk in memory that keeps no record of
//! its changes, and `replay N` reads them again too. The time is taken by the script around it. Without words ten
//! records are appended and replayed.
#![tactic(auto)]

use st_device::UnrecordedDisk;
use st_gate::{GateLog, LogKind};
use std::alloc::Global;
use std::io::{Error, ErrorKind};
use std::rt::Env;
use std::{env, io};

// Appends so many records to a new log in file 3.
fn append_all(disk: &mut UnrecordedDisk, count: u64) -> io::Result<u64> {
    let Ok(mut log) = GateLog::make(disk, 3, LogKind::Log) else {
        return Err(Error::from(ErrorKind::Other));
    };
    let payload = [7u8; 64];
    for _ in 0..count {
        if log.append(disk, &payload).is_err() {
            return Err(Error::from(ErrorKind::Other));
        }
    }
    Ok(log.length())
}

// How many records the log in file 3 has.
fn replay_all(alloc: Global, disk: &mut UnrecordedDisk) -> io::Result<usize> {
    match GateLog::replay(alloc, disk, 3, LogKind::Log) {
        Ok((records, _)) => Ok(records.len()),
        Err(_) => Err(Error::from(ErrorKind::Other)),
    }
}

// Whether the records are replayed, and how many there are: 10, where no number is given.
fn words(rt: &(impl Env + Alloc)) -> io::Result<(bool, u64)> {
    let mut words = env::args(rt)?;
    let _program = words.next();
    let replays = match words.next() {
        Some(word) => word.as_str() != "append",
        None => true,
    };
    match words.next() {
        Some(word) => Ok((replays, word.as_str().parse::<u64>().unwrap_or(10))),
        None => Ok((replays, 10)),
    }
}

fn main(rt: HostRuntime) -> io::Result<()> {
    let (replays, count) = words(&rt)?;
    let mut disk = UnrecordedDisk::new(rt.alloc());
    let bytes = append_all(&mut disk, count)?;
    println!(rt; "{bytes} bytes")?;
    if replays {
        let records = replay_all(rt.alloc(), &mut disk)?;
        println!(rt; "{records} records")?;
    }
    Ok(())
}
