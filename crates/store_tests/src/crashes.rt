// A disk fault stops the store, and every image of a crash then has whole writes.
use crate::outside::{NONE, disk, run_over};
use ingest_app::Status;
use st_device::{Fate, MemDisk};
use std::alloc::{AllocError, Global};
use std::process::Abort;
use std::test::Fail;

const WRITES: &str = "put default a 1\nput default a 2\nput default a 3\n";

// What `get default a` answers after none, one, two and three of these writes.
const READ_NONE: &str = "client one\n0 none\n";

const READ_ONE: &str = "client one\n0 value 1\n";

const READ_TWO: &str = "client one\n0 value 2\n";

const READ_THREE: &str = "client one\n0 value 3\n";

// What a crash of the disk leaves now, with this fate of each write.
fn left_by_crash(alloc: Global, disk: &MemDisk, fate: Fate) -> Result<MemDisk, AllocError> {
    disk.after_crash(alloc, disk.moment(), &[fate; 40], Vec::new(alloc))
}

// Whether `get default a` over the disk is answered by one of these.
fn reads_either(alloc: Global, disk: MemDisk, before: &str, after: &str) -> Result<bool, Fail> {
    let (ended, _) = run_over(alloc, "run one", "get default a\n", NONE, disk)?;
    Ok(ended.is(Status::Done, before.as_bytes()) || ended.is(Status::Done, after.as_bytes()))
}

// A crash of the disk now, with each of these fates of its writes, leaves a store in which `get default a` is answered by
// one of these.
fn reads_as(
    rt: &(impl Abort + AllocGlobal),
    disk: &MemDisk,
    fates: &[Fate],
    before: &str,
    after: &str,
) -> Result<(), Fail> {
    for fate in fates {
        let left = left_by_crash(rt.alloc(), disk, *fate)?;
        let right = reads_either(rt.alloc(), left, before, after)?;
        assert!(rt; right, "{before}{after}");
    }
    Ok(())
}

// The second sync within the second write fails.
#[test]
fn a_fault_stops_the_store(rt: HostRuntime) -> Result<(), Fail> {
    let text = "put default a 1\nput default a 2\nput default a 3\nget default a\n";
    let written =
        "client one\n1 written 1\n1 refused 20 DiskFault\n1 refused 10 Stopped\n1 value 1\n";
    let (ended, disk) = run_over(rt.alloc(), "run one", text, NONE, disk(rt.alloc(), 19)?)?;
    assert!(rt; ended.is(Status::DiskFault, written.as_bytes()));
    reads_as(&rt, &disk, &[Fate::Whole, Fate::Lost], READ_ONE, READ_TWO)
}

// The transcript of the writes that a fault stops, and what is read after it: as before the call that it stopped, or as
// after that call.
const STOPPED: [(&str, &str, &str); 5] = [
    ("disk\n", READ_NONE, READ_NONE),
    (
        "client one\n0 refused 20 DiskFault\n0 refused 10 Stopped\n0 refused 10 Stopped\n",
        READ_NONE,
        READ_ONE,
    ),
    (
        "client one\n1 written 1\n1 refused 20 DiskFault\n1 refused 10 Stopped\n",
        READ_ONE,
        READ_TWO,
    ),
    (
        "client one\n1 written 1\n2 written 2\n2 refused 20 DiskFault\n",
        READ_TWO,
        READ_THREE,
    ),
    (
        "client one\n1 written 1\n2 written 2\n3 written 3\n",
        READ_THREE,
        READ_THREE,
    ),
];

// What is read after the run that wrote this row of STOPPED.
fn reads_after(written: &[u8]) -> Option<(&'static str, &'static str)> {
    for (text, before, after) in STOPPED {
        if text.as_bytes() == written {
            return Some((before, after));
        }
    }
    None
}

// The writes are stopped at this device call.
fn stop_at(rt: &(impl Abort + AllocGlobal), call: u64) -> Result<(), Fail> {
    let (ended, disk) = run_over(rt.alloc(), "run one", WRITES, NONE, disk(rt.alloc(), call)?)?;
    let fates = [Fate::Whole, Fate::Lost, Fate::Cut(1), Fate::Filled(1)];
    match reads_after(ended.written.as_slice()) {
        Some((before, after)) => reads_as(rt, &disk, &fates, before, after),
        None => Err(Fail::new("another transcript")),
    }
}

#[test]
fn a_stop_at_each_device_call_leaves_whole_writes(rt: HostRuntime) -> Result<(), Fail> {
    for call in 1..=27u64 {
        stop_at(&rt, call)?;
    }
    Ok(())
}
