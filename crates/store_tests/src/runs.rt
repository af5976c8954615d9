// Client files over a store.
use crate::outside::{NONE, disk, run_new, run_over};
use ingest_app::Status;
use st_device::{Disk, MemDisk};
use std::alloc::Global;
use std::test::Fail;

const ROW: &str = "put default a 1\nget default a\ndel default a\nget default a\n";

const ANSWERS: &str = "client one\n1 written 1\n1 value 1\n2 written 2\n2 none\n";

#[test]
fn rows(rt: HostRuntime) -> Result<(), Fail> {
    for (line, text, status, written) in [
        ("run one", ROW, Status::Done, ANSWERS),
        ("run one", "", Status::Done, "client one\n"),
        (
            "run one",
            "put p k 1\nput default k 1\n",
            Status::Done,
            "client one\n0 refused 11 UnknownFamily p\n1 written 1\n",
        ),
        (
            "run one",
            "put default k 1\nput default k 2\nget default k\nget default l",
            Status::Done,
            "client one\n1 written 1\n2 written 2\n2 value 2\n2 none\n",
        ),
        ("run", ROW, Status::NotYet, "notyet\n"),
        ("run one two", ROW, Status::NotYet, "notyet\n"),
        ("run -one", ROW, Status::NotYet, "notyet\n"),
        ("build it", ROW, Status::NotYet, "notyet\n"),
        (
            "run one",
            "put default \\x20 1\nget default \\x20\n",
            Status::Done,
            "client one\n1 written 1\n1 value 1\n",
        ),
        (
            "run one",
            "gut default k\n",
            Status::Script,
            "script one 1\n",
        ),
        (
            "run one",
            "# a comment\n\nget default k\nget default\n",
            Status::Script,
            "script one 4\n",
        ),
        ("run two", ROW, Status::Script, "script two 0\n"),
    ] {
        let ended = run_new(rt.alloc(), line, text, NONE, 0)?;
        assert!(rt; ended.is(status, written.as_bytes()), "{line}: {text}");
    }
    Ok(())
}

// Accepted writes outlive the run.
#[test]
fn each_run_reads_those_before_it(rt: HostRuntime) -> Result<(), Fail> {
    let mut disk = disk(rt.alloc(), 0)?;
    for (text, written) in [
        ("put default a 1\n", "client one\n1 written 1\n"),
        ("get default a\n", "client one\n0 value 1\n"),
        (
            "del default a\nput default b 2\nget default a\n",
            "client one\n1 written 2\n2 written 3\n2 none\n",
        ),
        (
            "get default a\nget default b\n",
            "client one\n0 none\n0 value 2\n",
        ),
    ] {
        let (ended, after) = run_over(rt.alloc(), "run one", text, NONE, disk)?;
        disk = after;
        assert!(rt; ended.is(Status::Done, written.as_bytes()), "{text}");
    }
    Ok(())
}

// A disk with a mark and no log.
fn marked(alloc: Global) -> Result<MemDisk, Fail> {
    let mut disk = MemDisk::new(alloc, Vec::new(alloc));
    match disk.create(1) {
        Ok(()) => Ok(disk),
        Err(_) => Err(Fail::new("the mark isn't made")),
    }
}

#[test]
fn a_store_without_its_log_is_damaged(rt: HostRuntime) -> Result<(), Fail> {
    let (ended, _) = run_over(rt.alloc(), "run one", ROW, NONE, marked(rt.alloc())?)?;
    assert!(rt; ended.is(Status::Damaged, b"damaged 3 0\n"));
    Ok(())
}
