ghost use Rattle.std.specs.Prelude.{◌≡◌};

use crate::snapshots::{Snapper, is_snapped, opened};
use st_publish::{BlankHistory, HistoryName, Viewer};
use std::alloc::{AllocError, Global};
use std::marker::Brand;
use std::process::Abort;
use std::sync::Wait;
use std::test::*;
use std::thread;
use std::thread::Threads;

const PLACES: u64 = 200;

const ENTERS: u64 = 10_000;

const READERS: u32 = 4;

/// A reader, and what it found.
#[derive(Drop)]
struct Reader<J: HistoryName> {
    viewer: Viewer<J>,
    /// How many states it took.
    entered: u64,
    /// Whether a state wasn't that at its place, or a place was below the one before.
    wrong: bool,
}

// Takes states until so many were taken, or one is refused.
fn enter_all<J: HistoryName>(reader: &mut Reader<J>) {
    let mut before = 0;
    for _ in 0..ENTERS {
        let Ok((state, place)) = reader.viewer.enter() else {
            return;
        };
        if place < before || !is_snapped(&state, place) {
            reader.wrong = true;
        }
        before = place;
        reader.entered = reader.entered.saturating_add(1);
    }
}

fn readers_of<J: HistoryName>(
    alloc: Global,
    viewers: Vec<Viewer<J>>,
) -> Result<Vec<Reader<J>>, AllocError> {
    let mut readers = Vec::new(alloc);
    for viewer in viewers {
        readers.push(Reader {
            viewer,
            entered: 0,
            wrong: false,
        })?;
    }
    Ok(readers)
}

// Publishes a snapshot at each place, one after the other.
fn snap_all<J: HistoryName, R: Wait + Drop>(
    alloc: Global,
    snapper: &mut Snapper<J, R>,
) -> Result<(), AllocError> {
    for _ in 0..PLACES {
        snapper.snap(alloc)?;
    }
    Ok(())
}

// A writer in one thread, and readers in as many others as there are.
fn run_all<J: HistoryName + Send + Sync, R: Threads + Wait + Drop + Copy + Send + Sync>(
    rt: &R,
    alloc: Global,
    snapper: &mut Snapper<J, R>,
    readers: &mut [Reader<J>],
) -> bool {
    let (published, _) = thread::join(
        rt,
        || snap_all(alloc, snapper).is_ok(),
        || {
            thread::for_each_mut(
                rt,
                readers,
                READERS as usize,
                &|_, reader: &mut Reader<J>| { enter_all(reader) },
            )
        },
    );
    published
}

#[test]
fn readers_take_each_state_at_its_place(rt: HostRuntime) -> Result<(), Fail> {
    let alloc = rt.alloc();
    read_while_written::<Brand, _>(rt, alloc, BlankHistory::new())
}

fn read_while_written<
    J: HistoryName + Send + Sync,
    R: Threads + Wait + Abort + Drop + Copy + Send + Sync,
>(rt: R, alloc: Global, blank: BlankHistory) -> Result<(), Fail>
    requires { blank.seen.book ≡ J.book }
{
    let (mut snapper, viewers) = opened::<J, R>(rt, alloc, blank, READERS)?;
    let mut readers = readers_of(alloc, viewers)?;
    let published = run_all(&rt, alloc, &mut snapper, readers.as_mut_slice());
    assert_eq!(rt; published, true);
    for reader in &readers {
        assert_eq!(rt; (reader.entered, reader.wrong), (ENTERS, false));
    }
    Ok(())
}
