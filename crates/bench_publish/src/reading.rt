ghost use Rattle.std.specs.Prelude.{◌<◌};

use crate::shown::Refresher;
use st_publish::{HistoryName, Viewer};
use std::alloc::{AllocError, Global};
use std::sync::Wait;
use std::sync::atomic::{AtomicBool, Ordering};
use std::thread;
use std::thread::Threads;

// As many viewers have a thread each.
const MOST_THREADS: usize = 64;

/// A viewer, and how many states it took.
#[derive(Drop)]
pub struct CountedViewer<J: HistoryName> {
    viewer: Viewer<J>,
    entered: u64,
}

/// The viewers, which took nothing yet.
pub fn counted_of<J: HistoryName>(
    alloc: Global,
    viewers: Vec<Viewer<J>>,
) -> Result<Vec<CountedViewer<J>>, AllocError> {
    let mut readers = Vec::new(alloc);
    for viewer in viewers {
        readers.push(CountedViewer { viewer, entered: 0 })?;
    }
    Ok(readers)
}

// Takes states, so often.
fn enter_all<J: HistoryName>(counted: &mut CountedViewer<J>, count: u64) {
    for _ in 0..count {
        if counted.viewer.enter().is_ok() {
            counted.entered = counted.entered.saturating_add(1);
        }
    }
}

// Publishes until the readers are done.
fn show_until<J: HistoryName, R: Wait + Drop>(refresher: &mut Refresher<J, R>, done: &AtomicBool) {
    for _ in 0..u64::MAX {
        if done.load(Ordering::SeqCst) || refresher.show().is_err() {
            return;
        }
    }
}

/// How many states the readers took, so many times each, in a thread each beside one writer. There are 64 at most.
pub fn entered_beside<J: HistoryName + Send + Sync, R: Threads + Wait + Drop + Copy + Send + Sync>(
    rt: &R,
    refresher: &mut Refresher<J, R>,
    readers: &mut [CountedViewer<J>],
    count: u64,
) -> u64 {
    let done = AtomicBool::new(false);
    thread::join(
        rt,
        || show_until(refresher, &done),
        || {
            let each = |_: usize, counted: &mut CountedViewer<J>| { enter_all(counted, count) };
            thread::for_each_mut(rt, readers, MOST_THREADS, &each);
            done.store(true, Ordering::SeqCst);
        },
    );
    total(readers)
}

// How many states they took.
fn total<J: HistoryName>(readers: &[CountedViewer<J>]) -> u64 {
    let mut total = 0u64;
    for counted in readers {
        total = total.saturating_add(counted.entered);
    }
    total
}
