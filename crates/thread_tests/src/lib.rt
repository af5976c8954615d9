//! What of a store may cross threads: that which a lock guards, the lock, and what its clients hold.
//!
//! Each function asks that a type is `Send` or `Sync`, which the prover finds by the type's fields; nothing calls it.
//! So a field that may not cross threads is refused here, before a crate above comes to need it.
#![tactic(auto)]

use log_engine::Engine;
use real_files::FolderDisk;
use st_device::Disk;
use st_publish::{HistoryName, Publisher, TableState, Told, Viewer};
use std::fs::File;
use std::rt::Files;
use std::sync::ledger::{Book, Ledger, Share};
use std::sync::{Arc, Condvar, Mutex, Wait};

fn sent<T: Send>(_value: &T) {}

fn shared<T: Sync>(_value: &T) {}

/// What the lock of a store guards: the engine, the publisher, the count of accepted changes, and the share of nobody.
#[derive(Drop)]
pub struct Guarded<J: HistoryName + Ledger, R: Wait + Drop, D: Disk> {
    engine: Engine<D>,
    publisher: Publisher<J, R>,
    book: Book<J>,
    rest: Share<J>,
}

/// It under its lock, with the condition that clients wait for.
#[derive(Drop)]
pub struct Lock<J: HistoryName + Ledger, R: Wait + Drop, D: Disk> {
    guarded: Mutex<Guarded<J, R, D>>,
    changed: Condvar,
}

/// A store on any disk that may be sent may be shared under its lock.
pub fn store_is_shared<J: HistoryName + Ledger + Send, R: Wait + Drop + Send, D: Disk + Send>(
    lock: &Lock<J, R, D>,
) {
    shared(lock);
}

/// So may one on the disk of a folder.
pub fn folder_store_is_shared<
    J: HistoryName + Ledger + Send,
    R: Wait + Files<File = File> + AllocGlobal + Clone + Drop + Send,
>(lock: &Lock<J, R, FolderDisk<R>>) {
    shared(lock);
}

/// A viewer may be sent.
pub fn viewer_is_sent<J: HistoryName + Send>(viewer: &Viewer<J>) {
    sent(viewer);
}

/// What was told may be sent.
pub fn told_is_sent<J: HistoryName + Send>(told: &Told<J>) {
    sent(told);
}

/// A published state may be sent.
pub fn state_is_sent(state: &Arc<TableState>) {
    sent(state);
}
