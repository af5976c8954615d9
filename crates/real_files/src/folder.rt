use crate::path::FOLDER;
use std::fs::{File, TryLockError};
use std::io::ErrorKind;
use std::rt::Files;
use std::{fs, io};

/// The folder of a disk, which one program has at a time.
#[derive(Drop)]
pub struct Folder {
    // It is locked while it is open.
    handle: Option<File>,
}

// Makes the folder's own entry in the working folder durable.
fn sync_around<R: Files<File = File>>(rt: &R) -> io::Result<()> {
    File::open(rt, ".")?.sync_all()
}

// Makes the folder, where it isn't there.
fn make_folder<R: Files<File = File>>(rt: &R) -> io::Result<()> {
    match fs::create_dir(rt, FOLDER) {
        Err(e) if e.kind() != ErrorKind::AlreadyExists => Err(e),
        _ => sync_around(rt),
    }
}

// Locks the folder, unless another program has it.
fn lock(folder: &File) -> io::Result<()> {
    match folder.try_lock() {
        Ok(()) => Ok(()),
        Err(TryLockError::WouldBlock) => Err(io::Error::from(ErrorKind::WouldBlock)),
        Err(TryLockError::Error(e)) => Err(e),
    }
}

// Opens the folder for this program alone, and makes its entries durable: an earlier program may have ended between
// making or removing a file and syncing the folder.
fn open_folder<R: Files<File = File>>(rt: &R) -> io::Result<File> {
    make_folder(rt)?;
    let folder = File::open(rt, FOLDER)?;
    lock(&folder)?;
    folder.sync_all()?;
    Ok(folder)
}

impl Folder {
    /// It isn't open yet.
    pub fn new() -> Folder {
        Folder { handle: None }
    }

    /// Opens the folder for this program alone, if it isn't open: it is made where it isn't there. Where another program has
    /// it, this is an error.
    pub fn enter<R: Files<File = File>>(&mut self, rt: &R) -> io::Result<()> {
        if self.handle.is_none() {
            self.handle = Some(open_folder(rt)?);
        }
        Ok(())
    }

    /// Makes the entries of the folder, which is open, durable.
    pub fn sync(&self) -> io::Result<()> {
        match &self.handle {
            Some(folder) => folder.sync_all(),
            None => Err(io::Error::from(ErrorKind::NotFound)),
        }
    }
}
