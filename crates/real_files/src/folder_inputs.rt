ghost use Rattle.std.specs.Prelude.{◌≡◌, ◌≤◌, ◌<◌, ℕ, List, None, false, length, IfOk, IsTrue};
ghost use Rattle.st_base.specs.Names.{is_name};

use st_base::NAME_BYTES;
use st_outside::FaultCount;
use st_stream::{Failed, Inputs};
use std::io::{ErrorKind, Read, Seek, SeekFrom};
use std::rt::Files;
use std::{fs, io};

/// The files of the working folder. Their bytes aren't known to contracts, so no clause says that a read gives them.
///
/// A name of which the system says that nothing is there, or that it isn't a plain file, has no size. Each other error
/// of the system raises the count of faults. The file that was read last stays open, so that reading a file in pieces
/// is linear.
#[derive(Drop)]
pub struct FolderInputs<R: Files> {
    rt: R,
    opened: Option<OpenFile<R::File>>,
    faults: FaultCount,
}

// An open file with its name.
#[derive(Drop)]
struct OpenFile<F> {
    name: [u8; NAME_BYTES],
    length: usize,
    file: F,
    ghost fits: { length ≤ 255 },
}

impl<F: Read + Seek> OpenFile<F> {
    // Whether it is the file of that name.
    fn is_named(&self, name: &str) -> bool {
        &self.name[..self.length] == name.as_bytes()
    }

    // Reads from `at` on.
    fn read_at(&mut self, at: u64, buffer: &mut [u8]) -> io::Result<usize>
        ensures { IfOk result (λ n. n ≤ length buffer.old) }
    {
        self.file.seek(SeekFrom::Start(at))?;
        self.file.read(buffer)
    }
}

// Opens a file, if it is there.
fn open_file<R: Files>(rt: &R, name: &str) -> io::Result<Option<OpenFile<R::File>>>
    requires { IsTrue (is_name name.now) }
{
    match fs::open(rt, name) {
        Ok(file) => Ok(Some(name_file(name, file))),
        Err(error) if error.kind() == ErrorKind::NotFound => Ok(None),
        Err(error) => Err(error),
    }
}

// The open file with its name.
fn name_file<F>(name: &str, file: F) -> OpenFile<F>
    requires { IsTrue (is_name name.now) }
{
    let mut bytes = [0; NAME_BYTES];
    let length = name.len();
    bytes[..length].copy_from_slice(name.as_bytes());
    OpenFile {
        name: bytes,
        length,
        file,
    }
}

impl<R: Files> FolderInputs<R> {
    /// The files of this runtime's working folder.
    pub fn new(rt: R) -> FolderInputs<R> {
        FolderInputs {
            rt,
            opened: None,
            faults: FaultCount::new(),
        }
    }

    // The length of a file, if it is there.
    fn length_of(&self, name: &str) -> io::Result<Option<u64>> {
        match fs::metadata(&self.rt, name) {
            Ok(told) if told.is_file() => Ok(Some(told.len())),
            Ok(_) => Ok(None),
            Err(error) if error.kind() == ErrorKind::NotFound => Ok(None),
            Err(error) => Err(error),
        }
    }

    // Opens the file, unless it is open.
    fn open(&mut self, name: &str) -> io::Result<()>
        requires { IsTrue (is_name name.now) }
        ensures { self.new.faults.count ≡ self.old.faults.count }
    {
        let open = match &self.opened {
            Some(opened) => opened.is_named(name),
            None => false,
        };
        if !open {
            self.opened = open_file(&self.rt, name)?;
        }
        Ok(())
    }

    // Reads from a file, if it is there.
    fn read_at(&mut self, name: &str, at: u64, buffer: &mut [u8]) -> io::Result<usize>
        requires { IsTrue (is_name name.now) }
        ensures within { IfOk result (λ n. n ≤ length buffer.old) }
        ensures faults { self.new.faults.count ≡ self.old.faults.count }
    {
        self.open(name)?;
        match &mut self.opened {
            Some(opened) => opened.read_at(at, buffer),
            None => Ok(0),
        }
    }
}

impl<R: Files> Inputs for FolderInputs<R> {
    ghost use Rattle.st_stream.specs.Inputs.{InputsTold};

    ghost tells = { λ inputs. record { known = false; file = λ _. None; faults = inputs.faults.count } };

    ghost counted = { λ inputs. inputs.faults.small };

    fn size(&mut self, name: &str) -> Result<Option<u64>, Failed> {
        match self.length_of(name) {
            Ok(length) => Ok(length),
            Err(_) => Err(self.faults.fail()),
        }
    }

    fn read(&mut self, name: &str, at: u64, buffer: &mut [u8]) -> Result<usize, Failed> {
        match self.read_at(name, at, buffer) {
            Ok(came) => Ok(came),
            Err(_) => Err(self.faults.fail()),
        }
    }
}
