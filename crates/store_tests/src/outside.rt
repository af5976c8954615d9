// What a run is given, in memory.
use ingest_app::{Status, convert, run_in_memory};
use st_base::{Bytes, List, Name};
use st_device::MemDisk;
use st_stream::{InputFile, MemInputs, MemSink, MemSource};
use std::alloc::{AllocError, Global};
use std::process::Abort;
use std::test::Fail;

/// Which calls fail: the number of one call of each, counted from 1, or 0 for none.
#[derive(Clone, Copy)]
pub struct Failing {
    pub input: u64,
    pub source: u64,
    pub sink: u64,
}

/// No call fails.
pub const NONE: Failing = Failing {
    input: 0,
    source: 0,
    sink: 0,
};

// A command line, one client file, a source and a sink.
#[derive(Drop)]
struct Outside {
    words: Vec<String>,
    inputs: MemInputs,
    source: MemSource,
    sink: MemSink,
}

// The words of a command line.
fn words(alloc: Global, line: &str) -> Result<Vec<String>, AllocError> {
    let mut words = Vec::new(alloc);
    for word in line.split(' ') {
        words.push(word.to_string(alloc)?)?;
    }
    Ok(words)
}

// One input file, called `one`.
fn inputs(alloc: Global, text: &str, failing: u64) -> Result<MemInputs, Fail> {
    let name = Name::new(alloc, b"one")?;
    let bytes = Bytes::from_slice(alloc, text.as_bytes())?;
    let mut files = List::new(alloc);
    files.push(InputFile { name, bytes })?;
    Ok(MemInputs::new(files, List::from_slice(alloc, &[failing])?))
}

fn source(alloc: Global, bytes: &[u8], failing: u64) -> Result<MemSource, AllocError> {
    let failing = List::from_slice(alloc, &[failing])?;
    Ok(MemSource::new(Bytes::from_slice(alloc, bytes)?, failing))
}

// A command line over a client file `one` of this text and a source of these bytes.
fn make_outside(
    alloc: Global,
    line: &str,
    text: &str,
    bytes: &[u8],
    failing: Failing,
) -> Result<Outside, Fail> {
    let words = words(alloc, line)?;
    let source = source(alloc, bytes, failing.source)?;
    let inputs = inputs(alloc, text, failing.input)?;
    let failing = List::from_slice(alloc, &[failing.sink])?;
    Ok(Outside {
        words,
        inputs,
        source,
        sink: MemSink::new(alloc, failing),
    })
}

impl Outside {
    // Runs the words over a disk.
    fn run(&mut self, alloc: Global, disk: MemDisk) -> (Status, MemDisk) {
        run_in_memory(
            alloc,
            self.words.as_slice(),
            disk,
            &mut self.inputs,
            &mut self.source,
            &mut self.sink,
        )
    }

    // Converts the source.
    fn convert(&mut self, alloc: Global) -> Status {
        convert(
            alloc,
            self.words.as_slice(),
            &mut self.source,
            &mut self.sink,
        )
    }

    // What was written.
    fn written(&self) -> &[u8] {
        self.sink.bytes()
    }
}

/// A disk without files, whose call of this number fails.
pub fn disk(alloc: Global, failing: u64) -> Result<MemDisk, AllocError> {
    Ok(MemDisk::new(alloc, vec![in alloc; failing]?))
}

/// How a run or a conversion ended, and what it wrote.
#[derive(Drop)]
pub struct Ended {
    pub status: Status,
    pub written: Bytes,
}

impl Ended {
    /// Whether it ended so, and wrote this.
    pub fn is(&self, status: Status, written: &[u8]) -> bool {
        self.status == status && self.written.as_slice() == written
    }
}

/// A run of a command line over a disk, with a client file `one` of this text.
pub fn run_over(
    alloc: Global,
    line: &str,
    text: &str,
    failing: Failing,
    disk: MemDisk,
) -> Result<(Ended, MemDisk), Fail> {
    let mut outside = make_outside(alloc, line, text, b"", failing)?;
    let (status, disk) = outside.run(alloc, disk);
    let written = Bytes::from_slice(alloc, outside.written())?;
    Ok((Ended { status, written }, disk))
}

/// The same over a disk without files, whose call of this number fails; the disk is closed.
pub fn run_new(
    alloc: Global,
    line: &str,
    text: &str,
    failing: Failing,
    call: u64,
) -> Result<Ended, Fail> {
    let disk = disk(alloc, call)?;
    let (ended, _) = run_over(alloc, line, text, failing, disk)?;
    Ok(ended)
}

/// A run of words that convert a source of these bytes, over a disk without files.
pub fn run_source(alloc: Global, form: &str, bytes: &[u8]) -> Result<Ended, Fail> {
    let disk = disk(alloc, 0)?;
    let mut outside = make_outside(alloc, form, "", bytes, NONE)?;
    let (status, _) = outside.run(alloc, disk);
    let written = Bytes::from_slice(alloc, outside.written())?;
    Ok(Ended { status, written })
}

/// A conversion of a source of these bytes.
pub fn converted(alloc: Global, form: &str, bytes: &[u8], failing: Failing) -> Result<Ended, Fail> {
    let mut outside = make_outside(alloc, form, "", bytes, failing)?;
    let status = outside.convert(alloc);
    let written = Bytes::from_slice(alloc, outside.written())?;
    Ok(Ended { status, written })
}

/// What `build` makes of a text.
pub fn built(rt: &(impl Abort + AllocGlobal), text: &[u8]) -> Result<Bytes, Fail> {
    let ended = converted(rt.alloc(), "build", text, NONE)?;
    assert!(rt; ended.status == Status::Done);
    Ok(ended.written)
}
