//! The program: the top call over the files of the working folder, standard input and standard output.
//!
//! What is proved of the program stands on `run` of `ingest_app`, which `main` calls.
#![tactic(auto)]

use ingest_app::{Status, run};
use real_files::{FolderDisk, FolderInputs, StdSink, StdSource};
use std::env::{self, Env};
use std::fs::File;
use std::io;
use std::process::ExitCode;
use std::rt::Files;

// The words of the command line, without the program's name. Where one of them isn't UTF-8 there are none, which is no
// form either.
fn words_of<R: Env + AllocGlobal>(rt: &R) -> io::Result<Vec<String>> {
    let mut words = Vec::new(rt.alloc());
    match env::args(rt) {
        Ok(args) => {
            for word in args.skip(1) {
                words.push(word)?;
            }
        }
        Err(error) if error.kind() == io::ErrorKind::InvalidData => {}
        Err(error) => return Err(error),
    }
    Ok(words)
}

// Runs the words over the working folder and standard output.
fn run_here<R: Files<File = File> + Print + Input + Env + AllocGlobal + Clone + Drop>(
    rt: &R,
) -> io::Result<Status> {
    let words = words_of(rt)?;
    let mut inputs = FolderInputs::new(rt.clone()?);
    let mut source = StdSource::new(rt);
    let mut sink = StdSink::new(rt.clone()?);
    let disk = FolderDisk::new(rt.clone()?);
    let (status, _) = run(
        rt.alloc(),
        words.as_slice(),
        disk,
        &mut inputs,
        &mut source,
        &mut sink,
    );
    Ok(status)
}

// Only want of memory keeps the words from being read.
fn main(rt: HostRuntime) -> ExitCode {
    let status = run_here(&rt).unwrap_or(Status::Memory);
    ExitCode::from(status.number())
}
