ghost use Rattle.std.specs.Prelude.{◌≡◌, ◌+◌, ◌<◌, ◌≤◌, ◌||◌, ◌++◌, nat_lt, IfOk, OnOk, Some, length, take, drop};
ghost use Rattle.st_model.specs.Asked.{names_files};
ghost use Rattle.st_model.specs.Request.{files_from, request_of, arguments_from};
ghost use Rattle.st_model.specs.State.{most_request_arguments, most_request_files};

use plain_model::parted;
use st_base::{Family, List, REQUEST_ARGUMENTS, REQUEST_FILES};
use st_model::{FileAt, FileSeen, IngestExternalFileArg, IngestExternalFileOptions};
use std::alloc::{AllocError, Global};
use std::marker::Model;

/// A file of a request, as it is seen.
#[derive(Drop)]
pub struct SeenFile {
    pub at: FileAt,
    pub seen: FileSeen,
}

impl Model for SeenFile {
    ghost use Rattle.st_model.specs.Request.{File};

    ghost Value = { File };

    ghost view = { λ file. record { at = file.at; seen = file.seen } };

    ghost inverse = { λ file. record { at = file.at; seen = file.seen } };
}

/// An argument of a request with its files as they are seen, which 32 bits count.
#[derive(Drop)]
pub struct SeenArgument {
    /// Counted from 1.
    pub number: u32,
    pub family: Family,
    pub options: IngestExternalFileOptions,
    /// How many files it names.
    pub named: usize,
    /// Those that are seen, in order.
    pub files: List<SeenFile>,
}

impl Model for SeenArgument {
    ghost use Rattle.std.specs.Prelude.{◌<◌, length};
    ghost use Rattle.st_model.specs.Request.{Argument};

    ghost Value = { Argument };

    ghost view = { λ argument. record {
      number = argument.number;
      family = argument.family;
      options = argument.options;
      named = argument.named;
      files = argument.files;
    } };

    ghost invariant = { λ argument. length argument.files < 4294967296 };

    ghost inverse = { λ argument. record {
      number = argument.number;
      family = argument.family;
      options = argument.options;
      named = argument.named;
      files = argument.files;
    } };
}

// Whether the arguments name more files than a request may have.
fn names_many_files(arguments: &[IngestExternalFileArg]) -> bool
    ensures { result ≡ nat_lt most_request_files (names_files (Some arguments.now)) }
{
    let mut left = REQUEST_FILES;
    for argument in arguments {
        if argument.files.len() > left {
            return true;
        }
        left -= argument.files.len();
    }
    false
}

/// Whether the arguments, or the files that they name, are more than a request may have.
pub fn is_large(arguments: &[IngestExternalFileArg]) -> bool
    ensures { result ≡ (nat_lt most_request_arguments (length arguments.now)
        || nat_lt most_request_files (names_files (Some arguments.now))) }
{
    arguments.len() > REQUEST_ARGUMENTS || names_many_files(arguments)
}

// The files of an argument.
fn files_of(alloc: Global, arg: u32, seen: &[FileSeen]) -> Result<List<SeenFile>, AllocError>
    requires { length seen.now ≤ REQUEST_FILES }
    ensures files { IfOk result (λ files. files ≡ files_from arg 1 seen.now) }
    ensures few { IfOk result (λ files. length files < 4294967296) }
{
    let mut files = List::new(alloc);
    let mut file = 1_u32;
    for one in seen {
        let at = FileAt { arg, file };
        files.push(SeenFile {
            at,
            seen: one.clone()?,
        })?;
        file += 1;
    }
    Ok(files)
}

// The argument of that number with its files.
fn argument_of(
    alloc: Global,
    number: u32,
    argument: &IngestExternalFileArg,
    seen: &[FileSeen],
) -> Result<SeenArgument, AllocError>
    requires { length seen.now ≤ REQUEST_FILES }
    ensures { IfOk result (λ one. one ≡ record {
      number = number;
      family = argument.now.family;
      options = argument.now.options;
      named = length argument.now.files;
      files = files_from number 1 seen.now;
    }) }
{
    Ok(SeenArgument {
        number,
        family: argument.family.clone()?,
        options: argument.options,
        named: argument.files.len(),
        files: files_of(alloc, number, seen)?,
    })
}

/// The arguments with their files, as they are seen: of a request that isn't too large (`is_large`).
pub fn request_of(
    alloc: Global,
    arguments: &[IngestExternalFileArg],
    seen: &[FileSeen],
) -> Result<List<SeenArgument>, AllocError>
    requires arguments { length arguments.now ≤ REQUEST_ARGUMENTS }
    requires files { names_files (Some arguments.now) ≤ REQUEST_FILES }
    ensures { IfOk result (λ request. request ≡ request_of arguments.now seen.now) }
{
    let mut request = List::new(alloc);
    let mut left = seen;
    let mut number = 1_u32;
    for argument in arguments {
        let (here, rest) = parted(left, argument.files.len());
        request.push(argument_of(alloc, number, argument, here)?)?;
        left = rest;
        number += 1;
    }
    Ok(request)
}
