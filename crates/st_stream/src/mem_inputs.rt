ghost use Rattle.std.specs.Prelude.{◌≡◌, ◌≤◌, ◌-◌, List as Items, ℕ, length, min, option_map, IfOk, OnErr, IsTrue, is_err};
ghost use Rattle.std.specs.Option.{option_copied};
ghost use Rattle.st_base.specs.Names.{is_name};
ghost use Rattle.st_base.specs.Count.{Rose, greatest_count};
ghost use Rattle.st_stream.specs.Inputs.{InputsUntouched, ReadsAt, bytes_of};
ghost use Rattle.st_outside.specs.FailingCalls.{CountsCall, fails_next};
ghost use Rattle.st_stream.specs.MemInputs.{file_named};

use crate::{Failed, Inputs};
use st_base::{Bytes, List, Name};
use st_outside::{FailingCalls, copy_from};

/// A file in memory.
#[derive(Drop)]
pub struct InputFile {
    pub name: Name,
    pub bytes: Bytes,
}

/// Input files in memory, whose bytes are known. They fail at the calls that are listed, and at no others, and take no
/// memory. A read gives all that is there and fits.
#[derive(Drop)]
pub struct MemInputs {
    files: List<InputFile>,
    calls: FailingCalls,
}

impl MemInputs {
    ghost use Rattle.st_stream.specs.MemInputs.{inputs_told_of};
    ghost use Rattle.st_stream.specs.MemInputsState.{mem_inputs_told, mem_inputs_calls};

    /// These files, of which the first of a name counts. The calls of these numbers, counted from 1, are to fail.
    pub fn new(files: List<InputFile>, failing: List<u64>) -> MemInputs
        ensures told { mem_inputs_told result ≡ inputs_told_of files 0 }
        ensures failing { (mem_inputs_calls result).failing ≡ failing }
        ensures first { (mem_inputs_calls result).calls ≡ 0 }
    {
        MemInputs {
            files,
            calls: FailingCalls::new(failing),
        }
    }
}

impl Inputs for MemInputs {
    ghost use Rattle.st_stream.specs.MemInputs.{file_named};
    ghost use Rattle.st_stream.specs.MemInputsState.{mem_inputs_told, mem_inputs_calls};

    ghost tells = { mem_inputs_told };

    ghost counted = { λ inputs. inputs.calls.small };

    fn size(&mut self, name: &str) -> Result<Option<u64>, Failed>
        requires { IsTrue (is_name name.now) }
        ensures size { IsTrue (mem_inputs_told self.old).known
            → IfOk result (λ size. size ≡ option_map length ((mem_inputs_told self.old).file name.now)) }
        ensures failed { OnErr result (Rose (mem_inputs_told self.old).faults (mem_inputs_told self.new).faults) }
        ensures untouched { InputsUntouched (mem_inputs_told self.old) (mem_inputs_told self.new) }
        ensures listed { is_err result ≡ fails_next (mem_inputs_calls self.old) }
        ensures counts { CountsCall (mem_inputs_calls self.old) (mem_inputs_calls self.new) }
    {
        self.calls.count_call(true)?;
        match bytes_named(self.files.as_slice(), name) {
            None => Ok(None),
            Some(bytes) => Ok(Some(bytes.len() as u64)),
        }
    }

    fn read(&mut self, name: &str, at: u64, buffer: &mut [u8]) -> Result<usize, Failed>
        requires { IsTrue (is_name name.now) }
        ensures bytes { IsTrue (mem_inputs_told self.old).known
            → IfOk result
            (λ n. ReadsAt (bytes_of ((mem_inputs_told self.old).file name.now)) at buffer.old buffer.new n) }
        ensures within { IfOk result (λ n. n ≤ length buffer.old) }
        ensures failed { OnErr result (Rose (mem_inputs_told self.old).faults (mem_inputs_told self.new).faults) }
        ensures untouched { InputsUntouched (mem_inputs_told self.old) (mem_inputs_told self.new) }
        ensures all { IfOk result
            (λ n. n ≡ min (length buffer.old) (length (bytes_of ((mem_inputs_told self.old).file name.now)) - at)) }
        ensures listed { is_err result ≡ fails_next (mem_inputs_calls self.old) }
        ensures counts { CountsCall (mem_inputs_calls self.old) (mem_inputs_calls self.new) }
    {
        self.calls.count_call(true)?;
        match bytes_named(self.files.as_slice(), name) {
            None => Ok(0),
            Some(bytes) => Ok(copy_from(bytes, at, buffer)),
        }
    }
}

// The bytes of the first file of that name.
fn bytes_named<'a>(files: &'a [InputFile], name: &str) -> Option<&'a [u8]>
    ensures { option_map (λ bytes. bytes.now) result ≡ file_named files.now name.now }
{
    let file = files
        .iter()
        .find(|file| file.name.as_bytes() == name.as_bytes())?;
    Some(file.bytes.as_slice())
}
