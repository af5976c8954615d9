ghost use Rattle.std.specs.Prelude.{◌≡◌, ◌+◌, ◌<◌, ◌≤◌, ◌^◌, [], List, ℕ, length, min, IfOk, IsErrOf, IsTrue};
ghost use Rattle.st_base.specs.Names.{is_name};
ghost use Rattle.st_base.specs.Count.{Rose};
ghost use Rattle.st_stream.specs.Inputs.{InputsUntouched, bytes_of};
ghost use Rattle.st_stream.specs.FileRead.{file_read, IsFileWithin};

use crate::{Inputs, ReadFault};
use st_base::Bytes;
use std::alloc::Global;

// How many bytes are asked for at once.
pub const PIECE_BYTES: usize = 65_536;

/// What was read of a file.
#[derive(Drop)]
pub enum FileRead {
    /// There is no such file.
    Missing,
    /// It is longer than was allowed.
    TooLong,
    /// All of its bytes.
    Whole(Bytes),
}

/// Reads a whole file of at most `limit` bytes. Its bytes are those that are read until as many are there as the inputs
/// give for its size, or a read gives none. Time and memory are linear in the bytes that come.
///
/// `Failed` comes only where the inputs' count of faults rose in this call, or stands at its end.
pub fn read_file<I: Inputs>(
    alloc: Global,
    inputs: &mut I,
    name: &str,
    limit: u64,
) -> Result<FileRead, ReadFault>
    requires named { IsTrue (is_name name.now) }
    ensures read { IsTrue (I.tells inputs.old).known
        → IfOk result (λ read. read ≡ file_read limit ((I.tells inputs.old).file name.now)) }
    ensures within { IfOk result (λ read. IsFileWithin limit read) }
    ensures failed { IsErrOf result ReadFault.Failed → Rose (I.tells inputs.old).faults (I.tells inputs.new).faults }
    ensures untouched { InputsUntouched (I.tells inputs.old) (I.tells inputs.new) }
{
    match inputs.size(name)? {
        None => Ok(FileRead::Missing),
        Some(size) if size > limit => Ok(FileRead::TooLong),
        Some(size) => Ok(FileRead::Whole(read_bytes(alloc, inputs, name, size)?)),
    }
}

// Reads a file's bytes until `size` are there or a read gives none.
fn read_bytes<I: Inputs>(
    alloc: Global,
    inputs: &mut I,
    name: &str,
    size: u64,
) -> Result<Bytes, ReadFault>
    requires named { IsTrue (is_name name.now) }
    ensures bytes { IsTrue (I.tells inputs.old).known → size ≡ length (bytes_of ((I.tells inputs.old).file name.now))
        → IfOk result (λ bytes. bytes ≡ bytes_of ((I.tells inputs.old).file name.now)) }
    ensures within { IfOk result (λ bytes. length bytes ≤ size) }
    ensures failed { IsErrOf result ReadFault.Failed → Rose (I.tells inputs.old).faults (I.tells inputs.new).faults }
    ensures untouched { InputsUntouched (I.tells inputs.old) (I.tells inputs.new) }
{
    let mut piece = vec![in alloc; 0; PIECE_BYTES]?;
    let mut bytes = Bytes::new(alloc);
    read_pieces(inputs, name, size, &mut piece, &mut bytes)?;
    Ok(bytes)
}

// Reads through the piece until `size` bytes are there or a read gives none.
fn read_pieces<I: Inputs>(
    inputs: &mut I,
    name: &str,
    size: u64,
    piece: &mut [u8],
    bytes: &mut Bytes,
) -> Result<(), ReadFault>
    requires named { IsTrue (is_name name.now) }
    requires some { 0 < length piece.old }
    requires empty { bytes.old ≡ [] }
    ensures bytes { IsTrue (I.tells inputs.old).known → size ≡ length (bytes_of ((I.tells inputs.old).file name.now))
        → IfOk result (λ _. bytes.new ≡ bytes_of ((I.tells inputs.old).file name.now)) }
    ensures within { length bytes.new ≤ size }
    ensures failed { IsErrOf result ReadFault.Failed → Rose (I.tells inputs.old).faults (I.tells inputs.new).faults }
    ensures untouched { InputsUntouched (I.tells inputs.old) (I.tells inputs.new) }
{
    let mut left = size;
    while left > 0 {
        let came = inputs.read(name, size - left, piece)?;
        let kept = least(came, left);
        if kept == 0 {
            break;
        }
        bytes.extend_from_slice(&piece[..kept])?;
        left -= kept as u64;
    }
    Ok(())
}

fn least(came: usize, left: u64) -> usize
    ensures { result ≡ min came left }
{
    if (came as u64) < left {
        came
    } else {
        left as usize
    }
}
