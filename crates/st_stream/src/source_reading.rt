ghost use Rattle.std.specs.Prelude.{◌≡◌, ◌+◌, ◌<◌, ◌≤◌, ◌^◌, [], List, ℕ, length, IfOk, IsErrOf, OnOk, IsTrue};
ghost use Rattle.st_base.specs.Count.{Rose};
ghost use Rattle.st_stream.specs.Source.{TakesPrefix};
ghost use Rattle.st_stream.specs.SourceRead.{source_read, LeavesNone, IsReadWithin};

use crate::reading::PIECE_BYTES;
use crate::{ReadFault, Source};
use st_base::Bytes;
use std::alloc::Global;

/// What was read of a source.
#[derive(Drop)]
pub enum SourceRead {
    /// More bytes came than were allowed.
    TooLong,
    /// All of its bytes.
    Whole(Bytes),
}

/// Reads a source to its end, where at most `limit` bytes are left in it. Its end is where a read gives nothing. After
/// more than `limit` bytes no further piece is read. Time and memory are linear in the bytes that come, and it ends for
/// every source.
///
/// `Failed` comes only where the source's count of faults rose in this call, or stands at its end. Then, and where
/// memory runs out, the bytes that came are lost.
pub fn read_source<S: Source>(
    alloc: Global,
    source: &mut S,
    limit: u64,
) -> Result<SourceRead, ReadFault>
    ensures read { IsTrue (S.tells source.old).known
        → IfOk result (λ read. read ≡ source_read limit (S.tells source.old).left) }
    ensures end { IsTrue (S.tells source.old).known → IfOk result (λ read. LeavesNone read (S.tells source.new).left) }
    ensures taken { IsTrue (S.tells source.old).known
        → TakesPrefix (S.tells source.old).left (S.tells source.new).left }
    ensures within { IfOk result (λ read. IsReadWithin limit read) }
    ensures failed { IsErrOf result ReadFault.Failed → Rose (S.tells source.old).faults (S.tells source.new).faults }
    ensures quiet { OnOk result ((S.tells source.new).faults ≡ (S.tells source.old).faults) }
    ensures known { (S.tells source.new).known ≡ (S.tells source.old).known }
    ensures faults { (S.tells source.old).faults ≤ (S.tells source.new).faults }
{
    let mut piece = vec![in alloc; 0; PIECE_BYTES]?;
    read_pieces(alloc, source, limit, &mut piece)
}

// Reads through the piece until a read gives nothing or more than `limit` bytes have come.
fn read_pieces<S: Source>(
    alloc: Global,
    source: &mut S,
    limit: u64,
    piece: &mut [u8],
) -> Result<SourceRead, ReadFault>
    requires some { 0 < length piece.old }
    ensures read { IsTrue (S.tells source.old).known
        → IfOk result (λ read. read ≡ source_read limit (S.tells source.old).left) }
    ensures end { IsTrue (S.tells source.old).known → IfOk result (λ read. LeavesNone read (S.tells source.new).left) }
    ensures taken { IsTrue (S.tells source.old).known
        → TakesPrefix (S.tells source.old).left (S.tells source.new).left }
    ensures within { IfOk result (λ read. IsReadWithin limit read) }
    ensures failed { IsErrOf result ReadFault.Failed → Rose (S.tells source.old).faults (S.tells source.new).faults }
    ensures quiet { OnOk result ((S.tells source.new).faults ≡ (S.tells source.old).faults) }
    ensures known { (S.tells source.new).known ≡ (S.tells source.old).known }
    ensures faults { (S.tells source.old).faults ≤ (S.tells source.new).faults }
{
    let mut bytes = Bytes::new(alloc);
    let mut room = limit;
    loop {
        let came = source.read(piece)?;
        if came == 0 {
            return Ok(SourceRead::Whole(bytes));
        }
        if came as u64 > room {
            return Ok(SourceRead::TooLong);
        }
        bytes.extend_from_slice(&piece[..came])?;
        room -= came as u64;
    }
}
