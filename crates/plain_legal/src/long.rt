ghost use Rattle.std.specs.Prelude.{◌≡◌, IfOk, length, IsTrue, ◌↔◌};
ghost use Rattle.std.specs.List.{list_all, AllByRecursion as Each};
ghost use Rattle.st_model.specs.Long.{is_long, is_read, line_length, IsCutRightly};
ghost use Rattle.plain_legal.specs.Runs.{is_cut, is_cut_rightly};

use crate::line::line_of;
use st_base::LONG_TRANSCRIPT;
use st_model::{Call, Calls, Command, Reply};
use std::alloc::{AllocError, Global};

// Whether the command only reads.
fn is_read(command: &Command) -> bool
    ensures { result ≡ is_read command.now }
{
    match command {
        Command::Get(_, _) => true,
        Command::GetAt(_, _, _) => true,
        Command::View(_) => true,
        Command::Scan(_, _, _, _) => true,
        Command::ScanAt(_, _, _, _, _) => true,
        _ => false,
    }
}

// Whether the reply is that of a long transcript.
fn is_long(reply: &Reply) -> bool
    ensures { result ≡ is_long reply.now }
{
    matches!(reply, Reply::Long)
}

// How many bytes the call prints.
fn line_length(alloc: Global, call: &Call) -> Result<u64, AllocError>
    ensures { IfOk result (λ bytes. bytes ≡ line_length call.now) }
{
    Ok(line_of(alloc, call.place, &call.reply)?.len() as u64)
}

// Whether the reply is cut exactly where it answers a read and the transcript has its full length.
fn is_cut(bytes: u64, call: &Call) -> bool
    ensures { result ≡ is_cut bytes call.now }
{
    let cuts = is_read(&call.asked.command) && bytes >= LONG_TRANSCRIPT;
    is_long(&call.reply) == cuts
}

// Whether the replies of the transcript are cut so.
fn is_cut_rightly(alloc: Global, calls: &[Call]) -> Result<bool, AllocError>
    ensures { IfOk result (λ holds. holds ≡ is_cut_rightly 0 calls.now) }
{
    let mut bytes = 0_u64;
    for call in calls {
        if !is_cut(bytes, call) {
            return Ok(false);
        }
        bytes = bytes.saturating_add(line_length(alloc, call)?);
    }
    Ok(true)
}

// Whether those of each transcript are.
fn all_cut_rightly(alloc: Global, transcripts: &[Calls]) -> Result<bool, AllocError>
    ensures { IfOk result (λ holds. holds ≡ list_all (is_cut_rightly 0) transcripts.now) }
{
    for calls in transcripts {
        if !is_cut_rightly(alloc, calls.as_slice())? {
            return Ok(false);
        }
    }
    Ok(true)
}

/// Whether reads are cut exactly where their transcript has its full length.
pub fn are_cut_rightly(alloc: Global, transcripts: &[Calls]) -> Result<bool, AllocError>
    ensures { IfOk result (λ holds. IsTrue holds ↔ (Each (IsCutRightly 0) transcripts.now)) }
{
    let holds = all_cut_rightly(alloc, transcripts)?;
    Ok(holds)
}
