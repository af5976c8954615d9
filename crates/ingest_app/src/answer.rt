//! The commands, answered by the engine one by one.
ghost use Rattle.std.specs.Prelude.{◌≡◌, ◌⊎◌, ◌&&◌, IfOk, OnOk, None, false, nat_le};
ghost use Rattle.st_base.specs.Count.{Rose};
ghost use Rattle.st_device.specs.Disk.{Passes};
ghost use Rattle.log_engine.specs.Engine.{IsReadyOn, SameOptions, Stands};
ghost use Rattle.log_engine.specs.Op.{IsWrite};
ghost use Rattle.st_model.specs.declared.state.ModelState.{ModelState};
ghost use Rattle.st_model.specs.Reads.{get_answer};
ghost use Rattle.st_model.specs.Long.{IsCut, is_long, is_read};
ghost use Rattle.st_model.specs.State.{long_transcript};
ghost use Rattle.ingest_app.specs.Answer.{EngineAnswers, answered_call};
ghost use Rattle.ingest_app.specs.Op.{IsServed};

use log_engine::Engine;
use st_base::{Family, Key, LONG_TRANSCRIPT};
use st_device::Disk;
use st_model::{Batch, Command, Refusal, Reply};
use std::alloc::AllocError;

/// A reply with its place.
#[derive(Drop)]
pub struct Answer {
    pub place: u64,
    pub reply: Reply,
}

// The refusal, which a transcript shows. `OutOfMemory` isn't one.
fn shown(refusal: Refusal) -> Result<Refusal, AllocError>
    ensures same { IfOk result (λ shown. shown ≡ refusal) }
    ensures memory { OnOk result (refusal ≡ Refusal.OutOfMemory → ⊥) }
{
    match refusal {
        Refusal::OutOfMemory => Err(AllocError),
        other => Ok(other),
    }
}

fn answer_write<D: Disk>(engine: &mut Engine<D>, batch: &Batch) -> Result<Answer, AllocError>
    requires limits { IsWrite batch.now.ops }
    requires ready { IsReadyOn engine.old (D.tells engine.old.disk) }
    ensures steps { IfOk result (EngineAnswers D.tells engine.old engine.new (Command.Write batch.now)) }
    ensures short { IfOk result (λ answer. is_long answer.reply ≡ false) }
    ensures ready { IsReadyOn engine.new (D.tells engine.new.disk) }
    ensures untouched { (engine.old.stopped ≡ None) ⊎ (engine.new.disk ≡ engine.old.disk) }
    ensures cause { (engine.new.stopped ≡ engine.old.stopped)
        ⊎ Rose (D.tells engine.old.disk).faults (D.tells engine.new.disk).faults }
    ensures options { SameOptions engine.old engine.new }
    ensures passes { Passes (D.tells engine.old.disk) (D.tells engine.new.disk) }
{
    match engine.write(batch) {
        Ok(wrote) => Ok(Answer {
            place: wrote.place,
            reply: Reply::Written(wrote.last),
        }),
        Err(refusal) => Ok(Answer {
            place: engine.place(),
            reply: Reply::Refused(shown(refusal)?),
        }),
    }
}

fn answer_get<D: Disk>(engine: &Engine<D>, family: &Family, key: &Key) -> Result<Answer, AllocError>
    ensures short { IfOk result (λ answer. is_long answer.reply ≡ false) }
    ensures answered { IfOk result (λ answer. (state : ModelState) → Stands engine.now state
        → (answer.place ≡ state.place) × (answer.reply ≡ get_answer state state.last family.now key.now)) }
{
    let place = engine.place();
    match engine.read_now(family, key) {
        Ok(Some(value)) => Ok(Answer {
            place,
            reply: Reply::Found(value),
        }),
        Ok(None) => Ok(Answer {
            place,
            reply: Reply::Nothing,
        }),
        Err(refusal) => Ok(Answer {
            place,
            reply: Reply::Refused(shown(refusal)?),
        }),
    }
}

// Answers a command that is served, by the engine.
fn answer_command<D: Disk>(engine: &mut Engine<D>, command: &Command) -> Result<Answer, AllocError>
    requires served { IsServed command.now }
    requires ready { IsReadyOn engine.old (D.tells engine.old.disk) }
    ensures steps { IfOk result (EngineAnswers D.tells engine.old engine.new command.now) }
    ensures short { IfOk result (λ answer. is_long answer.reply ≡ false) }
    ensures ready { IsReadyOn engine.new (D.tells engine.new.disk) }
    ensures untouched { (engine.old.stopped ≡ None) ⊎ (engine.new.disk ≡ engine.old.disk) }
    ensures cause { (engine.new.stopped ≡ engine.old.stopped)
        ⊎ Rose (D.tells engine.old.disk).faults (D.tells engine.new.disk).faults }
    ensures options { SameOptions engine.old engine.new }
    ensures passes { Passes (D.tells engine.old.disk) (D.tells engine.new.disk) }
{
    match command {
        Command::Write(batch) => answer_write(engine, batch),
        Command::Get(family, key) => answer_get(engine, family, key),
        Command::GetAt(..)
        | Command::View(..)
        | Command::Scan(..)
        | Command::ScanAt(..)
        | Command::Snap(..)
        | Command::Release(..)
        | Command::MakeFamily(..)
        | Command::DropFamily(..)
        | Command::Flush(..)
        | Command::Compact(..)
        | Command::Ingest(..)
        | Command::Await { .. } => unreachable!(),
    }
}

// Whether the command only reads.
fn is_read(command: &Command) -> bool
    ensures { result ≡ is_read command.now }
{
    match command {
        Command::Get(..)
        | Command::GetAt(..)
        | Command::View(..)
        | Command::Scan(..)
        | Command::ScanAt(..) => true,
        Command::Write(..)
        | Command::Snap(..)
        | Command::Release(..)
        | Command::MakeFamily(..)
        | Command::DropFamily(..)
        | Command::Flush(..)
        | Command::Compact(..)
        | Command::Ingest(..)
        | Command::Await { .. } => false,
    }
}

// Whether the command is a read for which the transcript of so many bytes is too long.
fn is_cut(command: &Command, printed: usize) -> bool
    ensures { result ≡ (is_read command.now && nat_le long_transcript printed) }
{
    is_read(command) && printed as u64 >= LONG_TRANSCRIPT
}

/// Answers a command that is served, of a client whose transcript has so many bytes behind its first line. After memory
/// ran out the engine isn't used again.
pub fn answer_printed<D: Disk>(
    engine: &mut Engine<D>,
    command: &Command,
    printed: usize,
) -> Result<Answer, AllocError>
    requires served { IsServed command.now }
    requires ready { IsReadyOn engine.old (D.tells engine.old.disk) }
    ensures steps { IfOk result (EngineAnswers D.tells engine.old engine.new command.now) }
    ensures cut { IfOk result (λ answer. IsCut printed (answered_call command.now answer)) }
    ensures ready { IsReadyOn engine.new (D.tells engine.new.disk) }
    ensures untouched { (engine.old.stopped ≡ None) ⊎ (engine.new.disk ≡ engine.old.disk) }
    ensures cause { (engine.new.stopped ≡ engine.old.stopped)
        ⊎ Rose (D.tells engine.old.disk).faults (D.tells engine.new.disk).faults }
    ensures options { SameOptions engine.old engine.new }
    ensures passes { Passes (D.tells engine.old.disk) (D.tells engine.new.disk) }
{
    if is_cut(command, printed) {
        return Ok(Answer {
            place: engine.place(),
            reply: Reply::Long,
        });
    }
    answer_command(engine, command)
}
