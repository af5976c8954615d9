//! The commands of one client, answered in order.
ghost use Rattle.std.specs.Prelude.{◌≡◌, ◌⊎◌, [], IfOk, OnOk, None, is_some};
ghost use Rattle.std.specs.List.{AllByRecursion as Each};
ghost use Rattle.st_base.specs.Count.{Rose};
ghost use Rattle.st_device.specs.Disk.{Passes};
ghost use Rattle.log_engine.specs.Engine.{IsReadyOn, SameOptions, Stands, capacity_of};
ghost use Rattle.st_model.specs.declared.state.ModelState.{ModelState};
ghost use Rattle.st_model.specs.State.{IsOpening};
ghost use Rattle.ingest_app.specs.Client.{AreClientsAnswered, transcript};
ghost use Rattle.ingest_app.specs.Run.{one_client};
ghost use Rattle.ingest_app.specs.Answer.{Prints};
ghost use Rattle.ingest_app.specs.Op.{IsServed};

use crate::answer::answer_printed;
use cmd_text::{Script, push_reply};
use log_engine::Engine;
use st_base::{Bytes, CAPACITY};
use st_device::Disk;
use st_model::Command;
use std::alloc::{AllocError, Global};

// The first line of a transcript.
fn heading(alloc: Global, name: &str) -> Result<Bytes, AllocError>
    ensures { IfOk result (λ text. text ≡ transcript name.now []) }
{
    let mut text = Bytes::from_slice(alloc, b"client ")?;
    text.extend_from_slice(name.as_bytes())?;
    text.push(b'\n')?;
    Ok(text)
}

// Answers one command, and appends the answer's line to the text, whose first line has so many bytes.
fn print_answer<D: Disk>(
    engine: &mut Engine<D>,
    command: &Command,
    heading: usize,
    text: &mut Bytes,
) -> Result<(), AllocError>
    requires served { IsServed command.now }
    requires ready { IsReadyOn engine.old (D.tells engine.old.disk) }
    ensures printed { OnOk result
        (Prints D.tells engine.old engine.new command.now heading text.old text.new) }
    ensures ready { IsReadyOn engine.new (D.tells engine.new.disk) }
    ensures untouched { (engine.old.stopped ≡ None) ⊎ (engine.new.disk ≡ engine.old.disk) }
    ensures cause { (engine.new.stopped ≡ engine.old.stopped)
        ⊎ Rose (D.tells engine.old.disk).faults (D.tells engine.new.disk).faults }
    ensures options { SameOptions engine.old engine.new }
    ensures passes { Passes (D.tells engine.old.disk) (D.tells engine.new.disk) }
{
    let answer = answer_printed(engine, command, text.len().saturating_sub(heading))?;
    push_reply(text, answer.place, &answer.reply)
}

/// Answers the commands of a client over a store that was just opened, and gives its transcript.
pub fn answer_script<D: Disk>(
    alloc: Global,
    name: &str,
    script: &Script,
    engine: &mut Engine<D>,
) -> Result<Bytes, AllocError>
    requires served { Each (λ numbered. IsServed numbered.command) script.now.commands }
    requires ready { IsReadyOn engine.old (D.tells engine.old.disk) }
    requires running { engine.old.stopped ≡ None }
    requires capacity { capacity_of engine.old ≡ CAPACITY }
    ensures answered { IfOk result (λ text. (opening : ModelState) → Stands engine.old opening
        → IsOpening opening → AreClientsAnswered (one_client name.now script.now.commands) text opening
        (D.tells engine.old.disk) (D.tells engine.new.disk) (is_some engine.new.stopped)) }
    ensures cause { (engine.new.stopped ≡ None)
        ⊎ Rose (D.tells engine.old.disk).faults (D.tells engine.new.disk).faults }
    ensures passes { Passes (D.tells engine.old.disk) (D.tells engine.new.disk) }
{
    let mut text = heading(alloc, name)?;
    let heading = text.len();
    for numbered in script.commands.as_slice() {
        print_answer(engine, &numbered.command, heading, &mut text)?;
    }
    Ok(text)
}
