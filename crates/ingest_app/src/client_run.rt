//! The run of a client: its file is read, the store is opened, and its commands are answered.
ghost use Rattle.std.specs.Prelude.{◌≡◌, ◌≤◌, ◌||◌, ℕ, List, Option, Some, None, length, IfOk, IsTrue};
ghost use Rattle.std.specs.List.{AllByRecursion as Each};
ghost use Rattle.st_base.specs.Count.{Rose};
ghost use Rattle.st_base.specs.Names.{is_name};
ghost use Rattle.st_device.specs.Disk.{Passes};
ghost use Rattle.st_stream.specs.FileRead.{file_read, IsFileWithin};
ghost use Rattle.st_stream.specs.Inputs.{InputsUntouched};
ghost use Rattle.st_model.specs.declared.state.ModelState.{ModelState};
ghost use Rattle.st_model.specs.State.{IsOpening};
ghost use Rattle.log_engine.specs.Engine.{IsReadyOn, Stands, capacity_of};
ghost use Rattle.ingest_app.specs.Client.{EndsAnswered, answered_status};
ghost use Rattle.ingest_app.specs.Op.{IsServed};
ghost use Rattle.ingest_app.specs.Outside.{Faulted};
ghost use Rattle.ingest_app.specs.Run.{EndsClient, EndsOpening, EndsRun, EndsScripts, IsBeforeDisk, IsOfFile, one_client};
ghost use Rattle.ingest_app.specs.Texts.{input_text, script_text};

use crate::client::answer_script;
use crate::outcome::Outcome;
use crate::status::Status;
use crate::texts::{damaged_text, disk_text, input_text, script_text};
use cmd_text::{Script, ScriptFault, read_script};
use log_engine::{Engine, OpenFault, Options};
use st_base::{CAPACITY, CLIENT_FILE_BYTES};
use st_device::Disk;
use st_stream::{FileRead, Inputs, ReadFault, read_file};
use std::alloc::{AllocError, Global};

// The status of clients that were answered, by whether a fault stopped the store, and whether the disk's count rose.
fn answered_status(stopped: bool, rose: bool) -> Status
    ensures { result ≡ answered_status (stopped || rose) }
{
    if stopped || rose {
        Status::DiskFault
    } else {
        Status::Done
    }
}

// The status and the text of a store that was answered, and the disk, whose count of faults was this before the opening.
fn run_engine<D: Disk>(
    alloc: Global,
    name: &str,
    script: &Script,
    mut engine: Engine<D>,
    faults: u64,
) -> (Result<Outcome, AllocError>, D)
    requires before { faults ≤ (D.tells engine.disk).faults }
    requires served { Each (λ numbered. IsServed numbered.command) script.now.commands }
    requires ready { IsReadyOn engine (D.tells engine.disk) }
    requires running { engine.stopped ≡ None }
    requires capacity { capacity_of engine ≡ CAPACITY }
    ensures ends { IfOk result.0
        (λ outcome. (opening : ModelState) → Stands engine opening → IsOpening opening
        → EndsAnswered (one_client name.now script.now.commands) opening (D.tells engine.disk)
        (D.tells result.1) outcome.status outcome.text) }
    ensures fault { IfOk result.0
        (λ outcome. outcome.status ≡ Status.DiskFault → Rose faults (D.tells result.1).faults) }
    ensures quiet { IfOk result.0 (λ outcome. outcome.status ≡ Status.Done → (D.tells result.1).faults ≡ faults) }
    ensures passes { Passes (D.tells engine.disk) (D.tells result.1) }
{
    let answered = answer_script(alloc, name, script, &mut engine);
    let stopped = engine.stopped().is_some();
    let disk = engine.close();
    let status = answered_status(stopped, disk.faults() != faults);
    match answered {
        Ok(text) => (Ok(Outcome { status, text }), disk),
        Err(_) => (Err(AllocError), disk),
    }
}

// What an opening that failed is answered.
fn unopened(alloc: Global, fault: OpenFault) -> Result<Outcome, AllocError>
    ensures { IfOk result (λ outcome. EndsOpening fault outcome.status outcome.text) }
{
    match fault {
        OpenFault::Damaged { file, at } => Ok(Outcome {
            status: Status::Damaged,
            text: damaged_text(alloc, file, at)?,
        }),
        OpenFault::DiskFault => Ok(Outcome {
            status: Status::DiskFault,
            text: disk_text(alloc)?,
        }),
        OpenFault::OutOfMemory => Err(AllocError),
    }
}

// The outcome of a client's commands over the store of the disk, and the disk.
fn run_script<D: Disk>(
    alloc: Global,
    name: &str,
    script: &Script,
    disk: D,
) -> (Result<Outcome, AllocError>, D)
    requires { Each (λ numbered. IsServed numbered.command) script.now.commands }
    ensures ends { IfOk result.0
        (λ outcome. EndsScripts (one_client name.now script.now.commands) (D.tells disk)
        (D.tells result.1) outcome.status outcome.text) }
    ensures fault { IfOk result.0
        (λ outcome. outcome.status ≡ Status.DiskFault → Faulted (D.tells disk) (D.tells result.1)) }
    ensures quiet { IfOk result.0
        (λ outcome. outcome.status ≡ Status.Done → (D.tells result.1).faults ≡ (D.tells disk).faults) }
    ensures passes { Passes (D.tells disk) (D.tells result.1) }
{
    let options = Options {
        behind: false,
        capacity: CAPACITY,
    };
    let faults = disk.faults();
    match Engine::open(alloc, disk, options) {
        Ok(engine) => run_engine(alloc, name, script, engine, faults),
        Err((disk, fault)) => (unopened(alloc, fault), disk),
    }
}

// The outcome of a client file of these bytes, and the disk.
fn run_text<D: Disk>(
    alloc: Global,
    name: &str,
    text: &[u8],
    disk: D,
) -> (Result<Outcome, AllocError>, D)
    requires { length text.now ≤ CLIENT_FILE_BYTES }
    ensures status { IfOk result.0 (λ outcome. IsOfFile outcome.status) }
    ensures ends { IfOk result.0
        (λ outcome. EndsClient (Some text.now) name.now (D.tells disk) (D.tells result.1) outcome.status outcome.text) }
    ensures fault { IfOk result.0
        (λ outcome. outcome.status ≡ Status.DiskFault → Faulted (D.tells disk) (D.tells result.1)) }
    ensures disk_untouched { IfOk result.0 (λ outcome. IsBeforeDisk outcome.status → result.1 ≡ disk) }
    ensures quiet { IfOk result.0
        (λ outcome. outcome.status ≡ Status.Done → (D.tells result.1).faults ≡ (D.tells disk).faults) }
    ensures passes { Passes (D.tells disk) (D.tells result.1) }
{
    match read_script(alloc, text) {
        Ok(script) => run_script(alloc, name, &script, disk),
        Err(ScriptFault::Line(line)) => (faulty(alloc, name, line), disk),
        Err(ScriptFault::OutOfMemory) => (Err(AllocError), disk),
    }
}

// What a faulty client file is answered.
fn faulty(alloc: Global, name: &str, line: u32) -> Result<Outcome, AllocError>
    ensures { IfOk result (λ outcome. (outcome.status ≡ Status.Script) × (outcome.text ≡ script_text name.now line)) }
{
    Ok(Outcome {
        status: Status::Script,
        text: script_text(alloc, name, line)?,
    })
}

// The outcome of a client file, and the disk.
fn run_file<D: Disk>(
    alloc: Global,
    name: &str,
    read: FileRead,
    disk: D,
) -> (Result<Outcome, AllocError>, D)
    requires { IsFileWithin CLIENT_FILE_BYTES read }
    ensures status { IfOk result.0 (λ outcome. IsOfFile outcome.status) }
    ensures ends { IfOk result.0 (λ outcome. (file : Option (List ℕ)) → read ≡ file_read CLIENT_FILE_BYTES file
        → EndsClient file name.now (D.tells disk) (D.tells result.1) outcome.status outcome.text) }
    ensures fault { IfOk result.0
        (λ outcome. outcome.status ≡ Status.DiskFault → Faulted (D.tells disk) (D.tells result.1)) }
    ensures disk_untouched { IfOk result.0 (λ outcome. IsBeforeDisk outcome.status → result.1 ≡ disk) }
    ensures quiet { IfOk result.0
        (λ outcome. outcome.status ≡ Status.Done → (D.tells result.1).faults ≡ (D.tells disk).faults) }
    ensures passes { Passes (D.tells disk) (D.tells result.1) }
{
    match read {
        FileRead::Missing => (faulty(alloc, name, 0), disk),
        FileRead::TooLong => (faulty(alloc, name, 0), disk),
        FileRead::Whole(bytes) => run_text(alloc, name, bytes.as_slice(), disk),
    }
}

// What a client file that isn't read is answered.
fn unread(alloc: Global, name: &str) -> Result<Outcome, AllocError>
    ensures { IfOk result (λ outcome. (outcome.status ≡ Status.InputFault) × (outcome.text ≡ input_text name.now)) }
{
    Ok(Outcome {
        status: Status::InputFault,
        text: input_text(alloc, name)?,
    })
}

/// The outcome of a client of this name, and the disk.
pub fn run_client<D: Disk, I: Inputs>(
    alloc: Global,
    name: &str,
    disk: D,
    inputs: &mut I,
) -> (Result<Outcome, AllocError>, D)
    requires { IsTrue (is_name name.now) }
    ensures ends { IfOk result.0
        (λ outcome. EndsRun name.now (I.tells inputs.old) (I.tells inputs.new) (D.tells disk)
        (D.tells result.1) outcome.status outcome.text) }
    ensures disk_untouched { IfOk result.0 (λ outcome. IsBeforeDisk outcome.status → result.1 ≡ disk) }
    ensures quiet { IfOk result.0
        (λ outcome. outcome.status ≡ Status.Done → (D.tells result.1).faults ≡ (D.tells disk).faults) }
    ensures passes { Passes (D.tells disk) (D.tells result.1) }
    ensures inputs_untouched { InputsUntouched (I.tells inputs.old) (I.tells inputs.new) }
{
    match read_file(alloc, inputs, name, CLIENT_FILE_BYTES) {
        Ok(read) => run_file(alloc, name, read, disk),
        Err(ReadFault::Failed) => (unread(alloc, name), disk),
        Err(ReadFault::OutOfMemory) => (Err(AllocError), disk),
    }
}
