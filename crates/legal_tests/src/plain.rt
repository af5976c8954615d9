// The slow programs of the model, and the types of st_model: which transcripts are legal, their history, replies, reads
// and contents.
ghost use Rattle.std.specs.Prelude.{◌≡◌, ◌∷◌, [], IfOk};
ghost use Rattle.st_base.specs.Bytes.{default_family};
ghost use Rattle.st_model.specs.Apply.{op_family};
ghost use Rattle.st_model.specs.declared.change.Change.{Change};

use cmd_text::{LineFault, Script, ScriptFault, read_reply, read_script};
use plain_legal::{asked_of, legal};
use plain_model::{apply, contents, history, read};
use plain_reply::reply;
use st_base::{Family, Key, List, MakeFault, Mark, Value};
use st_model::{Batch, Call, Calls, Change, Command, Marks, ModelFamily, ModelState, Op, Refusal};
use std::alloc::{AllocError, Global};
use std::test::Fail;

// A line of a client file, and the line of its answer.
type Line = (&'static str, &'static str);

// The last command of the script.
fn last_of(script: Script) -> Option<Command> {
    let numbered = script.commands.into_vec().pop()?;
    Some(numbered.command)
}

// The only command of the text.
fn command(alloc: Global, text: &str) -> Result<Command, ScriptFault> {
    if text.len() > 100 {
        return Err(ScriptFault::Line(1));
    }
    let script = read_script(alloc, text.as_bytes())?;
    last_of(script).ok_or(ScriptFault::Line(1))
}

// The command with its answer; it names no snapshot.
fn answered(alloc: Global, command: Command, line: &str) -> Result<Call, LineFault> {
    let (place, reply) = read_reply(alloc, line.as_bytes())?;
    Ok(Call {
        asked: asked_of(alloc, &[], command, List::new(alloc)),
        place,
        reply,
    })
}

fn call(alloc: Global, line: Line) -> Result<Call, Fail> {
    let command = command(alloc, line.0)?;
    Ok(answered(alloc, command, line.1)?)
}

fn transcript(alloc: Global, lines: &[Line]) -> Result<Calls, Fail> {
    let mut calls = Calls::new(alloc);
    for line in lines {
        calls.push(call(alloc, *line)?)?;
    }
    Ok(calls)
}

// Whether clients of a new store of 1,000 bytes may have been answered so, without a fault of the disk.
fn are_legal(alloc: Global, transcripts: &[Calls]) -> Result<bool, AllocError> {
    let opening = ModelState::new_store(alloc, false)?;
    legal(alloc, &opening, 1000, transcripts, 0, false)
}

// Whether two clients may have been answered so.
fn is_legal(alloc: Global, first: &[Line], second: &[Line]) -> Result<bool, Fail> {
    let transcripts = [transcript(alloc, first)?, transcript(alloc, second)?];
    Ok(are_legal(alloc, &transcripts)?)
}

static LEGAL: [[Line; 4]; 2] = [
    [
        ("put default a 1", "1 written 1\n"),
        ("get default a", "1 value 1\n"),
        ("del default a", "2 written 2\n"),
        ("get default a", "2 none\n"),
    ],
    [
        ("put p a 1", "0 refused 11 UnknownFamily p\n"),
        ("get default a", "0 none\n"),
        ("put default a 1", "1 written 1\n"),
        ("get default a", "1 value 1\n"),
    ],
];

static ILLEGAL: [[Line; 4]; 7] = [
    // The last reply is one change stale.
    [
        ("put default a 1", "1 written 1\n"),
        ("get default a", "1 value 1\n"),
        ("del default a", "2 written 2\n"),
        ("get default a", "2 value 1\n"),
    ],
    // The second reply is from the future.
    [
        ("put default a 1", "1 written 1\n"),
        ("get default a", "1 none\n"),
        ("del default a", "2 written 2\n"),
        ("get default a", "2 none\n"),
    ],
    // The last place falls.
    [
        ("put default a 1", "1 written 1\n"),
        ("get default a", "1 value 1\n"),
        ("del default a", "2 written 2\n"),
        ("get default a", "1 value 1\n"),
    ],
    // The last place is that of no change.
    [
        ("put default a 1", "1 written 1\n"),
        ("get default a", "1 value 1\n"),
        ("del default a", "2 written 2\n"),
        ("get default a", "3 none\n"),
    ],
    // A change is refused without a cause.
    [
        ("put default a 1", "1 written 1\n"),
        ("get default a", "1 value 1\n"),
        ("del default a", "1 refused 19 StoreFull\n"),
        ("get default a", "1 value 1\n"),
    ],
    // The disk didn't fail.
    [
        ("put default a 1", "1 written 1\n"),
        ("get default a", "1 value 1\n"),
        ("del default a", "1 refused 20 DiskFault\n"),
        ("get default a", "1 value 1\n"),
    ],
    // An accepted write has the wrong number.
    [
        ("put default a 1", "1 written 1\n"),
        ("get default a", "1 value 1\n"),
        ("del default a", "2 written 3\n"),
        ("get default a", "2 none\n"),
    ],
];

#[test]
fn one_client(rt: HostRuntime) -> Result<(), Fail> {
    for lines in LEGAL.iter() {
        assert!(rt; is_legal(rt.alloc(), lines, &[])?);
    }
    for lines in ILLEGAL.iter() {
        assert!(rt; !is_legal(rt.alloc(), lines, &[])?);
    }
    Ok(())
}

// The second client wrote before the first.
static FIRST: [Line; 3] = [
    ("put default a 1", "2 written 2\n"),
    ("get default a", "2 value 1\n"),
    ("del default a", "3 written 3\n"),
];

static SECOND: [Line; 2] = [
    ("put default a 1", "1 written 1\n"),
    ("get default a", "3 none\n"),
];

#[test]
fn two_clients(rt: HostRuntime) -> Result<(), Fail> {
    assert!(rt; is_legal(rt.alloc(), &FIRST, &SECOND)?);
    // The place 1 is used twice.
    assert!(rt; !is_legal(rt.alloc(), &SECOND[..1], &SECOND[..1])?);
    Ok(())
}

// Whether the operation sets the key `a` of `default` to the value 1, or to a tombstone.
fn sets_a(op: &Op, one: bool) -> bool {
    match op {
        Op::Put(family, key, value) => {
            one && family.is_default()
                && key.as_bytes() == b"a".as_slice()
                && value.as_bytes() == b"1".as_slice()
        }
        Op::Del(family, key) => { !one && family.is_default() && key.as_bytes() == b"a".as_slice() }
    }
}

// Whether the change is one such operation.
fn is_change_of_a(change: &Change, one: bool) -> bool {
    match change {
        Change::Write(batch) => match batch.ops.as_slice() {
            [op] => sets_a(op, one),
            _ => false,
        },
        _ => false,
    }
}

// The changes of both clients by place: two puts, and then a tombstone.
#[test]
fn changes_of_two_clients(rt: HostRuntime) -> Result<(), Fail> {
    let alloc = rt.alloc();
    let transcripts = [transcript(alloc, &FIRST)?, transcript(alloc, &SECOND)?];
    let changes = history(alloc, &transcripts)?;
    assert!(rt; changes.len() == 3);
    for (change, one) in changes.as_slice().iter().zip([true, true, false]) {
        assert!(rt; is_change_of_a(change, one));
    }
    Ok(())
}

// Whether a new store of so many bytes may answer so.
fn is_allowed(alloc: Global, capacity: u64, call: &Call) -> Result<bool, AllocError> {
    let opening = ModelState::new_store(alloc, false)?;
    reply(alloc, &opening, capacity, &call.asked, &call.reply)
}

// `put default a 1` counts 34 bytes.
#[test]
fn allowed(rt: HostRuntime) -> Result<(), Fail> {
    let call = call(rt.alloc(), ("put default a 1", "1 written 1\n"))?;
    for (capacity, wanted) in [(34, true), (33, false)] {
        let is_allowed = is_allowed(rt.alloc(), capacity, &call)?;
        assert!(rt; is_allowed == wanted, "with {capacity} bytes");
    }
    Ok(())
}

// `put default a 1`
fn put_a(alloc: Global) -> Result<Op, MakeFault>
    ensures { IfOk result (λ op. op_family op ≡ default_family) }
{
    let family = Family::new(alloc, b"default")?;
    let key = Key::new(alloc, b"a")?;
    let value = Value::new(alloc, b"1")?;
    Ok(Op::Put(family, key, value))
}

// The write of the operation alone.
fn single(alloc: Global, op: Op) -> Result<Change, AllocError>
    ensures { IfOk result (λ change. change ≡ Change.Write (record { ops = op ∷ [] })) }
{
    let mut ops = List::new(alloc);
    ops.push(op)?;
    Ok(Change::Write(Batch { ops }))
}

// The state after the first write of a new store.
fn written(alloc: Global) -> Result<ModelState, MakeFault> {
    let change = single(alloc, put_a(alloc)?)?;
    let opening = ModelState::new_store(alloc, false)?;
    Ok(apply(alloc, &opening, &change)?)
}

// Whether the key has a value at the number.
fn has_value(family: &ModelFamily, number: u64, key: &Key) -> Result<bool, AllocError> {
    match read(family, number, key)? {
        Some(_) => Ok(true),
        None => Ok(false),
    }
}

// What `put default a 1` reads before it and after it.
#[test]
fn read_back(rt: HostRuntime) -> Result<(), Fail> {
    let alloc = rt.alloc();
    let next = written(alloc)?;
    assert!(rt; (next.place, next.last, next.charge) == (1, 1, 34));
    let key = Key::new(alloc, b"a")?;
    for (_, family) in next.families.as_slice() {
        assert!(rt; !has_value(family, 0, &key)?);
        assert!(rt; has_value(family, 1, &key)?);
    }
    Ok(())
}

// The base with one mark.
fn base(alloc: Global) -> Result<Marks, MakeFault> {
    let mut base = Marks::new(alloc);
    base.set(Key::new(alloc, b"a")?, Mark::Put(Value::new(alloc, b"1")?))?;
    Ok(base)
}

// A key that has a mark in the base alone reads it, at every number.
#[test]
fn base_is_read(rt: HostRuntime) -> Result<(), Fail> {
    let mut family = ModelFamily::new(rt.alloc(), 0);
    family.base = base(rt.alloc())?;
    let key = Key::new(rt.alloc(), b"a")?;
    assert!(rt; has_value(&family, 0, &key)?);
    Ok(())
}

#[test]
fn a_new_store_has_one_family(rt: HostRuntime) -> Result<(), Fail> {
    let state = ModelState::new_store(rt.alloc(), false)?;
    let left = contents(rt.alloc(), &state)?;
    assert!(rt; left.last == 0);
    assert!(rt; left.families.len() == 1);
    Ok(())
}

#[test]
fn refusals_have_numbers(rt: HostRuntime) {
    assert!(rt; Refusal::DiskFault.refusal_number() == Some(20));
    assert!(rt; Refusal::OutOfMemory.refusal_number().is_none());
}
