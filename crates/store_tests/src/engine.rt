// The engine over a disk in memory.
ghost use Rattle.std.specs.Prelude.{IfOk};
ghost use Rattle.st_device.specs.MemDisk.{told};
ghost use Rattle.log_engine.specs.Engine.{IsReadyOn};
ghost use Rattle.log_engine.specs.Op.{IsWrite};

use crate::outside::disk;
use log_engine::{AcceptedWrite, Engine, Options};
use st_base::{Family, Key, List, Value};
use st_device::MemDisk;
use st_model::{Batch, Op, Refusal};
use std::alloc::Global;
use std::test::Fail;

// A put of a key and a value of one byte each.
fn one_put(alloc: Global, key: &[u8; 1]) -> Result<Batch, Fail>
    ensures { IfOk result (λ batch. IsWrite batch.ops) }
{
    let family = Family::new(alloc, b"default")?;
    let key = Key::new(alloc, key)?;
    let value = Value::new(alloc, b"1")?;
    let mut ops = List::new(alloc);
    ops.push(Op::Put(family, key, value))?;
    Ok(Batch { ops })
}

// An engine over a disk without files, which fails at this one of its calls.
fn new_engine(alloc: Global, failing: u64, capacity: u64) -> Result<Engine<MemDisk>, Fail>
    ensures { IfOk result (λ engine. IsReadyOn engine (told engine.disk)) }
{
    let disk = disk(alloc, failing)?;
    let options = Options {
        behind: false,
        capacity,
    };
    match Engine::open(alloc, disk, options) {
        Ok(engine) => Ok(engine),
        Err(_) => Err(Fail::new("the store isn't opened")),
    }
}

// How a write was answered: its place with its first and last number, or the number of the refusal.
#[derive(Clone, Copy, PartialEq, Eq)]
enum Answer {
    Accepted(u64, u64, u64),
    Refused(Option<u32>),
}

fn answer_of(answer: Result<AcceptedWrite, Refusal>) -> Answer {
    match answer {
        Ok(write) => Answer::Accepted(write.place, write.first, write.last),
        Err(refusal) => Answer::Refused(refusal.refusal_number()),
    }
}

// The answers of two writes.
fn write_twice(engine: &mut Engine<MemDisk>, one: &Batch, two: &Batch) -> (Answer, Answer)
    requires one { IsWrite one.now.ops }
    requires two { IsWrite two.now.ops }
    requires ready { IsReadyOn engine.old (told engine.old.disk) }
{
    let first = answer_of(engine.write(one));
    let second = answer_of(engine.write(two));
    (first, second)
}

// What an engine is after two writes: their answers, how many changes were accepted, and the count of faults that stopped it.
#[derive(Clone, Copy, PartialEq, Eq)]
struct AfterTwo {
    first: Answer,
    second: Answer,
    place: u64,
    stopped: Option<u64>,
    calls: u64,
}

// Two writes to a new engine, whose disk then is closed.
fn after_two(alloc: Global, failing: u64, capacity: u64) -> Result<AfterTwo, Fail> {
    let one = one_put(alloc, b"a")?;
    let two = one_put(alloc, b"b")?;
    let mut engine = new_engine(alloc, failing, capacity)?;
    let (first, second) = write_twice(&mut engine, &one, &two);
    let (place, stopped) = (engine.place(), engine.stopped());
    Ok(AfterTwo {
        first,
        second,
        place,
        stopped,
        calls: engine.close().calls(),
    })
}

// Each write has a charge of 34.
#[test]
fn the_capacity_refuses(rt: HostRuntime) -> Result<(), Fail> {
    for (capacity, place, second) in [
        (67, 1, Answer::Refused(Some(19))),
        (68, 2, Answer::Accepted(2, 2, 2)),
        (69, 2, Answer::Accepted(2, 2, 2)),
    ] {
        let after = after_two(rt.alloc(), 0, capacity)?;
        assert!(rt; after.first == Answer::Accepted(1, 1, 1), "{capacity}");
        assert!(rt; after.second == second, "{capacity}");
        assert!(rt; after.place == place, "{capacity}");
    }
    Ok(())
}

// The last sync within the first write fails; then no device is called.
#[test]
fn a_fault_stops_the_engine(rt: HostRuntime) -> Result<(), Fail> {
    let after = after_two(rt.alloc(), 13, 100)?;
    assert!(rt; after.first == Answer::Refused(Some(20)));
    assert!(rt; after.second == Answer::Refused(Some(10)));
    assert!(rt; after.stopped == Some(1));
    assert!(rt; after.calls == 13);
    Ok(())
}

// Whether the key reads none, where the engine's reads go on after the fault.
fn reads_none(engine: &Engine<MemDisk>, family: &Family, key: &Key) -> bool {
    matches!(engine.read_now(family, key), Ok(None))
}

// A stopped engine reads what it read before.
#[test]
fn a_stopped_engine_reads(rt: HostRuntime) -> Result<(), Fail> {
    let alloc = rt.alloc();
    let one = one_put(alloc, b"a")?;
    let family = Family::new(alloc, b"default")?;
    let key = Key::new(alloc, b"a")?;
    let mut engine = new_engine(alloc, 13, 100)?;
    let (first, _) = write_twice(&mut engine, &one, &one);
    let none = reads_none(&engine, &family, &key);
    assert!(rt; first == Answer::Refused(Some(20)));
    assert!(rt; none);
    Ok(())
}
