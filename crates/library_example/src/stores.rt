//! A store on a disk in memory: opened, written, and opened again. A function answers None where a call that it makes
//! refuses.
ghost use Rattle.std.specs.Prelude.{IfOk, IfSome};
ghost use Rattle.st_device.specs.MemDisk.{told};
ghost use Rattle.log_engine.specs.Engine.{IsReadyOn};
ghost use Rattle.log_engine.specs.Op.{IsWrite};

use log_engine::{Engine, Options};
use st_base::{Family, Key, List, MakeFault, Value};
use st_device::MemDisk;
use st_model::{Batch, Op};
use std::alloc::Global;

// How the store is opened: with a capacity of 1 MiB.
const OPTIONS: Options = Options {
    behind: false,
    capacity: 1_048_576,
};

// A write of one operation: it sets a key of the family `default`. The clause is what `Engine::write` asks for.
fn write_of(alloc: Global, key: &[u8], value: &[u8]) -> Result<Batch, MakeFault>
    ensures { IfOk result (λ batch. IsWrite batch.ops) }
{
    let family = Family::new(alloc, b"default")?;
    let key = Key::new(alloc, key)?;
    let value = Value::new(alloc, value)?;
    let mut ops = List::new(alloc);
    ops.push(Op::Put(family, key, value))?;
    Ok(Batch { ops })
}

// The store of the disk, which is made where it isn't there. The clause is what `Engine::write` asks for.
fn open(alloc: Global, disk: MemDisk) -> Option<Engine<MemDisk>>
    ensures { IfSome result (λ engine. IsReadyOn engine (told engine.disk)) }
{
    match Engine::open(alloc, disk, OPTIONS) {
        Ok(engine) => Some(engine),
        Err(_) => None,
    }
}

// Makes a store on the disk, writes to it, and hands the disk back.
fn write(alloc: Global, disk: MemDisk) -> Option<MemDisk> {
    let batch = write_of(alloc, b"fig", b"ripe").ok()?;
    let mut engine = open(alloc, disk)?;
    let wrote = engine.write(&batch);
    let disk = engine.close();
    wrote.ok()?;
    Some(disk)
}

// Opens the store of the disk, and reads from it.
fn read(alloc: Global, disk: MemDisk) -> Option<Value> {
    let family = Family::new(alloc, b"default").ok()?;
    let key = Key::new(alloc, b"fig").ok()?;
    let engine = open(alloc, disk)?;
    engine.read_now(&family, &key).ok()?
}

/// What a store reads that is opened again after a write.
pub fn write_and_read(alloc: Global) -> Option<Value> {
    let disk = MemDisk::new(alloc, Vec::new(alloc));
    read(alloc, write(alloc, disk)?)
}
