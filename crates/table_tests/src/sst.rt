use crate::samples::ONE;
use crate::table::{Row, has_rows};
use sst_writer::{FinishFault, SstFileWriter, WriterFault};
use st_base::{Bytes, Key, MakeFault, Value};
use std::alloc::Global;

type Answer = Result<(), WriterFault>;

// What a key is set to, and the answer.
type Step<'a> = (Row<'a>, Answer);

// Sets the key to the value.
fn put(
    alloc: Global,
    writer: &mut SstFileWriter,
    key: &Key,
    value: &[u8],
) -> Result<Answer, MakeFault> {
    let value = Value::new(alloc, value)?;
    Ok(writer.put(alloc, key, &value))
}

// Sets the key to the value, or puts a tombstone.
fn set(alloc: Global, writer: &mut SstFileWriter, row: Row<'_>) -> Result<Answer, MakeFault> {
    let key = Key::new(alloc, row.0)?;
    match row.1 {
        Some(value) => put(alloc, writer, &key, value),
        None => Ok(writer.delete(alloc, &key)),
    }
}

// Whether each step has its answer.
fn are_taken(
    alloc: Global,
    writer: &mut SstFileWriter,
    steps: &[Step<'_>],
) -> Result<bool, MakeFault> {
    for step in steps {
        if set(alloc, writer, step.0)? != step.1 {
            return Ok(false);
        }
    }
    Ok(true)
}

// A front of the value.
fn front(value: &[u8], bytes: Option<usize>) -> Option<&[u8]> {
    value.get(..bytes?)
}

// A key, how many bytes of a value it is set to, and the answer. With 63 values of 1,048,576 bytes before it, the table has
// 67,108,864 bytes after the second step.
static LAST_STEPS: [(&[u8], Option<usize>, Answer); 4] = [
    (b"?", Some(1_045_095), Err(WriterFault::TooLarge)),
    (b"?", Some(1_045_094), Ok(())),
    (b"@", None, Err(WriterFault::TooLarge)),
    (b"?", None, Err(WriterFault::NotRising)),
];

// Whether the value is taken under the keys 0 to 62, and each last step has its answer.
fn is_filled(alloc: Global, writer: &mut SstFileWriter, value: &[u8]) -> Result<bool, MakeFault> {
    for key in 0..63u8 {
        if set(alloc, writer, (&[key], Some(value)))?.is_err() {
            return Ok(false);
        }
    }
    for (key, bytes, answer) in LAST_STEPS.iter() {
        if set(alloc, writer, (key, front(value, *bytes)))? != *answer {
            return Ok(false);
        }
    }
    Ok(true)
}

// What a writer is given.
#[derive(Clone, Copy)]
enum Plan<'a> {
    Steps(&'a [Step<'a>]),
    // As many of this value as fit.
    Full(&'a [u8]),
}

// Whether the plan has its answers.
fn is_carried_out(
    alloc: Global,
    writer: &mut SstFileWriter,
    plan: Plan<'_>,
) -> Result<bool, MakeFault> {
    match plan {
        Plan::Steps(steps) => are_taken(alloc, writer, steps),
        Plan::Full(value) => is_filled(alloc, writer, value),
    }
}

// A writer that was given back, since nothing was added.
fn refused(alloc: Global) -> Option<SstFileWriter> {
    match SstFileWriter::new(alloc).ok()?.finish(alloc) {
        Err((writer, FinishFault::NoEntry)) => Some(writer),
        Err((_writer, FinishFault::OutOfMemory)) => None,
        Ok(_bytes) => None,
    }
}

fn finished(alloc: Global, writer: SstFileWriter) -> Option<Bytes> {
    match writer.finish(alloc) {
        Ok(bytes) => Some(bytes),
        Err((_writer, _fault)) => None,
    }
}

// The table of the plan, or none where an answer is another.
fn made(alloc: Global, plan: Plan<'_>) -> Option<Bytes> {
    let mut writer = refused(alloc)?;
    if is_carried_out(alloc, &mut writer, plan) == Ok(true) {
        finished(alloc, writer)
    } else {
        None
    }
}

#[test]
fn one_entry_is_written(rt: HostRuntime) {
    let steps: [Step; 1] = [((b"a", Some(b"1")), Ok(()))];
    let bytes = made(rt.alloc(), Plan::Steps(&steps)).expect(&rt, "a table");
    assert!(rt; bytes.as_slice() == ONE.as_slice());
}

static STEPS: [Step<'static>; 9] = [
    ((b"b", Some(b"1")), Ok(())),
    // An equal key.
    ((b"b", Some(b"2")), Err(WriterFault::NotRising)),
    ((b"b", None), Err(WriterFault::NotRising)),
    // A less one, which doesn't become the last.
    ((b"a", Some(b"2")), Err(WriterFault::NotRising)),
    ((b"aa", Some(b"2")), Err(WriterFault::NotRising)),
    ((b"c", None), Ok(())),
    ((b"", Some(b"2")), Err(WriterFault::NotRising)),
    ((b"c", Some(b"2")), Err(WriterFault::NotRising)),
    ((b"c\x00", Some(b"")), Ok(())),
];

// What those steps leave.
static ROWS: [Row<'static>; 3] = [(b"b", Some(b"1")), (b"c", None), (b"c\x00", Some(b""))];

#[test]
fn a_refused_writer_goes_on(rt: HostRuntime) {
    let bytes = made(rt.alloc(), Plan::Steps(&STEPS)).expect(&rt, "a table");
    let is_right = has_rows(rt.alloc(), bytes.as_slice(), &ROWS).expect(&rt, "memory");
    assert!(rt; is_right);
}

#[test]
fn the_least_and_the_longest_key_are_written(rt: HostRuntime) {
    let longest = vec![in rt.alloc(); b'k'; 65_535].expect(&rt, "memory");
    let rows: [Row; 2] = [(b"", Some(b"\x00")), (&longest, Some(b""))];
    let steps: [Step; 2] = [(rows[0], Ok(())), (rows[1], Ok(()))];
    let bytes = made(rt.alloc(), Plan::Steps(&steps)).expect(&rt, "a table");
    let is_right = has_rows(rt.alloc(), bytes.as_slice(), &rows).expect(&rt, "memory");
    assert!(rt; is_right);
}

#[test]
fn a_table_may_be_full(rt: HostRuntime) {
    let value = vec![in rt.alloc(); b'v'; 1_048_576].expect(&rt, "memory");
    let bytes = made(rt.alloc(), Plan::Full(&value)).expect(&rt, "a table");
    assert!(rt; bytes.len() == 67_108_864);
}
