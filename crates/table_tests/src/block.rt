ghost use Rattle.std.specs.Prelude.{IsTrue};
ghost use Rattle.st_block.specs.BlockContents.{internal_keys_rise};

use crate::samples::shared;
use st_base::{BlockFault, Scratch};
use st_block::{Block, BlockEntry, BlockKind, BlockWriter, index_keys_rise, internal_cmp, packed};
use std::alloc::{AllocError, Global};

type Case = (&'static [u8], BlockKind, Option<BlockFault>);

static CASES: [Case; 13] = [
    // The key `a` with number 0 and kind 1, and the value `1`.
    (
        b"\x00\x09\x01a\x01\x00\x00\x00\x00\x00\x00\x001\x00\x00\x00\x00\x01\x00\x00\x00",
        BlockKind::Data,
        None,
    ),
    (
        b"\x00\x00\x00\x00",
        BlockKind::Data,
        Some(BlockFault::Restarts),
    ),
    // No entry, with one restart.
    (b"\x00\x00\x00\x00\x01\x00\x00\x00", BlockKind::Plain, None),
    (
        b"\x00\x00\x00\x00\x01\x00\x00\x00",
        BlockKind::Data,
        Some(BlockFault::Entry(0)),
    ),
    // The first entry shares a byte, and then a second one two bytes of a key of one.
    (
        b"\x01\x00\x00\x00\x00\x00\x00\x01\x00\x00\x00",
        BlockKind::Plain,
        Some(BlockFault::Entry(0)),
    ),
    (
        b"\x00\x01\x00a\x02\x01\x00b\x00\x00\x00\x00\x01\x00\x00\x00",
        BlockKind::Plain,
        Some(BlockFault::Entry(4)),
    ),
    // `a` and `ab`, and then `ab` and `aa`.
    (
        b"\x00\x01\x00a\x01\x01\x00b\x00\x00\x00\x00\x01\x00\x00\x00",
        BlockKind::Plain,
        None,
    ),
    (
        b"\x00\x02\x00ab\x01\x01\x00a\x00\x00\x00\x00\x01\x00\x00\x00",
        BlockKind::Plain,
        Some(BlockFault::Order(5)),
    ),
    // A key that is too short, and then a second restart that shares a byte.
    (
        b"\x00\x01\x00a\x00\x00\x00\x00\x01\x00\x00\x00",
        BlockKind::Index,
        Some(BlockFault::Entry(0)),
    ),
    (
        b"\x00\x01\x00a\x01\x01\x00b\x00\x00\x00\x00\x04\x00\x00\x00\x02\x00\x00\x00",
        BlockKind::Plain,
        Some(BlockFault::Restarts),
    ),
    // `a` and `b` with a restart each, and then with the first restart twice.
    (
        b"\x00\x01\x00a\x00\x01\x00b\x00\x00\x00\x00\x04\x00\x00\x00\x02\x00\x00\x00",
        BlockKind::Plain,
        None,
    ),
    (
        b"\x00\x01\x00a\x00\x01\x00b\x00\x00\x00\x00\x00\x00\x00\x00\x02\x00\x00\x00",
        BlockKind::Plain,
        Some(BlockFault::Restarts),
    ),
    // `a` twice.
    (
        b"\x00\x01\x00a\x00\x01\x00a\x00\x00\x00\x00\x01\x00\x00\x00",
        BlockKind::Plain,
        Some(BlockFault::Order(4)),
    ),
];

// The fault of the block of a case.
fn fault_of(
    alloc: Global,
    case: &Case,
    scratch: &mut Scratch,
) -> Result<Option<BlockFault>, AllocError> {
    let bytes = shared(alloc, case.0)?;
    Ok(Block::open(bytes, 0, case.0.len(), case.1, scratch).err())
}

#[test]
fn faults_are_found(rt: HostRuntime) {
    let mut scratch = Scratch::new(rt.alloc()).expect(&rt, "memory");
    for (place, case) in CASES.iter().enumerate() {
        let fault = fault_of(rt.alloc(), case, &mut scratch).expect(&rt, "memory");
        assert!(rt; fault == case.2, "case {place}");
    }
}

// Internal keys in their order, each with its packed number and its value.
static ENTRIES: [(&[u8], u64, &[u8]); 3] = [
    (b"a\x01\x05\x00\x00\x00\x00\x00\x00", 0x501, b"1"),
    (b"ab\x01\x07\x00\x00\x00\x00\x00\x00", 0x701, b""),
    (b"ab\x01\x03\x00\x00\x00\x00\x00\x00", 0x301, b"333"),
];

// The block of them, with a restart at every second one.
static THREE: [u8; 53] =
    *b"\x00\x09\x01a\x01\x05\x00\x00\x00\x00\x00\x001\x01\x09\x00b\x01\x07\x00\x00\x00\x00\x00\x00\x00\x0a\x03ab\x01\x03\x00\x00\x00\x00\x00\x00333\x00\x00\x00\x00\x19\x00\x00\x00\x02\x00\x00\x00";

#[test]
fn internal_keys_are_ordered(rt: HostRuntime) {
    let mut before: &[u8] = b"";
    for (key, number, _value) in ENTRIES.iter() {
        assert!(rt; packed(key) == *number, "another number than {number}");
        assert!(rt; internal_cmp(before, key).is_lt(), "before {number}");
        before = key;
    }
}

// Appends an entry, if there is room.
fn put(writer: &mut BlockWriter, key: &[u8], value: &[u8]) -> Result<bool, AllocError> {
    if !writer.has_room(key, value) {
        return Ok(false);
    }
    writer.add(key, value)?;
    Ok(true)
}

// Appends the three entries.
fn put_three(writer: &mut BlockWriter) -> Result<bool, AllocError> {
    for (key, _number, value) in ENTRIES.iter() {
        if !put(writer, key, value)? {
            return Ok(false);
        }
    }
    Ok(true)
}

// Whether the writer tells what it has of the three entries.
fn has_three(writer: &BlockWriter) -> bool {
    writer.len() == 3
        && !writer.is_empty()
        && writer.size() == 41
        && writer.finished_size() == THREE.len()
        && writer.last_key() == ENTRIES[2].0
}

#[test]
fn entries_are_written(rt: HostRuntime) {
    let mut writer = BlockWriter::new(rt.alloc(), 2).expect(&rt, "memory");
    assert!(rt; writer.is_empty());
    let is_put = put_three(&mut writer).expect(&rt, "memory");
    assert!(rt; is_put && has_three(&writer));
    let text = writer.finish(rt.alloc()).expect(&rt, "memory");
    assert!(rt; text.as_slice() == THREE.as_slice());
}

// Whether the entry has the value, and the offset of the next one.
fn is_entry(entry: BlockEntry<'_>, value: &[u8], next: usize) -> bool {
    entry.value == value && entry.next == next
}

// Whether the first entry is read; its key is put into the scratch.
fn reads_first(block: &Block, scratch: &mut Scratch) -> bool {
    let start = block.start();
    match block.read(start, scratch) {
        Some(entry) => is_entry(entry, b"1", 13),
        None => false,
    }
}

// Whether the block tells what it is.
fn is_three(block: &Block) -> bool {
    block.len() == 3 && !block.is_empty() && matches!(block.kind(), BlockKind::Data)
}

#[test]
fn what_is_written_is_read(rt: HostRuntime) {
    let mut scratch = Scratch::new(rt.alloc()).expect(&rt, "memory");
    let bytes = shared(rt.alloc(), &THREE).expect(&rt, "memory");
    match Block::open(bytes, 0, THREE.len(), BlockKind::Data, &mut scratch) {
        Ok(block) => assert!(rt; is_three(&block) && reads_first(&block, &mut scratch)),
        Err(_fault) => assert!(rt; false, "no block"),
    }
    assert!(rt; scratch.as_slice() == ENTRIES[0].0);
}

// Keys and numbers, and the offsets in the block of three entries at which they are found.
static LOOKED_FOR: [(&[u8], u64, usize); 9] = [
    (b"", 9, 0),
    (b"a", 5, 0),
    (b"a", 4, 13),
    (b"aa", 4, 13),
    (b"ab", 7, 13),
    (b"ab", 6, 25),
    (b"ab", 3, 25),
    (b"ab", 2, 41),
    (b"b", 9, 41),
];

// Whether each of them is found at its offset.
fn are_found(block: &Block, scratch: &mut Scratch) -> bool
    requires { IsTrue (internal_keys_rise block.now.cells) }
{
    for case in LOOKED_FOR.iter() {
        if block.lower(case.0, case.1, scratch) != case.2 {
            return false;
        }
    }
    true
}

#[test]
fn lower_finds_the_first_at_or_after(rt: HostRuntime) {
    let mut scratch = Scratch::new(rt.alloc()).expect(&rt, "memory");
    let bytes = shared(rt.alloc(), &THREE).expect(&rt, "memory");
    index_keys_rise();
    match Block::open(bytes, 0, THREE.len(), BlockKind::Index, &mut scratch) {
        Ok(block) => assert!(rt; are_found(&block, &mut scratch), "a place differs"),
        Err(_fault) => assert!(rt; false, "no block"),
    }
}
