ghost use Rattle.std.specs.Prelude.{IsTrue};
ghost use Rattle.st_block.specs.BlockContents.{internal_keys_rise};

use st_base::{Bytes, Scratch};
use st_block::{Block, BlockKind, BlockWriter, index_keys_rise};
use std::alloc::{AllocError, Global};
use std::sync::Arc;

// An internal key of 20 bytes.
fn key_of(place: u64) -> [u8; 20] {
    let mut key = *b"key-00000000\x01\x00\x00\x00\x00\x00\x00\x00";
    let mut rest = place;
    for digit in (4..12).rev() {
        key[digit] = (rest % 10) as u8 + b'0';
        rest /= 10;
    }
    key
}

// A block of 100 entries with values of 40 bytes.
fn written(alloc: Global) -> Result<Bytes, AllocError> {
    let mut writer = BlockWriter::new(alloc, 16)?;
    let value = [b'v'; 40];
    for place in 0..100 {
        let key = key_of(place * 7);
        if writer.has_room(&key, &value) {
            writer.add(&key, &value)?;
        }
    }
    writer.finish(alloc)
}

// The offsets of so many keys, added up.
fn looked_for(block: &Block, times: u64, scratch: &mut Scratch) -> u64
    requires { IsTrue (internal_keys_rise block.now.cells) }
{
    let mut places = 0u64;
    for time in 0..times {
        let key = key_of(time % 700);
        let place = block.lower(&key[..12], 0, scratch);
        places = places.wrapping_add(place as u64);
    }
    places
}

// How many entries were tested in so many openings, and the offsets of so many keys that were looked for, added up.
pub(crate) fn measure(alloc: Global, opens: u64, lowers: u64) -> Result<(u64, u64), AllocError> {
    let text = written(alloc)?;
    let size = text.len();
    let bytes = Arc::new(alloc, text)?;
    let mut scratch = Scratch::new(alloc)?;
    let mut entries = 0u64;
    for _ in 0..opens {
        if let Ok(block) = Block::open(bytes.clone()?, 0, size, BlockKind::Index, &mut scratch) {
            entries = entries.wrapping_add(block.len() as u64);
        }
    }
    let mut places = 0u64;
    if let Ok(block) = Block::open(bytes, 0, size, BlockKind::Index, &mut scratch) {
        index_keys_rise();
        places = looked_for(&block, lowers, &mut scratch);
    }
    Ok((entries, places))
}
