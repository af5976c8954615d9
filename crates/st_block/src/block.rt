ghost use Rattle.std.specs.Prelude.{◌≡◌, [], ◌+◌, ◌-◌, ◌<◌, ◌≤◌, ◌↔◌, ℕ, List, length, slice_range, Err, IfErr, IfNone, IfOk, IfSome, IsTrue};

use crate::kind::BlockKind;
use crate::open::{Layout, layout_of};
use crate::walk::{lower_in, read_in};
use st_base::{BlockFault, Bytes, Scratch, Steps};
use std::marker::{Brand, Model};
use std::sync::Arc;
use std::sync::ledger::{Blank, Ledger};

/// An entry of a block, where it lies. Its key stands in the scratch that it was read with.
#[derive(Drop)]
pub struct BlockEntry<'a> {
    /// Its value.
    pub value: &'a [u8],
    /// The offset after it.
    pub next: usize,
}

/// A block that was tested whole when it was opened, and is read where it lies in shared bytes. Contracts see its kind, its
/// entries, each with its offset, and the offset where they end. An offset is in bytes from the block's beginning.
#[derive(Drop)]
pub struct Block {
    bytes: Arc<Bytes>,
    from: usize,
    size: usize,
    kind: BlockKind,
    layout: Layout,
}

impl Model for Block {
    ghost use Rattle.std.specs.Prelude.{◌+◌, slice_range};
    ghost use Rattle.st_block.specs.BlockContents.{BlockContents, Keeps, block_contents_in};

    ghost Value = { BlockContents };

    ghost view = { λ block. block_contents_in block.kind (slice_range block.bytes.value block.from (block.from + block.size)) block.layout };

    ghost invariant = { λ block. Keeps block.bytes.value block.from block.size block.kind block.layout };
}

impl Block {
    ghost use Rattle.st_block.specs.Block.{Cell, block_of};
    ghost use Rattle.st_block.specs.BlockContents.{Advances, Opens, IsReadableAt, TakesCell, cells_at, internal_keys_rise, lower_offset};
    ghost use Rattle.st_block.specs.Search.{IsShort};

    /// The block of this kind in the `size` bytes from the offset `from` on, or its first fault: first of the restarts
    /// at its end, then of the entries in order, then of a restart that is no entry that shares nothing. It takes no
    /// memory, and its work is linear in the size.
    pub fn open(
        bytes: Arc<Bytes>,
        from: usize,
        size: usize,
        kind: BlockKind,
        scratch: &mut Scratch,
    ) -> Result<Block, BlockFault>
        requires { from + size ≤ length bytes.value }
        ensures ok { IfOk result (Opens kind (slice_range bytes.value from (from + size))) }
        ensures err { IfErr result (λ fault. block_of kind (slice_range bytes.value from (from + size)) ≡ Err fault) }
    {
        let layout = layout_of(&bytes.as_slice()[from..from + size], kind, scratch)?;
        Ok(Block {
            bytes,
            from,
            size,
            kind,
            layout,
        })
    }

    /// How many entries it has.
    pub fn len(&self) -> usize
        ensures { result ≡ length self.now.cells }
    {
        self.layout.entries
    }

    /// Whether it has no entries.
    pub fn is_empty(&self) -> bool
        ensures { IsTrue result ↔ (self.now.cells ≡ []) }
    {
        self.layout.entries == 0
    }

    /// Its kind.
    pub fn kind(&self) -> BlockKind
        ensures { result ≡ self.now.kind }
    {
        self.kind
    }

    /// The offset of the first entry, at which a reader stands with any key in its scratch.
    pub fn start(&self) -> usize
        ensures value { cells_at result self.now.cells ≡ self.now.cells }
        ensures stands { (key : List ℕ) → IsReadableAt self.now result key }
    {
        let _layout = self.layout;
        0
    }

    /// The entry at the offset; its key is put into the scratch, and a reader then stands at the offset after it. None
    /// exactly at the end. It reads that one entry.
    pub fn read<'a>(&'a self, at: usize, scratch: &mut Scratch) -> Option<BlockEntry<'a>>
        requires { IsReadableAt self.now at scratch.old }
        ensures found { IfSome result
            (λ entry. ((cell : Cell) × TakesCell self.now at scratch.new entry.value.now entry.next cell)) }
        ensures advances { IfSome result (λ entry. Advances self.now at entry.value.now entry.next) }
        ensures none { IfNone result ((cells_at at self.now.cells ≡ []) × (scratch.new ≡ scratch.old)) }
    {
        let text = &self.bytes.as_slice()[self.from..self.from + self.size];
        let read = read_in(text, self.kind, self.layout, at, scratch)?;
        let area = &text[..self.layout.end];
        Some(BlockEntry {
            value: &area[read.value..read.next],
            next: read.next,
        })
    }

    /// The offset of the first entry that doesn't come before the key and the sequence number, or where all end; a
    /// reader then stands there. The keys are to rise as internal keys. `lower_counted` says how few entries it reads.
    pub fn lower(&self, key: &[u8], number: u64, scratch: &mut Scratch) -> usize
        requires { IsTrue (internal_keys_rise self.now.cells) }
        ensures value { result ≡ lower_offset self.now key.now number }
        ensures stands { IsReadableAt self.now result scratch.new }
    {
        self.lower_from::<Brand>(key, number, scratch, Blank::new(1))
    }

    /// As `lower`, and counts its work. Each entry that is read is a step: those by which the restarts are halved, and
    /// those from one restart on, at most to the next.
    pub fn lower_counted<L: Ledger>(
        &self,
        key: &[u8],
        number: u64,
        scratch: &mut Scratch,
        steps: &mut Steps<L>,
    ) -> usize
        requires { IsTrue (internal_keys_rise self.now.cells) }
        ensures value { result ≡ lower_offset self.now key.now number }
        ensures stands { IsReadableAt self.now result scratch.new }
        ensures counted { steps.old ≤ steps.new }
        ensures short { IsShort self.now (steps.new - steps.old) }
    {
        let text = &self.bytes.as_slice()[self.from..self.from + self.size];
        lower_in(text, self.kind, self.layout, key, number, scratch, steps)
    }

    // As `lower`, with a counter of its own.
    fn lower_from<L: Ledger>(
        &self,
        key: &[u8],
        number: u64,
        scratch: &mut Scratch,
        blank: Blank,
    ) -> usize
        requires name { blank.name ≡ L.name }
        requires parts { blank.parts ≡ L.parts }
        requires some { 0 < blank.parts }
        requires rise { IsTrue (internal_keys_rise self.now.cells) }
        ensures value { result ≡ lower_offset self.now key.now number }
        ensures stands { IsReadableAt self.now result scratch.new }
    {
        let mut steps = Steps::<L>::start(blank);
        self.lower_counted(key, number, scratch, &mut steps)
    }
}
