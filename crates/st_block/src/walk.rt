ghost use Rattle.std.specs.Prelude.{◌≡◌, ℕ, [], ◌<◌, ◌+◌, ◌-◌, ◌*◌, ◌^◌, ◌≤◌, IfNone, IfSome, IsTrue, List, Some, length, take, slice_range};
ghost use Rattle.st_block.specs.Block.{Cell, cell_at};
ghost use Rattle.st_block.specs.Entry.{IsLayout, IsRead};
ghost use Rattle.st_block.specs.BlockContents.{IsReadableAt, TakesCell, cells_at, cells_in, block_contents_in, internal_keys_rise, lower_offset};
ghost use Rattle.st_block.specs.Search.{IsLast, IsShort, IsStart};

use crate::entry::{ReadCell, head_at, read_at};
use crate::internal_key::is_key_before;
use crate::kind::BlockKind;
use crate::open::Layout;
use st_base::{Scratch, Steps};
use st_code::fixed32_in;
use std::sync::ledger::Ledger;

/// The entry at the offset, or none at the end. Its key is put into the scratch.
pub(crate) fn read_in(
    text: &[u8],
    kind: BlockKind,
    layout: Layout,
    at: usize,
    scratch: &mut Scratch,
) -> Option<ReadCell>
    requires lies { IsLayout kind text.now layout (cells_in kind (take layout.end text.now)) }
    requires stands { IsReadableAt (block_contents_in kind text.now layout) at scratch.old }
    ensures found { IfSome result
        (λ read. ((cell : Cell)
        × TakesCell (block_contents_in kind text.now layout) at scratch.new
        (slice_range (take layout.end text.now) read.value read.next) read.next cell)
        × IsRead (length (take layout.end text.now)) at read) }
    ensures none { IfNone result
        ((cells_at at (cells_in kind (take layout.end text.now)) ≡ []) × (scratch.new ≡ scratch.old)) }
{
    if at == layout.end {
        return None;
    }
    read_at(&text[..layout.end], at, scratch)
}

// The key of the entry at the offset, where it shares nothing.
fn restart_key(area: &[u8], at: usize) -> &[u8]
    ensures { (before : List ℕ) (cell : Cell) (next : ℕ) → cell_at area.now before at ≡ Some (cell, next)
        → cell.shared ≡ 0 → result.now ≡ cell.key }
{
    let Some(head) = head_at(area, at) else {
        return &area[..0];
    };
    let end = head.behind + head.unshared;
    if end > area.len() {
        return &area[..0];
    }
    &area[head.behind..end]
}

// The last restart whose entry comes before the key and the number, or the first restart. Each entry that
// is read is a step.
fn start_of<L: Ledger>(
    text: &[u8],
    kind: BlockKind,
    layout: Layout,
    key: &[u8],
    number: u64,
    steps: &mut Steps<L>,
) -> usize
    requires lies { IsLayout kind text.now layout (cells_in kind (take layout.end text.now)) }
    requires some { 0 < layout.entries }
    ensures start { IsStart kind text.now layout key.now number result }
    ensures last { IsLast kind text.now layout key.now number result }
    ensures counted { steps.old ≤ steps.new }
    ensures halved { 2 ^ (steps.new - steps.old) ≤ 2 * layout.restarts + 1 }
{
    let area = &text[..layout.end];
    let mut low = 0;
    let mut high = layout.restarts;
    while low + 1 < high {
        let middle = low + (high - low) / 2;
        let at = fixed32_in(text, layout.end + 4 * middle) as usize;
        steps.tick();
        if is_key_before(restart_key(area, at), key, number) {
            low = middle;
        } else {
            high = middle;
        }
    }
    fixed32_in(text, layout.end + 4 * low) as usize
}

/// The offset of the first entry that doesn't come before the key and the number, or the end. Its key is put into the
/// scratch. Each entry that is read is a step.
pub(crate) fn lower_in<L: Ledger>(
    text: &[u8],
    kind: BlockKind,
    layout: Layout,
    key: &[u8],
    number: u64,
    scratch: &mut Scratch,
    steps: &mut Steps<L>,
) -> usize
    requires lies { IsLayout kind text.now layout (cells_in kind (take layout.end text.now)) }
    requires order { IsTrue (internal_keys_rise (cells_in kind (take layout.end text.now))) }
    ensures value { result ≡ lower_offset (block_contents_in kind text.now layout) key.now number }
    ensures stands { IsReadableAt (block_contents_in kind text.now layout) result scratch.new }
    ensures counted { steps.old ≤ steps.new }
    ensures short { IsShort (block_contents_in kind text.now layout) (steps.new - steps.old) }
{
    if layout.entries == 0 {
        return layout.end;
    }
    let mut at = start_of(text, kind, layout, key, number, steps);
    while let Some(read) = read_in(text, kind, layout, at, scratch) {
        steps.tick();
        if !is_key_before(scratch.as_slice(), key, number) {
            break;
        }
        at = read.next;
    }
    at
}
