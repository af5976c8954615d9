ghost use Rattle.std.specs.Prelude.{◌≡◌, ◌≢◌, ◌+◌, ◌*◌, ◌≤◌, length, take, IfErr, IfOk, OnOk, IsTrue, List, Ok, Err};
ghost use Rattle.st_block.specs.Block.{Cell, block_of, entries_of, is_long_enough, next_cell, tail_of, restarts_fit};
ghost use Rattle.st_block.specs.Entry.{IsLayout, IsRead, IsUnfit, MayStand, IsTested, cell_of, pass, restarts_left};

use crate::entry::{ReadCell, head_behind};
use crate::keys::{is_after, is_long};
use crate::kind::BlockKind;
use crate::tail::{Tail, tail_of};
use st_base::{BlockFault, Scratch};
use st_code::fixed32_in;

/// What testing the entries has counted.
#[derive(Clone, Copy)]
pub(crate) struct CellCounts {
    pub(crate) entries: usize,
    /// How many restarts, from the first on, were entries that share nothing.
    pub(crate) met: usize,
}

/// How a block lies in its bytes.
#[derive(Clone, Copy)]
pub(crate) struct Layout {
    pub(crate) end: usize,
    pub(crate) restarts: usize,
    pub(crate) entries: usize,
}

// The entry at the offset, after the key in the scratch, tested by its kind of block; its key is put into the scratch.
fn next_cell(
    area: &[u8],
    kind: BlockKind,
    at: usize,
    scratch: &mut Scratch,
) -> Result<ReadCell, BlockFault>
    requires { at ≢ 0 → IsTrue (is_long_enough kind scratch.old) }
    ensures ok { IfOk result
        (λ read. (next_cell kind area.now scratch.old at ≡ Ok (cell_of area.now at scratch.new read, read.next))
        × IsRead (length area.now) at read × IsTrue (is_long_enough kind scratch.new)) }
    ensures err { IfErr result (λ fault. next_cell kind area.now scratch.old at ≡ Err fault) }
{
    let Some(head) = head_behind(area, scratch.as_slice(), at) else {
        return Err(BlockFault::Entry(at as u64));
    };
    if !is_long(kind, head.shared + head.unshared) {
        return Err(BlockFault::Entry(at as u64));
    }
    let value = head.behind + head.unshared;
    let others = &area[head.behind..value];
    if at != 0 && !is_after(kind, scratch.as_slice(), head.shared, others) {
        return Err(BlockFault::Order(at as u64));
    }
    scratch.keep_and_add(head.shared, others);
    Ok(ReadCell {
        shared: head.shared,
        value,
        next: value + head.value,
    })
}

// How many restarts were met once the entry at the offset, which shares so many bytes, has gone by.
fn met_by(text: &[u8], tail: Tail, met: usize, at: usize, shared: usize) -> usize
    requires room { tail.end + 4 * tail.count ≤ length text.now }
    requires met { met ≤ tail.count }
    ensures left { (cell : Cell) → cell.at ≡ at → cell.shared ≡ shared
        → pass (restarts_left text.now tail met) cell ≡ restarts_left text.now tail result }
    ensures within { result ≤ tail.count }
{
    if met == tail.count {
        return met;
    }
    let is_met = fixed32_in(text, tail.end + 4 * met) as usize == at && shared == 0;
    if is_met { met + 1 } else { met }
}

// The entries before the tail, tested one after the other.
fn test_entries(
    text: &[u8],
    tail: Tail,
    kind: BlockKind,
    scratch: &mut Scratch,
) -> Result<CellCounts, BlockFault>
    requires { tail.end + 4 * tail.count ≤ length text.now }
    ensures ok { IfOk result
        (λ found. ((cells : List Cell) × IsTested kind text.now (take tail.end text.now) tail found cells)) }
    ensures err { IfErr result (λ fault. entries_of kind (take tail.end text.now) ≡ Err fault) }
{
    let area = &text[..tail.end];
    scratch.keep_and_add(0, &[]);
    let mut at = 0;
    let mut entries = 0;
    let mut met = 0;
    while at < area.len() {
        let read = next_cell(area, kind, at, scratch)?;
        met = met_by(text, tail, met, at, read.shared);
        entries += 1;
        at = read.next;
    }
    Ok(CellCounts { entries, met })
}

// Whether the restarts fit the entries: a data block has an entry, a block without entries has one restart, and every
// restart is an entry that shares nothing.
fn restarts_fit(kind: BlockKind, tail: Tail, found: CellCounts) -> Result<(), BlockFault>
    ensures ok { OnOk result (MayStand kind tail.count found) }
    ensures err { IfErr result (λ fault. IsUnfit kind tail.count found fault) }
{
    if found.entries == 0 {
        return match kind {
            BlockKind::Data => Err(BlockFault::Entry(0)),
            BlockKind::Index | BlockKind::Plain if tail.count == 1 => Ok(()),
            BlockKind::Index | BlockKind::Plain => Err(BlockFault::Restarts),
        };
    }
    if found.met == tail.count {
        Ok(())
    } else {
        Err(BlockFault::Restarts)
    }
}

/// How the block lies in its bytes, or its first fault.
pub(crate) fn layout_of(
    text: &[u8],
    kind: BlockKind,
    scratch: &mut Scratch,
) -> Result<Layout, BlockFault>
    ensures ok { IfOk result (λ layout. ((cells : List Cell) × IsLayout kind text.now layout cells)) }
    ensures err { IfErr result (λ fault. block_of kind text.now ≡ Err fault) }
{
    let Some(tail) = tail_of(text) else {
        return Err(BlockFault::Restarts);
    };
    let found = test_entries(text, tail, kind, scratch)?;
    restarts_fit(kind, tail, found)?;
    Ok(Layout {
        end: tail.end,
        restarts: tail.count,
        entries: found.entries,
    })
}
