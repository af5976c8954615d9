ghost use Rattle.std.specs.Prelude.{◌≡◌, IsTrue, ◌↔◌};
ghost use Rattle.st_base.specs.declared.faults.TableFault.TheVariants as fault;
ghost use Rattle.st_base.specs.declared.faults.BlockFault.TheVariants as block;
ghost use Rattle.st_model.specs.declared.refusal.Why.TheVariants as why;

use st_base::{BlockFault, Key, KeyRange, TableFault};
use st_model::Why;

fn is_key(cause: &Why, key: &Key) -> bool
    ensures { IsTrue result ↔ (cause.now ≡ why.Key key.now) }
{
    match cause {
        Why::Key(other) => other == key,
        _ => false,
    }
}

fn is_running(cause: &Why, range: &KeyRange) -> bool
    ensures { IsTrue result ↔ (cause.now ≡ why.Running range.now) }
{
    match cause {
        Why::Running(other) => other == range,
        _ => false,
    }
}

fn is_snapshot(cause: &Why, number: u64) -> bool
    ensures { IsTrue result ↔ (cause.now ≡ why.Snapshot number) }
{
    match cause {
        Why::Snapshot(other) => *other == number,
        _ => false,
    }
}

fn is_files(cause: &Why, first: u32, second: u32) -> bool
    ensures { IsTrue result ↔ (cause.now ≡ why.Files first second) }
{
    match cause {
        Why::Files(other_first, other_second) => *other_first == first && *other_second == second,
        _ => false,
    }
}

fn is_meets(cause: &Why, range: &KeyRange) -> bool
    ensures { IsTrue result ↔ (cause.now ≡ why.Meets range.now) }
{
    match cause {
        Why::Meets(other) => other == range,
        _ => false,
    }
}

/// Whether the causes are the same.
pub fn same_why(one: &Why, other: &Why) -> bool
    ensures { IsTrue result ↔ (one.now ≡ other.now) }
{
    match one {
        Why::Key(key) => is_key(other, key),
        Why::Running(range) => is_running(other, range),
        Why::Snapshot(number) => is_snapshot(other, *number),
        Why::Files(first, second) => is_files(other, *first, *second),
        Why::Meets(range) => is_meets(other, range),
    }
}

fn same_block(one: &BlockFault, other: &BlockFault) -> bool
    ensures { IsTrue result ↔ (one.now ≡ other.now) }
{
    one == other
}

fn is_version(table: &TableFault, version: u32) -> bool
    ensures { IsTrue result ↔ (table.now ≡ fault.Version version) }
{
    match table {
        TableFault::Version(other) => *other == version,
        _ => false,
    }
}

fn is_checksum(table: &TableFault, kind: u8) -> bool
    ensures { IsTrue result ↔ (table.now ≡ fault.Checksum kind) }
{
    match table {
        TableFault::Checksum(other) => *other == kind,
        _ => false,
    }
}

fn is_handle(table: &TableFault, at: u64) -> bool
    ensures { IsTrue result ↔ (table.now ≡ fault.Handle at) }
{
    match table {
        TableFault::Handle(other) => *other == at,
        _ => false,
    }
}

fn is_compressed(table: &TableFault, at: u64) -> bool
    ensures { IsTrue result ↔ (table.now ≡ fault.Compressed at) }
{
    match table {
        TableFault::Compressed(other) => *other == at,
        _ => false,
    }
}

fn is_block(table: &TableFault, at: u64, block: &BlockFault) -> bool
    ensures { IsTrue result ↔ (table.now ≡ fault.Block at block.now) }
{
    match table {
        TableFault::Block(other_at, other_block) => *other_at == at
            && same_block(other_block, block),
        _ => false,
    }
}

fn is_external_version(table: &TableFault, version: Option<u32>) -> bool
    ensures { IsTrue result ↔ (table.now ≡ fault.ExternalVersion version) }
{
    match table {
        TableFault::ExternalVersion(other) => *other == version,
        _ => false,
    }
}

fn is_kind(table: &TableFault, entry: u64, kind: u8) -> bool
    ensures { IsTrue result ↔ (table.now ≡ fault.Kind entry kind) }
{
    match table {
        TableFault::Kind(other_entry, other_kind) => *other_entry == entry && *other_kind == kind,
        _ => false,
    }
}

fn is_number(table: &TableFault, entry: u64, number: u64) -> bool
    ensures { IsTrue result ↔ (table.now ≡ fault.Number entry number) }
{
    match table {
        TableFault::Number(other_entry, other_number) => *other_entry == entry
            && *other_number == number,
        _ => false,
    }
}

fn is_order(table: &TableFault, entry: u64) -> bool
    ensures { IsTrue result ↔ (table.now ≡ fault.Order entry) }
{
    match table {
        TableFault::Order(other) => *other == entry,
        _ => false,
    }
}

fn is_index(table: &TableFault, block: u64) -> bool
    ensures { IsTrue result ↔ (table.now ≡ fault.Index block) }
{
    match table {
        TableFault::Index(other) => *other == block,
        _ => false,
    }
}

fn is_sum(table: &TableFault, at: u64, stored: u32, found: u32) -> bool
    ensures { IsTrue result ↔ (table.now ≡ fault.Sum at stored found) }
{
    match table {
        TableFault::Sum {
            at: other,
            stored: other_stored,
            found: other_found,
        } => *other == at && *other_stored == stored && *other_found == found,
        _ => false,
    }
}

/// Whether the faults are the same.
pub fn same_fault(one: &TableFault, other: &TableFault) -> bool
    ensures { IsTrue result ↔ (one.now ≡ other.now) }
{
    match one {
        TableFault::Version(version) => is_version(other, *version),
        TableFault::Checksum(kind) => is_checksum(other, *kind),
        TableFault::Handle(at) => is_handle(other, *at),
        TableFault::Compressed(at) => is_compressed(other, *at),
        TableFault::Block(at, block) => is_block(other, *at, block),
        TableFault::ExternalVersion(version) => is_external_version(other, *version),
        TableFault::Kind(entry, kind) => is_kind(other, *entry, *kind),
        TableFault::Number(entry, number) => is_number(other, *entry, *number),
        TableFault::Order(entry) => is_order(other, *entry),
        TableFault::Index(block) => is_index(other, *block),
        TableFault::Sum { at, stored, found } => is_sum(other, *at, *stored, *found),
        TableFault::TooLarge => matches!(other, TableFault::TooLarge),
        TableFault::Short => matches!(other, TableFault::Short),
        TableFault::Magic => matches!(other, TableFault::Magic),
        TableFault::RangeDel => matches!(other, TableFault::RangeDel),
        TableFault::NoProperties => matches!(other, TableFault::NoProperties),
        TableFault::Comparator => matches!(other, TableFault::Comparator),
        TableFault::IndexKind => matches!(other, TableFault::IndexKind),
    }
}
