// Prints the fault of a table: its name and its fields in order, parted by one space.
ghost use Rattle.std.specs.Prelude.{◌≡◌, ◌∷◌, [], ◌++◌, OnOk, OnErr, codes};
ghost use Rattle.std.specs.Fmt.{decimal};
ghost use Rattle.st_base.specs.Faults.{named, printed_block_fault, printed_table_fault};
ghost use Rattle.build_text.specs.Words.{Extends};
ghost use Rattle.cmd_text.specs.Replies.{spaced};

use crate::print::push_next_number;
use st_base::{BlockFault, Bytes, TableFault};
use std::alloc::AllocError;

// Appends the name, and the number after a space.
#[tactic(auto, using(crate::proofs::Printing::named_more))]
fn push_named(out: &mut Bytes, name: &[u8], number: u64) -> Result<(), AllocError>
    ensures ok { OnOk result (out.new ≡ out.old ++ named name.now number) }
    ensures err { OnErr result (Extends out.old out.new) }
{
    out.extend_from_slice(name)?;
    push_next_number(out, number)
}

// Appends the name, and two numbers, each after a space.
#[tactic(auto, using(crate::proofs::Printing::named_more))]
fn push_twice_named(out: &mut Bytes, name: &[u8], first: u64, second: u64) -> Result<(), AllocError>
    ensures ok { OnOk result (out.new ≡ out.old ++ named (named name.now first) second) }
    ensures err { OnErr result (Extends out.old out.new) }
{
    push_named(out, name, first)?;
    push_next_number(out, second)
}

#[tactic(auto, using(crate::proofs::Printing::named_more))]
fn push_sum(out: &mut Bytes, at: u64, stored: u32, found: u32) -> Result<(), AllocError>
    ensures ok { OnOk result (out.new ≡ out.old ++ named (named (named (codes "Sum") at) stored) found) }
    ensures err { OnErr result (Extends out.old out.new) }
{
    push_twice_named(out, b"Sum", at, u64::from(stored))?;
    push_next_number(out, u64::from(found))
}

fn push_block_fault(out: &mut Bytes, fault: &BlockFault) -> Result<(), AllocError>
    ensures ok { OnOk result (out.new ≡ out.old ++ printed_block_fault fault.now) }
    ensures err { OnErr result (Extends out.old out.new) }
{
    match fault {
        BlockFault::Restarts => out.extend_from_slice(b"Restarts"),
        BlockFault::Entry(at) => push_named(out, b"Entry", *at),
        BlockFault::Order(at) => push_named(out, b"Order", *at),
    }
}

#[tactic(auto, using(crate::proofs::Printing::block_after))]
fn push_inner_fault(out: &mut Bytes, at: u64, fault: &BlockFault) -> Result<(), AllocError>
    ensures ok { OnOk result (out.new ≡ out.old ++ (named (codes "Block") at ++ 32 ∷ printed_block_fault fault.now)) }
    ensures err { OnErr result (Extends out.old out.new) }
{
    push_named(out, b"Block", at)?;
    out.push(b' ')?;
    push_block_fault(out, fault)
}

fn push_external_version(out: &mut Bytes, version: Option<u32>) -> Result<(), AllocError>
    ensures ok { OnOk result (out.new ≡ out.old ++ printed_table_fault (TableFault.ExternalVersion version)) }
    ensures err { OnErr result (Extends out.old out.new) }
{
    match version {
        None => out.extend_from_slice(b"ExternalVersion -"),
        Some(version) => push_named(out, b"ExternalVersion", u64::from(version)),
    }
}

fn push_table_fault(out: &mut Bytes, fault: &TableFault) -> Result<(), AllocError>
    ensures ok { OnOk result (out.new ≡ out.old ++ printed_table_fault fault.now) }
    ensures err { OnErr result (Extends out.old out.new) }
{
    match fault {
        TableFault::TooLarge => out.extend_from_slice(b"TooLarge"),
        TableFault::Short => out.extend_from_slice(b"Short"),
        TableFault::Magic => out.extend_from_slice(b"Magic"),
        TableFault::Version(version) => push_named(out, b"Version", u64::from(*version)),
        TableFault::Checksum(kind) => push_named(out, b"Checksum", u64::from(*kind)),
        TableFault::Handle(at) => push_named(out, b"Handle", *at),
        TableFault::Compressed(at) => push_named(out, b"Compressed", *at),
        TableFault::Sum { at, stored, found } => push_sum(out, *at, *stored, *found),
        TableFault::Block(at, fault) => push_inner_fault(out, *at, fault),
        TableFault::RangeDel => out.extend_from_slice(b"RangeDel"),
        TableFault::NoProperties => out.extend_from_slice(b"NoProperties"),
        TableFault::ExternalVersion(version) => push_external_version(out, *version),
        TableFault::Comparator => out.extend_from_slice(b"Comparator"),
        TableFault::IndexKind => out.extend_from_slice(b"IndexKind"),
        TableFault::Kind(entry, kind) => push_twice_named(out, b"Kind", *entry, u64::from(*kind)),
        TableFault::Number(entry, number) => push_twice_named(out, b"Number", *entry, *number),
        TableFault::Order(entry) => push_named(out, b"Order", *entry),
        TableFault::Index(block) => push_named(out, b"Index", *block),
    }
}

// Appends the printed fault, after a space.
#[tactic(auto, using(crate::proofs::Printing::one_spaced))]
pub(crate) fn push_next_fault(out: &mut Bytes, fault: &TableFault) -> Result<(), AllocError>
    ensures ok { OnOk result (out.new ≡ out.old ++ spaced (printed_table_fault fault.now ∷ [])) }
    ensures err { OnErr result (Extends out.old out.new) }
{
    out.push(b' ')?;
    push_table_fault(out, fault)
}
