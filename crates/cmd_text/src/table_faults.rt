// Reads the fault of a table in a reply's line, by its name.
ghost use Rattle.std.specs.Prelude.{◌≡◌};
ghost use Rattle.cmd_text.specs.Commands.{Gives};
ghost use Rattle.cmd_text.specs.Readings.{block_fault_named, block_fault_of, counted_fault, external_version_of, fault_of};
ghost use Rattle.cmd_text.specs.Readings.{inner_fault_of, kind_fault_of, long_fault, number_fault_of, plain_fault};
ghost use Rattle.cmd_text.specs.Readings.{sum_fault_of};

use crate::fault::ParseFault;
use crate::lines::is;
use crate::parts::{next_u8, next_u32, next_u64, u32_of_word};
use build_text::Words;
use st_base::{BlockFault, TableFault};

// The fault of that name, where it has no number.
#[tactic(auto, unfolding(crate::specs::Readings::plain_fault))]
fn plain_fault(name: &[u8]) -> Option<TableFault>
    ensures { result ≡ plain_fault name.now }
{
    if is(name, b"TooLarge") {
        return Some(TableFault::TooLarge);
    }
    if is(name, b"Short") {
        return Some(TableFault::Short);
    }
    if is(name, b"Magic") {
        return Some(TableFault::Magic);
    }
    if is(name, b"RangeDel") {
        return Some(TableFault::RangeDel);
    }
    if is(name, b"NoProperties") {
        return Some(TableFault::NoProperties);
    }
    if is(name, b"Comparator") {
        return Some(TableFault::Comparator);
    }
    if is(name, b"IndexKind") {
        return Some(TableFault::IndexKind);
    }
    None
}

// The fault of that name with its one number.
#[tactic(auto, unfolding(crate::specs::Readings::counted_fault))]
fn read_counted_fault(name: &[u8], mut words: Words<'_>) -> Result<TableFault, ParseFault>
    ensures { Gives result (counted_fault name.now words.entry) }
{
    if is(name, b"Handle") {
        return Ok(TableFault::Handle(next_u64(&mut words)?));
    }
    if is(name, b"Compressed") {
        return Ok(TableFault::Compressed(next_u64(&mut words)?));
    }
    if is(name, b"Order") {
        return Ok(TableFault::Order(next_u64(&mut words)?));
    }
    if is(name, b"Index") {
        return Ok(TableFault::Index(next_u64(&mut words)?));
    }
    if is(name, b"Version") {
        return Ok(TableFault::Version(next_u32(&mut words)?));
    }
    if is(name, b"Checksum") {
        return Ok(TableFault::Checksum(next_u8(&mut words)?));
    }
    Err(ParseFault::Mismatch)
}

// The fault of a block.
#[tactic(auto, unfolding(crate::specs::Readings::block_fault_named))]
fn read_block_fault(mut words: Words<'_>) -> Result<BlockFault, ParseFault>
    ensures { Gives result (block_fault_of words.entry) }
{
    let name = words.next().ok_or(ParseFault::Mismatch)?;
    if is(name, b"Restarts") {
        return Ok(BlockFault::Restarts);
    }
    if is(name, b"Entry") {
        return Ok(BlockFault::Entry(next_u64(&mut words)?));
    }
    if is(name, b"Order") {
        return Ok(BlockFault::Order(next_u64(&mut words)?));
    }
    Err(ParseFault::Mismatch)
}

// A word that is no number stands for none: a reply that was read is printed again and compared.
#[tactic(auto, unfolding(crate::specs::Readings::external_version_of))]
fn read_external_version(mut words: Words<'_>) -> Result<TableFault, ParseFault>
    ensures { Gives result (external_version_of words.entry) }
{
    let word = words.next().ok_or(ParseFault::Mismatch)?;
    Ok(TableFault::ExternalVersion(u32_of_word(word)))
}

#[tactic(auto, unfolding(crate::specs::Readings::sum_fault_of))]
fn read_sum_fault(mut words: Words<'_>) -> Result<TableFault, ParseFault>
    ensures { Gives result (sum_fault_of words.entry) }
{
    let at = next_u64(&mut words)?;
    let stored = next_u32(&mut words)?;
    let found = next_u32(&mut words)?;
    Ok(TableFault::Sum { at, stored, found })
}

#[tactic(auto, unfolding(crate::specs::Readings::inner_fault_of))]
fn read_inner_fault(mut words: Words<'_>) -> Result<TableFault, ParseFault>
    ensures { Gives result (inner_fault_of words.entry) }
{
    let at = next_u64(&mut words)?;
    Ok(TableFault::Block(at, read_block_fault(words)?))
}

#[tactic(auto, unfolding(crate::specs::Readings::kind_fault_of))]
fn read_kind_fault(mut words: Words<'_>) -> Result<TableFault, ParseFault>
    ensures { Gives result (kind_fault_of words.entry) }
{
    let entry = next_u64(&mut words)?;
    let kind = next_u8(&mut words)?;
    Ok(TableFault::Kind(entry, kind))
}

#[tactic(auto, unfolding(crate::specs::Readings::number_fault_of))]
fn read_number_fault(mut words: Words<'_>) -> Result<TableFault, ParseFault>
    ensures { Gives result (number_fault_of words.entry) }
{
    let entry = next_u64(&mut words)?;
    let number = next_u64(&mut words)?;
    Ok(TableFault::Number(entry, number))
}

// The fault of that name with its numbers.
#[tactic(auto, unfolding(crate::specs::Readings::long_fault))]
fn read_long_fault(name: &[u8], words: Words<'_>) -> Result<TableFault, ParseFault>
    ensures { Gives result (long_fault name.now words.entry) }
{
    if is(name, b"Sum") {
        return read_sum_fault(words);
    }
    if is(name, b"Block") {
        return read_inner_fault(words);
    }
    if is(name, b"ExternalVersion") {
        return read_external_version(words);
    }
    if is(name, b"Kind") {
        return read_kind_fault(words);
    }
    if is(name, b"Number") {
        return read_number_fault(words);
    }
    read_counted_fault(name, words)
}

// The fault of which these are the words.
pub(crate) fn read_table_fault(mut words: Words<'_>) -> Result<TableFault, ParseFault>
    ensures { Gives result (fault_of words.entry) }
{
    let name = words.next().ok_or(ParseFault::Mismatch)?;
    match plain_fault(name) {
        Some(fault) => Ok(fault),
        None => read_long_fault(name, words),
    }
}
