ghost use Rattle.std.specs.Prelude.{◌≡◌, IfOk};
ghost use Rattle.cmd_text.specs.Commands.{Gives, command_named, command_of, del_of, family_and_key, get_of, put_of, single};

use crate::fault::ParseFault;
use crate::lines::is;
use crate::parts::{family_of_word, key_of_word, value_of_word};
use build_text::Words;
use st_base::{Family, Key, List};
use st_model::{Batch, Command, Op};
use std::alloc::{AllocError, Global};

// `put F K V`
#[tactic(auto, unfolding(crate::specs::Commands::put_of))]
fn read_put(alloc: Global, arguments: Words<'_>) -> Result<Op, ParseFault>
    ensures { Gives result (put_of arguments.entry) }
{
    let (family, key, value) = arguments.three().ok_or(ParseFault::Mismatch)?;
    let family = family_of_word(alloc, family)?;
    let key = key_of_word(alloc, key)?;
    let value = value_of_word(alloc, value)?;
    Ok(Op::Put(family, key, value))
}

// A family and a key, and no more.
fn read_family_and_key(alloc: Global, arguments: Words<'_>) -> Result<(Family, Key), ParseFault>
    ensures { Gives result (family_and_key arguments.entry) }
{
    let (family, key) = arguments.two().ok_or(ParseFault::Mismatch)?;
    let family = family_of_word(alloc, family)?;
    let key = key_of_word(alloc, key)?;
    Ok((family, key))
}

// `del F K`
#[tactic(auto, unfolding(crate::specs::Commands::del_of))]
fn read_del(alloc: Global, arguments: Words<'_>) -> Result<Op, ParseFault>
    ensures { Gives result (del_of arguments.entry) }
{
    let (family, key) = read_family_and_key(alloc, arguments)?;
    Ok(Op::Del(family, key))
}

// `get F K`
#[tactic(auto, unfolding(crate::specs::Commands::get_of))]
fn read_get(alloc: Global, arguments: Words<'_>) -> Result<Command, ParseFault>
    ensures { Gives result (get_of arguments.entry) }
{
    let (family, key) = read_family_and_key(alloc, arguments)?;
    Ok(Command::Get(family, key))
}

// The write of this operation alone.
fn single(alloc: Global, op: Op) -> Result<Command, AllocError>
    ensures { IfOk result (λ command. command ≡ single op) }
{
    let mut ops = List::new(alloc);
    ops.push(op)?;
    Ok(Command::Write(Batch { ops }))
}

// The command of this name with these arguments.
#[tactic(auto, unfolding(crate::specs::Commands::command_named))]
fn read_named(alloc: Global, name: &[u8], arguments: Words<'_>) -> Result<Command, ParseFault>
    ensures { Gives result (command_named name.now arguments.entry) }
{
    if is(name, b"put") {
        return Ok(single(alloc, read_put(alloc, arguments)?)?);
    }
    if is(name, b"del") {
        return Ok(single(alloc, read_del(alloc, arguments)?)?);
    }
    if is(name, b"get") {
        return read_get(alloc, arguments);
    }
    Err(ParseFault::Mismatch)
}

pub(crate) fn read_command(alloc: Global, line: &[u8]) -> Result<Command, ParseFault>
    ensures { Gives result (command_of line.now) }
{
    let mut words = Words::new(line);
    let name = words.next().ok_or(ParseFault::Mismatch)?;
    read_named(alloc, name, words)
}
