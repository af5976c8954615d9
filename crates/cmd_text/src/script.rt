ghost use Rattle.std.specs.Prelude.{◌≡◌, ◌<◌, ◌≤◌, ℕ, length, IfOk, IsErrOf, OnOk, Ok, Err};
ghost use Rattle.std.specs.List.{AllByRecursion as Each};
ghost use Rattle.cmd_text.specs.Script.{IsOfOneKey, is_command_line, with_line, script_of};

use crate::command::read_command;
use crate::fault::{ParseFault, ScriptFault};
use crate::lines::cut_line;
use st_base::{COMMANDS_PER_CLIENT, List};
use st_model::Command;
use std::alloc::Global;

/// A command with the number of its line; all lines of a client file are counted, from 1.
#[derive(Drop)]
pub struct Numbered {
    pub line: u32,
    pub command: Command,
}

/// The commands of a client file, in order.
#[derive(Drop)]
pub struct Script {
    pub commands: List<Numbered>,
}

// Whether the line is a command, and isn't skipped.
fn is_command_line(line: &[u8]) -> bool
    ensures { result ≡ is_command_line line.now }
{
    match line {
        [] => false,
        [first, ..] => *first != b'#',
    }
}

// Takes in the line of this number.
fn read_line(
    alloc: Global,
    commands: &mut List<Numbered>,
    line: u32,
    text: &[u8],
) -> Result<(), ScriptFault>
    ensures ok { OnOk result (with_line commands.old line text.now ≡ Ok commands.new) }
    ensures within { length commands.old ≤ COMMANDS_PER_CLIENT → length commands.new ≤ COMMANDS_PER_CLIENT }
    ensures fault { (number : ℕ) → IsErrOf result (ScriptFault.Line number)
        → with_line commands.old line text.now ≡ Err number }
{
    if !is_command_line(text) {
        return Ok(());
    }
    if commands.len() >= COMMANDS_PER_CLIENT {
        return Err(ScriptFault::Line(line));
    }
    match read_command(alloc, text) {
        Ok(command) => Ok(commands.push(Numbered { line, command })?),
        Err(ParseFault::Mismatch) => Err(ScriptFault::Line(line)),
        Err(ParseFault::OutOfMemory) => Err(ScriptFault::OutOfMemory),
    }
}

/// Reads a client file: its lines are parted by line feeds, its words by one space, and a line that is empty or
/// begins with `#` is skipped. The commands are `put`, `del` and `get`: a write of one operation, or a read of a key now.
/// `Line` names the first line that should be a command and isn't one, or passes a limit of a key, a value or the 20,000
/// commands; `OutOfMemory` may come for any text. A text has fewer than 4,294,967,295 bytes, so that its lines can be
/// numbered.
#[tactic(auto, using(crate::proofs::Behind::whole_begin, crate::proofs::Behind::whole_line, crate::proofs::Behind::whole_fault))]
pub fn read_script(alloc: Global, text: &[u8]) -> Result<Script, ScriptFault>
    requires { length text.now < 4294967295 }
    ensures ok { IfOk result (λ script. script_of text.now ≡ Ok script.commands) }
    ensures line { (number : ℕ) → IsErrOf result (ScriptFault.Line number) → script_of text.now ≡ Err number }
    ensures commands { IfOk result (λ script. Each (λ numbered. IsOfOneKey numbered.command) script.commands) }
    ensures within { IfOk result (λ script. length script.commands ≤ COMMANDS_PER_CLIENT) }
{
    let mut commands = List::new(alloc);
    let mut rest = text;
    let mut line: u32 = 0;
    while !rest.is_empty() {
        let (first, after) = cut_line(rest);
        line += 1;
        read_line(alloc, &mut commands, line, first)?;
        rest = after;
    }
    Ok(Script { commands })
}
