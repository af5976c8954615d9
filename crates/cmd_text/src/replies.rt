ghost use Rattle.std.specs.Prelude.{◌≡◌, ◌<◌, ◌^◌, ◌∷◌, [], ◌++◌, ℕ, List, IfOk, IsErrOf, Some};
ghost use Rattle.std.specs.Option.{option_copied};
ghost use Rattle.st_model.specs.Line.{line_of};
ghost use Rattle.st_model.specs.declared.reply.Reply.{Reply};
ghost use Rattle.cmd_text.specs.Commands.{Gives};
ghost use Rattle.cmd_text.specs.Readings.{found_reply, long_reply, place_and_reply_of, plain_reply, reply_of};
ghost use Rattle.cmd_text.specs.Replies.{GivesBack, IsPrinted};

use crate::fault::{LineFault, ParseFault};
use crate::lines::is;
use crate::parts::{next_u64, value_of_word};
use crate::print::print_reply;
use crate::refusals::read_refusal;
use crate::spelled::read_each;
use build_text::Words;
use st_model::Reply;
use std::alloc::Global;

// The reply of that name, where that is its only word.
#[tactic(auto, unfolding(crate::specs::Readings::plain_reply))]
fn plain_reply(name: &[u8]) -> Option<Reply>
    ensures { result ≡ plain_reply name.now }
{
    if is(name, b"none") {
        return Some(Reply::Nothing);
    }
    if is(name, b"released") {
        return Some(Reply::Released);
    }
    if is(name, b"made") {
        return Some(Reply::Made);
    }
    if is(name, b"dropped") {
        return Some(Reply::Dropped);
    }
    if is(name, b"flushed") {
        return Some(Reply::Flushed);
    }
    if is(name, b"compacted") {
        return Some(Reply::Compacted);
    }
    if is(name, b"await") {
        return Some(Reply::Await);
    }
    if is(name, b"long") {
        return Some(Reply::Long);
    }
    None
}

#[tactic(auto, unfolding(crate::specs::Readings::found_reply))]
fn read_found(alloc: Global, mut words: Words<'_>) -> Result<Reply, ParseFault>
    ensures { Gives result (found_reply words.entry) }
{
    let word = words.next().ok_or(ParseFault::Mismatch)?;
    Ok(Reply::Found(value_of_word(alloc, word)?))
}

// The reply of that name with the words that follow it.
#[tactic(auto, unfolding(crate::specs::Readings::long_reply))]
fn read_long_reply(alloc: Global, name: &[u8], mut words: Words<'_>) -> Result<Reply, ParseFault>
    ensures { Gives result (long_reply name.now words.entry) }
{
    if is(name, b"written") {
        return Ok(Reply::Written(next_u64(&mut words)?));
    }
    if is(name, b"value") {
        return read_found(alloc, words);
    }
    if is(name, b"view") {
        return Ok(Reply::View(read_each(alloc, words)?));
    }
    if is(name, b"scan") {
        return Ok(Reply::Pairs(read_each(alloc, words)?));
    }
    if is(name, b"snapshot") {
        return Ok(Reply::Snapshot(next_u64(&mut words)?));
    }
    if is(name, b"ingested") {
        return Ok(Reply::Ingested(read_each(alloc, words)?));
    }
    if is(name, b"refused") {
        return Ok(Reply::Refused(read_refusal(alloc, words)?));
    }
    Err(ParseFault::Mismatch)
}

// The reply of which these are the words.
fn read_reply_words(alloc: Global, mut words: Words<'_>) -> Result<Reply, ParseFault>
    ensures { Gives result (reply_of words.entry) }
{
    let name = words.next().ok_or(ParseFault::Mismatch)?;
    match plain_reply(name) {
        Some(reply) => Ok(reply),
        None => read_long_reply(alloc, name, words),
    }
}

// The line without its last byte.
fn without_last(line: &[u8]) -> Option<&[u8]>
    ensures { (text : List ℕ) (last : ℕ) → line.now ≡ text ++ last ∷ [] → option_copied result ≡ Some text }
{
    if line.is_empty() {
        return None;
    }
    Some(&line[..line.len() - 1])
}

// The place and the reply of which these are the words.
#[tactic(auto, unfolding(crate::specs::Readings::place_and_reply_of))]
fn read_line_words(alloc: Global, mut words: Words<'_>) -> Result<(u64, Reply), ParseFault>
    ensures { Gives result (place_and_reply_of words.entry) }
{
    let place = next_u64(&mut words)?;
    let reply = read_reply_words(alloc, words)?;
    Ok((place, reply))
}

// The place and the reply that print as the line, if any do.
fn read_candidate(alloc: Global, line: &[u8]) -> Result<(u64, Reply), ParseFault>
    ensures whole { (place : ℕ) (reply : Reply) → place < 2 ^ 64 → IsPrinted reply → line.now ≡ line_of place reply
        → GivesBack result (place, reply) }
    ensures form { IfOk result (λ found. IsPrinted found.1) }
{
    let text = without_last(line).ok_or(ParseFault::Mismatch)?;
    read_line_words(alloc, Words::new(text))
}

// The place and the reply, where they print as the line.
fn printed_as(
    alloc: Global,
    line: &[u8],
    place: u64,
    reply: Reply,
) -> Result<(u64, Reply), LineFault>
    ensures printed { IfOk result (λ found. (found ≡ (place, reply)) × (line.now ≡ line_of place reply)) }
    ensures not_a_reply { IsErrOf result LineFault.NotAReply → line.now ≡ line_of place reply → ⊥ }
{
    let printed = print_reply(alloc, place, &reply)?;
    if is(printed.as_slice(), line) {
        Ok((place, reply))
    } else {
        Err(LineFault::NotAReply)
    }
}

/// Reads a line of a transcript, line feed included: a place and its reply, which is one that a transcript can have, so
/// never the refusal `OutOfMemory`. `NotAReply` comes exactly where no place and reply print as the line; `OutOfMemory`
/// may come for any line.
pub fn read_reply(alloc: Global, line: &[u8]) -> Result<(u64, Reply), LineFault>
    ensures printed { IfOk result (λ found. line.now ≡ line_of found.0 found.1) }
    ensures form { IfOk result (λ found. IsPrinted found.1) }
    ensures only { IfOk result (λ found. (place : ℕ) (reply : Reply) → place < 2 ^ 64 → IsPrinted reply
        → line.now ≡ line_of place reply → found ≡ (place, reply)) }
    ensures not_a_reply { IsErrOf result LineFault.NotAReply → (place : ℕ) (reply : Reply) → place < 2 ^ 64
        → IsPrinted reply → line.now ≡ line_of place reply → ⊥ }
{
    match read_candidate(alloc, line) {
        Ok((place, reply)) => printed_as(alloc, line, place, reply),
        Err(ParseFault::Mismatch) => Err(LineFault::NotAReply),
        Err(ParseFault::OutOfMemory) => Err(LineFault::OutOfMemory),
    }
}
