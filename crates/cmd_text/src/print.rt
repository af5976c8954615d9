ghost use Rattle.std.specs.Prelude.{◌≡◌, ◌∷◌, [], ◌++◌, IfOk, OnOk, OnErr, take, drop};
ghost use Rattle.std.specs.Fmt.{decimal};
ghost use Rattle.st_base.specs.Word.{word};
ghost use Rattle.st_model.specs.Line.{line_of, reply_words};
ghost use Rattle.build_text.specs.Words.{Extends};
ghost use Rattle.cmd_text.specs.Replies.{reply_text, spaced};

use crate::print_refusal::push_refusal;
use crate::spelled::push_each;
use build_text::push_word;
use st_base::Bytes;
use st_model::Reply;
use std::alloc::{AllocError, Global};

// Appends the number's decimal digits.
#[tactic(auto, using(std::proofs::lemmas::Fmt::decimal_digit, std::proofs::lemmas::Fmt::decimal_step))]
pub(crate) fn push_number(out: &mut Bytes, number: u64) -> Result<(), AllocError>
    ensures ok { OnOk result (out.new ≡ out.old ++ decimal number) }
    ensures err { OnErr result (Extends out.old out.new) }
{
    if number < 10 {
        return out.push(b'0' + number as u8);
    }
    push_number(out, number / 10)?;
    out.push(b'0' + (number % 10) as u8)
}

// Appends the word as it stands, after a space.
#[tactic(auto, using(crate::proofs::Printing::one_spaced))]
pub(crate) fn push_next_plain(out: &mut Bytes, word: &[u8]) -> Result<(), AllocError>
    ensures ok { OnOk result (out.new ≡ out.old ++ spaced (word.now ∷ [])) }
    ensures err { OnErr result (Extends out.old out.new) }
{
    out.push(b' ')?;
    out.extend_from_slice(word)
}

// Appends the number, after a space.
#[tactic(auto, using(crate::proofs::Printing::one_spaced))]
pub(crate) fn push_next_number(out: &mut Bytes, number: u64) -> Result<(), AllocError>
    ensures ok { OnOk result (out.new ≡ out.old ++ spaced (decimal number ∷ [])) }
    ensures err { OnErr result (Extends out.old out.new) }
{
    out.push(b' ')?;
    push_number(out, number)
}

// Appends the word of the bytes, after a space.
#[tactic(auto, using(crate::proofs::Printing::one_spaced))]
pub(crate) fn push_next_word(out: &mut Bytes, bytes: &[u8]) -> Result<(), AllocError>
    ensures ok { OnOk result (out.new ≡ out.old ++ spaced (word bytes.now ∷ [])) }
    ensures err { OnErr result (Extends out.old out.new) }
{
    out.push(b' ')?;
    push_word(out, bytes)
}

// The reply's name.
fn name_of(reply: &Reply) -> &'static [u8]
    ensures { result.now ≡ spaced (take 1 (reply_words reply.now)) }
{
    match reply {
        Reply::Written(_) => b" written",
        Reply::Found(_) => b" value",
        Reply::Nothing => b" none",
        Reply::View(_) => b" view",
        Reply::Pairs(_) => b" scan",
        Reply::Snapshot(_) => b" snapshot",
        Reply::Released => b" released",
        Reply::Made => b" made",
        Reply::Dropped => b" dropped",
        Reply::Flushed => b" flushed",
        Reply::Compacted => b" compacted",
        Reply::Ingested(_) => b" ingested",
        Reply::Await => b" await",
        Reply::Long => b" long",
        Reply::Refused(_) => b" refused",
    }
}

// Appends the words that follow the reply's name, each after a space.
fn push_rest(out: &mut Bytes, reply: &Reply) -> Result<(), AllocError>
    ensures ok { OnOk result (out.new ≡ out.old ++ spaced (drop 1 (reply_words reply.now))) }
    ensures err { OnErr result (Extends out.old out.new) }
{
    match reply {
        Reply::Written(number) => push_next_number(out, *number),
        Reply::Found(value) => push_next_word(out, value.as_bytes()),
        Reply::View(values) => push_each(out, values.as_slice()),
        Reply::Pairs(pairs) => push_each(out, pairs.as_slice()),
        Reply::Snapshot(number) => push_next_number(out, *number),
        Reply::Ingested(placed) => push_each(out, placed.as_slice()),
        Reply::Refused(refusal) => push_refusal(out, refusal),
        Reply::Nothing => Ok(()),
        Reply::Released => Ok(()),
        Reply::Made => Ok(()),
        Reply::Dropped => Ok(()),
        Reply::Flushed => Ok(()),
        Reply::Compacted => Ok(()),
        Reply::Await => Ok(()),
        Reply::Long => Ok(()),
    }
}

// Appends the reply's words, each after a space.
#[tactic(auto, using(crate::proofs::Printing::reply_parts))]
fn push_reply_words(out: &mut Bytes, reply: &Reply) -> Result<(), AllocError>
    ensures ok { OnOk result (out.new ≡ out.old ++ reply_text reply.now) }
    ensures err { OnErr result (Extends out.old out.new) }
{
    out.extend_from_slice(name_of(reply))?;
    push_rest(out, reply)
}

/// Appends the line of a place and its reply, line feed included. An error leaves what was there, and
/// maybe a part of the line after it.
#[tactic(auto, using(crate::proofs::Printing::line))]
pub fn push_reply(out: &mut Bytes, place: u64, reply: &Reply) -> Result<(), AllocError>
    ensures ok { OnOk result (out.new ≡ out.old ++ line_of place reply.now) }
    ensures err { OnErr result (Extends out.old out.new) }
{
    push_number(out, place)?;
    push_reply_words(out, reply)?;
    out.push(b'\n')
}

/// The line of a place and its reply, line feed included: the place, then the reply's words, each after a space.
/// Bytes are spelled as one word; `OutOfMemory`, as a refusal, has no printed form of its own.
pub fn print_reply(alloc: Global, place: u64, reply: &Reply) -> Result<Bytes, AllocError>
    ensures { IfOk result (λ line. line ≡ line_of place reply.now) }
{
    let mut line = Bytes::new(alloc);
    push_reply(&mut line, place, reply)?;
    Ok(line)
}
