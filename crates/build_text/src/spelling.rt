ghost use Rattle.std.specs.Prelude.{◌≡◌, ◌<◌, ◌++◌, ◌&&◌, nat_le, MatchOption, IfSome, OnOk, OnErr, length, None, Some};
ghost use Rattle.std.specs.Bool.{OnTrue};
ghost use Rattle.std.specs.List.{list_all};
ghost use Rattle.st_base.specs.Word.{hex_digit, byte_word, is_plain, word};
ghost use Rattle.build_text.specs.Words.{Extends, GivesBytes, GivesSpelled, byte_and, bytes_of_word, escaped_byte, hex_value, spelled_bytes};

use crate::fault::WordFault;
use st_base::Bytes;
use std::alloc::AllocError;

// ---- what stands for itself

// Whether the byte stands for itself in a word.
fn is_plain(byte: u8) -> bool
    ensures { result ≡ is_plain byte }
{
    byte.is_ascii_graphic() && byte != b'\\' && byte != b'='
}

// Whether each byte stands for itself.
fn are_plain(bytes: &[u8]) -> bool
    ensures { result ≡ list_all is_plain bytes.now }
{
    bytes.iter().all(|byte| is_plain(*byte))
}

// Whether the word is some plain bytes, and so stands for itself.
fn is_plain_word(word: &[u8]) -> bool
    ensures value { result ≡ (nat_le 1 (length word.now) && list_all is_plain word.now) }
    ensures itself { OnTrue result (bytes_of_word word.now ≡ Some word.now) }
{
    let plain = are_plain(word);
    !word.is_empty() && plain
}

// ---- read

// The value of a hexadecimal digit: 0 to 9, then a to f.
fn hex_value(digit: u8) -> Option<u8>
    ensures value { result ≡ hex_value digit }
    ensures within { IfSome result (λ value. value < 16) }
{
    match digit {
        b'0'..=b'9' => Some(digit - b'0'),
        b'a'..=b'f' => Some(digit - b'a' + 10),
        _ => None,
    }
}

// The byte of two hexadecimal digits, where it doesn't stand for itself.
fn escaped_byte(high: u8, low: u8) -> Option<u8>
    ensures { result ≡ escaped_byte high low }
{
    let sixteens = hex_value(high)?;
    let ones = hex_value(low)?;
    let byte = 16 * sixteens + ones;
    if is_plain(byte) { None } else { Some(byte) }
}

// The byte at the front of a spelling that isn't empty, and what follows it.
fn first_byte(spelling: &[u8]) -> Option<(u8, &[u8])>
    requires { 0 < length spelling.now }
    ensures first { MatchOption result (spelled_bytes spelling.now ≡ None)
        (λ found. spelled_bytes spelling.now ≡ byte_and (Some found.0) (spelled_bytes found.1.now)) }
    ensures shorter { IfSome result (λ found. length found.1.now < length spelling.now) }
{
    match spelling {
        [b'\\', b'x', high, low, rest @ ..] => Some((escaped_byte(*high, *low)?, rest)),
        [byte, rest @ ..] if is_plain(*byte) => Some((*byte, rest)),
        _ => None,
    }
}

// Puts the bytes of the spelling into the scratch, in place of what it had.
fn spell_bytes(spelling: &[u8], scratch: &mut Bytes) -> Result<(), WordFault>
    ensures { GivesSpelled result scratch.new (spelled_bytes spelling.now) }
{
    scratch.truncate(0);
    let mut rest = spelling;
    while !rest.is_empty() {
        let Some((byte, after)) = first_byte(rest) else {
            return Err(WordFault::NotAWord);
        };
        scratch.push(byte)?;
        rest = after;
    }
    Ok(())
}

// Puts the bytes of the word into the scratch, in place of what it had.
fn spell_word(word: &[u8], scratch: &mut Bytes) -> Result<(), WordFault>
    ensures { GivesSpelled result scratch.new (bytes_of_word word.now) }
{
    if word.is_empty() {
        return Err(WordFault::NotAWord);
    }
    if word == b"\\e".as_slice() {
        scratch.truncate(0);
        return Ok(());
    }
    spell_bytes(word, scratch)
}

// The bytes, where they are at most so many.
fn within(bytes: &[u8], limit: usize) -> Result<&[u8], WordFault>
    ensures { GivesBytes result limit (Some bytes.now) }
{
    if bytes.len() > limit {
        Err(WordFault::TooLong)
    } else {
        Ok(bytes)
    }
}

/// The bytes that a word stands for, at most so many. They lie in the word where each of its bytes stands for itself, and
/// else are spelled into the scratch, in place of what it had.
///
/// `NotAWord` comes exactly where it is no word of bytes, `TooLong` exactly where it stands for more bytes than the limit;
/// `OutOfMemory` may come for any word that isn't plain.
pub fn read_word<'a>(
    word: &'a [u8],
    limit: usize,
    scratch: &'a mut Bytes,
) -> Result<&'a [u8], WordFault>
    ensures { GivesBytes result limit (bytes_of_word word.now) }
{
    if is_plain_word(word) {
        return within(word, limit);
    }
    match spell_word(word, scratch) {
        Ok(()) => within(scratch.as_slice(), limit),
        Err(fault) => Err(fault),
    }
}

// ---- printed

// The digit's byte: 0 to 9, then a to f.
fn hex_digit(digit: u8) -> u8
    requires { digit < 16 }
    ensures { result ≡ hex_digit digit }
{
    if digit < 10 {
        b'0' + digit
    } else {
        b'a' + (digit - 10)
    }
}

// Appends the byte's spelling.
fn push_byte(out: &mut Bytes, byte: u8) -> Result<(), AllocError>
    ensures ok { OnOk result (out.new ≡ out.old ++ byte_word byte) }
    ensures err { OnErr result (Extends out.old out.new) }
{
    if is_plain(byte) {
        return out.push(byte);
    }
    let spelling = [b'\\', b'x', hex_digit(byte / 16), hex_digit(byte % 16)];
    out.extend_from_slice(spelling.as_slice())
}

/// Appends the word of the bytes: their only spelling. An error leaves what was there, and maybe a part of the word
/// after it.
#[tactic(auto, using(crate::proofs::SpelledBytes::plain_printed))]
pub fn push_word(out: &mut Bytes, bytes: &[u8]) -> Result<(), AllocError>
    ensures ok { OnOk result (out.new ≡ out.old ++ word bytes.now) }
    ensures err { OnErr result (Extends out.old out.new) }
{
    if bytes.is_empty() {
        return out.extend_from_slice(b"\\e");
    }
    if are_plain(bytes) {
        return out.extend_from_slice(bytes);
    }
    for byte in bytes {
        push_byte(out, *byte)?;
    }
    Ok(())
}
