// The parts of a line: names, keys, values, numbers, and what the first of the words that are left stand for.
ghost use Rattle.std.specs.Prelude.{◌≡◌, ◌^◌};
ghost use Rattle.std.specs.Option.{option_map};
ghost use Rattle.cmd_text.specs.Commands.{Gives, family_of_word, key_of_word, value_of_word};
ghost use Rattle.cmd_text.specs.Readings.{GivesNext, next_below, next_family_name, next_file, next_key, next_number};
ghost use Rattle.cmd_text.specs.Readings.{next_range, number_below, number_of_word, parts_around, with_digit};

use crate::fault::ParseFault;
use build_text::{Words, read_word, split_once};
use st_base::{Bytes, Family, KEY_BYTES, Key, KeyRange, VALUE_BYTES, Value};
use st_model::FileAt;
use std::alloc::Global;

// ---- one word

pub(crate) fn family_of_word(alloc: Global, word: &[u8]) -> Result<Family, ParseFault>
    ensures { Gives result (family_of_word word.now) }
{
    Ok(Family::new(alloc, word)?)
}

pub(crate) fn key_of_word(alloc: Global, word: &[u8]) -> Result<Key, ParseFault>
    ensures { Gives result (key_of_word word.now) }
{
    let mut scratch = Bytes::new(alloc);
    let bytes = read_word(word, KEY_BYTES, &mut scratch)?;
    Ok(Key::new(alloc, bytes)?)
}

pub(crate) fn value_of_word(alloc: Global, word: &[u8]) -> Result<Value, ParseFault>
    ensures { Gives result (value_of_word word.now) }
{
    let mut scratch = Bytes::new(alloc);
    let bytes = read_word(word, VALUE_BYTES, &mut scratch)?;
    Ok(Value::new(alloc, bytes)?)
}

// The number with one digit more. None where that is no digit, or the number needs more than 64 bits.
#[tactic(auto, unfolding(crate::specs::Readings::with_digit))]
fn with_digit(number: u64, digit: u8) -> Option<u64>
    ensures { result ≡ with_digit number digit }
{
    if !digit.is_ascii_digit() {
        return None;
    }
    number.checked_mul(10)?.checked_add(u64::from(digit - b'0'))
}

// The number of decimal digits. Leading zeros are read too: a reply that was read is printed again and compared.
pub(crate) fn number_of_word(word: &[u8]) -> Option<u64>
    ensures { result ≡ number_of_word word.now }
{
    if word.is_empty() {
        return None;
    }
    let mut number = 0;
    for digit in word {
        number = with_digit(number, *digit)?;
    }
    Some(number)
}

// The number of decimal digits, where it has 32 bits.
#[tactic(auto, unfolding(crate::specs::Readings::number_below))]
pub(crate) fn u32_of_word(word: &[u8]) -> Option<u32>
    ensures { result ≡ number_below (2 ^ 32) word.now }
{
    u32::try_from(number_of_word(word)?).ok()
}

// The number of decimal digits, where it has 8 bits.
#[tactic(auto, unfolding(crate::specs::Readings::number_below))]
pub(crate) fn u8_of_word(word: &[u8]) -> Option<u8>
    ensures { result ≡ number_below (2 ^ 8) word.now }
{
    u8::try_from(number_of_word(word)?).ok()
}

// The parts of a word around a byte that it has once.
pub(crate) fn parts_around(word: &[u8], byte: u8) -> Option<(&[u8], &[u8])>
    ensures { parts_around byte word.now ≡ option_map (λ parts. (parts.0.now, parts.1.now)) result }
{
    let (front, back) = split_once(word, byte)?;
    match split_once(back, byte) {
        None => Some((front, back)),
        Some(_) => None,
    }
}

// ---- the next words

#[tactic(auto, unfolding(crate::specs::Readings::next_number))]
pub(crate) fn next_u64(words: &mut Words<'_>) -> Result<u64, ParseFault>
    ensures { GivesNext result words.new (next_number words.old) }
{
    let word = words.next().ok_or(ParseFault::Mismatch)?;
    number_of_word(word).ok_or(ParseFault::Mismatch)
}

#[tactic(auto, unfolding(crate::specs::Readings::next_below))]
pub(crate) fn next_u32(words: &mut Words<'_>) -> Result<u32, ParseFault>
    ensures { GivesNext result words.new (next_below (2 ^ 32) words.old) }
{
    let word = words.next().ok_or(ParseFault::Mismatch)?;
    u32_of_word(word).ok_or(ParseFault::Mismatch)
}

#[tactic(auto, unfolding(crate::specs::Readings::next_below))]
pub(crate) fn next_u8(words: &mut Words<'_>) -> Result<u8, ParseFault>
    ensures { GivesNext result words.new (next_below (2 ^ 8) words.old) }
{
    let word = words.next().ok_or(ParseFault::Mismatch)?;
    u8_of_word(word).ok_or(ParseFault::Mismatch)
}

// The next two words as a file of a request.
#[tactic(auto, unfolding(crate::specs::Readings::next_file))]
pub(crate) fn next_file(words: &mut Words<'_>) -> Result<FileAt, ParseFault>
    ensures { GivesNext result words.new (next_file words.old) }
{
    let arg = next_u32(words)?;
    let file = next_u32(words)?;
    Ok(FileAt { arg, file })
}

#[tactic(auto, unfolding(crate::specs::Readings::next_key))]
pub(crate) fn next_key(alloc: Global, words: &mut Words<'_>) -> Result<Key, ParseFault>
    ensures { GivesNext result words.new (next_key words.old) }
{
    let word = words.next().ok_or(ParseFault::Mismatch)?;
    key_of_word(alloc, word)
}

// The next two words as a range of keys.
#[tactic(auto, unfolding(crate::specs::Readings::next_range))]
pub(crate) fn next_range(alloc: Global, words: &mut Words<'_>) -> Result<KeyRange, ParseFault>
    ensures { GivesNext result words.new (next_range words.old) }
{
    let first = next_key(alloc, words)?;
    let last = next_key(alloc, words)?;
    Ok(KeyRange { first, last })
}

#[tactic(auto, unfolding(crate::specs::Readings::next_family_name))]
pub(crate) fn next_family_name(alloc: Global, words: &mut Words<'_>) -> Result<Family, ParseFault>
    ensures { GivesNext result words.new (next_family_name words.old) }
{
    let name = words.next().ok_or(ParseFault::Mismatch)?;
    family_of_word(alloc, name)
}
