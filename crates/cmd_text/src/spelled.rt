// The lists of a reply: each element is one word, a value or none, a pair of a scan, or a file that was taken in.
ghost use Rattle.std.specs.Prelude.{◌≡◌, ◌∷◌, [], ◌++◌, List, map, OnOk, OnErr};
ghost use Rattle.build_text.specs.Words.{Extends};
ghost use Rattle.cmd_text.specs.Commands.{Gives};
ghost use Rattle.cmd_text.specs.Readings.{each_of};
ghost use Rattle.cmd_text.specs.Replies.{spaced};

use crate::fault::ParseFault;
use crate::parts::{key_of_word, number_of_word, parts_around, u8_of_word, value_of_word};
use crate::print::push_number;
use build_text::{Words, push_word};
use st_base::{Bytes, Key, List, Value};
use st_model::Placed;
use std::alloc::{AllocError, Global};

// A value that is spelled as one word.
pub(crate) trait Spelled: Sized {
    ghost use Rattle.std.specs.Prelude.{List, ℕ, Option};

    // Its word, and what a word is read as.
    ghost spelling: { Self → List ℕ };

    ghost reading: { List ℕ → Option Self };

    // Appends the word.
    fn push(&self, out: &mut Bytes) -> Result<(), AllocError>
        ensures ok { OnOk result (out.new ≡ out.old ++ spelling self.now) }
        ensures err { OnErr result (Extends out.old out.new) };

    // What the word stands for.
    fn read(alloc: Global, word: &[u8]) -> Result<Self, ParseFault>
        ensures { Gives result (reading word.now) };
}

impl Spelled for Option<Value> {
    ghost use Rattle.st_model.specs.Line.{read_word};
    ghost use Rattle.cmd_text.specs.Readings.{read_of_word};

    ghost spelling = { read_word };

    ghost reading = { read_of_word };

    fn push(&self, out: &mut Bytes) -> Result<(), AllocError> {
        match self {
            None => out.push(b'-'),
            Some(value) => {
                out.push(b'=')?;
                push_word(out, value.as_bytes())
            }
        }
    }

    #[tactic(auto, unfolding(crate::specs::Readings::read_of_word))]
    fn read(alloc: Global, word: &[u8]) -> Result<Option<Value>, ParseFault> {
        match word {
            [b'=', spelling @ ..] => Ok(Some(value_of_word(alloc, spelling)?)),
            [b'-', ..] => Ok(None),
            _ => Err(ParseFault::Mismatch),
        }
    }
}

impl Spelled for (Key, Value) {
    ghost use Rattle.st_model.specs.Line.{pair_word};
    ghost use Rattle.cmd_text.specs.Readings.{pair_of_word};

    ghost spelling = { pair_word };

    ghost reading = { pair_of_word };

    fn push(&self, out: &mut Bytes) -> Result<(), AllocError> {
        push_word(out, self.0.as_bytes())?;
        out.push(b'=')?;
        push_word(out, self.1.as_bytes())
    }

    #[tactic(auto, unfolding(crate::specs::Readings::pair_of_word))]
    fn read(alloc: Global, word: &[u8]) -> Result<(Key, Value), ParseFault> {
        let (key, value) = parts_around(word, b'=').ok_or(ParseFault::Mismatch)?;
        let key = key_of_word(alloc, key)?;
        let value = value_of_word(alloc, value)?;
        Ok((key, value))
    }
}

impl Spelled for Placed {
    ghost use Rattle.st_model.specs.Line.{placed_word};
    ghost use Rattle.cmd_text.specs.Readings.{placed_of_word};

    ghost spelling = { placed_word };

    ghost reading = { placed_of_word };

    fn push(&self, out: &mut Bytes) -> Result<(), AllocError> {
        push_number(out, self.file)?;
        out.push(b'@')?;
        push_number(out, u64::from(self.level))?;
        out.push(b'#')?;
        push_number(out, self.number)
    }

    #[tactic(auto, unfolding(crate::specs::Readings::placed_of_word))]
    fn read(_alloc: Global, word: &[u8]) -> Result<Placed, ParseFault> {
        let (file, rest) = parts_around(word, b'@').ok_or(ParseFault::Mismatch)?;
        let (level, number) = parts_around(rest, b'#').ok_or(ParseFault::Mismatch)?;
        let file = number_of_word(file).ok_or(ParseFault::Mismatch)?;
        let level = u8_of_word(level).ok_or(ParseFault::Mismatch)?;
        let number = number_of_word(number).ok_or(ParseFault::Mismatch)?;
        Ok(Placed {
            file,
            level,
            number,
        })
    }
}

// Appends the words of the elements, each after a space.
pub(crate) fn push_each<X: Spelled>(out: &mut Bytes, items: &[X]) -> Result<(), AllocError>
    ensures ok { OnOk result (out.new ≡ out.old ++ spaced (map X.spelling items.now)) }
    ensures err { OnErr result (Extends out.old out.new) }
{
    for item in items {
        push_one(out, item)?;
    }
    Ok(())
}

// Appends the word of the element, after a space.
fn push_one<X: Spelled>(out: &mut Bytes, item: &X) -> Result<(), AllocError>
    ensures ok { OnOk result (out.new ≡ out.old ++ 32 ∷ X.spelling item.now) }
    ensures err { OnErr result (Extends out.old out.new) }
{
    out.push(b' ')?;
    item.push(out)
}

// What each of the words stands for.
pub(crate) fn read_each<X: Spelled + Drop>(
    alloc: Global,
    mut words: Words<'_>,
) -> Result<List<X>, ParseFault>
    ensures { Gives result (each_of X.reading words.entry) }
{
    let mut items = List::new(alloc);
    while let Some(word) = words.next() {
        items.push(X::read(alloc, word)?)?;
    }
    Ok(items)
}
