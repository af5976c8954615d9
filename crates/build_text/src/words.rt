ghost use Rattle.std.specs.Prelude.{◌≡◌, ◌==◌, ◌+◌, ◌<◌, ◌∷◌, ◌++◌, [], length, position, IfSome, MatchOption};
ghost use Rattle.std.specs.Option.{option_copied, option_map};
ghost use Rattle.build_text.specs.Words.{one_word, parts_at, three_words, two_words, words};

use std::marker::Model;

// The index of the first such byte.
fn find_byte(bytes: &[u8], wanted: u8) -> Option<usize>
    ensures { result ≡ position (λ byte. byte == wanted) bytes.now }
{
    bytes.iter().position(|byte| *byte == wanted)
}

/// Cuts the bytes at the first such byte: what stands before it, and what follows it. None exactly where there is none.
pub fn split_once(bytes: &[u8], separator: u8) -> Option<(&[u8], &[u8])>
    ensures cut { IfSome result (λ cut. bytes.now ≡ cut.0.now ++ separator ∷ cut.1.now) }
    ensures parts { MatchOption result (parts_at separator bytes.now ≡ bytes.now ∷ [])
        (λ cut. parts_at separator bytes.now ≡ cut.0.now ∷ parts_at separator cut.1.now) }
    ensures shorter { IfSome result (λ cut. length cut.0.now + length cut.1.now < length bytes.now) }
{
    match find_byte(bytes, separator) {
        None => None,
        Some(end) => Some((&bytes[..end], &bytes[end + 1..])),
    }
}

/// The words of a line that are left: slices of the line, parted by one space.
#[derive(Drop)]
pub struct Words<'a> {
    rest: Option<&'a [u8]>,
}

impl<'a> Model for Words<'a> {
    ghost use Rattle.std.specs.Prelude.{List, ℕ};
    ghost use Rattle.std.specs.Option.{option_copied};
    ghost use Rattle.build_text.specs.Words.{words_left};

    ghost Value = { List (List ℕ) };

    ghost view = { λ words. words_left (option_copied words.rest) };
}

impl<'a> Words<'a> {
    /// The words of the line.
    pub fn new(line: &'a [u8]) -> Words<'a>
        ensures { result ≡ words line.now }
    {
        Words { rest: Some(line) }
    }

    /// The next word.
    pub fn next(&mut self) -> Option<&'a [u8]>
        ensures { MatchOption result ((self.old ≡ []) × (self.new ≡ [])) (λ word. self.old ≡ word.now ∷ self.new) }
    {
        let line = self.rest?;
        match split_once(line, b' ') {
            None => {
                self.rest = None;
                Some(line)
            }
            Some((word, rest)) => {
                self.rest = Some(rest);
                Some(word)
            }
        }
    }

    /// The word, where one is left.
    pub fn one(mut self) -> Option<&'a [u8]>
        ensures { one_word self.entry ≡ option_copied result }
    {
        let first = self.next()?;
        match self.next() {
            None => Some(first),
            Some(_) => None,
        }
    }

    /// The words, where two are left.
    pub fn two(mut self) -> Option<(&'a [u8], &'a [u8])>
        ensures { two_words self.entry ≡ option_map (λ two. (two.0.now, two.1.now)) result }
    {
        let first = self.next()?;
        let second = self.next()?;
        match self.next() {
            None => Some((first, second)),
            Some(_) => None,
        }
    }

    /// The words, where three are left.
    pub fn three(mut self) -> Option<(&'a [u8], &'a [u8], &'a [u8])>
        ensures { three_words self.entry ≡ option_map (λ three. (three.0.now, three.1.now, three.2.now)) result }
    {
        let first = self.next()?;
        let second = self.next()?;
        let third = self.next()?;
        match self.next() {
            None => Some((first, second, third)),
            Some(_) => None,
        }
    }
}
