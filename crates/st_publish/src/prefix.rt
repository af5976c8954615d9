ghost use Rattle.std.specs.Prelude.{◌≡◌, ◌≤◌, ◌⊎◌, true, length};
ghost use mathlib.Core.List.{IsPrefix};
ghost use Rattle.st_publish.specs.History.{changes_of, is_calm};

use crate::entry::HistoryEntry;
use crate::naming::HistoryRule;
use logbook::Seen;
use std::marker::Model;

/// A beginning of the history that was seen. Contracts see it as its entries, with the book that they are of.
#[derive(Drop)]
pub struct Prefix {
    pub(crate) entries: u64,
    pub(crate) place: u64,
    pub(crate) seen: Seen<HistoryEntry, u64, HistoryRule>,
}

impl Model for Prefix {
    ghost use Rattle.std.specs.Prelude.{◌≡◌, length, true};
    ghost use Rattle.st_publish.specs.History.{changes_of, is_calm};
    ghost use Rattle.st_publish.specs.Prefix.{PrefixView};

    ghost Value = { PrefixView };

    ghost view = { λ f. record { book = f.seen.book; list = f.seen.log } };

    ghost invariant = { λ f. (f.entries ≡ length f.seen.log) × (f.place ≡ length (changes_of f.seen.log))
        × (is_calm f.seen.log ≡ true) };
}

impl Prefix {
    /// How many accepted changes it has.
    pub fn place(&self) -> u64
        ensures place { result ≡ length (changes_of self.now.list) }
        ensures calm { is_calm self.now.list ≡ true }
    {
        self.place
    }

    /// How many entries it has, stops included.
    pub(crate) fn entries(&self) -> u64
        ensures { result ≡ length self.now.list }
    {
        self.entries
    }

    /// A copy.
    pub fn again(&self) -> Prefix
        ensures { result ≡ self.now }
    {
        Prefix {
            entries: self.entries,
            place: self.place,
            seen: self.seen.again(),
        }
    }

    /// The longer of two prefixes of one book, which the other begins.
    pub fn longer(&self, other: &Prefix) -> Prefix
        requires { other.now.book ≡ self.now.book }
        ensures book { result.book ≡ self.now.book }
        ensures one { (result ≡ self.now) ⊎ (result ≡ other.now) }
        ensures this { IsPrefix self.now.list result.list }
        ensures that { IsPrefix other.now.list result.list }
    {
        let mut both = self.seen.again();
        both.learn(&other.seen);
        if self.entries < other.entries {
            other.again()
        } else {
            self.again()
        }
    }
}
