ghost use Rattle.std.specs.Prelude.{◌≡◌, ◌<◌, ◌⊎◌, true, length};
ghost use mathlib.Core.List.{IsPrefix};
ghost use Rattle.st_publish.specs.History.{changes_of, is_calm};

use crate::naming::HistoryName;
use crate::prefix::Prefix;
use std::marker::{Model, PhantomData};

/// A beginning of the history, with at least its first entry. Contracts see it as its entries.
#[derive(Drop)]
pub struct Told<J: HistoryName> {
    prefix: Prefix,
    of: PhantomData<J>,
}

impl<J: HistoryName> Model for Told<J> {
    ghost use Rattle.std.specs.Prelude.{◌≡◌, ◌<◌, List, length};
    ghost use Rattle.st_publish.specs.declared.entry.HistoryEntry.{HistoryEntry};

    ghost Value = { List HistoryEntry };

    ghost view = { λ t. t.prefix.list };

    ghost invariant = { λ t. (t.prefix.book ≡ J.book) × (0 < length t.prefix.list) };
}

impl<J: HistoryName> Told<J> {
    /// What this prefix has.
    pub(crate) fn of(prefix: Prefix) -> Told<J>
        requires { (prefix.book ≡ J.book) × (0 < length prefix.list) }
        ensures { result ≡ prefix.list }
    {
        Told {
            prefix,
            of: PhantomData,
        }
    }

    /// Its prefix.
    pub(crate) fn prefix(&self) -> &Prefix
        ensures { (result.now.list ≡ self.now) × (result.now.book ≡ J.book) × (0 < length self.now) }
    {
        &self.prefix
    }

    /// How many accepted changes it has; stops don't count. Behind its first stop snapshots alone are taken and let go.
    pub fn length(&self) -> u64
        ensures length { result ≡ length (changes_of self.now) }
        ensures calm { is_calm self.now ≡ true }
    {
        self.prefix.place()
    }

    /// A copy.
    pub fn again(&self) -> Told<J>
        ensures { result ≡ self.now }
    {
        Told {
            prefix: self.prefix.again(),
            of: PhantomData,
        }
    }

    /// The longer of two, which the other begins.
    pub fn longer(&self, other: &Told<J>) -> Told<J>
        ensures one { (result ≡ self.now) ⊎ (result ≡ other.now) }
        ensures this { IsPrefix self.now result }
        ensures that { IsPrefix other.now result }
    {
        Told {
            prefix: self.prefix.longer(&other.prefix),
            of: PhantomData,
        }
    }
}
