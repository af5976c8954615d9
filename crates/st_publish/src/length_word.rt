ghost use Rattle.std.specs.Prelude.{◌≡◌, ◌+◌, ◌<◌, ◌≤◌, ◌^◌, ◌++◌, ◌∷◌, true, [], length, map, None, All, MatchBool};
ghost use Rattle.st_publish.specs.History.{changes_of, has_stop, made, may_rest};
ghost use Rattle.st_publish.specs.Rule.{length_word_of};
ghost use Rattle.st_publish.specs.Standing.{is_quiet};

use crate::entry::HistoryEntry;
use crate::naming::{Accept, Add, AsChange, HistoryName, HistoryRule, Nothing};
use crate::prefix::Prefix;
use logbook::{Offer, Plain, Seen, Start, Word};
use std::marker::PhantomData;
use std::snapshot::Snapshot;
use std::sync::Wait;

/// A history without entries, which has no name yet.
#[derive(Drop)]
pub struct BlankHistory {
    word: Word<HistoryEntry, u64, HistoryRule>,
    seen: Seen<HistoryEntry, u64, HistoryRule>,
    pub ghost empty: { seen.log ≡ [] },
    pub ghost word_is: { word ≡ length_word_of seen.book },
}

impl BlankHistory {
    /// One that is no other history's.
    pub fn new() -> BlankHistory {
        let (seen, mut first, _second) = Seen::open(Start::alone(), 0, 0);
        BlankHistory {
            word: Word::tracked(0, &mut first),
            seen,
        }
    }

    /// The history's word under a name, and the prefix that has seen nothing.
    pub(crate) fn named<J: HistoryName>(self) -> (LengthWord<J>, Prefix)
        requires { self.seen.book ≡ J.book }
        ensures { (result.1.list ≡ []) × (result.1.book ≡ J.book) }
    {
        let BlankHistory { word, seen } = self;
        (
            LengthWord {
                word,
                of: PhantomData,
            },
            Prefix {
                entries: 0,
                place: 0,
                seen,
            },
        )
    }
}

/// The word that has the length of the history. Only the publisher has it.
#[derive(Drop)]
pub struct LengthWord<J: HistoryName> {
    word: Word<HistoryEntry, u64, HistoryRule>,
    of: PhantomData<J>,
    ghost word_is: { word ≡ length_word_of J.book },
}

impl<J: HistoryName> LengthWord<J> {
    // Adds an entry to all that was seen, or leaves the prefix as it was.
    fn add<X, M: Plain<X, HistoryEntry, u64>>(
        &self,
        prefix: &mut Prefix,
        about: &X,
        places: u64,
    ) -> bool
        requires book { prefix.old.book ≡ J.book }
        requires room { length prefix.old.list < 2 ^ 62 }
        requires plain { M.state about.now ≡ None }
        requires places { (places ≤ 1) × (places ≡ length (changes_of (M.ask about.now ∷ []))) }
        requires calm { has_stop prefix.old.list ≡ true → may_rest (M.ask about.now) ≡ true }
        ensures book { prefix.new.book ≡ prefix.old.book }
        ensures list { MatchBool result (prefix.new.list ≡ prefix.old.list ++ M.ask about.now ∷ [])
            (prefix.new ≡ prefix.old) }
    {
        let mut seen = prefix.seen.again();
        let mut offer: Offer<HistoryEntry, u64, HistoryRule, Nothing> = seen.plain::<Nothing, X, M>(
            about,
        );
        let mut pen = seen.no_pen();
        let entries = prefix.entries;
        let found = self
            .word
            .compare_exchange::<Add, Nothing>(
                entries,
                entries + 1,
                &mut seen,
                &mut offer,
                &mut pen,
            );
        if found != entries {
            return false;
        }
        *prefix = Prefix {
            entries: entries + 1,
            place: prefix.place + places,
            seen,
        };
        true
    }

    /// Adds an entry. It comes to its end, since nobody else has the word.
    pub(crate) fn note<X, M: Plain<X, HistoryEntry, u64>, R: Wait>(
        &self,
        rt: &R,
        prefix: &mut Prefix,
        about: &X,
        places: u64,
    )
        requires book { prefix.old.book ≡ J.book }
        requires room { length prefix.old.list < 2 ^ 62 }
        requires plain { M.state about.now ≡ None }
        requires places { (places ≤ 1) × (places ≡ length (changes_of (M.ask about.now ∷ []))) }
        requires calm { has_stop prefix.old.list ≡ true → may_rest (M.ask about.now) ≡ true }
        ensures book { prefix.new.book ≡ prefix.old.book }
        ensures list { prefix.new.list ≡ prefix.old.list ++ M.ask about.now ∷ [] }
    {
        for _ in rt.forever() {
            if self.add::<X, M>(prefix, about, places) {
                return;
            }
        }
    }

    /// Adds an accepted change for each item, in order.
    pub(crate) fn note_all<X, M: AsChange<X>, R: Wait>(
        &self,
        rt: &R,
        prefix: &mut Prefix,
        items: &[(u64, X)],
    )
        requires book { prefix.old.book ≡ J.book }
        requires room { length prefix.old.list + length items.now ≤ 2 ^ 62 }
        requires calm { has_stop prefix.old.list ≡ true → All (λ p. is_quiet (M.change p.1) ≡ true) items.now }
        ensures book { prefix.new.book ≡ prefix.old.book }
        ensures list { prefix.new.list ≡ prefix.old.list ++ map (λ p. made p.0 (M.change p.1) (M.files p.1)) items.now }
    {
        for item in items {
            let said = (item.0, Snapshot::of(&item.1));
            self.note::<(u64, Snapshot<X>), Accept<M>, R>(rt, prefix, &said, 1);
        }
    }
}
