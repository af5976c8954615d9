ghost use Rattle.std.specs.Prelude.{◌≡◌, ◌<◌, ◌+◌, ◌≤◌, ◌^◌, ◌++◌, ◌∷◌, true, false, [], length, map, drop, None, Some};
ghost use Rattle.std.specs.Prelude.{IfSome, IsSome, IsTrue, All};
ghost use Rattle.st_publish.specs.declared.entry.HistoryEntry.TheVariants.{Stopped};
ghost use Rattle.st_publish.specs.History.{has_stop, made, StandsIn};
ghost use Rattle.st_publish.specs.Standing.{is_quiet};

use crate::entry::TableState;
use crate::length_word::LengthWord;
use crate::naming::{Accept, AsChange, HistoryName, NoteStop};
use crate::published::Published;
use crate::showing::{PublishedWriter, Showing, show};
use crate::told::Told;
use st_table::Table;
use st_version::Ready;
use std::alloc::AllocError;
use std::marker::Model;
use std::mem;
use std::snapshot::Snapshot;
use std::sync::{Arc, Wait};

/// Publishes the states of a store along one history. It keeps the handle, since its drop waits for readers.
pub struct Publisher<J: HistoryName, R: Wait + Drop> {
    rt: R,
    showing: Showing,
    word: LengthWord<J>,
    told: Told<J>,
    next: Option<(Arc<TableState>, u64)>,
    stopped: bool,
}

impl<J: HistoryName, R: Wait + Drop> Model for Publisher<J, R> {
    ghost use Rattle.std.specs.Prelude.{◌≡◌, [], drop, Some, option_map, unwrap_or};
    ghost use mathlib.Core.List.{IsPrefix};
    ghost use Rattle.st_publish.specs.History.{has_stop, no_state, StandsIn};
    ghost use Rattle.st_publish.specs.Publisher.{PublisherView};
    ghost use Rattle.st_version.specs.State.{taken_last};

    ghost Value = { PublisherView };

    ghost view = { λ p. record {
      state = unwrap_or (option_map (λ w. w.desk.shown.value.0) p.showing.writer) (no_state, 0);
      list = p.told;
      next = taken_last p.next;
    } };

    ghost invariant = { λ p. ((w : _) × (p.showing.writer ≡ Some w)
        × StandsIn p.told w.desk.shown.value.0 × (w.desk.shown.value.1.book ≡ J.book)
        × IsPrefix w.desk.shown.value.1.list p.told
        × (drop w.behind w.log.items ≡ [])
        × (p.stopped ≡ has_stop p.told)) };
}

impl<J: HistoryName, R: Wait + Drop> Publisher<J, R> {
    /// Whether the history has room for an entry more: it has 4,611,686,018,427,387,904 at most.
    pub fn has_room(&self) -> bool
        ensures { IsTrue result → length self.now.list < 2 ^ 62 }
    {
        self.told.prefix().entries() < 1 << 62
    }

    /// Whether a stop was noted. Then only snapshots may be taken and let go.
    pub fn is_stopped(&self) -> bool
        ensures { result ≡ has_stop self.now.list }
    {
        self.stopped
    }

    /// Publishes what was taken last as one accepted change of this seat. When it returns, viewers enter no older
    /// state. It waits for readers to leave the state before the last, and for memory.
    pub fn publish<X, M: AsChange<X>>(&mut self, seat: u64, about: &X) -> Told<J>
        requires room { length self.old.list < 2 ^ 62 }
        requires next { IfSome self.old.next
            (λ s. StandsIn (self.old.list ++ made seat (M.change about.now) (M.files about.now) ∷ []) s)
            × IsSome self.old.next }
        requires quiet { has_stop self.old.list ≡ true → is_quiet (M.change about.now) ≡ true }
        ensures list { self.new.list ≡ self.old.list ++ made seat (M.change about.now) (M.files about.now) ∷ [] }
        ensures state { self.old.next ≡ Some self.new.state }
        ensures next { self.new.next ≡ None }
        ensures told { result ≡ self.new.list }
    {
        let Publisher {
            rt,
            showing,
            word,
            told,
            next,
            stopped: _,
        } = self;
        let taken = next.take().unwrap();
        let (state, place) = taken;
        let now = showing.writer.take().unwrap();
        let mut prefix = told.prefix().again();
        let said = (seat, Snapshot::of(about));
        word.note::<(u64, Snapshot<X>), Accept<M>, R>(&*rt, &mut prefix, &said, 1);
        *told = Told::of(prefix.again());
        let writing = show(
            &*rt,
            now,
            Published {
                state,
                place,
                prefix,
            },
        );
        let empty = mem::replace(&mut showing.writer, Some(writing));
        let None = empty else { unreachable!() };
        told.again()
    }

    /// Publishes what was taken last as one accepted change for each item, in order, each of its seat. Viewers see all
    /// of them or none. It waits as `publish` does.
    pub fn publish_all<X, M: AsChange<X>>(&mut self, items: &[(u64, X)]) -> Told<J>
        requires room { length self.old.list + length items.now ≤ 2 ^ 62 }
        requires next { IfSome self.old.next
            (λ s. StandsIn (self.old.list ++ map (λ p. made p.0 (M.change p.1) (M.files p.1)) items.now) s)
            × IsSome self.old.next }
        requires quiet { has_stop self.old.list ≡ true → All (λ p. is_quiet (M.change p.1) ≡ true) items.now }
        ensures list { self.new.list ≡ self.old.list ++ map (λ p. made p.0 (M.change p.1) (M.files p.1)) items.now }
        ensures state { self.old.next ≡ Some self.new.state }
        ensures next { self.new.next ≡ None }
        ensures told { result ≡ self.new.list }
    {
        let Publisher {
            rt,
            showing,
            word,
            told,
            next,
            stopped: _,
        } = self;
        let taken = next.take().unwrap();
        let (state, place) = taken;
        let now = showing.writer.take().unwrap();
        let mut prefix = told.prefix().again();
        word.note_all::<X, M, R>(&*rt, &mut prefix, items);
        *told = Told::of(prefix.again());
        let writing = show(
            &*rt,
            now,
            Published {
                state,
                place,
                prefix,
            },
        );
        let empty = mem::replace(&mut showing.writer, Some(writing));
        let None = empty else { unreachable!() };
        told.again()
    }

    /// Publishes what was taken last, which stands for the same changes: the store sealed, flushed or compacted. It
    /// waits as `publish` does.
    pub fn refresh(&mut self)
        requires { IfSome self.old.next (λ s. StandsIn self.old.list s) × IsSome self.old.next }
        ensures list { self.new.list ≡ self.old.list }
        ensures state { self.old.next ≡ Some self.new.state }
        ensures next { self.new.next ≡ None }
    {
        let prefix = self.told.prefix().again();
        let Publisher {
            rt,
            showing,
            word: _,
            told: _,
            next,
            stopped: _,
        } = self;
        let taken = next.take().unwrap();
        let (state, place) = taken;
        let now = showing.writer.take().unwrap();
        let writing = show(
            &*rt,
            now,
            Published {
                state,
                place,
                prefix,
            },
        );
        let empty = mem::replace(&mut showing.writer, Some(writing));
        let None = empty else { unreachable!() };
    }

    /// Notes that the store stopped: from now on snapshots alone are taken and let go. The history with that note.
    pub fn stop(&mut self) -> Told<J>
        requires room { length self.old.list < 2 ^ 62 }
        ensures list { self.new.list ≡ self.old.list ++ Stopped ∷ [] }
        ensures rest { (self.new.state ≡ self.old.state) × (self.new.next ≡ self.old.next) }
        ensures told { result ≡ self.new.list }
    {
        let Publisher {
            rt,
            showing: _,
            word,
            told,
            next: _,
            stopped,
        } = self;
        let mut prefix = told.prefix().again();
        word.note::<(), NoteStop, R>(&*rt, &mut prefix, &(), 0);
        *told = Told::of(prefix);
        *stopped = true;
        told.again()
    }

    /// The whole history so far.
    pub fn tell(&self) -> Told<J>
        ensures { result ≡ self.now.list }
    {
        self.told.again()
    }
}

/// It means the state and place that it took last; its rest is what it has published, a state with its place, and the
/// history.
impl<J: HistoryName, R: Wait + Drop> Ready<Arc<Table>> for Publisher<J, R> {
    type Rest = ((TableState, u64), Told<J>);

    ghost taken = { λ p. p.next };

    ghost rest = { λ p. (p.state, p.list) };

    fn ready(&mut self, next: &Arc<TableState>, place: u64) -> Result<(), AllocError> {
        let next = Arc::try_clone(next)?;
        self.next = Some((next, place));
        Ok(())
    }
}

impl<J: HistoryName, R: Wait + Drop> Drop for Publisher<J, R> {
    fn drop(self) {
        let Self {
            rt,
            showing,
            word: _,
            told: _,
            next: _,
            stopped: _,
        } = self;
        let Showing { writer } = showing;
        if let Some(writer) = writer {
            drop(writer.take(&rt));
        }
    }
}

/// The publisher as it begins, of a writer that shows the first state.
pub(crate) fn begun<J: HistoryName, R: Wait + Drop>(
    rt: R,
    writer: PublishedWriter,
    word: LengthWord<J>,
    told: Told<J>,
) -> Publisher<J, R>
    requires shows { (writer.desk.shown.value.1.list ≡ told) × (writer.desk.shown.value.1.book ≡ J.book) }
    requires empty { drop writer.behind writer.log.items ≡ [] }
    requires stands { StandsIn told writer.desk.shown.value.0 }
    requires stopped { has_stop told ≡ false }
    ensures { (result.list ≡ told) × (result.state ≡ writer.desk.shown.value.0) × (result.next ≡ None) }
{
    Publisher {
        rt,
        showing: Showing {
            writer: Some(writer),
        },
        word,
        told,
        next: None,
        stopped: false,
    }
}
