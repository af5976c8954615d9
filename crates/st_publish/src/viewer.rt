ghost use Rattle.std.specs.Prelude.{◌≡◌, ◌<◌, ◌⊎◌, length, vec_len, All, IfOk, IfSome, IsTrue, OnErr};
ghost use Rattle.std.specs.Arc.{arc_value};
ghost use mathlib.Core.List.{IsPrefix};
ghost use Rattle.left_right.specs.Sides.{view};
ghost use Rattle.st_publish.specs.History.{changes_of, StandsIn};
ghost use Rattle.st_publish.specs.Prefix.{GoesOn};

use crate::entry::TableState;
use crate::naming::HistoryName;
use crate::prefix::Prefix;
use crate::published::{Published, Rises, Sees};
use crate::told::Told;
use left_right::reader::Reader;
use std::alloc::AllocError;
use std::marker::Model;
use std::sync::Arc;

pub(crate) type PublishedReader = Reader<Published, Prefix, Rises>;

/// Takes published states. Contracts see it as the beginning of the history that it has seen or was told of.
#[derive(Drop)]
pub struct Viewer<J: HistoryName> {
    reader: Option<PublishedReader>,
    told: Told<J>,
}

impl<J: HistoryName> Model for Viewer<J> {
    ghost use Rattle.std.specs.Prelude.{◌≡◌, ◌<◌, List, length, IfSome};
    ghost use Rattle.left_right.specs.Sides.{view as view_of};
    ghost use Rattle.st_publish.specs.declared.entry.HistoryEntry.{HistoryEntry};

    ghost Value = { List HistoryEntry };

    ghost view = { λ v. v.told };

    ghost invariant = { λ v. IfSome v.reader
        (λ r. ((view_of r.place).book ≡ J.book) × (0 < length (view_of r.place).list)) };
}

// Takes what is published. Its history goes on from the one that this reader took before.
fn look(reader: PublishedReader) -> (PublishedReader, Option<Published>)
    ensures later { GoesOn (view reader.place) (view result.0.place) }
    ensures seen { IfSome result.1 (λ s. s.1 ≡ view result.0.place) }
{
    match reader.enter_as::<Sees>() {
        Err(reader) => (reader, None),
        Ok(reading) => {
            let shown = reading.get().again().ok();
            (reading.leave(), shown)
        }
    }
}

impl<J: HistoryName> Viewer<J> {
    /// The viewer of this reader, which was told of as much.
    pub(crate) fn new(reader: PublishedReader, told: Told<J>) -> Viewer<J>
        requires { ((view reader.place).book ≡ J.book) × (0 < length (view reader.place).list) }
        ensures { result ≡ told }
    {
        Viewer {
            reader: Some(reader),
            told,
        }
    }

    /// The state that is published, with its place: it stands for all that this viewer then knows of the history. It
    /// waits for nobody. An error says that memory ran out, or that none is handed out that is as new as what the
    /// viewer was told of; neither comes while the publisher is there and memory suffices.
    pub fn enter(&mut self) -> Result<(Arc<TableState>, u64), AllocError>
        ensures later { IsPrefix self.old self.new }
        ensures stands { IfOk result (λ r. StandsIn self.new (arc_value r.0, r.1)
            × (r.1 ≡ length (changes_of self.new))) }
        ensures kept { OnErr result (self.new ≡ self.old) }
    {
        let Viewer { reader, told } = self;
        let Some(there) = reader.take() else {
            return Err(AllocError);
        };
        let (there, seen) = look(there);
        *reader = Some(there);
        let Some(shown) = seen else {
            return Err(AllocError);
        };
        let Published {
            state,
            place,
            prefix,
        } = shown;
        let found = Told::of(prefix);
        let changes = found.length();
        if changes < told.length() {
            return Err(AllocError);
        }
        *told = told.longer(&found);
        Ok((state, place))
    }

    /// What this viewer has seen or was told of.
    pub fn told(&self) -> Told<J>
        ensures { result ≡ self.now }
    {
        self.told.again()
    }

    /// How many accepted changes it has seen or was told of.
    pub fn place(&self) -> u64
        ensures { result ≡ length (changes_of self.now) }
    {
        self.told.length()
    }

    /// The same as `learn`. It answers whether the viewer then knows the changes that were told, and no more.
    pub fn reach(&mut self, told: &Told<J>) -> bool
        ensures kept { IsPrefix self.old self.new }
        ensures told { IsPrefix told.now self.new }
        ensures same { IsTrue result → changes_of self.new ≡ changes_of told.now }
    {
        self.learn(told);
        self.place() == told.length()
    }

    /// It knows what was told from now on, and enters no older state.
    pub fn learn(&mut self, told: &Told<J>)
        ensures kept { IsPrefix self.old self.new }
        ensures told { IsPrefix told.now self.new }
        ensures one { (self.new ≡ self.old) ⊎ (self.new ≡ told.now) }
    {
        let Viewer {
            reader: _,
            told: mine,
        } = self;
        *mine = mine.longer(told);
    }
}
