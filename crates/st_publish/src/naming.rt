ghost use Rattle.std.specs.Prelude.{[], None};
ghost use base.Fml.{ftrue};

use crate::entry::{HistoryEntry, TableState};
use logbook::{Gain, Plain, Play, Rule};
use std::marker::{Brand, PhantomData};
use std::snapshot::Snapshot;

/// Which history it is. Each call of a program picks it.
pub trait HistoryName {
    ghost use Rattle.logbook.specs.Pages.{Book};

    ghost book: { Book };
}

impl HistoryName for Brand {
    ghost book = { record { number = 0; log_name = 0; cells_name = 0 } };
}

/// Which accepted change a value at hand stands for, so that publishing copies nothing.
pub trait AsChange<X> {
    ghost use Rattle.std.specs.Prelude.{List, ℕ};
    ghost use Rattle.st_model.specs.declared.change.Change.{Change};

    ghost change: { X → Change };

    /// The file numbers of its receipt; of other changes than ingestions none.
    ghost files: { X → List ℕ };
}

/// The rule of the history.
pub struct HistoryRule;

impl Rule<HistoryEntry, u64> for HistoryRule {
    ghost use Rattle.std.specs.Prelude.{[]};
    ghost use base.Fml.{ftrue};
    ghost use Rattle.st_publish.specs.Rule.{IsCounted};

    ghost holds = { λ cells log. IsCounted cells log };

    ghost first = { [] };

    ghost hinted = { λ n log. Unit {0} };

    ghost shows = { λ log. [] };

    ghost keeps = { λ names log. ftrue };

    ghost moves = { λ ask before after answer. Unit {0} };
}

/// Callers trade nothing.
pub struct Nothing;

impl Gain<HistoryEntry, u64> for Nothing {
    ghost after = { λ names about answer. ftrue };
}

/// A step that adds an entry.
pub struct Add;

impl Play<HistoryEntry, u64> for Add {
    ghost use Rattle.st_publish.specs.Rule.{AddsOne};

    ghost then = { AddsOne };
}

/// The first entry, as a step asks for it.
pub struct Begin;

impl Plain<Snapshot<TableState>, HistoryEntry, u64> for Begin {
    ghost use Rattle.st_publish.specs.declared.entry.HistoryEntry.TheVariants.{Opened};

    ghost ask = { λ a. Opened a.value };

    ghost state = { λ a. None };
}

/// A change, as a step asks for it.
pub struct Accept<M> {
    of: PhantomData<M>,
}

impl<X, M: AsChange<X>> Plain<(u64, Snapshot<X>), HistoryEntry, u64> for Accept<M> {
    ghost use Rattle.st_publish.specs.History.{made};

    ghost ask = { λ a. made a.0 (M.change a.1.value) (M.files a.1.value) };

    ghost state = { λ a. None };
}

/// The note of a stop, as a step asks for it.
pub struct NoteStop;

impl Plain<(), HistoryEntry, u64> for NoteStop {
    ghost use Rattle.st_publish.specs.declared.entry.HistoryEntry.TheVariants.{Stopped};

    ghost ask = { λ a. Stopped };

    ghost state = { λ a. None };
}
