ghost use Rattle.std.specs.Prelude.{◌≡◌, ◌<◌, ◌∷◌, [], IfOk};
ghost use Rattle.bench_publish.specs.Fresh.{fresh_state};
ghost use Rattle.core_model.specs.Picture.{new_view};
ghost use Rattle.st_base.specs.Bytes.{default_family};
ghost use Rattle.st_version.specs.State.{named_views};
ghost use Rattle.st_publish.specs.declared.entry.HistoryEntry.TheVariants.{Opened};

use st_base::{Family, List};
use st_publish::{BlankHistory, HistoryName, Publisher, TableState, Viewer, open_history};
use st_table::Table;
use st_version::{FamilyView, Ready, State};
use std::alloc::{AllocError, Global};
use std::collections::BTreeMap;
use std::marker::Model;
use std::sync::{Arc, Wait};

// The one family of a new store.
fn new_families(alloc: Global) -> Result<BTreeMap<Family, Arc<FamilyView<Arc<Table>>>>, AllocError>
    ensures { IfOk result (λ map. named_views map.entries ≡ (default_family, new_view 0) ∷ []) }
{
    let mut families = BTreeMap::new(alloc);
    let view = Arc::new(alloc, FamilyView::new(alloc, 0)?)?;
    let Ok(name) = Family::new(alloc, b"default") else {
        return Err(AllocError);
    };
    families.insert(name, view)?;
    Ok(families)
}

/// The state of a new store.
pub fn fresh(alloc: Global) -> Result<Arc<TableState>, AllocError>
    ensures { IfOk result (λ state. state.value ≡ fresh_state) }
{
    let families = new_families(alloc)?;
    Ok(Arc::new(alloc, State::new(0, false, 0, families, List::new(alloc)))?)
}

/// Publishes the state of a new store anew, as often as it is asked.
#[derive(Drop)]
pub struct Refresher<J: HistoryName, R: Wait + Drop> {
    publisher: Publisher<J, R>,
    state: Arc<TableState>,
}

impl<J: HistoryName, R: Wait + Drop> Model for Refresher<J, R> {
    ghost use Rattle.std.specs.Prelude.{◌≡◌, ◌∷◌, []};
    ghost use Rattle.std.specs.Arc.{arc_value};
    ghost use Rattle.bench_publish.specs.Fresh.{fresh_state};
    ghost use Rattle.st_publish.specs.declared.entry.HistoryEntry.TheVariants.{Opened};

    ghost Value = { Unit {0} };

    ghost view = { λ refresher. tt };

    ghost invariant = { λ refresher. (arc_value refresher.state ≡ fresh_state)
        × (refresher.publisher.list ≡ Opened fresh_state ∷ []) };
}

impl<J: HistoryName, R: Wait + Drop> Refresher<J, R> {
    /// Publishes the state once more.
    #[tactic(auto, using(crate::proofs::Fresh::stands))]
    pub fn show(&mut self) -> Result<(), AllocError> {
        let Refresher { publisher, state } = self;
        publisher.ready(state, 0)?;
        publisher.refresh();
        Ok(())
    }
}

/// A history of a new store, and a viewer for each of so many seats.
#[tactic(auto, using(crate::proofs::Fresh::stands))]
pub fn opened<J: HistoryName, R: Wait + Drop>(
    rt: R,
    alloc: Global,
    blank: BlankHistory,
    seats: u32,
) -> Result<(Refresher<J, R>, Vec<Viewer<J>>), AllocError>
    requires name { blank.seen.book ≡ J.book }
    requires seats { 0 < seats }
{
    let state = fresh(alloc)?;
    let first = state.clone()?;
    let (publisher, viewers) = open_history::<J, R>(rt, alloc, blank, first, seats)?;
    Ok((Refresher { publisher, state }, viewers))
}
