ghost use Rattle.std.specs.Prelude.{◌≡◌, ◌<◌, ◌+◌, ◌∷◌, [], IfOk, OnErr, OnOk, vec_len};
ghost use Rattle.core_model.specs.Picture.{new_view};
ghost use Rattle.st_base.specs.Bytes.{default_family};
ghost use Rattle.st_version.specs.State.{named_views};
ghost use Rattle.publish_tests.specs.Snapshots.{IsOfSnaps, snapped, snapshots};

use st_base::{Family, List};
use st_model::Snapshot;
use st_publish::{
    AsChange, BlankHistory, HistoryName, Publisher, TableState, Told, Viewer, open_history,
};
use st_table::Table;
use st_version::{FamilyView, Ready, State};
use std::alloc::{AllocError, Global};
use std::collections::BTreeMap;
use std::marker::Model;
use std::sync::{Arc, Wait};

/// A snapshot that is taken.
pub struct Snaps;

impl AsChange<()> for Snaps {
    ghost use Rattle.std.specs.Prelude.{[]};
    ghost use Rattle.st_model.specs.declared.change.Change.TheVariants.{Snap};

    ghost change = { λ said. Snap };

    ghost files = { λ said. [] };
}

// The snapshots of the places from 1 to this one.
fn snapshots(alloc: Global, place: u64) -> Result<List<Snapshot>, AllocError>
    ensures { IfOk result (λ live. live ≡ snapshots place) }
{
    let mut live = List::new(alloc);
    for before in 0..place {
        live.push(Snapshot {
            id: before + 1,
            number: 0,
        })?;
    }
    Ok(live)
}

// The one family of a new store.
fn new_families(alloc: Global) -> Result<BTreeMap<Family, Arc<FamilyView<Arc<Table>>>>, AllocError>
    ensures { IfOk result (λ map. named_views map.entries ≡ (default_family, new_view 0) ∷ []) }
{
    let mut families = BTreeMap::new(alloc);
    let view = Arc::new(alloc, FamilyView::new(alloc, 0)?)?;
    let Ok(name) = Family::new(alloc, b"default") else {
        return Err(AllocError);
    };
    families.insert(name, view)?;
    Ok(families)
}

/// The state at a place.
pub fn snapped(alloc: Global, place: u64) -> Result<Arc<TableState>, AllocError>
    ensures { IfOk result (λ state. state.value ≡ snapped place) }
{
    let families = new_families(alloc)?;
    let live = snapshots(alloc, place)?;
    Ok(Arc::new(alloc, State::new(0, false, 0, families, live))?)
}

/// A publisher whose history takes one snapshot after the other, and may stop. It means the place that it has come to.
#[derive(Drop)]
pub struct Snapper<J: HistoryName, R: Wait + Drop> {
    publisher: Publisher<J, R>,
    place: u64,
}

impl<J: HistoryName, R: Wait + Drop> Model for Snapper<J, R> {
    ghost use Rattle.std.specs.Prelude.{ℕ};
    ghost use Rattle.publish_tests.specs.Snapshots.{IsOfSnaps};

    ghost Value = { ℕ };

    ghost view = { λ snapper. snapper.place };

    ghost invariant = { λ snapper. IsOfSnaps snapper.publisher.list snapper.place };
}

impl<J: HistoryName, R: Wait + Drop> Snapper<J, R> {
    /// At the place 0.
    pub fn new(publisher: Publisher<J, R>) -> Snapper<J, R>
        requires { IsOfSnaps publisher.list 0 }
    {
        Snapper {
            publisher,
            place: 0,
        }
    }

    /// Takes one more snapshot, and publishes it. There are at most 1,000.
    pub fn snap(&mut self, alloc: Global) -> Result<Told<J>, AllocError> {
        let Snapper { publisher, place } = self;
        if *place >= 1_000 {
            return Err(AllocError);
        }
        let told = snap(alloc, publisher, *place)?;
        *place = *place + 1;
        Ok(told)
    }

    /// Publishes the same state anew.
    #[tactic(auto, using(crate::proofs::OfCore::stands))]
    pub fn refresh(&mut self, alloc: Global) -> Result<(), AllocError> {
        let Snapper { publisher, place } = self;
        let state = snapped(alloc, *place)?;
        publisher.ready(&state, *place)?;
        publisher.refresh();
        Ok(())
    }

    /// Notes a stop, if there is room for it. Whether one was noted then.
    #[tactic(auto, using(crate::proofs::OfCore::stop_snaps))]
    pub fn stop(&mut self) -> bool {
        let Snapper {
            publisher,
            place: _,
        } = self;
        if publisher.has_room() {
            publisher.stop();
        }
        publisher.is_stopped()
    }

    /// The history so far.
    pub fn tell(&self) -> Told<J> {
        self.publisher.tell()
    }
}

// Takes one more snapshot, behind those of the places up to this one, and publishes it.
#[tactic(auto, using(crate::proofs::OfCore::next_stands, crate::proofs::OfCore::more_snaps, st_publish::proofs::Meaning::snap_quiet))]
fn snap<J: HistoryName, R: Wait + Drop>(
    alloc: Global,
    publisher: &mut Publisher<J, R>,
    place: u64,
) -> Result<Told<J>, AllocError>
    requires history { IsOfSnaps publisher.old.list place }
    requires place { place < 1000 }
    ensures ok { OnOk result (IsOfSnaps publisher.new.list (place + 1)) }
    ensures err { OnErr result (publisher.new.list ≡ publisher.old.list) }
{
    if !publisher.has_room() {
        return Err(AllocError);
    }
    let state = snapped(alloc, place + 1)?;
    publisher.ready(&state, place + 1)?;
    Ok(publisher.publish::<(), Snaps>(0, &()))
}

/// A history that begins with a new store, with a viewer for each of so many seats.
#[tactic(auto, using(crate::proofs::OfCore::stands, crate::proofs::OfCore::opened_snaps))]
pub fn opened<J: HistoryName, R: Wait + Drop>(
    rt: R,
    alloc: Global,
    blank: BlankHistory,
    seats: u32,
) -> Result<(Snapper<J, R>, Vec<Viewer<J>>), AllocError>
    requires name { blank.seen.book ≡ J.book }
    requires seats { 0 < seats }
    ensures { IfOk result (λ r. vec_len r.1 ≡ seats) }
{
    let state = snapped(alloc, 0)?;
    let (publisher, viewers) = open_history::<J, R>(rt, alloc, blank, state, seats)?;
    Ok((Snapper::new(publisher), viewers))
}

/// Whether the state is that at the place.
pub fn is_snapped(state: &TableState, place: u64) -> bool {
    let live = state.live();
    if live.len() as u64 != place {
        return false;
    }
    for (index, snapshot) in live.iter().enumerate() {
        if snapshot.id != index as u64 + 1 || snapshot.number != 0 {
            return false;
        }
    }
    true
}
