ghost use Rattle.std.specs.Prelude.{◌≡◌, ◌==◌, ◌+◌, ◌<◌, ◌∷◌, ◌++◌, [], not, filter, IfNone, IfOk};
ghost use Rattle.st_model.specs.Answer.{is_live, snap_refusals};
ghost use Rattle.st_model.specs.State.{greatest_number};
ghost use Rattle.core_model.specs.Commit.{outline};
ghost use Rattle.core_model.specs.Event.{Snap, Release};
ghost use Rattle.core_model.specs.Run.{IsCoreStep};
ghost use Rattle.core_model.specs.Step.{first_of};

use crate::families::Families;
use crate::machine::{CoreOf, PreparedStep};
use core_model::CoreReply;
use st_base::{List, Rows, SNAPSHOTS};
use st_model::{Refusal, Snapshot};
use st_version::State;
use std::alloc::{AllocError, Global};

// These snapshots, with one more, the newest.
fn with_snapshot(
    alloc: Global,
    live: &[Snapshot],
    one: Snapshot,
) -> Result<List<Snapshot>, AllocError>
    ensures { IfOk result (λ more. more ≡ live.now ++ one ∷ []) }
{
    let mut more = List::from_slice(alloc, live)?;
    more.push(one)?;
    Ok(more)
}

// Takes out the snapshots of the id.
fn remove_snapshot(live: &mut Vec<Snapshot>, id: u64)
    ensures { live.new.items ≡ filter (λ one. not (one.id == id)) live.old.items }
{
    live.retain(|one| one.id != id);
}

// These snapshots without those of the id.
fn without_snapshot(alloc: Global, live: &[Snapshot], id: u64) -> Result<List<Snapshot>, AllocError>
    ensures { IfOk result (λ left. left ≡ filter (λ one. not (one.id == id)) live.now) }
{
    let mut left = Vec::from_slice(alloc, live)?;
    remove_snapshot(&mut left, id);
    Ok(List::from(left))
}

impl<T: Rows + Drop> CoreOf<T> {
    // The core with these snapshots, at the next place.
    fn with_live(&self, live: List<Snapshot>) -> Result<CoreOf<T>, AllocError>
        requires { self.now.place < greatest_number }
        ensures { IfOk result (λ core. core ≡ record self.now { place = self.now.place + 1; live = live }) }
    {
        let families = Families::new(&self.state)?;
        let next = State::new(
            self.state.last(),
            self.state.behind(),
            self.state.charge(),
            families.into_map(),
            live,
        );
        self.moved(next, self.place + 1)
    }

    // Why no snapshot can be taken.
    fn snap_refusal(&self) -> Option<Refusal>
        ensures value { result ≡ first_of (snap_refusals (outline self.now)) }
        ensures place { IfNone result (self.now.place < greatest_number) }
    {
        if self.state.live().len() >= SNAPSHOTS {
            return Some(Refusal::SnapshotsFull);
        }
        if self.is_place_spent() {
            return Some(Refusal::NumbersSpent);
        }
        None
    }

    /// A snapshot is taken.
    pub fn prepare_snap(&self) -> Result<PreparedStep<T>, AllocError>
        ensures { IfOk result (λ step. IsCoreStep self.now Snap step.reply step.next) }
    {
        if self.turn_out() {
            return self.stays(CoreReply::NotNow);
        }
        if let Some(refusal) = self.snap_refusal() {
            return self.stays(CoreReply::Refused(refusal));
        }
        let place = self.place + 1;
        let number = self.state.last();
        let live = with_snapshot(
            self.alloc,
            self.state.live(),
            Snapshot { id: place, number },
        )?;
        Ok(PreparedStep {
            reply: CoreReply::SnapshotTaken(place, place, number),
            next: self.with_live(live)?,
        })
    }

    // Whether a snapshot of the id lives.
    fn is_live(&self, id: u64) -> bool
        ensures { result ≡ is_live (outline self.now) id }
    {
        self.state.live().iter().any(|one| one.id == id)
    }

    /// The snapshot of this id is released.
    pub fn prepare_release(&self, id: u64) -> Result<PreparedStep<T>, AllocError>
        ensures { IfOk result (λ step. IsCoreStep self.now (Release id) step.reply step.next) }
    {
        if self.turn_out() || !self.is_live(id) {
            return self.stays(CoreReply::NotNow);
        }
        if self.is_place_spent() {
            return self.stays(CoreReply::Refused(Refusal::NumbersSpent));
        }
        let live = without_snapshot(self.alloc, self.state.live(), id)?;
        let next = self.with_live(live)?;
        Ok(PreparedStep {
            reply: CoreReply::At(self.place + 1),
            next,
        })
    }
}
