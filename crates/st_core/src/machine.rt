ghost use Rattle.std.specs.Prelude.{◌≡◌, [], IfOk, IfSome, is_some, length, nat_le, None};
ghost use Rattle.st_base.specs.Map.{changed_at, value_at};
ghost use Rattle.st_model.specs.State.{greatest_number, has_family};
ghost use Rattle.core_model.specs.Commit.{outline};
ghost use Rattle.core_model.specs.Picture.{FamilyView as FamilyPicture};
ghost use Rattle.core_model.specs.StatePicture.{state_of};
ghost use Rattle.st_core.specs.Written.{AreWithin, IsWithin};

use crate::families::Families;
use crate::job::Job;
use crate::shared::{share, share_all};
use crate::turn::Turn;
use core_model::CoreReply;
use st_base::{Family, GREATEST_NUMBER, List, Listed, Rows};
use st_version::{FamilyView, State};
use std::alloc::{AllocError, Global};
use std::marker::Model;
use std::sync::Arc;

/// The core of a store: what readers see, the changes since the opening, the noted jobs, and the turn that is out.
#[derive(Drop)]
pub struct CoreOf<T: Rows + Drop> {
    pub(crate) alloc: Global,
    pub(crate) state: Arc<State<T>>,
    pub(crate) capacity: u64,
    pub(crate) place: u64,
    pub(crate) next_family: u32,
    pub(crate) jobs: Vec<Arc<Job<T>>>,
    pub(crate) jobs_made: u64,
    pub(crate) turn: Option<Arc<Turn<T>>>,
}

/// A core whose tables are lists of entries in memory.
pub type Core = CoreOf<Listed>;

impl<T: Rows + Drop> Model for CoreOf<T> {
    ghost use Rattle.core_model.specs.Picture.{Core as CorePicture};
    ghost use Rattle.st_core.specs.Shared.{jobs_shared, turn_shared};
    ghost use Rattle.st_core.specs.Written.{AreWithin};

    ghost Value = { CorePicture };

    ghost view = { λ core. record {
      behind = core.state.value.behind;
      capacity = core.capacity;
      place = core.place;
      last = core.state.value.last;
      charge = core.state.value.charge;
      families = core.state.value.families;
      next_family = core.next_family;
      live = core.state.value.live;
      jobs = jobs_shared core.jobs.items;
      jobs_made = core.jobs_made;
      turn = turn_shared core.turn;
    } };

    ghost invariant = { λ core. AreWithin core.state.value.last core.state.value.families };
}

/// What an event does: its answer, and the core after it. It is made beside the core, with all the memory that the event
/// takes.
#[derive(Drop)]
pub struct PreparedStep<T: Rows + Drop> {
    pub reply: CoreReply,
    pub next: CoreOf<T>,
}

impl<T: Rows + Drop> CoreOf<T> {
    /// The core after an opening: at place 0, with this state, and without jobs and turn. The next family gets this id. No
    /// entry of a memtable that is written to may be above the state's last number.
    pub fn opened(alloc: Global, state: Arc<State<T>>, next_family: u32, capacity: u64) -> CoreOf<T>
        requires { AreWithin state.value.last state.value.families }
        ensures state { state_of result ≡ state.value }
        ensures place { result.place ≡ 0 }
        ensures capacity { result.capacity ≡ capacity }
        ensures next_family { result.next_family ≡ next_family }
        ensures jobs { result.jobs ≡ [] }
        ensures jobs_made { result.jobs_made ≡ 0 }
        ensures turn { result.turn ≡ None }
    {
        CoreOf {
            alloc,
            state,
            capacity,
            place: 0,
            next_family,
            jobs: Vec::new(alloc),
            jobs_made: 0,
            turn: None,
        }
    }

    /// What readers see.
    pub fn state(&self) -> &Arc<State<T>>
        ensures { result.now.value ≡ state_of self.now }
    {
        &self.state
    }

    /// How many changes were accepted since the opening.
    pub fn place(&self) -> u64
        ensures { result ≡ self.now.place }
    {
        self.place
    }

    /// Whether the turn of a request is out.
    pub fn turn_out(&self) -> bool
        ensures { result ≡ is_some self.now.turn }
    {
        self.turn.is_some()
    }

    /// Does what was prepared at this core. It takes no memory and isn't refused.
    pub fn accept(&mut self, step: PreparedStep<T>) -> CoreReply
        ensures reply { result ≡ step.reply }
        ensures next { self.new ≡ step.next }
    {
        let PreparedStep { reply, next } = step;
        *self = next;
        reply
    }

    // The core at this place, with this state.
    pub(crate) fn moved(&self, state: State<T>, place: u64) -> Result<CoreOf<T>, AllocError>
        requires { AreWithin state.last state.families }
        ensures { IfOk result (λ core. core ≡ record self.now {
          behind = state.behind;
          place = place;
          last = state.last;
          charge = state.charge;
          families = state.families;
          live = state.live;
        }) }
    {
        Ok(CoreOf {
            alloc: self.alloc,
            state: Arc::new(self.alloc, state)?,
            capacity: self.capacity,
            place,
            next_family: self.next_family,
            jobs: share_all(&self.jobs)?,
            jobs_made: self.jobs_made,
            turn: share(&self.turn)?,
        })
    }

    // The core at this place, with these families.
    pub(crate) fn with_families(
        &self,
        families: Families<T>,
        place: u64,
    ) -> Result<CoreOf<T>, AllocError>
        requires { AreWithin self.now.last families }
        ensures { IfOk result (λ core. core ≡ record self.now { place = place; families = families }) }
    {
        let next = State::new(
            self.state.last(),
            self.state.behind(),
            self.state.charge(),
            families.into_map(),
            List::from_slice(self.alloc, self.state.live())?,
        );
        self.moved(next, place)
    }

    // The core with this view in the place of the one of this name, where there is one: this is each change that makes the
    // view of that one.
    pub(crate) fn with_view(
        &self,
        name: &Family,
        view: Arc<FamilyView<T>>,
    ) -> Result<CoreOf<T>, AllocError>
        requires { IsWithin self.now.last view.value.mem }
        ensures { IfOk result (λ core. (change : FamilyPicture → FamilyPicture)
            → IfSome (value_at self.now.families name.now) (λ family. view.value ≡ change family)
            → core ≡ record self.now { families = changed_at self.now.families name.now change }) }
    {
        let mut families = Families::new(&self.state)?;
        families.replace(name, view);
        self.with_families(families, self.place)
    }

    // The same core.
    pub(crate) fn same(&self) -> Result<CoreOf<T>, AllocError>
        ensures { IfOk result (λ core. core ≡ self.now) }
    {
        Ok(CoreOf {
            alloc: self.alloc,
            state: self.state.clone()?,
            capacity: self.capacity,
            place: self.place,
            next_family: self.next_family,
            jobs: share_all(&self.jobs)?,
            jobs_made: self.jobs_made,
            turn: share(&self.turn)?,
        })
    }

    // This answer, and nothing changes.
    pub(crate) fn stays(&self, reply: CoreReply) -> Result<PreparedStep<T>, AllocError>
        ensures reply { IfOk result (λ step. step.reply ≡ reply) }
        ensures next { IfOk result (λ step. step.next ≡ self.now) }
    {
        Ok(PreparedStep {
            reply,
            next: self.same()?,
        })
    }

    // Whether there is a family of the name.
    pub(crate) fn has_family(&self, name: &Family) -> bool
        ensures { result ≡ has_family (outline self.now) name.now }
    {
        self.state.family(name).is_some()
    }

    // How many families there are.
    pub(crate) fn family_count(&self) -> usize
        ensures { result ≡ length self.now.families }
    {
        self.state.families().len()
    }

    // Whether the place can't grow any more.
    pub(crate) fn is_place_spent(&self) -> bool
        ensures { result ≡ nat_le greatest_number self.now.place }
    {
        self.place >= GREATEST_NUMBER
    }
}
