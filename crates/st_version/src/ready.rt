ghost use Rattle.std.specs.Prelude.{◌≡◌, ℕ, OnErr, OnOk, Option, None, Some, option_map};
ghost use Rattle.core_model.specs.StatePicture.{StatePicture};

use crate::state::State;
use st_base::Rows;
use std::alloc::AllocError;
use std::marker::Model;
use std::sync::Arc;

/// Who takes the state that a store has next, with its place, before anything of it is on the disk.
///
/// It means the state and place that it took last, and beside these its rest, which `ready` leaves as it was with every
/// answer: of a published history that is what it has published so far.
pub trait Ready<T: Rows + Drop> {
    /// All that it means beside what it took.
    type Rest;

    /// The state and place that it took last.
    ghost taken: { Self → Option (StatePicture × ℕ) };

    ghost rest: { Self → Self.Rest };

    /// Takes the state at this place. An error says that memory ran out, and leaves what it took before.
    fn ready(&mut self, next: &Arc<State<T>>, place: u64) -> Result<(), AllocError>
        ensures taken { OnOk result (taken self.new ≡ Some (next.now.value, place)) }
        ensures kept { OnErr result (taken self.new ≡ taken self.old) }
        ensures rest { rest self.new ≡ rest self.old };
}

/// Keeps the state and place that it took last, and has no rest: for a store without a published history.
#[derive(Drop)]
pub struct Alone<T: Rows + Drop> {
    last: Option<(Arc<State<T>>, u64)>,
}

impl<T: Rows + Drop> Model for Alone<T> {
    ghost use Rattle.std.specs.Prelude.{ℕ, Option};
    ghost use Rattle.core_model.specs.StatePicture.{StatePicture};
    ghost use Rattle.st_version.specs.State.{taken_last};

    ghost Value = { Option (StatePicture × ℕ) };

    ghost view = { λ alone. taken_last alone.last };
}

impl<T: Rows + Drop> Alone<T> {
    /// It took nothing yet.
    pub fn new() -> Alone<T>
        ensures { result ≡ None }
    {
        Alone { last: None }
    }

    /// The state that it took last, with its place.
    pub fn last(&self) -> Option<(&State<T>, u64)>
        ensures { option_map (λ last. (last.0.now, last.1)) result ≡ self.now }
    {
        match &self.last {
            Some(last) => Some((&last.0, last.1)),
            None => None,
        }
    }
}

impl<T: Rows + Drop> Ready<T> for Alone<T> {
    type Rest = ();

    ghost taken = { λ alone. alone };

    ghost rest = { λ alone. tt };

    fn ready(&mut self, next: &Arc<State<T>>, place: u64) -> Result<(), AllocError> {
        self.last = Some((next.clone()?, place));
        Ok(())
    }
}
