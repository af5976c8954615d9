ghost use Rattle.std.specs.Prelude.{◌≡◌, IfOk};
ghost use Rattle.st_base.specs.Bytes.{default_family};
ghost use Rattle.core_model.specs.Run.{new_core};

use crate::families::Families;
use crate::machine::CoreOf;
use st_base::{Family, List, Rows};
use st_version::{FamilyView, State};
use std::alloc::{AllocError, Global};
use std::sync::Arc;

// The name of the family that each store has.
fn default_family(alloc: Global) -> Result<Family, AllocError>
    ensures { IfOk result (λ family. family ≡ default_family) }
{
    match Family::new(alloc, b"default") {
        Ok(family) => Ok(family),
        Err(_) => Err(AllocError),
    }
}

impl<T: Rows + Drop> CoreOf<T> {
    /// The core of a new store, which has the family `default` alone. `behind` says whether it takes files in behind, and
    /// `capacity` what its entries may count together.
    pub fn new(alloc: Global, behind: bool, capacity: u64) -> Result<CoreOf<T>, AllocError>
        ensures { IfOk result (λ core. core ≡ new_core behind capacity) }
    {
        let view = Arc::new(alloc, FamilyView::new(alloc, 0)?)?;
        let mut families = Families::none(alloc);
        families.insert(default_family(alloc)?, view)?;
        let state = State::new(0, behind, 0, families.into_map(), List::new(alloc));
        Ok(CoreOf::opened(alloc, Arc::new(alloc, state)?, 1, capacity))
    }
}
