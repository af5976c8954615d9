ghost use Rattle.std.specs.Prelude.{◌≡◌, IfOk};

use crate::entry::TableState;
use crate::prefix::Prefix;
use atomic_table::{Join, Split};
use crossbeam_utils::rule::{Outcome, Protocol};
use left_right::Absorb;
use std::alloc::AllocError;
use std::marker::Model;
use std::sync::Arc;

/// What `left_right` shows: a state with its place, and the beginning of the history that it stands for.
#[derive(Drop)]
pub struct Published {
    pub(crate) state: Arc<TableState>,
    pub(crate) place: u64,
    pub(crate) prefix: Prefix,
}

impl Model for Published {
    ghost use Rattle.std.specs.Prelude.{◌<◌, ℕ, length};
    ghost use Rattle.std.specs.Arc.{arc_value};
    ghost use Rattle.core_model.specs.StatePicture.{StatePicture};
    ghost use Rattle.st_publish.specs.History.{StandsIn};
    ghost use Rattle.st_publish.specs.Prefix.{PrefixView};

    ghost Value = { (StatePicture × ℕ) × PrefixView };

    ghost view = { λ s. ((arc_value s.state, s.place), s.prefix) };

    ghost invariant = { λ s. (0 < length s.prefix.list) × StandsIn s.prefix.list (arc_value s.state, s.place) };
}

impl Published {
    /// The same, shared once more.
    pub(crate) fn again(&self) -> Result<Published, AllocError>
        ensures { IfOk result (λ s. s ≡ self.now) }
    {
        Ok(Published {
            state: Arc::try_clone(&self.state)?,
            place: self.place,
            prefix: self.prefix.again(),
        })
    }
}

impl Absorb<Published> for Published {
    type State = Published;

    ghost state = { λ s. s };

    ghost applied = { λ _ next. next };

    fn absorb_first(
        &mut self,
        operation: &Published,
        _other: &Published,
    ) -> Result<(), AllocError> {
        *self = operation.again()?;
        Ok(())
    }

    fn absorb_second(&mut self, operation: Published, _other: &Published) -> Result<(), Published> {
        *self = operation;
        Ok(())
    }
}

/// The rule of what viewers take: its history goes on from each that was taken before. A view is what one of them saw.
pub struct Rises;

impl Protocol<Published, Prefix> for Rises {
    ghost use Rattle.st_publish.specs.Prefix.{AllBelow, unseen};

    ghost holds = { λ s. AllBelow s.1 };

    ghost first = { unseen };
}

/// What an entering and a publishing tell.
pub struct Sees;

impl Outcome<Published, Prefix> for Sees {
    ghost use Rattle.std.specs.Prelude.{◌≡◌};
    ghost use Rattle.st_publish.specs.Prefix.{GoesOn};

    ghost then = { λ v x y w. GoesOn v x.1 × (w ≡ y.1) };
}

/// What the publisher tells a viewer before any thread starts.
pub struct Greets;

impl Split<Prefix> for Greets {
    ghost left = { λ v. v };

    ghost right = { λ v. v };
}

impl Join<Prefix> for Greets {
    ghost use Rattle.st_publish.specs.Prefix.{unseen};

    ghost both = { λ v w. w };

    ghost spent = { unseen };
}
