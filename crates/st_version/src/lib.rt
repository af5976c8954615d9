//! Views of column families, and the state that readers see.
//!
//! A `FamilyView` is seen as the core's picture of a family (`FamilyView` of `core_model`): memtables and tables as the
//! lists of their entries, in the order in which a read looks at them. So its clauses are words of the core: `find` gives the
//! first mark along the walk, `replace` and the other changes are those of the core's events, and `scan` reads the merged
//! list of the walk. A view never changes; a change gives a new one, which shares all that stays. A `State` has the views of
//! a store by name, and is handed to a `Ready` before anything of it is on the disk.
#![tactic(auto)]

mod finding;
mod fitting;
mod held;
mod laws;
mod levels;
mod parts;
mod ready;
mod replacing;
mod run;
mod state;
mod totals;
mod view;

pub use held::Held;
pub use laws::replace_is_the_cores;
pub use ready::{Alone, Ready};
pub use run::Run;
pub use state::State;
pub use view::FamilyView;
