//! The published history: one list of accepted changes, and readers that take states of it without waiting.
//!
//! `open_history` gives the publisher of a history, and a viewer for each seat. The publisher is handed a store's next
//! state (`Ready`), and publishes it as accepted changes, each with its seat. A viewer's `enter` gives a state with its
//! place: it stands for the first changes of the history, so many as its place says. Places never fall, and are no
//! lower than what the viewer was told of. A `Told` is a beginning of the history that may be handed on to any viewer.
//! All clauses speak of one list, the same for the publisher and all viewers. It stands in contracts alone: the code
//! keeps no list of changes.
//!
//! No call of a viewer waits. The publisher's `publish`, `publish_all` and `refresh` wait for readers to leave an old
//! state. They ask for memory, and try again where there is none.
#![tactic(auto)]

mod entry;
mod length_word;
mod naming;
mod opening;
mod prefix;
mod published;
mod publisher;
mod showing;
mod told;
mod viewer;

pub use entry::{Accepted, HistoryEntry, TableState};
pub use length_word::BlankHistory;
pub use naming::{AsChange, HistoryName};
pub use opening::open_history;
pub use publisher::Publisher;
pub use told::Told;
pub use viewer::Viewer;
