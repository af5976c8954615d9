//! What standing in the published history means.
//!
//! The rule of the history knows of a state that it stands for a history (`StandsFor`), and no more. Here that word is
//! tied to the list model and to the core. The laws are functions without bodies.
#![tactic(auto)]

mod laws;

pub use laws::{core_stands_in_history, history_is_the_models, standing_is_a_picture};
