//! Whether two replies are the same, variant by variant, as plain functions.
//!
//! `==` isn't derived for replies and refusals, since a derived test says little of a reply that isn't known.
#![tactic(auto)]

mod faults;
mod refusals;
mod replies;

pub use faults::{same_fault, same_why};
pub use refusals::same_refusal;
pub use replies::same_reply;
