//! A request with its files as they are seen, and the refusals that hold exactly of it, as plain, slow functions.
#![tactic(auto)]

mod exact;
mod large;
mod request;

pub use exact::{
    Refusals, append, entries_of, exact_refusals, lives_none, lowest_live, meet, meeting,
    range_of_file,
};
pub use large::is_large_refusal;
pub use request::{SeenArgument, SeenFile, is_large, request_of};
