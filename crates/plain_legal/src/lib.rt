//! Which transcripts are legal, as plain, slow functions: each part of a legal run, the line of a reply, and `legal`,
//! which is all of them.
#![tactic(auto)]

mod asks;
mod causes;
mod legality;
mod line;
mod long;
mod places;
mod run;

pub use asks::{ask_rightly, asked_of};
pub use causes::{have_causes, have_numbers_once};
pub use legality::legal;
pub use line::line_of;
pub use long::are_cut_rightly;
pub use places::{all_calls, are_awaits_right, are_in_order, are_places_once, are_within};
pub use run::{after, are_accepted_in_turn, are_answered};
