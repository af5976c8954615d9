//! The plain, slow functions of the list model: each computes one of its definitions, as its contract says.
//!
//! They are what the definitions mean when they are run. The program names none of them: tests call them, and compare
//! faster bodies with them. Here stand reads, changes, the history, contents, and the answers that a state determines.
#![tactic(auto)]

mod answers;
mod applies;
mod histories;
mod kept;
mod reads;

pub use answers::{
    drop_answer, family_of, get_answer, get_at_answer, lower_answer, make_answer, release_answer,
    scan_answer, scan_at_answer, snap_answer, view_answer, write_answer,
};
pub use applies::{apply, file_charge, has_key, push_keys, range_of};
pub use histories::{accepted_calls, change_of, history, is_change, parted, placed_of};
pub use kept::{at_most, contents, sorted_ranges};
pub use reads::{mark_at, read};
