//! The checks with which an opening finds damaged tables and logs, over tables in place and operations that were read.
//!
//! An opening names the first damage of an image. What is here computes the parts of that definition (`image_damage` of
//! `store_image`) which need no disk: the place of the first operation whose number doesn't rise (`unrisen`), whether a key
//! of a table stands twice (`has_twice`), the least file of a table that meets another of its level (`least_meeting`), and
//! the least file of a table whose numbers don't fall along the walk (`least_unfallen`). Each holds for every list of
//! tables and operations, also for those that no store writes. Tables are read where they lie, and none is copied.
#![tactic(auto)]

mod counted;
mod heads;
mod least;
mod logs;
mod meeting;
mod passed;
mod repeats;
mod unfallen;
mod walk;

pub use counted::Counted;
pub use logs::{last_number, unrisen};
pub use meeting::{are_by_first_key, least_meeting, least_meeting_in};
pub use repeats::has_twice;
pub use unfallen::least_unfallen;
