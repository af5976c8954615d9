//! Which compaction of a family is picked, by the sizes of its levels.
//!
//! Levels 0 to 3 are tried downwards. Level 0 is over from 4 tables on, levels 1, 2 and 3 where their charges pass a bound.
//! Of a level that is over the first free job is picked: all tables of level 0, or one table of another level, with those of
//! the next level that meet their joint range. A job is free where no running job goes to the lowest level, takes one of its
//! inputs, or has outputs at its level that may meet them.
#![tactic(auto)]

mod free;
mod joining;
mod picked;
mod picking;

pub use picked::Picked;
pub use picking::pick;
