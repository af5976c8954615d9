//! The laws of images: what is tied to a core opens to the contents of its state, in each step of each call and of an
//! opening.
//!
//! Each law is the contract of a function without a body, and its statement stands in `specs/` here or in
//! `store_image`. The engine relies on three kinds: `tied_opens` (an image that is tied to a core opens to the
//! contents of each state that the core stands for); of each call `.._move` (its edits are one group, and an image
//! with all of its records is tied to the core after it) and `step_unnamed` (files that nothing names are free); of
//! an opening `opening_holds` and `opening_steps`.
#![tactic(auto)]

mod laws;

pub use laws::{
    commit_begun, commit_is_group, commit_move, commit_moves, commit_one_record, compact_begun,
    compact_is_group, compact_move, compact_moves, drop_begun, drop_is_group, drop_move,
    drop_moves, edits_keep_named, fields_move, fields_tie, first_reads, flush_begun,
    flush_is_group, flush_move, flush_moves, gone_moves, gone_opens, make_begun, make_is_group,
    make_move, make_moves, named_next, not_table_not_named, opening_holds, opening_steps,
    recovered_stands, reopening_is_crash, roll_begun, roll_is_group, roll_move, roll_opens,
    seal_moves, seal_ties, step_unnamed, swept_ends, table_is_new, tied_opens, unmarked_is_new,
    unrooted_is_new, write_moves,
};
