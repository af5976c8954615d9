//! The manifest, which says what the store consists of, and the root file, which names the manifest.
//!
//! A group of edits is laid into records of a gated log, each as full as whole edits allow, and each says how many of
//! its group still follow: a group counts with the record that none follows. So each image of a crash within
//! `Manifest::append_group` has the group's edits or none of them. A layer above speaks of edits and never of bytes.
#![tactic(auto)]

mod append;
mod edit;
mod group;
mod judge;
mod laws;
mod manifest;
mod payload;
mod replay;
mod root;

pub use edit::Edit;
pub use group::{Group, can_be_group};
pub use judge::are_right;
pub use laws::{group_is_atomic, replayed_name_that};
pub use manifest::Manifest;
pub use root::{MARK_FILE, ROOT_FILE, RootRecord, root_append, root_make, root_replay};
