//! The bytes of an image under the laws of images: what each file is as a root, a manifest, a log or a table, by the
//! definitions of the layers that own its bytes, and what an append to a log does to that.
//!
//! Definitions in `specs/Parts`; `laws` has the laws that the layers above rely on.
#![tactic(auto)]

mod laws;

pub use laws::{group_is_some_more, write_is_all_or_none, write_is_more};
