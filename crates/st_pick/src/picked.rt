use st_base::{KeyRange, List};

/// What a job that is picked takes: its input files, its output level, and the joint range of its inputs.
#[derive(Drop)]
pub struct Picked {
    pub inputs: List<u64>,
    pub level: u8,
    pub range: KeyRange,
}
