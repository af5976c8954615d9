use crate::entry::KeyRange;
use crate::list::List;

/// A compaction that runs: the files that it merges, the level of its output, and the joint range of its inputs.
#[derive(Drop, Clone)]
pub struct Running {
    pub inputs: List<u64>,
    pub level: u8,
    pub range: KeyRange,
}

/// A table in place, as the choice of compactions sees it.
#[derive(Drop, Clone)]
pub struct Ranged {
    pub file: u64,
    pub range: KeyRange,
    /// The sum of its entries' charges.
    pub charge: u64,
}

/// The tables of one level: the newest last in level 0, by key elsewhere.
#[derive(Drop, Clone)]
pub struct LevelRanges {
    pub tables: List<Ranged>,
}
