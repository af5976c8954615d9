/// What stops the walk down the levels.
#[derive(Clone, Copy)]
pub enum Stop {
    /// The entry of the least key in the range: its level, the index of its table there, and its index in the table.
    AtEntry {
        level: u8,
        table: usize,
        entry: usize,
    },
    /// A running job whose outputs at the level may meet the range: its index among the running jobs.
    AtRunning(usize),
}

/// The level of a file, and what stopped the walk.
#[derive(Clone, Copy)]
pub struct Choice {
    pub level: u8,
    pub stopped_by: Option<Stop>,
}
