/// Which block of a table it is: what its keys are, and how they are ordered.
#[derive(Clone, Copy)]
pub enum BlockKind {
    /// Entries of the table under internal keys. Their order is not looked at when the block is opened.
    Data,
    /// Handles of data blocks under internal keys, in the order of internal keys.
    Index,
    /// Properties, or handles of other blocks, under names in the order of byte strings.
    Plain,
}
