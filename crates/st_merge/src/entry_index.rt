/// Where an entry of some parts stands: the index of its part, and its index in this part.
#[derive(Clone, Copy)]
pub struct EntryIndex {
    pub part: usize,
    pub index: usize,
}
