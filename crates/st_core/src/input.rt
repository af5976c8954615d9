use st_base::Rows;
use st_memtable::Mem;
use st_version::Held;
use std::sync::Arc;

/// An input of a job, shared: a sealed memtable, or a table in place.
#[derive(Drop)]
pub enum Input<T: Rows + Drop> {
    Memory(Arc<Mem>),
    InPlace(Arc<Held<T>>),
}
