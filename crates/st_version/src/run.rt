use crate::held::Held;
use st_base::{EntryRef, MarkRef, Rows, Scratch};
use std::alloc::AllocError;
use std::sync::Arc;

/// A part of a merge over a family: a sorted run of a memtable, or a table in place. It has the entries of what it holds.
#[derive(Drop)]
pub enum Run<T: Rows + Drop> {
    Memory(st_memtable::Run),
    InPlace(Arc<Held<T>>),
}

impl<T: Rows + Drop> Rows for Run<T> {
    ghost use Rattle.st_version.specs.Run.{entries_of_run};

    ghost rows = { entries_of_run };

    fn len(&self) -> usize {
        match self {
            Run::Memory(run) => run.len(),
            Run::InPlace(table) => table.len(),
        }
    }

    fn at<'a>(&'a self, index: usize, scratch: &'a mut Scratch) -> EntryRef<'a> {
        match self {
            Run::Memory(run) => run.at(index, scratch),
            Run::InPlace(table) => table.at(index, scratch),
        }
    }

    fn lower(&self, key: &[u8], number: u64, scratch: &mut Scratch) -> usize {
        match self {
            Run::Memory(run) => run.lower(key, number, scratch),
            Run::InPlace(table) => table.lower(key, number, scratch),
        }
    }

    fn first(&self) -> Option<&[u8]> {
        match self {
            Run::Memory(run) => run.first(),
            Run::InPlace(table) => table.first(),
        }
    }

    fn last(&self) -> Option<&[u8]> {
        match self {
            Run::Memory(run) => run.last(),
            Run::InPlace(table) => table.last(),
        }
    }

    fn newest<'a>(
        &'a self,
        key: &[u8],
        number: u64,
        scratch: &mut Scratch,
    ) -> Option<(u64, MarkRef<'a>)> {
        match self {
            Run::Memory(run) => run.newest(key, number, scratch),
            Run::InPlace(table) => table.newest(key, number, scratch),
        }
    }
}
