use st_base::{EntryRef, MarkRef, Rows, Scratch};

/// The counted operations of a family, in entry order: none, or those of a run.
#[derive(Drop)]
pub enum Counted<C: Rows + Drop> {
    Nothing,
    Run(C),
}

impl<C: Rows + Drop> Rows for Counted<C> {
    ghost use Rattle.opening_checks.specs.Counted.{counted_rows};

    ghost rows = { counted_rows C.rows };

    fn len(&self) -> usize {
        match self {
            Counted::Nothing => 0,
            Counted::Run(run) => run.len(),
        }
    }

    fn at<'a>(&'a self, index: usize, scratch: &'a mut Scratch) -> EntryRef<'a> {
        match self {
            Counted::Nothing => unreachable!(),
            Counted::Run(run) => run.at(index, scratch),
        }
    }

    fn lower(&self, key: &[u8], number: u64, scratch: &mut Scratch) -> usize {
        match self {
            Counted::Nothing => 0,
            Counted::Run(run) => run.lower(key, number, scratch),
        }
    }

    fn first(&self) -> Option<&[u8]> {
        match self {
            Counted::Nothing => None,
            Counted::Run(run) => run.first(),
        }
    }

    fn last(&self) -> Option<&[u8]> {
        match self {
            Counted::Nothing => None,
            Counted::Run(run) => run.last(),
        }
    }

    fn newest<'a>(
        &'a self,
        key: &[u8],
        number: u64,
        scratch: &mut Scratch,
    ) -> Option<(u64, MarkRef<'a>)> {
        match self {
            Counted::Nothing => None,
            Counted::Run(run) => run.newest(key, number, scratch),
        }
    }
}
