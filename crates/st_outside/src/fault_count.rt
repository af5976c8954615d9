ghost use Rattle.std.specs.Prelude.{◌≡◌, ◌≤◌};
ghost use Rattle.st_base.specs.Count.{greatest_count};
ghost use Rattle.st_outside.specs.Count.{next_count};

use st_base::Failed;

/// How often an object has failed. The count stands still at the greatest number of 64 bits.
#[derive(Drop)]
pub struct FaultCount {
    pub count: u64,
    pub ghost small: { count ≤ greatest_count },
}

impl FaultCount {
    /// No call has failed.
    pub fn new() -> FaultCount
        ensures { result.count ≡ 0 }
    {
        FaultCount { count: 0 }
    }

    /// Counts a fault, and hands it out.
    pub fn fail(&mut self) -> Failed
        ensures { self.new.count ≡ next_count self.old.count }
    {
        self.count = self.count.saturating_add(1);
        Failed
    }
}
