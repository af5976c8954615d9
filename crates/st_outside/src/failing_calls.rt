ghost use Rattle.std.specs.Prelude.{◌≡◌, ◌≤◌, ◌||◌, IsTrue, OnErr, OnOk, is_err, not};
ghost use Rattle.st_base.specs.Count.{greatest_count};
ghost use Rattle.st_outside.specs.Count.{next_count};

use st_base::{Failed, List};

/// The calls of an object in memory: how many have come, and which of them are to fail, by number, counted from 1. Beside
/// these it counts the calls that failed, and those of them that failed since memory was refused. Counts stand still at
/// the greatest number of 64 bits.
#[derive(Drop)]
pub struct FailingCalls {
    pub calls: u64,
    pub failing: List<u64>,
    pub faults: u64,
    pub starved: u64,
    pub ghost small: { faults ≤ greatest_count },
}

impl FailingCalls {
    ghost use Rattle.st_outside.specs.FailingCalls.{CountsCall, CountsFault, fails_next};

    /// No call has come, and those of these numbers are to fail.
    pub fn new(failing: List<u64>) -> FailingCalls
        ensures calls { result.calls ≡ 0 }
        ensures failing { result.failing ≡ failing }
        ensures faults { result.faults ≡ 0 }
        ensures starved { result.starved ≡ 0 }
    {
        FailingCalls {
            calls: 0,
            failing,
            faults: 0,
            starved: 0,
        }
    }

    /// Counts a call, which fails exactly where it isn't possible, or is listed.
    pub fn count_call(&mut self, possible: bool) -> Result<(), Failed>
        ensures listed { is_err result ≡ (not possible || fails_next self.old) }
        ensures possible { OnOk result (IsTrue possible) }
        ensures counts { CountsCall self.old self.new }
        ensures failed { OnErr result (self.new.faults ≡ next_count self.old.faults) }
        ensures passed { OnOk result (self.new.faults ≡ self.old.faults) }
        ensures no_less { self.old.faults ≤ self.new.faults }
        ensures starved { self.new.starved ≡ self.old.starved }
    {
        self.calls = self.calls.saturating_add(1);
        if !possible || self.failing.as_slice().contains(&self.calls) {
            return Err(self.fail());
        }
        Ok(())
    }

    /// Counts that the call fails, and hands the fault out.
    pub fn fail(&mut self) -> Failed
        ensures counts { CountsFault self.old self.new }
        ensures starved { self.new.starved ≡ self.old.starved }
    {
        self.faults = self.faults.saturating_add(1);
        Failed
    }

    /// Counts that the call fails since memory was refused, and hands the fault out.
    pub fn starve(&mut self) -> Failed
        ensures counts { CountsFault self.old self.new }
        ensures starved { self.new.starved ≡ next_count self.old.starved }
    {
        self.starved = self.starved.saturating_add(1);
        self.fail()
    }
}
