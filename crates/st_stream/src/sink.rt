ghost use Rattle.std.specs.Prelude.{◌≡◌, ◌≤◌, ◌<◌, List, ℕ, length, IfOk, OnErr, OnOk, IsTrue};
ghost use Rattle.st_base.specs.Count.{Rose, greatest_count};
ghost use Rattle.st_stream.specs.Sink.{SinkTold, AppendsFirst};

use crate::Failed;

/// A stream that takes bytes.
pub trait Sink {
    /// What is known to be written.
    ghost tells: { Self → SinkTold };

    /// Writes some of the bytes, from the first on, and answers how many: at least one where there are any. `Failed`
    /// comes only where the count of faults rose in this call, or stands at its end, and then nothing was written. Else the
    /// count stays.
    fn write(&mut self, bytes: &[u8]) -> Result<usize, Failed>
        ensures written { IsTrue (tells self.old).known
            → IfOk result (AppendsFirst (tells self.old).written (tells self.new).written bytes.now) }
        ensures untouched { IsTrue (tells self.old).known
            → OnErr result ((tells self.new).written ≡ (tells self.old).written) }
        ensures within { IfOk result (λ n. n ≤ length bytes.now) }
        ensures some { IfOk result (λ n. 0 < length bytes.now → 0 < n) }
        ensures failed { OnErr result (Rose (tells self.old).faults (tells self.new).faults) }
        ensures quiet { OnOk result ((tells self.new).faults ≡ (tells self.old).faults) }
        ensures known { (tells self.new).known ≡ (tells self.old).known }
        ensures faults { (tells self.old).faults ≤ (tells self.new).faults };

    /// The count stands still at the greatest number of 64 bits.
    ghost counted: { (sink : Self) → (tells sink).faults ≤ greatest_count };
}
