ghost use Rattle.std.specs.Prelude.{◌≡◌, ◌≤◌, ◌<◌, List, ℕ, length, IfOk, OnErr, OnOk, IsTrue};
ghost use Rattle.st_base.specs.Count.{Rose, greatest_count};
ghost use Rattle.st_stream.specs.Source.{SourceTold, TakesBytes};

use crate::Failed;

/// A stream that gives bytes.
pub trait Source {
    /// What is known of the bytes that are left.
    ghost tells: { Self → SourceTold };

    /// Takes some of the bytes that are left, from the first on, into the front of the buffer, and answers how many. 0
    /// for a buffer that isn't empty is the end. `Failed` comes only where the count of faults rose in this call, or
    /// stands at its end, and then nothing was taken. Else the count stays.
    fn read(&mut self, buffer: &mut [u8]) -> Result<usize, Failed>
        ensures taken { IsTrue (tells self.old).known
            → IfOk result (TakesBytes (tells self.old).left (tells self.new).left buffer.old buffer.new) }
        ensures untouched { IsTrue (tells self.old).known
            → OnErr result ((tells self.new).left ≡ (tells self.old).left) }
        ensures within { IfOk result (λ n. n ≤ length buffer.old) }
        ensures failed { OnErr result (Rose (tells self.old).faults (tells self.new).faults) }
        ensures quiet { OnOk result ((tells self.new).faults ≡ (tells self.old).faults) }
        ensures known { (tells self.new).known ≡ (tells self.old).known }
        ensures faults { (tells self.old).faults ≤ (tells self.new).faults };

    /// The count stands still at the greatest number of 64 bits.
    ghost counted: { (source : Self) → (tells source).faults ≤ greatest_count };
}
