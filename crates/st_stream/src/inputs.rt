ghost use Rattle.std.specs.Prelude.{◌≡◌, ◌≤◌, List, ℕ, length, option_map, IfOk, OnErr, IsTrue};
ghost use Rattle.st_base.specs.Names.{is_name};
ghost use Rattle.st_base.specs.Count.{Rose, greatest_count};
ghost use Rattle.st_stream.specs.Inputs.{InputsTold, InputsUntouched, ReadsAt, bytes_of};

use crate::Failed;

/// Files that are read by name. Reading them leaves them as they are.
///
/// Each call asks for a file's name: 1 to 255 letters, digits, `_`, `.` and `-`, beginning with a letter, a digit or
/// `_`, and not `into`. It answers `Failed` only where the count of faults rose in that call, or stands at its end.
pub trait Inputs {
    /// What is known of the files.
    ghost tells: { Self → InputsTold };

    /// The length of a file in bytes, `None` exactly where the file isn't there.
    fn size(&mut self, name: &str) -> Result<Option<u64>, Failed>
        requires { IsTrue (is_name name.now) }
        ensures size { IsTrue (tells self.old).known
            → IfOk result (λ size. size ≡ option_map length ((tells self.old).file name.now)) }
        ensures failed { OnErr result (Rose (tells self.old).faults (tells self.new).faults) }
        ensures untouched { InputsUntouched (tells self.old) (tells self.new) };

    /// Reads the bytes of a file from `at` on into the buffer, and answers how many came. 0 for a buffer that isn't
    /// empty is the file's end. A file that isn't there has no bytes.
    fn read(&mut self, name: &str, at: u64, buffer: &mut [u8]) -> Result<usize, Failed>
        requires { IsTrue (is_name name.now) }
        ensures bytes { IsTrue (tells self.old).known
            → IfOk result (λ n. ReadsAt (bytes_of ((tells self.old).file name.now)) at buffer.old buffer.new n) }
        ensures within { IfOk result (λ n. n ≤ length buffer.old) }
        ensures failed { OnErr result (Rose (tells self.old).faults (tells self.new).faults) }
        ensures untouched { InputsUntouched (tells self.old) (tells self.new) };

    /// The count stands still at the greatest number of 64 bits.
    ghost counted: { (inputs : Self) → (tells inputs).faults ≤ greatest_count };
}
