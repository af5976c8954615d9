ghost use Rattle.std.specs.Prelude.{◌≡◌, ◌≤◌, ◌<◌, List as Items, ℕ, length, min, IfOk, OnOk, OnErr, IsTrue, is_err};
ghost use Rattle.st_base.specs.Count.{Rose, greatest_count};
ghost use Rattle.st_stream.specs.Source.{TakesBytes};
ghost use Rattle.st_outside.specs.FailingCalls.{CountsCall, fails_next};

use crate::{Failed, Source};
use st_base::{Bytes, List};
use st_outside::{FailingCalls, copy_from};

/// A source of bytes in memory, which are known. It fails at the calls that are listed, and at no others, and takes no
/// memory. A read gives all that is left and fits.
#[derive(Drop)]
pub struct MemSource {
    bytes: Bytes,
    given: usize,
    calls: FailingCalls,
    ghost within: { given ≤ length bytes },
}

impl MemSource {
    ghost use Rattle.st_stream.specs.MemSource.{source_told_of, mem_source_told, mem_source_calls};

    /// A source in which these bytes are left. The calls of these numbers, counted from 1, are to fail.
    pub fn new(bytes: Bytes, failing: List<u64>) -> MemSource
        ensures told { mem_source_told result ≡ source_told_of bytes 0 }
        ensures failing { (mem_source_calls result).failing ≡ failing }
        ensures first { (mem_source_calls result).calls ≡ 0 }
    {
        MemSource {
            bytes,
            given: 0,
            calls: FailingCalls::new(failing),
        }
    }
}

impl Source for MemSource {
    ghost use Rattle.st_stream.specs.MemSource.{mem_source_told, mem_source_calls};

    ghost tells = { mem_source_told };

    ghost counted = { λ source. source.calls.small };

    fn read(&mut self, buffer: &mut [u8]) -> Result<usize, Failed>
        ensures taken { IsTrue (mem_source_told self.old).known
            → IfOk result
            (TakesBytes (mem_source_told self.old).left (mem_source_told self.new).left buffer.old buffer.new) }
        ensures untouched { IsTrue (mem_source_told self.old).known
            → OnErr result ((mem_source_told self.new).left ≡ (mem_source_told self.old).left) }
        ensures within { IfOk result (λ n. n ≤ length buffer.old) }
        ensures failed { OnErr result (Rose (mem_source_told self.old).faults (mem_source_told self.new).faults) }
        ensures quiet { OnOk result ((mem_source_told self.new).faults ≡ (mem_source_told self.old).faults) }
        ensures known { (mem_source_told self.new).known ≡ (mem_source_told self.old).known }
        ensures faults { (mem_source_told self.old).faults ≤ (mem_source_told self.new).faults }
        ensures all { IfOk result (λ n. n ≡ min (length buffer.old) (length (mem_source_told self.old).left)) }
        ensures listed { is_err result ≡ fails_next (mem_source_calls self.old) }
        ensures counts { CountsCall (mem_source_calls self.old) (mem_source_calls self.new) }
    {
        self.calls.count_call(true)?;
        let n = copy_from(self.bytes.as_slice(), self.given as u64, buffer);
        self.given += n;
        Ok(n)
    }
}
