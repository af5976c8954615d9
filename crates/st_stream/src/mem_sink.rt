ghost use Rattle.std.specs.Prelude.{◌≡◌, ◌≤◌, ◌<◌, List as Items, ℕ, [], length, IfOk, OnOk, OnErr, IsErr, IsTrue, IsFalse};
ghost use Rattle.st_base.specs.Count.{Rose, greatest_count};
ghost use Rattle.st_stream.specs.Sink.{AppendsFirst};
ghost use Rattle.st_outside.specs.FailingCalls.{CountsCall, fails_next};

use crate::{Failed, Sink};
use st_base::{Bytes, List};
use st_outside::FailingCalls;
use std::alloc::Global;

/// A sink that keeps what is written. It fails at the calls that are listed, and else only where a second count,
/// `starved`, rises together with the count of faults: where memory refuses a growth.
#[derive(Drop)]
pub struct MemSink {
    written: Bytes,
    calls: FailingCalls,
}

impl MemSink {
    ghost use Rattle.st_stream.specs.MemSink.{mem_sink_told, mem_sink_calls, mem_sink_starved};

    /// A sink to which nothing is written. The calls of these numbers, counted from 1, are to fail.
    pub fn new(alloc: Global, failing: List<u64>) -> MemSink
        ensures known { IsTrue (mem_sink_told result).known }
        ensures written { (mem_sink_told result).written ≡ [] }
        ensures faults { (mem_sink_told result).faults ≡ 0 }
        ensures failing { (mem_sink_calls result).failing ≡ failing }
        ensures first { (mem_sink_calls result).calls ≡ 0 }
        ensures starved { mem_sink_starved result ≡ 0 }
    {
        MemSink {
            written: Bytes::new(alloc),
            calls: FailingCalls::new(failing),
        }
    }

    /// The bytes that are written.
    pub fn bytes(&self) -> &[u8]
        ensures { result.now ≡ (mem_sink_told self.now).written }
    {
        self.written.as_slice()
    }

    /// How often memory was refused.
    pub fn starved(&self) -> u64
        ensures { result ≡ mem_sink_starved self.now }
    {
        self.calls.starved
    }
}

impl Sink for MemSink {
    ghost use Rattle.st_stream.specs.MemSink.{mem_sink_told, mem_sink_calls, mem_sink_starved};

    ghost tells = { mem_sink_told };

    ghost counted = { λ sink. sink.calls.small };

    fn write(&mut self, bytes: &[u8]) -> Result<usize, Failed>
        ensures written { IsTrue (mem_sink_told self.old).known
            → IfOk result (AppendsFirst (mem_sink_told self.old).written (mem_sink_told self.new).written bytes.now) }
        ensures untouched { IsTrue (mem_sink_told self.old).known
            → OnErr result ((mem_sink_told self.new).written ≡ (mem_sink_told self.old).written) }
        ensures within { IfOk result (λ n. n ≤ length bytes.now) }
        ensures some { IfOk result (λ n. 0 < length bytes.now → 0 < n) }
        ensures failed { OnErr result (Rose (mem_sink_told self.old).faults (mem_sink_told self.new).faults) }
        ensures quiet { OnOk result ((mem_sink_told self.new).faults ≡ (mem_sink_told self.old).faults) }
        ensures known { (mem_sink_told self.new).known ≡ (mem_sink_told self.old).known }
        ensures faults { (mem_sink_told self.old).faults ≤ (mem_sink_told self.new).faults }
        ensures all { IfOk result (λ n. n ≡ length bytes.now) }
        ensures counts { CountsCall (mem_sink_calls self.old) (mem_sink_calls self.new) }
        ensures listed { IsTrue (fails_next (mem_sink_calls self.old)) → IsErr result }
        ensures unlisted { IsFalse (fails_next (mem_sink_calls self.old))
            → OnErr result (Rose (mem_sink_starved self.old) (mem_sink_starved self.new)) }
        ensures fed { OnOk result (mem_sink_starved self.new ≡ mem_sink_starved self.old) }
    {
        self.calls.count_call(true)?;
        match self.written.extend_from_slice(bytes) {
            Ok(()) => Ok(bytes.len()),
            Err(_) => Err(self.calls.starve()),
        }
    }
}
