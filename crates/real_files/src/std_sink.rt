ghost use Rattle.std.specs.Prelude.{◌≡◌, ◌≤◌, ◌<◌, [], false};
ghost use Rattle.st_stream.specs.Sink.{SinkTold};

use st_outside::FaultCount;
use st_stream::{Failed, Sink};
use std::io::ErrorKind;

// How many writes of one call a signal may cut short before the call gives up.
const TRIES: usize = 64;

/// Standard output. What it takes is out when the call answers. What was written isn't known to contracts.
///
/// An error of the system raises the count of faults, and so does a write that takes nothing. A write that a signal cuts
/// short is tried again.
#[derive(Drop)]
pub struct StdSink<R: Print> {
    rt: R,
    faults: FaultCount,
}

impl<R: Print> StdSink<R> {
    /// The standard output of this runtime.
    pub fn new(rt: R) -> StdSink<R> {
        StdSink {
            rt,
            faults: FaultCount::new(),
        }
    }
}

impl<R: Print> Sink for StdSink<R> {
    ghost tells = { λ sink. record { known = false; written = []; faults = sink.faults.count } };

    ghost counted = { λ sink. sink.faults.small };

    fn write(&mut self, bytes: &[u8]) -> Result<usize, Failed> {
        for _ in 0..TRIES {
            match self.rt.write_some(bytes) {
                Ok(n) if n > 0 || bytes.is_empty() => return Ok(n),
                Err(error) if error.kind() == ErrorKind::Interrupted => {}
                _ => break,
            }
        }
        Err(self.faults.fail())
    }
}
