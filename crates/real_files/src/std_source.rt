ghost use Rattle.std.specs.Prelude.{◌≡◌, ◌≤◌, ◌<◌, [], false};
ghost use Rattle.st_stream.specs.Source.{SourceTold};

use st_outside::FaultCount;
use st_stream::{Failed, Source};
use std::io::{ErrorKind, Read};

// How many reads of one call a signal may cut short before the call gives up.
const TRIES: usize = 64;

/// Standard input. It reads nothing ahead. What is left in it isn't known to contracts, so no clause says that a read
/// gives it.
///
/// An error of the system raises the count of faults. A read that a signal cuts short is tried again.
#[derive(Drop)]
pub struct StdSource<R: Input> {
    reader: R::Reader,
    faults: FaultCount,
}

impl<R: Input> StdSource<R> {
    /// The standard input of this runtime.
    pub fn new(rt: &R) -> StdSource<R> {
        StdSource {
            reader: rt.reader(),
            faults: FaultCount::new(),
        }
    }
}

impl<R: Input> Source for StdSource<R> {
    ghost tells = { λ source. record { known = false; left = []; faults = source.faults.count } };

    ghost counted = { λ source. source.faults.small };

    fn read(&mut self, buffer: &mut [u8]) -> Result<usize, Failed> {
        for _ in 0..TRIES {
            match self.reader.read(buffer) {
                Ok(n) => return Ok(n),
                Err(error) if error.kind() == ErrorKind::Interrupted => {}
                Err(_) => break,
            }
        }
        Err(self.faults.fail())
    }
}
