// st_stream: each form in memory, and the helpers over forms that give and take one byte at a time, that stop at a
// limit, and that fail in mid-stream.
ghost use Rattle.std.specs.Prelude.{◌≡◌, ◌≤◌, ◌<◌, [], None, false};
ghost use Rattle.std.proofs.Common.{rules};
ghost use Rattle.st_base.specs.Count.{greatest_count};
ghost use Rattle.st_stream.specs.Inputs.{InputsTold};
ghost use Rattle.st_stream.specs.Sink.{SinkTold};
ghost use Rattle.st_stream.specs.Source.{SourceTold};

use st_base::{Bytes, List, MakeFault, Name};
use st_stream::{
    Failed, FileRead, InputFile, Inputs, MemInputs, MemSink, MemSource, ReadFault, Sink, Source,
    SourceRead, read_file, read_source, write_all,
};
use std::alloc::{AllocError, Global};
use std::test::Fail;

// A file that gives one byte at a time, and whose size may be stated wrongly.
#[derive(Drop)]
struct Dribble {
    bytes: [u8; 3],
    size: u64,
}

impl Inputs for Dribble {
    ghost tells = { λ _. record { known = false; file = λ _. None; faults = greatest_count } };

    ghost counted = { λ _. Prim.search rules };

    fn size(&mut self, _name: &str) -> Result<Option<u64>, Failed> {
        Ok(Some(self.size))
    }

    fn read(&mut self, _name: &str, at: u64, buffer: &mut [u8]) -> Result<usize, Failed> {
        if buffer.is_empty() || at >= 3 {
            return Ok(0);
        }
        buffer[0] = self.bytes[at as usize];
        Ok(1)
    }
}

// A source that gives one byte at a time.
#[derive(Drop)]
struct Drip {
    bytes: [u8; 3],
    given: usize,
}

impl Source for Drip {
    ghost tells = { λ _. record { known = false; left = []; faults = greatest_count } };

    ghost counted = { λ _. Prim.search rules };

    fn read(&mut self, buffer: &mut [u8]) -> Result<usize, Failed> {
        if buffer.is_empty() || self.given >= 3 {
            return Ok(0);
        }
        buffer[0] = self.bytes[self.given];
        self.given += 1;
        Ok(1)
    }
}

// A sink that takes one byte at a time, and fails where it is full.
#[derive(Drop)]
struct Trickle {
    bytes: [u8; 4],
    length: usize,
}

impl Sink for Trickle {
    ghost tells = { λ _. record { known = false; written = []; faults = greatest_count } };

    ghost counted = { λ _. Prim.search rules };

    fn write(&mut self, bytes: &[u8]) -> Result<usize, Failed> {
        match bytes {
            [] => Ok(0),
            [first, ..] if self.length < 4 => {
                self.bytes[self.length] = *first;
                self.length += 1;
                Ok(1)
            }
            _ => Err(Failed),
        }
    }
}

// The first bytes of a long text: 65,536 `a`, and then `b`. More than 65,536 are read in two pieces.
fn text_of(alloc: Global, length: usize) -> Result<Bytes, AllocError> {
    let mut bytes = Bytes::new(alloc);
    for at in 0..length {
        bytes.push(if at < 65_536 { b'a' } else { b'b' })?;
    }
    Ok(bytes)
}

// The file `one` in memory.
fn one_file(alloc: Global, bytes: Bytes, failing: &[u64]) -> Result<MemInputs, MakeFault> {
    let name = Name::new(alloc, b"one")?;
    let mut files = List::new(alloc);
    files.push(InputFile { name, bytes })?;
    Ok(MemInputs::new(files, List::from_slice(alloc, failing)?))
}

// Whether all of the file `one` is read, and is this.
fn gives<I: Inputs>(alloc: Global, inputs: &mut I, limit: u64, wanted: &[u8]) -> bool {
    match read_file(alloc, inputs, "one", limit) {
        Ok(FileRead::Whole(bytes)) => bytes.as_slice() == wanted,
        _ => false,
    }
}

#[test]
fn files_in_memory(rt: HostRuntime) -> Result<(), Fail> {
    let alloc = rt.alloc();
    let mut inputs = one_file(alloc, Bytes::from_slice(alloc, b"abc")?, &[])?;
    assert!(rt; gives(alloc, &mut inputs, 3, b"abc"));
    let read = read_file(alloc, &mut inputs, "one", 2);
    assert!(rt; matches!(read, Ok(FileRead::TooLong)));
    let read = read_file(alloc, &mut inputs, "two", 3);
    assert!(rt; matches!(read, Ok(FileRead::Missing)));
    assert!(rt; inputs.read("two", 0, &mut [0; 2]) == Ok(0));
    Ok(())
}

#[test]
fn files_fail_in_mid_stream(rt: HostRuntime) -> Result<(), Fail> {
    let alloc = rt.alloc();
    let text = text_of(alloc, 70_000)?;
    let mut inputs = one_file(alloc, text.clone()?, &[1, 4])?;
    for _ in 0..2 {
        let read = read_file(alloc, &mut inputs, "one", 70_000);
        assert!(rt; matches!(read, Err(ReadFault::Failed)));
    }
    assert!(rt; gives(alloc, &mut inputs, 70_000, text.as_slice()));
    Ok(())
}

// The size of the file `abc` may be stated as more than 3, and as less.
#[test]
fn files_of_one_byte_at_a_time(rt: HostRuntime) {
    for (size, wanted) in [(9, b"abc".as_slice()), (2, b"ab".as_slice())] {
        let mut inputs = Dribble {
            bytes: *b"abc",
            size,
        };
        assert!(rt; gives(rt.alloc(), &mut inputs, 9, wanted), "{size}");
    }
}

// Reads the first bytes of the text from a source whose call of that number fails.
fn read_text(
    alloc: Global,
    length: usize,
    limit: u64,
    failing: u64,
) -> Result<SourceRead, ReadFault> {
    let failing = List::from_slice(alloc, &[failing])?;
    let mut source = MemSource::new(text_of(alloc, length)?, failing);
    read_source(alloc, &mut source, limit)
}

// Whether what was read is this.
fn is_whole(read: &SourceRead, wanted: &[u8]) -> bool {
    match read {
        SourceRead::Whole(bytes) => bytes.as_slice() == wanted,
        SourceRead::TooLong => false,
    }
}

// Lengths of texts and limits, and whether the text fits.
static LIMITS: [(usize, u64, bool); 9] = [
    (0, 0, true),
    (1, 0, false),
    (3, 3, true),
    (3, 2, false),
    (65_536, 65_536, true),
    (65_536, 65_535, false),
    (65_537, 65_537, true),
    (65_537, 65_536, false),
    (70_000, u64::MAX, true),
];

#[test]
fn ends_and_limits(rt: HostRuntime) -> Result<(), Fail> {
    for (length, limit, fits) in LIMITS.iter() {
        let text = text_of(rt.alloc(), *length)?;
        let read = read_text(rt.alloc(), *length, *limit, 0)?;
        if *fits {
            assert!(rt; is_whole(&read, text.as_slice()), "{length} of {limit}");
        } else {
            assert!(rt; matches!(read, SourceRead::TooLong), "{length} of {limit}");
        }
    }
    Ok(())
}

#[test]
fn sources_fail_in_mid_stream(rt: HostRuntime) -> Result<(), Fail> {
    for call in 1..4 {
        let read = read_text(rt.alloc(), 70_000, 70_000, call);
        assert!(rt; matches!(read, Err(ReadFault::Failed)), "at call {call}");
    }
    let text = text_of(rt.alloc(), 70_000)?;
    let read = read_text(rt.alloc(), 70_000, 70_000, 4)?;
    assert!(rt; is_whole(&read, text.as_slice()));
    Ok(())
}

// A failed read takes nothing: the next one gives the bytes.
#[test]
fn a_failed_read_takes_nothing(rt: HostRuntime) -> Result<(), Fail> {
    let alloc = rt.alloc();
    let failing = List::from_slice(alloc, &[2])?;
    let mut source = MemSource::new(Bytes::from_slice(alloc, b"abc")?, failing);
    let mut buffer = [0; 2];
    for (came, held) in [
        (Ok(2), *b"ab"),
        (Err(Failed), *b"ab"),
        (Ok(1), *b"cb"),
        (Ok(0), *b"cb"),
    ] {
        assert!(rt; source.read(&mut buffer) == came);
        assert!(rt; buffer == held);
    }
    Ok(())
}

#[test]
fn source_of_one_byte_at_a_time(rt: HostRuntime) -> Result<(), Fail> {
    for (limit, fits) in [(3, true), (2, false)] {
        let mut drip = Drip {
            bytes: *b"abc",
            given: 0,
        };
        let read = read_source(rt.alloc(), &mut drip, limit)?;
        assert!(rt; is_whole(&read, b"abc") == fits, "of {limit}");
        assert!(rt; matches!(read, SourceRead::TooLong) != fits, "of {limit}");
    }
    Ok(())
}

#[test]
fn sink_of_one_byte_at_a_time(rt: HostRuntime) {
    let mut sink = Trickle {
        bytes: [0; 4],
        length: 0,
    };
    assert!(rt; write_all(&mut sink, b"abc").is_ok());
    assert!(rt; write_all(&mut sink, b"de").is_err());
    assert!(rt; sink.bytes == *b"abcd");
}

// The second call fails.
#[test]
fn sink_in_memory(rt: HostRuntime) -> Result<(), Fail> {
    let failing = List::from_slice(rt.alloc(), &[2])?;
    let mut sink = MemSink::new(rt.alloc(), failing);
    assert!(rt; write_all(&mut sink, b"abc").is_ok());
    assert!(rt; write_all(&mut sink, b"de").is_err());
    assert!(rt; write_all(&mut sink, b"fg").is_ok());
    assert!(rt; sink.bytes() == b"abcfg".as_slice());
    assert!(rt; sink.starved() == 0);
    Ok(())
}
