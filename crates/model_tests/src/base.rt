// st_base: limits, names, small lists, the scratch, and the lines of faults.

use st_base::{BlockFault, Bytes, Family, Key, Name, Scratch, TableFault, Value};
use std::alloc::{AllocError, Global};
use std::test::Fail;

// Whether the bytes make a key, a family and a name.
fn made(alloc: Global, bytes: &[u8]) -> (bool, bool, bool) {
    (
        Key::new(alloc, bytes).is_ok(),
        Family::new(alloc, bytes).is_ok(),
        Name::new(alloc, bytes).is_ok(),
    )
}

static LENGTHS: [(usize, (bool, bool, bool)); 7] = [
    (0, (true, false, false)),
    (64, (true, true, true)),
    (65, (true, false, true)),
    (255, (true, false, true)),
    (256, (true, false, false)),
    (65_535, (true, false, false)),
    (65_536, (false, false, false)),
];

// Of each length, whether a byte string of so many letters is made.
#[test]
fn limits(rt: HostRuntime) -> Result<(), Fail> {
    for (length, wanted) in LENGTHS.iter() {
        let bytes = vec![in rt.alloc(); b'k'; *length]?;
        assert!(rt; made(rt.alloc(), &bytes) == *wanted, "{length} letters");
    }
    Ok(())
}

#[test]
fn limits_of_values(rt: HostRuntime) -> Result<(), Fail> {
    for (length, wanted) in [(1_048_576, true), (1_048_577, false)] {
        let bytes = vec![in rt.alloc(); b'v'; length]?;
        let made = Value::new(rt.alloc(), &bytes).is_ok();
        assert!(rt; made == wanted, "{length} letters");
    }
    Ok(())
}

static NAMES: [(&str, bool, bool); 8] = [
    ("default", true, true),
    ("a_0", true, true),
    ("A", false, true),
    ("a-b.sst", false, true),
    (".sst", false, false),
    ("-a", false, false),
    ("a/b", false, false),
    ("into", true, false),
];

// Of each text, whether it is the name of a family and of a file. Each is a key.
#[test]
fn names(rt: HostRuntime) {
    for (text, family, name) in NAMES.iter() {
        let made = made(rt.alloc(), text.as_bytes());
        assert!(rt; made == (true, *family, *name), "{text}");
    }
}

// Appends three bytes.
fn grow(bytes: &mut Bytes) -> Result<(), AllocError> {
    bytes.push(b'c')?;
    bytes.reserve(2)?;
    bytes.extend_from_slice(b"de")
}

// A list grows at its end and keeps its front, and a copy has the same elements.
#[test]
fn lists(rt: HostRuntime) -> Result<(), Fail> {
    let mut bytes = Bytes::from_slice(rt.alloc(), b"ab")?;
    grow(&mut bytes)?;
    let mut copy = bytes.clone()?;
    assert!(rt; copy.as_slice() == b"abcde".as_slice());
    copy.truncate(2);
    assert!(rt; copy.as_slice() == b"ab".as_slice());
    Ok(())
}

#[test]
fn a_scratch_keeps_and_adds(rt: HostRuntime) -> Result<(), Fail> {
    let mut scratch = Scratch::new(rt.alloc())?;
    scratch.keep_and_add(0, b"abc");
    scratch.keep_and_add(2, b"xyz");
    assert!(rt; scratch.as_slice() == b"abxyz".as_slice());
    Ok(())
}

// Faults, and the line of each.
static FAULTS: [(TableFault, &str); 4] = [
    (
        TableFault::Sum {
            at: 0,
            stored: 7,
            found: 4_294_967_295,
        },
        "Sum 0 7 4294967295",
    ),
    (
        TableFault::Block(26, BlockFault::Entry(3)),
        "Block 26 Entry 3",
    ),
    (TableFault::ExternalVersion(None), "ExternalVersion -"),
    (TableFault::Kind(2, 9), "Kind 2 9"),
];

#[test]
fn faults_are_printed(rt: HostRuntime) -> Result<(), Fail> {
    for (fault, text) in FAULTS.iter() {
        let printed = fault.to_string(rt.alloc())?;
        assert!(rt; printed.as_str() == *text, "{text}");
    }
    let printed = BlockFault::Restarts.to_string(rt.alloc())?;
    assert!(rt; printed.as_str() == "Restarts");
    Ok(())
}
