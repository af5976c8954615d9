// Build texts and tables.
use crate::outside::{NONE, built, converted, run_source};
use ingest_app::Status;
use st_base::Bytes;
use std::alloc::{AllocError, Global};
use std::process::Abort;
use std::test::Fail;

// A source gives this status and this text.
fn expect(
    rt: &(impl Abort + AllocGlobal),
    form: &str,
    bytes: &[u8],
    status: Status,
    text: &[u8],
) -> Result<(), Fail> {
    let ended = converted(rt.alloc(), form, bytes, NONE)?;
    assert!(rt; ended.is(status, text), "{form}");
    Ok(())
}

// `show` of what `build` writes of a text gives the text back.
fn comes_back(rt: &(impl Abort + AllocGlobal), text: &[u8]) -> Result<(), Fail> {
    let table = built(rt, text)?;
    expect(rt, "show", table.as_slice(), Status::Done, text)
}

#[test]
fn texts_are_refused(rt: HostRuntime) -> Result<(), Fail> {
    for (text, written) in [
        ("", "refused 0 NoEntry\n"),
        ("put a 1\nput a 2\n", "refused 2 NotRising\n"),
        ("put b 1\ndel a\n", "refused 2 NotRising\n"),
        ("put a 1", "refused 1 Line\n"),
        ("put a 1\nput b\n", "refused 2 Line\n"),
        ("put a 1\n\n", "refused 2 Line\n"),
        ("put a \\x41\n", "refused 1 Line\n"),
    ] {
        let (bytes, written) = (text.as_bytes(), written.as_bytes());
        expect(&rt, "build", bytes, Status::Refused, written)?;
    }
    Ok(())
}

// A text of two lines, of which the second has a key of so many letters.
fn long_key(alloc: Global, length: usize) -> Result<Bytes, AllocError> {
    let key = vec![in alloc; b'k'; length]?;
    let mut text = Bytes::from_slice(alloc, b"put \\e \\x00\nput ")?;
    text.extend_from_slice(key.as_slice())?;
    text.extend_from_slice(b" \\e\n")?;
    Ok(text)
}

#[test]
fn long_keys(rt: HostRuntime) -> Result<(), Fail> {
    let text = long_key(rt.alloc(), 65_535)?;
    comes_back(&rt, text.as_slice())?;
    let longer = long_key(rt.alloc(), 65_536)?;
    let written = b"refused 2 TooLarge\n";
    expect(&rt, "build", longer.as_slice(), Status::Refused, written)
}

#[test]
fn texts_come_back(rt: HostRuntime) -> Result<(), Fail> {
    for text in [
        "put a 1\n",
        "del \\e\nput \\x00\\xff \\x5c\\x3d\ndel a\nput b \\e\n",
    ] {
        comes_back(&rt, text.as_bytes())?;
    }
    Ok(())
}

// The table of `put a 1`, as its rule has it.
#[test]
fn the_table_of_one_entry(rt: HostRuntime) -> Result<(), Fail> {
    let table = built(&rt, b"put a 1\n")?;
    assert!(rt; table.len() == 327);
    for (at, bytes) in [
        (
            0,
            b"\x00\x09\x01a\x01\x00\x00\x00\x00\x00\x00\x001\x00\x00\x00\x00\x01\x00\x00\x00".as_slice(),
        ),
        (274, b"\x01\xed\x01\x20\x1a\x16\x00".as_slice()),
        (
            314,
            b"\x00\x02\x00\x00\x00\xf7\xcf\xf4\x85\xb7\x41\xe2\x88".as_slice(),
        ),
    ] {
        let there = table.as_slice().get(at..at + bytes.len());
        assert!(rt; there == Some(bytes), "at {at}");
    }
    Ok(())
}

// The table of `put a 1`, cut to so many bytes, with this byte at this offset, where it is there.
fn changed(
    rt: &(impl Abort + AllocGlobal),
    length: usize,
    at: usize,
    byte: u8,
) -> Result<Bytes, Fail> {
    let table = built(rt, b"put a 1\n")?;
    let mut bytes = table.into_vec();
    bytes.truncate(length);
    if let Some(there) = bytes.get_mut(at) {
        *there = byte;
    }
    Ok(Bytes::from(bytes))
}

// The table with a byte changed is refused, and so is one that is cut.
#[test]
fn damaged_tables(rt: HostRuntime) -> Result<(), Fail> {
    for (length, at, byte, written) in [
        (327, 12, 0x32, "refused Sum 0 3276478267 2004322086\n"),
        (327, 21, 1, "refused Compressed 0\n"),
        (327, 274, 4, "refused Checksum 4\n"),
        (327, 276, 0xff, "refused Handle 275\n"),
        (327, 315, 3, "refused Version 3\n"),
        (327, 326, 0, "refused Magic\n"),
        (27, 27, 0, "refused Short\n"),
    ] {
        let table = changed(&rt, length, at, byte)?;
        expect(
            &rt,
            "show",
            table.as_slice(),
            Status::Refused,
            written.as_bytes(),
        )?;
    }
    Ok(())
}

// `run` converts too, and `convert` does nothing else.
#[test]
fn run_converts(rt: HostRuntime) -> Result<(), Fail> {
    let table = built(&rt, b"put a 1\n")?;
    let ended = run_source(rt.alloc(), "build", b"put a 1\n")?;
    assert!(rt; ended.is(Status::Done, table.as_slice()));
    expect(&rt, "gen", b"", Status::NotYet, b"notyet\n")
}
