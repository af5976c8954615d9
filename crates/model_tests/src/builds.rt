// build_text: build text.

use build_text::{
    BuildFault, build_text_is_read, print_build, push_build_line, read_build, read_word, split_once,
};
use st_base::{Bytes, Entries, Entry, EntryRef, Key, MakeFault, Mark, MarkRef, Value};
use std::alloc::{AllocError, Global};
use std::test::Fail;

// A mark of a build text; no value is a tombstone.
fn mark(alloc: Global, value: Option<&[u8]>) -> Result<Mark, MakeFault> {
    match value {
        Some(value) => Ok(Mark::Put(Value::new(alloc, value)?)),
        None => Ok(Mark::Gone),
    }
}

fn entry(alloc: Global, key: &[u8], value: Option<&[u8]>) -> Result<Entry, MakeFault> {
    let mark = mark(alloc, value)?;
    Ok(Entry {
        key: Key::new(alloc, key)?,
        number: 0,
        mark,
    })
}

// The text and the entries that it stands for, by hand.
static TEXT: &[u8] =
    b"del \\e\nput \\x00 \\e\nput !~ \\x20\\x3d\\x5c\\xff\ndel k\\x0a\nput \\x7f a\n";

fn entries_of_text(alloc: Global) -> Result<Entries, MakeFault> {
    let mut entries = Entries::new(alloc);
    for (key, value) in [
        (b"".as_slice(), None),
        (b"\x00".as_slice(), Some(b"".as_slice())),
        (b"!~".as_slice(), Some(b" =\\\xff".as_slice())),
        (b"k\n".as_slice(), None),
        (b"\x7f".as_slice(), Some(b"a".as_slice())),
    ] {
        entries.push(entry(alloc, key, value)?)?;
    }
    Ok(entries)
}

#[test]
fn texts_are_read_and_printed(rt: HostRuntime) -> Result<(), Fail> {
    build_text_is_read();
    let entries = entries_of_text(rt.alloc())?;
    assert!(rt; read_build(rt.alloc(), TEXT)? == entries);
    assert!(rt; print_build(rt.alloc(), &entries)?.as_slice() == TEXT);
    Ok(())
}

// What the text is refused for, and its line; no name, if it isn't refused.
fn refused(alloc: Global, text: &[u8]) -> (&'static str, u32) {
    if text.len() > 10_000_000 {
        return ("too long for a test", 0);
    }
    match read_build(alloc, text) {
        Ok(_) => ("", 0),
        Err(BuildFault::Line { line }) => ("Line", line),
        Err(BuildFault::TooLarge { line }) => ("TooLarge", line),
        Err(BuildFault::NotRising { line }) => ("NotRising", line),
        Err(BuildFault::NoEntry) => ("NoEntry", 0),
        Err(BuildFault::OutOfMemory) => ("OutOfMemory", 0),
    }
}

// Each text with its first fault and the line of that.
static FAULTY: [(&str, &str, u32); 18] = [
    ("", "NoEntry", 0),
    ("put a 1\nput a 2\n", "NotRising", 2),
    ("put a 1\nput a 1\n", "NotRising", 2),
    ("put \\x61 1\n", "Line", 1),
    ("put a 1", "Line", 1),
    ("del a\nput b 2", "Line", 2),
    ("del a\n\n", "Line", 2),
    ("put a\n", "Line", 1),
    ("del a 1\n", "Line", 1),
    ("get a\n", "Line", 1),
    ("put  a 1\n", "Line", 1),
    ("put a 1 \n", "Line", 1),
    ("put a 1\r\n", "Line", 1),
    ("put a \n", "Line", 1),
    ("put a \\xFF\n", "Line", 1),
    ("put a b=c\n", "Line", 1),
    ("put b 1\ndel a\nput\n", "NotRising", 2),
    ("del b\ndel\ndel a\n", "Line", 2),
];

#[test]
fn texts_are_faulty(rt: HostRuntime) {
    for (text, name, line) in FAULTY.iter() {
        let refused = refused(rt.alloc(), text.as_bytes());
        assert!(rt; refused == (*name, *line), "in {text}");
    }
}

// Appends the line `put K V`, K being so many letters k and V so many letters v.
fn put_long_line(text: &mut Bytes, key: usize, value: usize) -> Result<(), AllocError> {
    text.extend_from_slice(b"put ")?;
    for _ in 0..key {
        text.push(b'k')?;
    }
    text.push(b' ')?;
    for _ in 0..value {
        text.push(b'v')?;
    }
    text.push(b'\n')
}

#[test]
fn limits_are_kept(rt: HostRuntime) -> Result<(), Fail> {
    for (key, value, wanted) in [
        (65_535, 1_048_576, ("", 0)),
        (65_536, 1, ("TooLarge", 2)),
        (1, 1_048_577, ("TooLarge", 2)),
        (65_536, 0, ("Line", 2)),
    ] {
        let mut text = Bytes::from_slice(rt.alloc(), b"put \\e \\x00\n")?;
        put_long_line(&mut text, key, value)?;
        let refused = refused(rt.alloc(), text.as_slice());
        assert!(rt; refused == wanted, "with {key} and {value} bytes");
    }
    Ok(())
}

// Whether the entry sets the key `k` to this value.
fn sets_k(entry: &Entry, wanted: &[u8]) -> bool {
    match &entry.mark {
        Mark::Put(value) => entry.key.as_bytes() == b"k".as_slice() && value.as_bytes() == wanted,
        Mark::Gone => false,
    }
}

#[test]
fn lines_are_read(rt: HostRuntime) -> Result<(), Fail> {
    assert!(rt; split_once(b"del b\nput", b'\n') == Some((b"del b".as_slice(), b"put".as_slice())));
    assert!(rt; split_once(b"del b", b'\n').is_none());
    let entries = read_build(rt.alloc(), b"put k \\x0a\n")?;
    assert!(rt; entries.len() == 1);
    assert!(rt; entries.as_slice().iter().all(|entry| sets_k(entry, b"\n")));
    Ok(())
}

// Whether the word, with room for two bytes, is read as these; or none of it, where none are given.
fn is_word_of(alloc: Global, word: &[u8], wanted: Option<&[u8]>) -> bool {
    let mut scratch = Bytes::new(alloc);
    match read_word(word, 2, &mut scratch) {
        Ok(bytes) => wanted == Some(bytes),
        Err(_) => wanted.is_none(),
    }
}

#[test]
fn words_are_read(rt: HostRuntime) {
    for (word, wanted) in [
        ("ab", Some(b"ab".as_slice())),
        ("\\e", Some(b"".as_slice())),
        ("\\x00b", Some(b"\x00b".as_slice())),
        ("abc", None),
        ("\\x00bc", None),
        ("\\x0", None),
        ("a=", None),
        ("", None),
    ] {
        assert!(rt; is_word_of(rt.alloc(), word.as_bytes(), wanted), "{word}");
    }
}

#[test]
fn lines_are_printed(rt: HostRuntime) -> Result<(), Fail> {
    let entry = EntryRef {
        key: b"k",
        number: 7,
        mark: MarkRef::Put(b"= "),
    };
    let mut out = Bytes::from_slice(rt.alloc(), b">")?;
    push_build_line(&mut out, entry)?;
    assert!(rt; out.as_slice() == b">put k \\x3d\\x20\n".as_slice());
    Ok(())
}
