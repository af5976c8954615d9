// cmd_text: client files, and the lines of replies.

use build_text::word_is_read;
use cmd_text::{LineFault, ScriptFault, print_reply, push_reply, read_reply, read_script};
use st_base::{BlockFault, Bytes, Family, Key, KeyRange, List, MakeFault, TableFault, Value};
use st_model::{Command, FileAt, Op, Placed, Refusal, Reply, Why};
use std::alloc::{AllocError, Global};
use std::test::Fail;

// How many commands the text has, or its first faulty line; 0 where memory runs out.
fn count(alloc: Global, text: &str) -> Result<usize, u32> {
    if text.len() > 1000 {
        return Err(0);
    }
    match read_script(alloc, text.as_bytes()) {
        Ok(script) => Ok(script.commands.len()),
        Err(ScriptFault::Line(line)) => Err(line),
        Err(ScriptFault::OutOfMemory) => Err(0),
    }
}

// Client files, and how many commands each has.
static COMMANDS: [(&str, usize); 8] = [
    ("", 0),
    ("\n\n", 0),
    ("#put default k 1\n", 0),
    ("get default k", 1),
    ("del default k\n", 1),
    ("# note\nput default k 1\n\nget default k", 2),
    ("put p_0 !~ {}\nput p_0 a 1\nget p_0 !~\n", 3),
    ("put default \\x20 1\nget default \\x20\ndel default \\e", 3),
];

#[test]
fn lines_are_commands(rt: HostRuntime) {
    for (text, commands) in COMMANDS.iter() {
        assert!(rt; count(rt.alloc(), text) == Ok(*commands), "in {text}");
    }
}

// Texts, and the first faulty line of each.
static FAULTY: [(&str, u32); 15] = [
    ("gut default k", 1),
    ("put default k", 1),
    ("put  default k 1", 1),
    ("get default k ", 1),
    ("get default k 1", 1),
    ("get Default k", 1),
    (" # note", 1),
    ("# note\n\nget default k\nget default a=b\n", 4),
    ("get default k\nget default \\x41", 2),
    ("get default \\xFF", 1),
    ("get default \\E", 1),
    ("get default \\", 1),
    ("get default \\x2", 1),
    ("put default k ", 1),
    ("get default k\r\n", 1),
];

#[test]
fn lines_are_faulty(rt: HostRuntime) {
    for (text, line) in FAULTY.iter() {
        assert!(rt; count(rt.alloc(), text) == Err(*line), "in {text}");
    }
}

// Whether the family and the key are these.
fn names(family: &Family, key: &Key, wanted: (&[u8], &[u8])) -> bool {
    family.as_bytes() == wanted.0 && key.as_bytes() == wanted.1
}

// Whether the operation sets the family's key to the value.
fn puts(op: &Op, wanted: (&[u8], &[u8]), wanted_value: &[u8]) -> bool {
    match op {
        Op::Put(family, key, value) => {
            names(family, key, wanted) && value.as_bytes() == wanted_value
        }
        Op::Del(_, _) => false,
    }
}

// Whether the command is a write of one such operation.
fn writes(command: &Command, wanted: (&[u8], &[u8]), value: &[u8]) -> bool {
    match command {
        Command::Write(batch) => match batch.ops.as_slice() {
            [op] => puts(op, wanted, value),
            _ => false,
        },
        _ => false,
    }
}

// Whether the command reads the family's key.
fn gets(command: &Command, wanted: (&[u8], &[u8])) -> bool {
    match command {
        Command::Get(family, key) => names(family, key, wanted),
        _ => false,
    }
}

#[test]
fn commands_are_read(rt: HostRuntime) -> Result<(), Fail> {
    let script = read_script(rt.alloc(), b"\nput p k\\x00 \\e\nget p k")?;
    let read = match script.commands.as_slice() {
        [put, get] => {
            put.line == 2
                && writes(&put.command, (b"p", b"k\x00"), b"")
                && get.line == 3
                && gets(&get.command, (b"p", b"k"))
        }
        _ => false,
    };
    assert!(rt; read);
    Ok(())
}

// ---- replies

// The bytes of a key or a value.
type Shown = &'static [u8];

// A reply of these parts.
#[derive(Clone, Copy)]
enum ShownReply {
    Written(u64),
    Found(Shown),
    Nothing,
    View(&'static [Option<Shown>]),
    Pairs(&'static [(Shown, Shown)]),
    Snapshot(u64),
    Released,
    Made,
    Dropped,
    Flushed,
    Compacted,
    Ingested(&'static [Placed]),
    Await,
    Long,
}

fn found(alloc: Global, bytes: &[u8]) -> Result<Reply, MakeFault> {
    Ok(Reply::Found(Value::new(alloc, bytes)?))
}

// Puts the value, where there is one, at the end.
fn push_read(
    alloc: Global,
    values: &mut List<Option<Value>>,
    read: Option<Shown>,
) -> Result<(), MakeFault> {
    let value = match read {
        None => None,
        Some(bytes) => Some(Value::new(alloc, bytes)?),
    };
    Ok(values.push(value)?)
}

fn view(alloc: Global, reads: &[Option<Shown>]) -> Result<Reply, MakeFault> {
    let mut values = List::new(alloc);
    for read in reads {
        push_read(alloc, &mut values, *read)?;
    }
    Ok(Reply::View(values))
}

// Puts the pair at the end.
fn push_pair(
    alloc: Global,
    pairs: &mut List<(Key, Value)>,
    pair: (Shown, Shown),
) -> Result<(), MakeFault> {
    let key = Key::new(alloc, pair.0)?;
    let value = Value::new(alloc, pair.1)?;
    Ok(pairs.push((key, value))?)
}

fn scanned(alloc: Global, shown: &[(Shown, Shown)]) -> Result<Reply, MakeFault> {
    let mut pairs = List::new(alloc);
    for pair in shown {
        push_pair(alloc, &mut pairs, *pair)?;
    }
    Ok(Reply::Pairs(pairs))
}

fn ingested(alloc: Global, placed: &[Placed]) -> Result<Reply, MakeFault> {
    Ok(Reply::Ingested(List::from_slice(alloc, placed)?))
}

fn reply(alloc: Global, shown: ShownReply) -> Result<Reply, MakeFault> {
    match shown {
        ShownReply::Written(number) => Ok(Reply::Written(number)),
        ShownReply::Found(bytes) => found(alloc, bytes),
        ShownReply::Nothing => Ok(Reply::Nothing),
        ShownReply::View(reads) => view(alloc, reads),
        ShownReply::Pairs(pairs) => scanned(alloc, pairs),
        ShownReply::Snapshot(number) => Ok(Reply::Snapshot(number)),
        ShownReply::Released => Ok(Reply::Released),
        ShownReply::Made => Ok(Reply::Made),
        ShownReply::Dropped => Ok(Reply::Dropped),
        ShownReply::Flushed => Ok(Reply::Flushed),
        ShownReply::Compacted => Ok(Reply::Compacted),
        ShownReply::Ingested(placed) => ingested(alloc, placed),
        ShownReply::Await => Ok(Reply::Await),
        ShownReply::Long => Ok(Reply::Long),
    }
}

// Whether the place and the reply print as the line, also after other bytes.
fn is_printed(alloc: Global, place: u64, reply: &Reply, line: &str) -> Result<bool, AllocError> {
    let printed = print_reply(alloc, place, reply)?;
    let mut out = Bytes::from_slice(alloc, b">")?;
    push_reply(&mut out, place, reply)?;
    Ok(printed.as_slice() == line.as_bytes() && out.len() == line.len().saturating_add(1))
}

// Whether the line is read as the place and a reply that print as it again.
fn is_read(alloc: Global, place: u64, line: &str) -> Result<bool, LineFault> {
    let (read_place, read) = read_reply(alloc, line.as_bytes())?;
    Ok(read_place == place && is_printed(alloc, place, &read, line)?)
}

// Whether the place and the reply print as the line, and it is read as what prints as it again.
fn is_line_of(alloc: Global, place: u64, reply: Reply, line: &str) -> Result<bool, LineFault> {
    let printed = is_printed(alloc, place, &reply, line)?;
    Ok(printed && is_read(alloc, place, line)?)
}

// Places and replies, and the line of each.
static REPLIES: [(u64, ShownReply, &str); 24] = [
    (1, ShownReply::Written(1), "1 written 1\n"),
    (
        72_057_594_037_927_935,
        ShownReply::Written(18_446_744_073_709_551_615),
        "72057594037927935 written 18446744073709551615\n",
    ),
    (1, ShownReply::Found(b"1"), "1 value 1\n"),
    (
        0,
        ShownReply::Found(b"\x00a\\= \xff"),
        "0 value \\x00a\\x5c\\x3d\\x20\\xff\n",
    ),
    (0, ShownReply::Found(b""), "0 value \\e\n"),
    (2, ShownReply::Nothing, "2 none\n"),
    (0, ShownReply::View(&[]), "0 view\n"),
    (3, ShownReply::View(&[None]), "3 view -\n"),
    (
        3,
        ShownReply::View(&[Some(b"1"), None, Some(b""), Some(b"-")]),
        "3 view =1 - =\\e =-\n",
    ),
    (0, ShownReply::Pairs(&[]), "0 scan\n"),
    (4, ShownReply::Pairs(&[(b"a", b"1")]), "4 scan a=1\n"),
    (
        4,
        ShownReply::Pairs(&[(b"", b""), (b"a=", b"=b"), (b"b c", b"\n")]),
        "4 scan \\e=\\e a\\x3d=\\x3db b\\x20c=\\x0a\n",
    ),
    (5, ShownReply::Snapshot(0), "5 snapshot 0\n"),
    (6, ShownReply::Released, "6 released\n"),
    (7, ShownReply::Made, "7 made\n"),
    (8, ShownReply::Dropped, "8 dropped\n"),
    (9, ShownReply::Flushed, "9 flushed\n"),
    (10, ShownReply::Compacted, "10 compacted\n"),
    (11, ShownReply::Ingested(&[]), "11 ingested\n"),
    (
        12,
        ShownReply::Ingested(&[Placed {
            file: 4,
            level: 6,
            number: 0,
        }]),
        "12 ingested 4@6#0\n",
    ),
    (
        12,
        ShownReply::Ingested(&[
            Placed {
                file: 10,
                level: 0,
                number: 7,
            },
            Placed {
                file: 11,
                level: 255,
                number: 18_446_744_073_709_551_615,
            },
        ]),
        "12 ingested 10@0#7 11@255#18446744073709551615\n",
    ),
    (13, ShownReply::Await, "13 await\n"),
    (14, ShownReply::Long, "14 long\n"),
    (100, ShownReply::Nothing, "100 none\n"),
];

#[test]
fn replies_are_printed(rt: HostRuntime) -> Result<(), Fail> {
    word_is_read();
    for (place, shown, line) in REPLIES.iter() {
        let reply = reply(rt.alloc(), *shown)?;
        assert!(rt; is_line_of(rt.alloc(), *place, reply, line)?, "{line}");
    }
    Ok(())
}

// ---- refusals

// Why a file needs a number or can't go to the last level, of these parts.
#[derive(Clone, Copy)]
enum ShownWhy {
    Key(Shown),
    Running(Shown, Shown),
    Snapshot(u64),
    Files(u32, u32),
    Meets(Shown, Shown),
}

// A refusal of these parts.
#[derive(Clone, Copy)]
enum ShownRefusal {
    EmptyRequest,
    NoFiles(u32),
    FamilyTwice(u32),
    TooManyFiles,
    FileMissing(FileAt),
    InputFault(FileAt),
    BadTable(FileAt, TableFault),
    NoEntry(FileAt),
    FilesMeet(FileAt, u32),
    Stopped,
    UnknownFamily(Shown),
    BehindNotEnabled(u32),
    SnapshotsLive(u32, u64),
    FlushNeeded(FileAt, Shown),
    BehindDoesNotFit(FileAt, Shown, Shown),
    NeedsSequence(FileAt, ShownWhy),
    NotLastLevel(FileAt, u8, ShownWhy),
    NumbersSpent,
    StoreFull,
    DiskFault,
    FamilyExists(Shown),
    DefaultStays,
    FamiliesFull,
    SnapshotsFull,
    SnapshotGone(u64),
}

fn range(alloc: Global, first: &[u8], last: &[u8]) -> Result<KeyRange, MakeFault> {
    let first = Key::new(alloc, first)?;
    let last = Key::new(alloc, last)?;
    Ok(KeyRange { first, last })
}

fn key_why(alloc: Global, key: &[u8]) -> Result<Why, MakeFault> {
    Ok(Why::Key(Key::new(alloc, key)?))
}

fn running(alloc: Global, first: &[u8], last: &[u8]) -> Result<Why, MakeFault> {
    Ok(Why::Running(range(alloc, first, last)?))
}

fn meets(alloc: Global, first: &[u8], last: &[u8]) -> Result<Why, MakeFault> {
    Ok(Why::Meets(range(alloc, first, last)?))
}

fn why(alloc: Global, shown: ShownWhy) -> Result<Why, MakeFault> {
    match shown {
        ShownWhy::Key(key) => key_why(alloc, key),
        ShownWhy::Running(first, last) => running(alloc, first, last),
        ShownWhy::Snapshot(number) => Ok(Why::Snapshot(number)),
        ShownWhy::Files(first, second) => Ok(Why::Files(first, second)),
        ShownWhy::Meets(first, last) => meets(alloc, first, last),
    }
}

fn unknown_family(alloc: Global, name: &[u8]) -> Result<Refusal, MakeFault> {
    Ok(Refusal::UnknownFamily(Family::new(alloc, name)?))
}

fn family_exists(alloc: Global, name: &[u8]) -> Result<Refusal, MakeFault> {
    Ok(Refusal::FamilyExists(Family::new(alloc, name)?))
}

fn flush_needed(alloc: Global, at: FileAt, key: &[u8]) -> Result<Refusal, MakeFault> {
    Ok(Refusal::FlushNeeded(at, Key::new(alloc, key)?))
}

fn does_not_fit(
    alloc: Global,
    at: FileAt,
    first: &[u8],
    last: &[u8],
) -> Result<Refusal, MakeFault> {
    Ok(Refusal::BehindDoesNotFit(at, range(alloc, first, last)?))
}

fn needs_sequence(alloc: Global, at: FileAt, cause: ShownWhy) -> Result<Refusal, MakeFault> {
    Ok(Refusal::NeedsSequence(at, why(alloc, cause)?))
}

fn not_last_level(
    alloc: Global,
    at: FileAt,
    level: u8,
    cause: ShownWhy,
) -> Result<Refusal, MakeFault> {
    Ok(Refusal::NotLastLevel(at, level, why(alloc, cause)?))
}

// A refusal that has keys or a name among its parts; any other is `Stopped`.
fn long_refusal(alloc: Global, shown: ShownRefusal) -> Result<Refusal, MakeFault> {
    match shown {
        ShownRefusal::UnknownFamily(name) => unknown_family(alloc, name),
        ShownRefusal::FamilyExists(name) => family_exists(alloc, name),
        ShownRefusal::FlushNeeded(at, key) => flush_needed(alloc, at, key),
        ShownRefusal::BehindDoesNotFit(at, first, last) => does_not_fit(alloc, at, first, last),
        ShownRefusal::NeedsSequence(at, cause) => needs_sequence(alloc, at, cause),
        ShownRefusal::NotLastLevel(at, level, cause) => not_last_level(alloc, at, level, cause),
        _ => Ok(Refusal::Stopped),
    }
}

fn refusal(alloc: Global, shown: ShownRefusal) -> Result<Refusal, MakeFault> {
    match shown {
        ShownRefusal::EmptyRequest => Ok(Refusal::EmptyRequest),
        ShownRefusal::NoFiles(argument) => Ok(Refusal::NoFiles(argument)),
        ShownRefusal::FamilyTwice(argument) => Ok(Refusal::FamilyTwice(argument)),
        ShownRefusal::TooManyFiles => Ok(Refusal::TooManyFiles),
        ShownRefusal::FileMissing(at) => Ok(Refusal::FileMissing(at)),
        ShownRefusal::InputFault(at) => Ok(Refusal::InputFault(at)),
        ShownRefusal::BadTable(at, fault) => Ok(Refusal::BadTable(at, fault)),
        ShownRefusal::NoEntry(at) => Ok(Refusal::NoEntry(at)),
        ShownRefusal::FilesMeet(at, file) => Ok(Refusal::FilesMeet(at, file)),
        ShownRefusal::BehindNotEnabled(argument) => Ok(Refusal::BehindNotEnabled(argument)),
        ShownRefusal::SnapshotsLive(argument, number) => {
            Ok(Refusal::SnapshotsLive(argument, number))
        }
        ShownRefusal::NumbersSpent => Ok(Refusal::NumbersSpent),
        ShownRefusal::StoreFull => Ok(Refusal::StoreFull),
        ShownRefusal::DiskFault => Ok(Refusal::DiskFault),
        ShownRefusal::DefaultStays => Ok(Refusal::DefaultStays),
        ShownRefusal::FamiliesFull => Ok(Refusal::FamiliesFull),
        ShownRefusal::SnapshotsFull => Ok(Refusal::SnapshotsFull),
        ShownRefusal::SnapshotGone(id) => Ok(Refusal::SnapshotGone(id)),
        other => long_refusal(alloc, other),
    }
}

// The second file of the first argument, and one of the greatest numbers.
const SECOND: FileAt = FileAt { arg: 1, file: 2 };

const LAST: FileAt = FileAt {
    arg: 4_294_967_295,
    file: 4_294_967_295,
};

// Refusals, and the line of each at the place 3.
static REFUSALS: [(ShownRefusal, &str); 31] = [
    (ShownRefusal::EmptyRequest, "3 refused 1 EmptyRequest\n"),
    (ShownRefusal::NoFiles(2), "3 refused 2 NoFiles 2\n"),
    (ShownRefusal::FamilyTwice(2), "3 refused 3 FamilyTwice 2\n"),
    (ShownRefusal::TooManyFiles, "3 refused 4 TooManyFiles\n"),
    (
        ShownRefusal::FileMissing(SECOND),
        "3 refused 5 FileMissing 1 2\n",
    ),
    (
        ShownRefusal::InputFault(LAST),
        "3 refused 6 InputFault 4294967295 4294967295\n",
    ),
    (
        ShownRefusal::BadTable(SECOND, TableFault::Short),
        "3 refused 7 BadTable 1 2 Short\n",
    ),
    (ShownRefusal::NoEntry(SECOND), "3 refused 8 NoEntry 1 2\n"),
    (
        ShownRefusal::FilesMeet(SECOND, 3),
        "3 refused 9 FilesMeet 1 2 3\n",
    ),
    (ShownRefusal::Stopped, "3 refused 10 Stopped\n"),
    (
        ShownRefusal::UnknownFamily(b"p"),
        "3 refused 11 UnknownFamily p\n",
    ),
    (
        ShownRefusal::BehindNotEnabled(1),
        "3 refused 12 BehindNotEnabled 1\n",
    ),
    (
        ShownRefusal::SnapshotsLive(1, 9),
        "3 refused 13 SnapshotsLive 1 9\n",
    ),
    (
        ShownRefusal::FlushNeeded(SECOND, b"a b"),
        "3 refused 14 FlushNeeded 1 2 a\\x20b\n",
    ),
    (
        ShownRefusal::BehindDoesNotFit(SECOND, b"", b"z"),
        "3 refused 15 BehindDoesNotFit 1 2 \\e z\n",
    ),
    (
        ShownRefusal::NeedsSequence(SECOND, ShownWhy::Key(b"k")),
        "3 refused 16 NeedsSequence 1 2 Key k\n",
    ),
    (
        ShownRefusal::NeedsSequence(SECOND, ShownWhy::Running(b"a", b"c")),
        "3 refused 16 NeedsSequence 1 2 Running a c\n",
    ),
    (
        ShownRefusal::NeedsSequence(SECOND, ShownWhy::Snapshot(0)),
        "3 refused 16 NeedsSequence 1 2 Snapshot 0\n",
    ),
    (
        ShownRefusal::NeedsSequence(SECOND, ShownWhy::Files(1, 2)),
        "3 refused 16 NeedsSequence 1 2 Files 1 2\n",
    ),
    (
        ShownRefusal::NeedsSequence(SECOND, ShownWhy::Meets(b"a", b"")),
        "3 refused 16 NeedsSequence 1 2 Meets a \\e\n",
    ),
    (
        ShownRefusal::NotLastLevel(SECOND, 0, ShownWhy::Key(b"k")),
        "3 refused 17 NotLastLevel 1 2 0 Key k\n",
    ),
    (
        ShownRefusal::NotLastLevel(SECOND, 255, ShownWhy::Meets(b"a", b"c")),
        "3 refused 17 NotLastLevel 1 2 255 Meets a c\n",
    ),
    (ShownRefusal::NumbersSpent, "3 refused 18 NumbersSpent\n"),
    (ShownRefusal::StoreFull, "3 refused 19 StoreFull\n"),
    (ShownRefusal::DiskFault, "3 refused 20 DiskFault\n"),
    (
        ShownRefusal::FamilyExists(b"left"),
        "3 refused 21 FamilyExists left\n",
    ),
    (ShownRefusal::DefaultStays, "3 refused 22 DefaultStays\n"),
    (ShownRefusal::FamiliesFull, "3 refused 23 FamiliesFull\n"),
    (ShownRefusal::SnapshotsFull, "3 refused 24 SnapshotsFull\n"),
    (
        ShownRefusal::SnapshotGone(0),
        "3 refused 27 SnapshotGone 0\n",
    ),
    (
        ShownRefusal::SnapshotGone(18_446_744_073_709_551_615),
        "3 refused 27 SnapshotGone 18446744073709551615\n",
    ),
];

#[test]
fn refusals_are_printed(rt: HostRuntime) -> Result<(), Fail> {
    for (shown, line) in REFUSALS.iter() {
        let reply = Reply::Refused(refusal(rt.alloc(), *shown)?);
        assert!(rt; is_line_of(rt.alloc(), 3, reply, line)?, "{line}");
    }
    Ok(())
}

// Faults of a table, and the line of each in a refusal at the place 0.
static FAULTS: [(TableFault, &str); 21] = [
    (TableFault::TooLarge, "0 refused 7 BadTable 1 2 TooLarge\n"),
    (TableFault::Short, "0 refused 7 BadTable 1 2 Short\n"),
    (TableFault::Magic, "0 refused 7 BadTable 1 2 Magic\n"),
    (
        TableFault::Version(3),
        "0 refused 7 BadTable 1 2 Version 3\n",
    ),
    (
        TableFault::Checksum(255),
        "0 refused 7 BadTable 1 2 Checksum 255\n",
    ),
    (
        TableFault::Handle(40),
        "0 refused 7 BadTable 1 2 Handle 40\n",
    ),
    (
        TableFault::Compressed(0),
        "0 refused 7 BadTable 1 2 Compressed 0\n",
    ),
    (
        TableFault::Sum {
            at: 0,
            stored: 4_294_967_295,
            found: 7,
        },
        "0 refused 7 BadTable 1 2 Sum 0 4294967295 7\n",
    ),
    (
        TableFault::Block(9, BlockFault::Restarts),
        "0 refused 7 BadTable 1 2 Block 9 Restarts\n",
    ),
    (
        TableFault::Block(9, BlockFault::Entry(1)),
        "0 refused 7 BadTable 1 2 Block 9 Entry 1\n",
    ),
    (
        TableFault::Block(9, BlockFault::Order(2)),
        "0 refused 7 BadTable 1 2 Block 9 Order 2\n",
    ),
    (TableFault::RangeDel, "0 refused 7 BadTable 1 2 RangeDel\n"),
    (
        TableFault::NoProperties,
        "0 refused 7 BadTable 1 2 NoProperties\n",
    ),
    (
        TableFault::ExternalVersion(None),
        "0 refused 7 BadTable 1 2 ExternalVersion -\n",
    ),
    (
        TableFault::ExternalVersion(Some(1)),
        "0 refused 7 BadTable 1 2 ExternalVersion 1\n",
    ),
    (
        TableFault::Comparator,
        "0 refused 7 BadTable 1 2 Comparator\n",
    ),
    (
        TableFault::IndexKind,
        "0 refused 7 BadTable 1 2 IndexKind\n",
    ),
    (
        TableFault::Kind(3, 2),
        "0 refused 7 BadTable 1 2 Kind 3 2\n",
    ),
    (
        TableFault::Number(3, 72_057_594_037_927_935),
        "0 refused 7 BadTable 1 2 Number 3 72057594037927935\n",
    ),
    (TableFault::Order(1), "0 refused 7 BadTable 1 2 Order 1\n"),
    (TableFault::Index(0), "0 refused 7 BadTable 1 2 Index 0\n"),
];

#[test]
fn table_faults_are_printed(rt: HostRuntime) -> Result<(), Fail> {
    for (fault, line) in FAULTS.iter() {
        let reply = Reply::Refused(Refusal::BadTable(SECOND, *fault));
        assert!(rt; is_line_of(rt.alloc(), 0, reply, line)?, "{line}");
    }
    Ok(())
}

// ---- other lines

// Lines that no place and reply print as.
static NO_REPLIES: [&str; 40] = [
    "",
    "1 none",
    "01 none\n",
    "1 none \n",
    "1  none\n",
    "1 value \\x41\n",
    "1 value \\xFF\n",
    "1 value \n",
    "1 written +1\n",
    "1 written 18446744073709551616\n",
    "0 refused 11 Stopped\n",
    "0 refused\n",
    "0 \n",
    "18446744073709551616 none\n",
    "1 written\n",
    "1 written 1 2\n",
    "1 snapshot 01\n",
    "1 released now\n",
    "1 view =\n",
    "1 view -1\n",
    "1 view 1\n",
    "1 view  -\n",
    "1 scan a\n",
    "1 scan a=b=c\n",
    "1 scan =b\n",
    "1 ingested 1@7\n",
    "1 ingested 1#0@7\n",
    "1 ingested 1@256#0\n",
    "1 ingested 01@6#0\n",
    "0 refused 1 EmptyRequest 1\n",
    "0 refused 2 NoFiles 4294967296\n",
    "0 refused 5 FileMissing 1\n",
    "0 refused 7 BadTable 1 1 Sum 1 2\n",
    "0 refused 7 BadTable 1 1 ExternalVersion x\n",
    "0 refused 7 BadTable 1 1 Block 3 Short\n",
    "0 refused 16 NeedsSequence 1 1 Key\n",
    "0 refused 17 NotLastLevel 1 1 256 Key a\n",
    "0 refused 21 FamilyExists Left\n",
    "0 refused 25 SnapshotGone 1\n",
    "0 refused 0 OutOfMemory\n",
];

#[test]
fn other_lines_are_no_replies(rt: HostRuntime) {
    for line in NO_REPLIES.iter() {
        let read = read_reply(rt.alloc(), line.as_bytes());
        assert!(rt; matches!(read, Err(LineFault::NotAReply)), "in {line}");
    }
}
