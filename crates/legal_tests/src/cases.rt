// Rows as they are written: the commands of each client with the lines of their answers, and whether they are legal.

use cmd_text::{LineFault, read_reply};
use plain_legal::{asked_of, legal};
use st_base::{Bytes, Entry, Family, Key, List, MakeFault, Mark, Name, TableFault, Value};
use st_model::{
    Asked, Batch, Call, Calls, Command, FileSeen, IngestExternalFileArg, IngestExternalFileOptions,
    ModelFamily, ModelState, Op, Reply,
};
use std::alloc::Global;
use std::test::Fail;

// A key with its value, or with a tombstone.
pub type Pair = (&'static str, Option<&'static str>);

// What the inputs hold under a name.
#[derive(Clone, Copy)]
pub enum Held {
    Missing,
    // A table without its last byte.
    Cut,
    Table(&'static [Pair]),
}

// How the files of an argument are taken in: as usual, or with one option.
#[derive(Clone, Copy)]
pub enum How {
    Plain,
    Snapshots,
    Global,
    Flush,
    Behind,
    Bottom,
}

// An argument of a request.
pub type Argument = (&'static str, How, &'static [Held]);

// A command; where it names no family, that of `default`.
#[derive(Clone, Copy)]
pub enum Ask {
    Write(&'static [Pair]),
    Get(&'static str),
    GetIn(&'static str, &'static str),
    GetAt(&'static str, &'static str),
    View(&'static [(&'static str, &'static str)]),
    Scan(&'static str, &'static str, u32),
    ScanAt(&'static str, &'static str, &'static str, u32),
    Snap(&'static str),
    Release(&'static str),
    Make(&'static str),
    Drop(&'static str),
    Flush,
    Compact,
    // A request of one argument, for `default`.
    Take(How, &'static [Held]),
    Ingest(&'static [Argument]),
    Await(u32, u32),
}

// A command with the line of its answer, without the line feed.
pub type Line = (Ask, &'static str);

// What makes a row illegal: a client and its line, counted from 0, and the answer that stands there instead.
pub type Change = (usize, usize, &'static str);

// A store: whether files go behind, the value of `a` with the last number at the opening, the capacity, and whether the
// disk fails.
#[derive(Clone, Copy)]
pub struct Store {
    pub behind: bool,
    pub was: Option<(&'static str, u64)>,
    pub capacity: u64,
    pub disk_failed: bool,
}

// A row: the lines of each client, and the changes.
#[derive(Clone, Copy)]
pub struct Row {
    pub store: Store,
    pub clients: &'static [&'static [Line]],
    pub changes: &'static [Change],
}

// ---- the values of a row

pub fn family(alloc: Global, name: &str) -> Result<Family, MakeFault> {
    Family::new(alloc, name.as_bytes())
}

fn key(alloc: Global, text: &str) -> Result<Key, MakeFault> {
    Key::new(alloc, text.as_bytes())
}

fn value(alloc: Global, text: &str) -> Result<Value, MakeFault> {
    Value::new(alloc, text.as_bytes())
}

fn default(alloc: Global) -> Result<Family, MakeFault> {
    family(alloc, "default")
}

fn mark(alloc: Global, text: Option<&str>) -> Result<Mark, MakeFault> {
    match text {
        Some(text) => Ok(Mark::Put(value(alloc, text)?)),
        None => Ok(Mark::Gone),
    }
}

fn entry(alloc: Global, pair: Pair) -> Result<Entry, MakeFault> {
    Ok(Entry {
        key: key(alloc, pair.0)?,
        number: 0,
        mark: mark(alloc, pair.1)?,
    })
}

fn table(alloc: Global, pairs: &[Pair]) -> Result<FileSeen, MakeFault> {
    let mut entries = List::new(alloc);
    for pair in pairs {
        entries.push(entry(alloc, *pair)?)?;
    }
    Ok(FileSeen::Table(entries))
}

fn seen(alloc: Global, held: Held) -> Result<FileSeen, MakeFault> {
    match held {
        Held::Missing => Ok(FileSeen::Missing),
        Held::Cut => Ok(FileSeen::Bad(TableFault::Magic)),
        Held::Table(pairs) => table(alloc, pairs),
    }
}

fn push_seen(all: &mut List<FileSeen>, alloc: Global, held: &[Held]) -> Result<(), MakeFault> {
    for one in held {
        all.push(seen(alloc, *one)?)?;
    }
    Ok(())
}

// What the inputs hold under the names of a request, in order.
fn all_seen(alloc: Global, arguments: &[Argument]) -> Result<List<FileSeen>, MakeFault> {
    let mut all = List::new(alloc);
    for argument in arguments {
        push_seen(&mut all, alloc, argument.2)?;
    }
    Ok(all)
}

fn seen_of(alloc: Global, ask: Ask) -> Result<List<FileSeen>, MakeFault> {
    match ask {
        Ask::Take(how, files) => all_seen(alloc, &[("default", how, files)]),
        Ask::Ingest(arguments) => all_seen(alloc, arguments),
        _ => Ok(List::new(alloc)),
    }
}

fn options(how: How) -> IngestExternalFileOptions {
    IngestExternalFileOptions {
        snapshot_consistency: !matches!(how, How::Snapshots),
        allow_global_seqno: !matches!(how, How::Global),
        allow_blocking_flush: !matches!(how, How::Flush),
        ingest_behind: matches!(how, How::Behind),
        fail_if_not_bottommost_level: matches!(how, How::Bottom),
    }
}

// So many names of files. The model looks at their count alone.
fn names(alloc: Global, count: usize) -> Result<List<Name>, MakeFault> {
    let mut names = List::new(alloc);
    for _ in 0..count {
        names.push(Name::new(alloc, b"t")?)?;
    }
    Ok(names)
}

fn argument(alloc: Global, case: Argument) -> Result<IngestExternalFileArg, MakeFault> {
    Ok(IngestExternalFileArg {
        family: family(alloc, case.0)?,
        files: names(alloc, case.2.len())?,
        options: options(case.1),
    })
}

fn ingest(alloc: Global, cases: &[Argument]) -> Result<Command, MakeFault> {
    let mut arguments = List::new(alloc);
    for one in cases {
        arguments.push(argument(alloc, *one)?)?;
    }
    Ok(Command::Ingest(arguments))
}

fn op(alloc: Global, pair: Pair) -> Result<Op, MakeFault> {
    let family = default(alloc)?;
    let key = key(alloc, pair.0)?;
    match pair.1 {
        Some(text) => Ok(Op::Put(family, key, value(alloc, text)?)),
        None => Ok(Op::Del(family, key)),
    }
}

fn write(alloc: Global, pairs: &[Pair]) -> Result<Command, MakeFault> {
    let mut ops = List::new(alloc);
    for pair in pairs {
        ops.push(op(alloc, *pair)?)?;
    }
    Ok(Command::Write(Batch { ops }))
}

fn get(alloc: Global, name: &str, text: &str) -> Result<Command, MakeFault> {
    Ok(Command::Get(family(alloc, name)?, key(alloc, text)?))
}

fn get_at(alloc: Global, snapshot: &str, text: &str) -> Result<Command, MakeFault> {
    let name = family(alloc, snapshot)?;
    Ok(Command::GetAt(name, default(alloc)?, key(alloc, text)?))
}

fn view(alloc: Global, reads: &[(&str, &str)]) -> Result<Command, MakeFault> {
    let mut all = List::new(alloc);
    for one in reads {
        all.push((family(alloc, one.0)?, key(alloc, one.1)?))?;
    }
    Ok(Command::View(all))
}

fn scan(alloc: Global, first: &str, last: &str, limit: u32) -> Result<Command, MakeFault> {
    let name = default(alloc)?;
    let first = key(alloc, first)?;
    Ok(Command::Scan(name, first, key(alloc, last)?, limit))
}

fn scan_at(
    alloc: Global,
    snapshot: &str,
    first: &str,
    last: &str,
    limit: u32,
) -> Result<Command, MakeFault> {
    let name = family(alloc, snapshot)?;
    let first = key(alloc, first)?;
    let last = key(alloc, last)?;
    Ok(Command::ScanAt(name, default(alloc)?, first, last, limit))
}

fn command(alloc: Global, ask: Ask) -> Result<Command, MakeFault> {
    match ask {
        Ask::Write(pairs) => write(alloc, pairs),
        Ask::Get(text) => get(alloc, "default", text),
        Ask::GetIn(name, text) => get(alloc, name, text),
        Ask::GetAt(snapshot, text) => get_at(alloc, snapshot, text),
        Ask::View(reads) => view(alloc, reads),
        Ask::Scan(first, last, limit) => scan(alloc, first, last, limit),
        Ask::ScanAt(snapshot, first, last, limit) => scan_at(alloc, snapshot, first, last, limit),
        Ask::Snap(name) => Ok(Command::Snap(family(alloc, name)?)),
        Ask::Release(name) => Ok(Command::Release(family(alloc, name)?)),
        Ask::Make(name) => Ok(Command::MakeFamily(family(alloc, name)?)),
        Ask::Drop(name) => Ok(Command::DropFamily(family(alloc, name)?)),
        Ask::Flush => Ok(Command::Flush(default(alloc)?)),
        Ask::Compact => Ok(Command::Compact(default(alloc)?)),
        Ask::Take(how, files) => ingest(alloc, &[("default", how, files)]),
        Ask::Ingest(cases) => ingest(alloc, cases),
        Ask::Await(client, command) => Ok(Command::Await { client, command }),
    }
}

// ---- runs

// The place and the reply that print as the line.
pub fn answer(alloc: Global, line: &str) -> Result<(u64, Reply), LineFault> {
    let mut text = Bytes::from_slice(alloc, line.as_bytes())?;
    text.push(10)?;
    read_reply(alloc, text.as_slice())
}

fn asked(alloc: Global, before: &[Call], ask: Ask) -> Result<Asked, MakeFault> {
    let command = command(alloc, ask)?;
    let seen = seen_of(alloc, ask)?;
    Ok(asked_of(alloc, before, command, seen))
}

fn call(alloc: Global, before: &[Call], line: Line) -> Result<Call, Fail> {
    let asked = asked(alloc, before, line.0)?;
    let (place, reply) = answer(alloc, line.1)?;
    Ok(Call {
        asked,
        place,
        reply,
    })
}

// The line of that client and number, or what stands there instead.
fn changed(line: Line, client: usize, number: usize, change: Option<Change>) -> Line {
    match change {
        Some((at, index, answer)) => {
            if at == client && index == number {
                (line.0, answer)
            } else {
                line
            }
        }
        None => line,
    }
}

fn transcript(
    alloc: Global,
    lines: &[Line],
    client: usize,
    change: Option<Change>,
) -> Result<Calls, Fail> {
    let mut calls = Calls::new(alloc);
    for (number, line) in lines.iter().enumerate() {
        let line = changed(*line, client, number, change);
        let next = call(alloc, calls.as_slice(), line)?;
        calls.push(next)?;
    }
    Ok(calls)
}

fn transcripts(alloc: Global, row: &Row, change: Option<Change>) -> Result<List<Calls>, Fail> {
    let mut all = List::new(alloc);
    for (client, lines) in row.clients.iter().enumerate() {
        all.push(transcript(alloc, lines, client, change)?)?;
    }
    Ok(all)
}

// The family `default` at the opening.
fn opened(alloc: Global, was: Option<(&str, u64)>) -> Result<ModelFamily, MakeFault> {
    let mut family = ModelFamily::new(alloc, 0);
    if let Some((text, _)) = was {
        family.base.set(key(alloc, "a")?, mark(alloc, Some(text))?)?;
        family.known.push(key(alloc, "a")?)?;
    }
    Ok(family)
}

// The last number and the charge at the opening.
fn numbers(was: Option<(&str, u64)>) -> (u64, u64) {
    match was {
        Some((_, last)) => (last, 34),
        None => (0, 0),
    }
}

fn opening(alloc: Global, store: &Store) -> Result<ModelState, MakeFault> {
    let mut families = List::new(alloc);
    families.push((default(alloc)?, opened(alloc, store.was)?))?;
    let (last, charge) = numbers(store.was);
    Ok(ModelState {
        place: 0,
        last,
        charge,
        behind: store.behind,
        families,
        next_family: 1,
        live: List::new(alloc),
    })
}

fn are_legal(alloc: Global, row: &Row, transcripts: &[Calls]) -> Result<bool, MakeFault> {
    let opening = opening(alloc, &row.store)?;
    let capacity = row.store.capacity;
    let failed = row.store.disk_failed;
    Ok(legal(alloc, &opening, capacity, transcripts, 0, failed)?)
}

// Whether the row is legal, with this change.
pub fn is_legal(alloc: Global, row: &Row, change: Option<Change>) -> Result<bool, Fail> {
    let transcripts = transcripts(alloc, row, change)?;
    Ok(are_legal(alloc, row, transcripts.as_slice())?)
}

// How many of its changes, from the first on, make the row illegal.
pub fn count_illegal(alloc: Global, row: &Row) -> Result<usize, Fail> {
    for (index, change) in row.changes.iter().enumerate() {
        if is_legal(alloc, row, Some(*change))? {
            return Ok(index);
        }
    }
    Ok(row.changes.len())
}
