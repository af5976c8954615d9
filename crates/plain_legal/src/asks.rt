ghost use Rattle.std.specs.Prelude.{◌≡◌, ◌↔◌, ◌==◌, [], IsTrue, Some};
ghost use Rattle.std.specs.List.{list_all, AllByRecursion as Each};
ghost use Rattle.std.specs.Option.{option_copied};
ghost use Rattle.st_base.specs.Range.{keys_rise};
ghost use Rattle.st_model.specs.Asked.{takes_snapshot, snapshot_taken, last_snapshot, snapshot_named, snapshot_asked};
ghost use Rattle.st_model.specs.Asked.{request_asked, names_files, SeesRightly, IsAskedRightly, AskRightly};
ghost use Rattle.st_model.specs.Calls.{files_seen, asked_of};
ghost use Rattle.plain_legal.specs.Runs.{is_seen_rightly};

use st_base::{Entry, Family, List};
use st_model::{Asked, Call, Calls, Command, FileSeen, IngestExternalFileArg, Reply, Snapshot};
use std::alloc::Global;

// ---- snapshots by name

// Whether the command takes a snapshot of that name.
fn takes_snapshot(name: &Family, command: &Command) -> bool
    ensures { result ≡ takes_snapshot name.now command.now }
{
    match command {
        Command::Snap(other) => other == name,
        _ => false,
    }
}

// The snapshot that was taken at the place; none where the reply is a refusal.
fn snapshot_taken(place: u64, reply: &Reply) -> Snapshot
    ensures { result ≡ snapshot_taken place reply.now }
{
    match reply {
        Reply::Snapshot(number) => Snapshot {
            id: place,
            number: *number,
        },
        _ => Snapshot { id: 0, number: 0 },
    }
}

// The snapshot of the last command of these calls that takes one of that name.
fn last_snapshot(name: &Family, calls: &[Call]) -> Snapshot
    ensures { result ≡ last_snapshot name.now calls.now }
{
    let mut last = Snapshot { id: 0, number: 0 };
    for call in calls {
        if takes_snapshot(name, &call.asked.command) {
            last = snapshot_taken(call.place, &call.reply);
        }
    }
    last
}

// The name of the snapshot that the command reads at or lets go.
fn snapshot_named(command: &Command) -> Option<&Family>
    ensures { option_copied result ≡ snapshot_named command.now }
{
    match command {
        Command::GetAt(name, _, _) => Some(name),
        Command::ScanAt(name, _, _, _, _) => Some(name),
        Command::Release(name) => Some(name),
        Command::Write(_) => None,
        Command::Get(_, _) => None,
        Command::View(_) => None,
        Command::Scan(_, _, _, _) => None,
        Command::Snap(_) => None,
        Command::MakeFamily(_) => None,
        Command::DropFamily(_) => None,
        Command::Flush(_) => None,
        Command::Compact(_) => None,
        Command::Ingest(_) => None,
        Command::Await { .. } => None,
    }
}

// The snapshot that the command asks for, after these calls of its client.
fn snapshot_asked(before: &[Call], command: &Command) -> Option<Snapshot>
    ensures { result ≡ snapshot_asked before.now command.now }
{
    match snapshot_named(command) {
        Some(name) => Some(last_snapshot(name, before)),
        None => None,
    }
}

fn is_snapshot(other: Option<Snapshot>, snapshot: Snapshot) -> bool
    ensures { IsTrue result ↔ (other ≡ Some snapshot) }
{
    match other {
        Some(other) => other.id == snapshot.id && other.number == snapshot.number,
        None => false,
    }
}

fn same_snapshot(one: Option<Snapshot>, other: Option<Snapshot>) -> bool
    ensures { IsTrue result ↔ (one ≡ other) }
{
    match other {
        Some(other) => is_snapshot(one, other),
        None => one.is_none(),
    }
}

// ---- files

// The request of the command; a command without one has no arguments.
fn request_asked(command: &Command) -> &[IngestExternalFileArg]
    ensures { names_files (Some result.now) ≡ names_files (request_asked command.now) }
{
    match command {
        Command::Ingest(arguments) => arguments.as_slice(),
        Command::Write(_) => &[],
        Command::Get(_, _) => &[],
        Command::GetAt(_, _, _) => &[],
        Command::View(_) => &[],
        Command::Scan(_, _, _, _) => &[],
        Command::ScanAt(_, _, _, _, _) => &[],
        Command::Snap(_) => &[],
        Command::Release(_) => &[],
        Command::MakeFamily(_) => &[],
        Command::DropFamily(_) => &[],
        Command::Flush(_) => &[],
        Command::Compact(_) => &[],
        Command::Await { .. } => &[],
    }
}

// Whether the arguments name so many files.
fn names_files(arguments: &[IngestExternalFileArg], count: usize) -> bool
    ensures { IsTrue result ↔ (count ≡ names_files (Some arguments.now)) }
{
    let mut left = count;
    for argument in arguments {
        if argument.files.len() > left {
            return false;
        }
        left -= argument.files.len();
    }
    left == 0
}

// Whether each entry's key is above the one before it.
fn keys_rise(entries: &[Entry]) -> bool
    ensures { result ≡ keys_rise entries.now }
{
    let Some((first, rest)) = entries.split_first() else {
        return true;
    };
    let mut last = first;
    for entry in rest {
        if !last.key.cmp(&entry.key).is_lt() {
            return false;
        }
        last = entry;
    }
    true
}

// Whether each entry has the number 0.
fn are_unnumbered(entries: &[Entry]) -> bool
    ensures { result ≡ list_all (λ entry. entry.number == 0) entries.now }
{
    entries.iter().all(|entry| entry.number == 0)
}

// Whether what is seen as a table is one of an external file.
fn is_seen_rightly(seen: &FileSeen) -> bool
    ensures { result ≡ is_seen_rightly seen.now }
{
    match seen {
        FileSeen::Table(entries) => {
            keys_rise(entries.as_slice()) && are_unnumbered(entries.as_slice())
        }
        FileSeen::Missing => true,
        FileSeen::Bad(_) => true,
    }
}

fn are_seen_rightly(seen: &[FileSeen]) -> bool
    ensures { result ≡ list_all is_seen_rightly seen.now }
{
    seen.iter().all(|one| is_seen_rightly(one))
}

// Whether each file that the command names is seen, and a table as one.
fn sees_rightly(command: &Command, seen: &[FileSeen]) -> bool
    ensures { IsTrue result ↔ SeesRightly (request_asked command.now) seen.now }
{
    if !names_files(request_asked(command), seen.len()) {
        return false;
    }
    are_seen_rightly(seen)
}

// The files that the command sees; one without a request sees none.
fn files_seen(alloc: Global, command: &Command, seen: List<FileSeen>) -> List<FileSeen>
    ensures { result ≡ files_seen (request_asked command.now) seen }
{
    match command {
        Command::Ingest(_) => seen,
        Command::Write(_) => List::new(alloc),
        Command::Get(_, _) => List::new(alloc),
        Command::GetAt(_, _, _) => List::new(alloc),
        Command::View(_) => List::new(alloc),
        Command::Scan(_, _, _, _) => List::new(alloc),
        Command::ScanAt(_, _, _, _, _) => List::new(alloc),
        Command::Snap(_) => List::new(alloc),
        Command::Release(_) => List::new(alloc),
        Command::MakeFamily(_) => List::new(alloc),
        Command::DropFamily(_) => List::new(alloc),
        Command::Flush(_) => List::new(alloc),
        Command::Compact(_) => List::new(alloc),
        Command::Await { .. } => List::new(alloc),
    }
}

// ---- along a transcript

/// What the command asks after these calls of its client, where its files are seen so.
pub fn asked_of(alloc: Global, before: &[Call], command: Command, seen: List<FileSeen>) -> Asked
    ensures { result ≡ asked_of before.now command seen }
{
    let snapshot = snapshot_asked(before, &command);
    let files = files_seen(alloc, &command, seen);
    Asked {
        command,
        files,
        snapshot,
    }
}

// Whether the command asks for its client's own snapshot, and sees each file that it names.
fn is_asked_rightly(before: &[Call], asked: &Asked) -> bool
    ensures { IsTrue result ↔ IsAskedRightly before.now asked.now }
{
    if !same_snapshot(asked.snapshot, snapshot_asked(before, &asked.command)) {
        return false;
    }
    sees_rightly(&asked.command, asked.files.as_slice())
}

// Whether that holds of each call.
fn asks_rightly(calls: &[Call]) -> bool
    ensures { IsTrue result ↔ AskRightly [] calls.now }
{
    for (index, call) in calls.iter().enumerate() {
        if !is_asked_rightly(&calls[..index], &call.asked) {
            return false;
        }
    }
    true
}

/// Whether each command asks for its client's own snapshot, and sees each file that it names.
pub fn ask_rightly(transcripts: &[Calls]) -> bool
    ensures { IsTrue result ↔ Each (AskRightly []) transcripts.now }
{
    for calls in transcripts {
        if !asks_rightly(calls.as_slice()) {
            return false;
        }
    }
    true
}
