ghost use Rattle.std.specs.Prelude.{◌≡◌, ℕ, ◌++◌, ◌∷◌, [], ◌<◌, IfOk, OnOk, codes, flat_map, map, List as Items};
ghost use Rattle.std.specs.Fmt.{decimal};
ghost use Rattle.std.specs.List.{join_with_byte};
ghost use Rattle.st_base.specs.Faults.{printed_table_fault};
ghost use Rattle.st_model.specs.declared.refusal.Refusal.TheVariants as refused;
ghost use Rattle.st_model.specs.Line.{file_words, range_words, why_words, refusal_words, read_word, pair_word};
ghost use Rattle.st_model.specs.Line.{placed_word, reply_words, line_of};
ghost use Rattle.st_base.specs.Word.{is_plain, hex_digit, byte_word, word};

use st_base::{Bytes, Family, Key, KeyRange, List, TableFault, Value};
use st_model::{FileAt, Placed, Refusal, Reply, Why};
use std::alloc::{AllocError, Global};

// The words of a line.
type Words = List<Bytes>;

// ---- bytes as words

// Whether the byte stands for itself.
fn is_plain(byte: u8) -> bool
    ensures { result ≡ is_plain byte }
{
    33 <= byte && byte <= 126 && byte != 92 && byte != 61
}

// The hexadecimal digit.
fn hex_digit(digit: u8) -> u8
    requires { digit < 16 }
    ensures { result ≡ hex_digit digit }
{
    if digit < 10 { 48 + digit } else { 87 + digit }
}

// Puts the word of the byte at the end.
fn push_byte(bytes: &mut Bytes, byte: u8) -> Result<(), AllocError>
    ensures { OnOk result (bytes.new ≡ bytes.old ++ byte_word byte) }
{
    if is_plain(byte) {
        return bytes.push(byte);
    }
    let high = hex_digit(byte / 16);
    let low = hex_digit(byte % 16);
    bytes.extend_from_slice(&[92, 120, high, low])
}

// Puts the words of the bytes at the end.
fn push_bytes(text: &mut Bytes, bytes: &[u8]) -> Result<(), AllocError>
    ensures { OnOk result (text.new ≡ text.old ++ flat_map byte_word bytes.now) }
{
    for byte in bytes {
        push_byte(text, *byte)?;
    }
    Ok(())
}

// The only spelling of the byte string.
fn word(alloc: Global, bytes: &[u8]) -> Result<Bytes, AllocError>
    ensures { IfOk result (λ text. text ≡ word bytes.now) }
{
    if bytes.is_empty() {
        return Bytes::from_slice(alloc, b"\\e");
    }
    let mut text = List::new(alloc);
    push_bytes(&mut text, bytes)?;
    Ok(text)
}

// The number in decimal.
fn number(alloc: Global, number: u64) -> Result<Bytes, AllocError>
    ensures { IfOk result (λ text. text ≡ decimal number) }
{
    let text = number.to_string(alloc)?;
    Bytes::from_slice(alloc, text.as_bytes())
}

// The fault, printed.
fn fault_word(alloc: Global, fault: &TableFault) -> Result<Bytes, AllocError>
    ensures { IfOk result (λ text. text ≡ printed_table_fault fault.now) }
{
    let text = fault.to_string(alloc)?;
    Bytes::from_slice(alloc, text.as_bytes())
}

// ---- refusals

// Puts the word at the end.
fn push_text(alloc: Global, words: &mut Words, text: &[u8]) -> Result<(), AllocError>
    ensures { OnOk result (words.new ≡ words.old ++ text.now ∷ []) }
{
    words.push(Bytes::from_slice(alloc, text)?)
}

// Puts the number at the end.
fn push_number(alloc: Global, words: &mut Words, value: u64) -> Result<(), AllocError>
    ensures { OnOk result (words.new ≡ words.old ++ decimal value ∷ []) }
{
    words.push(number(alloc, value)?)
}

// Puts the place of a file at the end.
fn push_file(alloc: Global, words: &mut Words, at: &FileAt) -> Result<(), AllocError>
    ensures { OnOk result (words.new ≡ words.old ++ file_words at.now) }
{
    push_number(alloc, words, at.arg as u64)?;
    push_number(alloc, words, at.file as u64)
}

// Puts the key at the end.
fn push_key(alloc: Global, words: &mut Words, key: &Key) -> Result<(), AllocError>
    ensures { OnOk result (words.new ≡ words.old ++ word key.now ∷ []) }
{
    words.push(word(alloc, key.as_bytes())?)
}

// Puts the range at the end.
fn push_range(alloc: Global, words: &mut Words, range: &KeyRange) -> Result<(), AllocError>
    ensures { OnOk result (words.new ≡ words.old ++ range_words range.now) }
{
    push_key(alloc, words, &range.first)?;
    push_key(alloc, words, &range.last)
}

// A number and a name.
fn bare(alloc: Global, number: &[u8], name: &[u8]) -> Result<Words, AllocError>
    ensures { IfOk result (λ words. words ≡ number.now ∷ name.now ∷ []) }
{
    let mut words = List::new(alloc);
    push_text(alloc, &mut words, number)?;
    push_text(alloc, &mut words, name)?;
    Ok(words)
}

// A number and a name, and a number behind them.
fn with_number(alloc: Global, number: &[u8], name: &[u8], value: u64) -> Result<Words, AllocError>
    ensures { IfOk result (λ words. words ≡ number.now ∷ name.now ∷ decimal value ∷ []) }
{
    let mut words = bare(alloc, number, name)?;
    push_number(alloc, &mut words, value)?;
    Ok(words)
}

// A number and a name, and a family behind them.
fn with_family(
    alloc: Global,
    number: &[u8],
    name: &[u8],
    family: &Family,
) -> Result<Words, AllocError>
    ensures { IfOk result (λ words. words ≡ number.now ∷ name.now ∷ family.now ∷ []) }
{
    let mut words = bare(alloc, number, name)?;
    push_text(alloc, &mut words, family.as_bytes())?;
    Ok(words)
}

// A number and a name, and the place of a file behind them.
fn with_file(alloc: Global, number: &[u8], name: &[u8], at: &FileAt) -> Result<Words, AllocError>
    ensures { IfOk result (λ words. words ≡ number.now ∷ name.now ∷ file_words at.now) }
{
    let mut words = bare(alloc, number, name)?;
    push_file(alloc, &mut words, at)?;
    Ok(words)
}

// Puts the cause at the end.
fn push_why(alloc: Global, words: &mut Words, why: &Why) -> Result<(), AllocError>
    ensures { OnOk result (words.new ≡ words.old ++ why_words why.now) }
{
    match why {
        Why::Key(key) => {
            push_text(alloc, words, b"Key")?;
            push_key(alloc, words, key)
        }
        Why::Running(range) => {
            push_text(alloc, words, b"Running")?;
            push_range(alloc, words, range)
        }
        Why::Snapshot(number) => {
            push_text(alloc, words, b"Snapshot")?;
            push_number(alloc, words, *number)
        }
        Why::Files(first, second) => {
            push_text(alloc, words, b"Files")?;
            push_number(alloc, words, *first as u64)?;
            push_number(alloc, words, *second as u64)
        }
        Why::Meets(range) => {
            push_text(alloc, words, b"Meets")?;
            push_range(alloc, words, range)
        }
    }
}

fn bad_table(alloc: Global, at: &FileAt, fault: &TableFault) -> Result<Words, AllocError>
    ensures { IfOk result (λ words. words ≡ refusal_words (refused.BadTable at.now fault.now)) }
{
    let mut words = with_file(alloc, b"7", b"BadTable", at)?;
    words.push(fault_word(alloc, fault)?)?;
    Ok(words)
}

fn files_meet(alloc: Global, at: &FileAt, file: u32) -> Result<Words, AllocError>
    ensures { IfOk result (λ words. words ≡ refusal_words (refused.FilesMeet at.now file)) }
{
    let mut words = with_file(alloc, b"9", b"FilesMeet", at)?;
    push_number(alloc, &mut words, file as u64)?;
    Ok(words)
}

fn snapshots_live(alloc: Global, argument: u32, value: u64) -> Result<Words, AllocError>
    ensures { IfOk result (λ words. words ≡ refusal_words (refused.SnapshotsLive argument value)) }
{
    let mut words = with_number(alloc, b"13", b"SnapshotsLive", argument as u64)?;
    push_number(alloc, &mut words, value)?;
    Ok(words)
}

fn flush_needed(alloc: Global, at: &FileAt, key: &Key) -> Result<Words, AllocError>
    ensures { IfOk result (λ words. words ≡ refusal_words (refused.FlushNeeded at.now key.now)) }
{
    let mut words = with_file(alloc, b"14", b"FlushNeeded", at)?;
    push_key(alloc, &mut words, key)?;
    Ok(words)
}

fn behind_does_not_fit(alloc: Global, at: &FileAt, range: &KeyRange) -> Result<Words, AllocError>
    ensures { IfOk result (λ words. words ≡ refusal_words (refused.BehindDoesNotFit at.now range.now)) }
{
    let mut words = with_file(alloc, b"15", b"BehindDoesNotFit", at)?;
    push_range(alloc, &mut words, range)?;
    Ok(words)
}

fn needs_sequence(alloc: Global, at: &FileAt, why: &Why) -> Result<Words, AllocError>
    ensures { IfOk result (λ words. words ≡ refusal_words (refused.NeedsSequence at.now why.now)) }
{
    let mut words = with_file(alloc, b"16", b"NeedsSequence", at)?;
    push_why(alloc, &mut words, why)?;
    Ok(words)
}

fn not_last_level(alloc: Global, at: &FileAt, level: u8, why: &Why) -> Result<Words, AllocError>
    ensures { IfOk result (λ words. words ≡ refusal_words (refused.NotLastLevel at.now level why.now)) }
{
    let mut words = with_file(alloc, b"17", b"NotLastLevel", at)?;
    push_number(alloc, &mut words, level as u64)?;
    push_why(alloc, &mut words, why)?;
    Ok(words)
}

// The words of the refusal.
fn refusal_words(alloc: Global, refusal: &Refusal) -> Result<Words, AllocError>
    ensures { IfOk result (λ words. words ≡ refusal_words refusal.now) }
{
    match refusal {
        Refusal::EmptyRequest => bare(alloc, b"1", b"EmptyRequest"),
        Refusal::NoFiles(value) => with_number(alloc, b"2", b"NoFiles", *value as u64),
        Refusal::FamilyTwice(value) => with_number(alloc, b"3", b"FamilyTwice", *value as u64),
        Refusal::TooManyFiles => bare(alloc, b"4", b"TooManyFiles"),
        Refusal::FileMissing(at) => with_file(alloc, b"5", b"FileMissing", at),
        Refusal::InputFault(at) => with_file(alloc, b"6", b"InputFault", at),
        Refusal::BadTable(at, fault) => bad_table(alloc, at, fault),
        Refusal::NoEntry(at) => with_file(alloc, b"8", b"NoEntry", at),
        Refusal::FilesMeet(at, file) => files_meet(alloc, at, *file),
        Refusal::Stopped => bare(alloc, b"10", b"Stopped"),
        Refusal::UnknownFamily(name) => with_family(alloc, b"11", b"UnknownFamily", name),
        Refusal::BehindNotEnabled(value) => with_number(
            alloc,
            b"12",
            b"BehindNotEnabled",
            *value as u64,
        ),
        Refusal::SnapshotsLive(argument, value) => snapshots_live(alloc, *argument, *value),
        Refusal::FlushNeeded(at, key) => flush_needed(alloc, at, key),
        Refusal::BehindDoesNotFit(at, range) => behind_does_not_fit(alloc, at, range),
        Refusal::NeedsSequence(at, why) => needs_sequence(alloc, at, why),
        Refusal::NotLastLevel(at, level, why) => not_last_level(alloc, at, *level, why),
        Refusal::NumbersSpent => bare(alloc, b"18", b"NumbersSpent"),
        Refusal::StoreFull => bare(alloc, b"19", b"StoreFull"),
        Refusal::DiskFault => bare(alloc, b"20", b"DiskFault"),
        Refusal::FamilyExists(name) => with_family(alloc, b"21", b"FamilyExists", name),
        Refusal::DefaultStays => bare(alloc, b"22", b"DefaultStays"),
        Refusal::FamiliesFull => bare(alloc, b"23", b"FamiliesFull"),
        Refusal::SnapshotsFull => bare(alloc, b"24", b"SnapshotsFull"),
        Refusal::SnapshotGone(value) => with_number(alloc, b"27", b"SnapshotGone", *value),
        Refusal::OutOfMemory => Ok(List::new(alloc)),
    }
}

// ---- replies

// The word of a read.
fn read_word(alloc: Global, value: &Option<Value>) -> Result<Bytes, AllocError>
    ensures { IfOk result (λ text. text ≡ read_word value.now) }
{
    match value {
        Some(value) => after_equals(alloc, value),
        None => Bytes::from_slice(alloc, b"-"),
    }
}

// `=` and the value.
fn after_equals(alloc: Global, value: &Value) -> Result<Bytes, AllocError>
    ensures { IfOk result (λ text. text ≡ codes "=" ++ word value.now) }
{
    let mut text = Bytes::from_slice(alloc, b"=")?;
    let value = word(alloc, value.as_bytes())?;
    text.extend_from_slice(value.as_slice())?;
    Ok(text)
}

// The word of a pair.
fn pair_word(alloc: Global, key: &Key, value: &Value) -> Result<Bytes, AllocError>
    ensures { IfOk result (λ text. text ≡ pair_word (key.now, value.now)) }
{
    let mut text = word(alloc, key.as_bytes())?;
    text.extend_from_slice(b"=")?;
    let value = word(alloc, value.as_bytes())?;
    text.extend_from_slice(value.as_slice())?;
    Ok(text)
}

// The word of a file that was taken in.
fn placed_word(alloc: Global, placed: &Placed) -> Result<Bytes, AllocError>
    ensures { IfOk result (λ text. text ≡ placed_word placed.now) }
{
    let mut text = number(alloc, placed.file)?;
    text.extend_from_slice(b"@")?;
    let level = number(alloc, placed.level as u64)?;
    text.extend_from_slice(level.as_slice())?;
    text.extend_from_slice(b"#")?;
    let last = number(alloc, placed.number)?;
    text.extend_from_slice(last.as_slice())?;
    Ok(text)
}

// One word.
fn one(alloc: Global, name: &[u8]) -> Result<Words, AllocError>
    ensures { IfOk result (λ words. words ≡ name.now ∷ []) }
{
    let mut words = List::new(alloc);
    push_text(alloc, &mut words, name)?;
    Ok(words)
}

// One word and a number.
fn one_number(alloc: Global, name: &[u8], value: u64) -> Result<Words, AllocError>
    ensures { IfOk result (λ words. words ≡ name.now ∷ decimal value ∷ []) }
{
    let mut words = one(alloc, name)?;
    push_number(alloc, &mut words, value)?;
    Ok(words)
}

// The words of a value that was found.
fn found_words(alloc: Global, value: &Value) -> Result<Words, AllocError>
    ensures { IfOk result (λ words. words ≡ codes "value" ∷ word value.now ∷ []) }
{
    let mut words = one(alloc, b"value")?;
    words.push(word(alloc, value.as_bytes())?)?;
    Ok(words)
}

// The words of a view.
fn view_words(alloc: Global, values: &[Option<Value>]) -> Result<Words, AllocError>
    ensures { IfOk result (λ words. words ≡ codes "view" ∷ map read_word values.now) }
{
    let mut words = one(alloc, b"view")?;
    for value in values {
        words.push(read_word(alloc, value)?)?;
    }
    Ok(words)
}

// The words of a scan.
fn scan_words(alloc: Global, pairs: &[(Key, Value)]) -> Result<Words, AllocError>
    ensures { IfOk result (λ words. words ≡ codes "scan" ∷ map pair_word pairs.now) }
{
    let mut words = one(alloc, b"scan")?;
    for (key, value) in pairs {
        words.push(pair_word(alloc, key, value)?)?;
    }
    Ok(words)
}

// The words of files that were taken in.
fn placed_words(alloc: Global, placed: &[Placed]) -> Result<Words, AllocError>
    ensures { IfOk result (λ words. words ≡ codes "ingested" ∷ map placed_word placed.now) }
{
    let mut words = one(alloc, b"ingested")?;
    for file in placed {
        words.push(placed_word(alloc, file)?)?;
    }
    Ok(words)
}

// The words of a refused command.
fn refused_words(alloc: Global, refusal: &Refusal) -> Result<Words, AllocError>
    ensures { IfOk result (λ words. words ≡ codes "refused" ∷ refusal_words refusal.now) }
{
    let mut words = one(alloc, b"refused")?;
    let more = refusal_words(alloc, refusal)?;
    for word in more.into_vec() {
        words.push(word)?;
    }
    Ok(words)
}

// The words of the reply.
fn reply_words(alloc: Global, reply: &Reply) -> Result<Words, AllocError>
    ensures { IfOk result (λ words. words ≡ reply_words reply.now) }
{
    match reply {
        Reply::Written(number) => one_number(alloc, b"written", *number),
        Reply::Found(value) => found_words(alloc, value),
        Reply::Nothing => one(alloc, b"none"),
        Reply::View(values) => view_words(alloc, values.as_slice()),
        Reply::Pairs(pairs) => scan_words(alloc, pairs.as_slice()),
        Reply::Snapshot(number) => one_number(alloc, b"snapshot", *number),
        Reply::Released => one(alloc, b"released"),
        Reply::Made => one(alloc, b"made"),
        Reply::Dropped => one(alloc, b"dropped"),
        Reply::Flushed => one(alloc, b"flushed"),
        Reply::Compacted => one(alloc, b"compacted"),
        Reply::Ingested(placed) => placed_words(alloc, placed.as_slice()),
        Reply::Await => one(alloc, b"await"),
        Reply::Long => one(alloc, b"long"),
        Reply::Refused(refusal) => refused_words(alloc, refusal),
    }
}

// Puts the words at the end, each behind a space.
fn push_spaced(text: &mut Bytes, words: &[Bytes]) -> Result<(), AllocError>
    ensures { OnOk result (text.new ≡ text.old ++ flat_map (λ word. 32 ∷ word) words.now) }
{
    for word in words {
        push_behind(text, word.as_slice())?;
    }
    Ok(())
}

// Puts the word at the end, behind a space.
fn push_behind(text: &mut Bytes, word: &[u8]) -> Result<(), AllocError>
    ensures { OnOk result (text.new ≡ text.old ++ 32 ∷ word.now) }
{
    text.push(32)?;
    text.extend_from_slice(word)
}

/// The line that the reply prints.
pub fn line_of(alloc: Global, place: u64, reply: &Reply) -> Result<Bytes, AllocError>
    ensures { IfOk result (λ line. line ≡ line_of place reply.now) }
{
    let mut line = number(alloc, place)?;
    let words = reply_words(alloc, reply)?;
    push_spaced(&mut line, words.as_slice())?;
    line.push(10)?;
    Ok(line)
}
