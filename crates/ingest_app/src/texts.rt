//! The texts that go with the statuses.
ghost use Rattle.std.specs.Prelude.{◌≡◌, IfOk};
ghost use Rattle.ingest_app.specs.Texts.{damaged_text, disk_text, input_text, not_yet_text, refused_text, script_text, source_text};

use st_base::Bytes;
use std::alloc::{AllocError, Global};

/// `notyet`
pub fn not_yet_text(alloc: Global) -> Result<Bytes, AllocError>
    ensures { IfOk result (λ text. text ≡ not_yet_text) }
{
    Bytes::from_slice(alloc, b"notyet\n")
}

/// `disk`
pub fn disk_text(alloc: Global) -> Result<Bytes, AllocError>
    ensures { IfOk result (λ text. text ≡ disk_text) }
{
    Bytes::from_slice(alloc, b"disk\n")
}

/// `input`
pub fn source_text(alloc: Global) -> Result<Bytes, AllocError>
    ensures { IfOk result (λ text. text ≡ source_text) }
{
    Bytes::from_slice(alloc, b"input\n")
}

/// `input NAME`
pub fn input_text(alloc: Global, name: &str) -> Result<Bytes, AllocError>
    ensures { IfOk result (λ text. text ≡ input_text name.now) }
{
    let mut text = Bytes::from_slice(alloc, b"input ")?;
    text.extend_from_slice(name.as_bytes())?;
    text.push(b'\n')?;
    Ok(text)
}

/// `script NAME LINE`
pub fn script_text(alloc: Global, name: &str, line: u32) -> Result<Bytes, AllocError>
    ensures { IfOk result (λ text. text ≡ script_text name.now line) }
{
    let mut text = Bytes::from_slice(alloc, b"script ")?;
    text.extend_from_slice(name.as_bytes())?;
    text.push(b' ')?;
    text.extend_from_slice(line.to_string(alloc)?.as_bytes())?;
    text.push(b'\n')?;
    Ok(text)
}

/// `damaged FILE OFFSET`
pub fn damaged_text(alloc: Global, file: u64, at: u64) -> Result<Bytes, AllocError>
    ensures { IfOk result (λ text. text ≡ damaged_text file at) }
{
    let mut text = Bytes::from_slice(alloc, b"damaged ")?;
    text.extend_from_slice(file.to_string(alloc)?.as_bytes())?;
    text.push(b' ')?;
    text.extend_from_slice(at.to_string(alloc)?.as_bytes())?;
    text.push(b'\n')?;
    Ok(text)
}

/// `refused` and the cause
pub fn refused_text(alloc: Global, cause: &[u8]) -> Result<Bytes, AllocError>
    ensures { IfOk result (λ text. text ≡ refused_text cause.now) }
{
    let mut text = Bytes::from_slice(alloc, b"refused ")?;
    text.extend_from_slice(cause)?;
    text.push(b'\n')?;
    Ok(text)
}
