ghost use Rattle.std.specs.Prelude.{◌≡◌, ◌↔◌, [], IfOk, IsTrue};
ghost use Rattle.st_model.specs.declared.refusal.Refusal.TheVariants.{NoFiles, FamilyTwice};
ghost use Rattle.plain_request.specs.Large.{first_empty, first_twice, large_refusal};

use crate::exact::is_named;
use st_model::{IngestExternalFileArg, Refusal};
use std::alloc::{AllocError, Global};

// The number of the first argument without files, counted from 1.
fn first_empty(arguments: &[IngestExternalFileArg]) -> Option<u64>
    ensures { result ≡ first_empty 1 arguments.now }
{
    for (index, argument) in arguments.iter().enumerate() {
        if argument.files.is_empty() {
            return Some(index as u64 + 1);
        }
    }
    None
}

// The number of the first argument that names an earlier one's family, counted from 1.
fn first_twice(
    alloc: Global,
    arguments: &[IngestExternalFileArg],
) -> Result<Option<u64>, AllocError>
    ensures { IfOk result (λ number. number ≡ first_twice 1 [] arguments.now) }
{
    let mut named = Vec::new(alloc);
    for (index, argument) in arguments.iter().enumerate() {
        if is_named(named.as_slice(), &argument.family) {
            return Ok(Some(index as u64 + 1));
        }
        named.insert(0, argument.family.clone()?)?;
    }
    Ok(None)
}

fn is_no_files(refusal: &Refusal, number: u64) -> bool
    ensures { IsTrue result ↔ (refusal.now ≡ NoFiles number) }
{
    match refusal {
        Refusal::NoFiles(other) => *other as u64 == number,
        _ => false,
    }
}

fn is_family_twice(refusal: &Refusal, number: u64) -> bool
    ensures { IsTrue result ↔ (refusal.now ≡ FamilyTwice number) }
{
    match refusal {
        Refusal::FamilyTwice(other) => *other as u64 == number,
        _ => false,
    }
}

fn is_too_many(refusal: &Refusal) -> bool
    ensures { IsTrue result ↔ (refusal.now ≡ Refusal.TooManyFiles) }
{
    matches!(refusal, Refusal::TooManyFiles)
}

/// Whether this is the refusal of a request that is too large (`is_large`), which is refused by its shape alone. Its
/// arguments may be more than 32 bits count.
pub fn is_large_refusal(
    alloc: Global,
    arguments: &[IngestExternalFileArg],
    refusal: &Refusal,
) -> Result<bool, AllocError>
    ensures { IfOk result (λ holds. IsTrue holds ↔ (refusal.now ≡ large_refusal arguments.now)) }
{
    if let Some(number) = first_empty(arguments) {
        return Ok(is_no_files(refusal, number));
    }
    match first_twice(alloc, arguments)? {
        Some(number) => Ok(is_family_twice(refusal, number)),
        None => Ok(is_too_many(refusal)),
    }
}
