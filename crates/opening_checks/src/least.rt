ghost use Rattle.std.specs.Prelude.{◌≡◌};
ghost use Rattle.opening_checks.specs.Least.{lesser_of};

/// The lesser of two file numbers that may be there.
pub(crate) fn lesser_of(one: Option<u64>, other: Option<u64>) -> Option<u64>
    ensures { result ≡ lesser_of one other }
{
    match one {
        Some(file) => match other {
            Some(least) => { if file < least { one } else { other } }
            None => one,
        },
        None => other,
    }
}
