ghost use Rattle.std.specs.Prelude.{◌≡◌};
ghost use Rattle.st_base.specs.Bytes.{at_most, below};

/// Whether the first byte string is at most the second.
pub fn at_most(one: &[u8], other: &[u8]) -> bool
    ensures { result ≡ at_most one.now other.now }
{
    one.cmp(other).is_le()
}

/// Whether the first byte string is below the second.
pub fn below(one: &[u8], other: &[u8]) -> bool
    ensures { result ≡ below one.now other.now }
{
    one.cmp(other).is_lt()
}
