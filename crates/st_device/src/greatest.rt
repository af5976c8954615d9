ghost use Rattle.std.specs.Prelude.{◌≡◌, ◌≤◌, All};
ghost use Rattle.st_base.specs.Count.{greatest_count};
ghost use Rattle.st_device.specs.Disk.{greatest};

/// The greatest of these numbers and of `least`.
pub fn greatest_of(least: u64, names: &[u64]) -> u64
    ensures value { result ≡ greatest least names.now }
    ensures fit { All (λ n. n ≤ greatest_count) names.now }
{
    names.iter().fold(least, |most, name| most.max(*name))
}
