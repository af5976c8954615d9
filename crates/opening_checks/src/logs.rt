ghost use Rattle.std.specs.Prelude.{◌≡◌, map};
ghost use Rattle.store_image.specs.Opens.{last_op, unrisen};
ghost use Rattle.opening_checks.specs.Logs.{op_of};

use st_wal::Logged;

/// The place of the first operation whose number isn't above the one before it, the first being compared with `last`: None
/// exactly where the numbers rise. The place is the offset of the gate of the operation's record, in bytes.
pub fn unrisen(last: u64, operations: &[Logged]) -> Option<u64>
    ensures { result ≡ unrisen last (map op_of operations.now) }
{
    let mut before = last;
    for operation in operations {
        if operation.number <= before {
            return Some(operation.at);
        }
        before = operation.number;
    }
    None
}

/// The number of the last operation, or `last` where there is none.
pub fn last_number(last: u64, operations: &[Logged]) -> u64
    ensures { result ≡ last_op last (map op_of operations.now) }
{
    let mut before = last;
    for operation in operations {
        before = operation.number;
    }
    before
}
