ghost use Rattle.std.specs.Prelude.{◌≡◌, [], OnOk};
ghost use Rattle.opening_checks.specs.Heads.{InOrder, IsTaken, head_put, heads_in};

use st_base::Key;
use std::alloc::{AllocError, Global};
use std::cmp::Reverse;
use std::collections::BinaryHeap;

/// Parts of a walk with the keys of their next entries: the least key comes first, and at one key the earlier part.
pub(crate) type Heads = BinaryHeap<Reverse<(Key, usize)>>;

/// No part.
pub(crate) fn no_heads(alloc: Global) -> Heads
    ensures order { InOrder result }
    ensures none { heads_in result ≡ [] }
{
    BinaryHeap::new(alloc)
}

/// Takes the first of them: None exactly where there is none.
pub(crate) fn take(heads: &mut Heads) -> Option<(Key, usize)>
    ensures { IsTaken heads.old result heads.new }
{
    match heads.pop() {
        Some(head) => Some(head.0),
        None => None,
    }
}

/// Puts the part among them, if it has a next key.
pub(crate) fn put(heads: &mut Heads, key: Option<Key>, part: usize) -> Result<(), AllocError>
    ensures { OnOk result (head_put key part heads.old heads.new) }
{
    if let Some(key) = key {
        heads.push(Reverse((key, part)))?;
    }
    Ok(())
}
