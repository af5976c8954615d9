ghost use Rattle.std.specs.Prelude.{◌≡◌, Some, IsSome, map};
ghost use Rattle.st_base.specs.Rows.{Fits, entry_of};
ghost use Rattle.st_merge.specs.Heads.{entry_at_index};

use crate::entry_index::EntryIndex;
use st_base::{EntryRef, Rows, Scratch};

/// The entry that stands there in the parts; its key, value and number are within their limits.
pub fn entry_at<'a, T: Rows>(
    parts: &'a [T],
    entry_index: EntryIndex,
    scratch: &'a mut Scratch,
) -> EntryRef<'a>
    requires { IsSome (entry_at_index (map T.rows parts.now) entry_index.part entry_index.index) }
    ensures value { entry_at_index (map T.rows parts.now) entry_index.part entry_index.index
        ≡ Some (entry_of result) }
    ensures fits { Fits (entry_of result) }
{
    let rows = &parts[entry_index.part];
    let _length = rows.len();
    rows.at(entry_index.index, scratch)
}
