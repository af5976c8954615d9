ghost use Rattle.std.specs.Prelude.{◌≡◌, ◌≤◌, ◌<◌, length};
ghost use Rattle.store_image.specs.Parts.{has_twice};
ghost use Rattle.opening_checks.specs.Repeats.{is_repeated};

use st_base::{Rows, Scratch};

// Whether the entry at the index has the key of the one before it.
fn is_repeated<T: Rows>(rows: &T, index: usize, scratch: &mut Scratch, spare: &mut Scratch) -> bool
    requires above { 1 ≤ index }
    requires within { index < length (T.rows rows.now) }
    ensures { result ≡ is_repeated (T.rows rows.now) index }
{
    let before = rows.at(index - 1, scratch);
    let entry = rows.at(index, spare);
    before.key == entry.key
}

/// Whether a key stands twice in the rows. One pass, which compares neighbours.
pub fn has_twice<T: Rows>(rows: &T, scratch: &mut Scratch, spare: &mut Scratch) -> bool
    ensures { result ≡ has_twice (T.rows rows.now) }
{
    let count = rows.len();
    for index in 1..count {
        if is_repeated(rows, index, scratch, spare) {
            return true;
        }
    }
    false
}
