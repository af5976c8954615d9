ghost use Rattle.std.specs.Prelude.{◌≡◌, IfOk};

use st_base::Key;
use std::alloc::{AllocError, Global};

// The key of these bytes, of which there are few enough.
pub(crate) fn key_of(alloc: Global, bytes: &[u8]) -> Result<Key, AllocError>
    ensures { IfOk result (λ key. key ≡ bytes.now) }
{
    match Key::new(alloc, bytes) {
        Ok(key) => Ok(key),
        Err(_) => Err(AllocError),
    }
}
