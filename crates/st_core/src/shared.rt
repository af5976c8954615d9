ghost use Rattle.std.specs.Prelude.{◌≡◌, IfOk, map, option_map};

use std::alloc::AllocError;
use std::sync::Arc;

// The same values, shared once more.
pub(crate) fn share_all<X: Drop>(items: &Vec<Arc<X>>) -> Result<Vec<Arc<X>>, AllocError>
    ensures { IfOk result
        (λ copies. map (λ shared. shared.value) copies.items ≡ map (λ shared. shared.value) items.now.items) }
{
    Ok(items.clone()?)
}

// The same value, shared once more, where there is one.
pub(crate) fn share<X: Drop>(item: &Option<Arc<X>>) -> Result<Option<Arc<X>>, AllocError>
    ensures { IfOk result
        (λ copy. option_map (λ shared. shared.value) copy ≡ option_map (λ shared. shared.value) item.now) }
{
    match item {
        Some(shared) => Ok(Some(shared.clone()?)),
        None => Ok(None),
    }
}
