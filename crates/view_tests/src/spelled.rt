use st_base::{Bytes, Key, Value};
use std::alloc::{AllocError, Global};

// Puts ` key=value` at the end.
fn spell(text: &mut Bytes, pair: &(Key, Value)) -> Result<(), AllocError> {
    text.push(b' ')?;
    text.extend_from_slice(pair.0.as_bytes())?;
    text.push(b'=')?;
    text.extend_from_slice(pair.1.as_bytes())
}

/// What a scan gave, as ` key=value` for each pair.
pub fn spelled(alloc: Global, pairs: &[(Key, Value)]) -> Result<Bytes, AllocError> {
    let mut text = Bytes::new(alloc);
    for pair in pairs.iter() {
        spell(&mut text, pair)?;
    }
    Ok(text)
}
