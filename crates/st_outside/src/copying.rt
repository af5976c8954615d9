ghost use Rattle.std.specs.Prelude.{◌≡◌, ◌-◌, drop, length, min, take};

/// Copies the bytes from an offset on to the front of the buffer, as many as are there and fit, and answers how many.
pub fn copy_from(bytes: &[u8], at: u64, buffer: &mut [u8]) -> usize
    ensures count { result ≡ min (length buffer.old) (length bytes.now - at) }
    ensures front { take result buffer.new ≡ take result (drop at bytes.now) }
    ensures rest { drop result buffer.new ≡ drop result buffer.old }
{
    if at >= bytes.len() as u64 {
        return 0;
    }
    let left = &bytes[at as usize..];
    let n = left.len().min(buffer.len());
    buffer[..n].copy_from_slice(&left[..n]);
    n
}
