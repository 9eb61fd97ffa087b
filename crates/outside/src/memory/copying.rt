//! Copies between slices.
ghost use Rattle.std.specs.Prelude.{◌≡◌, length, take, min};

// Copies what fits from the front of one to the front of the other.
pub(crate) fn copy_front(from: &[u8], to: &mut [u8]) -> usize
    ensures count { result ≡ min (length from.now) (length to.old) }
    ensures copied { take result to.new ≡ take result from.now }
{
    let n = from.len().min(to.len());
    to[..n].copy_from_slice(&from[..n]);
    n
}
