//! Octets written into a buffer.

ghost use Rattle.std.specs.Prelude.{◌≡◌, ◌+◌, ◌≤◌, ◌++◌, length, take};

/// Writes octets at an offset, and returns the offset after them.
pub(crate) fn write_at(out: &mut [u8], at: usize, octets: &[u8]) -> usize
    requires { at + length octets.now ≤ length out.old }
    ensures count { result ≡ at + length octets.now }
    ensures text { take result out.new ≡ take at out.old ++ octets.now }
{
    let end = at + octets.len();
    out[at..end].copy_from_slice(octets);
    end
}
