//! Bytes put into a slice.

ghost use Rattle.std.specs.Prelude.{◌≡◌, ◌≤◌, ◌+◌, length};
ghost use Rattle.std.specs.List.{splice};

/// Copies bytes into a slice from offset `at` on. The others stay as they are.
#[inline(always)]
pub(super) fn put_at(out: &mut [u8], at: usize, bytes: &[u8])
    requires { at + length bytes.now ≤ length out.old }
    ensures { out.new ≡ splice out.old at (at + length bytes.now) bytes.now }
{
    // Lengths of a word and of an IPv6 address are constants, so they compile to no call of
    // memcpy.
    match bytes.len() {
        4 => out[at..at + 4].copy_from_slice(&bytes[..4]),
        16 => out[at..at + 16].copy_from_slice(&bytes[..16]),
        len => out[at..at + len].copy_from_slice(bytes),
    }
}
