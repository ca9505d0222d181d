// Slices of bytes: words, sums, zeros, copies.
ghost use Rattle.std.specs.Prelude.{◌≡◌, ◌+◌, ◌<◌, ◌≤◌, length};
ghost use Rattle.operations.specs.Bytes.{word};
ghost use Rattle.program.specs.Bytes.{total_of, is_zero, over};

// The 16 bits at i, low byte first.
pub fn word_at_byte(s: &[u8], i: usize) -> u16
    requires { i + 1 < length s.now }
    ensures { result ≡ word s.now i }
{
    u16::from_le_bytes([s[i], s[i + 1]])
}

// The sum of at most 512 bytes.
pub fn total(s: &[u8]) -> u32
    requires { length s.now ≤ 512 }
    ensures value { result ≡ total_of s.now }
    ensures upper_bound { result ≤ 130560 }
{
    s.iter().map(|b| u32::from(*b)).sum()
}

// Whether all bytes are 0.
pub fn is_zero(s: &[u8]) -> bool
    ensures { result ≡ is_zero s.now }
{
    s.iter().all(|b| *b == 0)
}

// The bytes of `from` at the start of `to`; the rest of `to` stays.
pub fn copy(from: &[u8], to: &mut [u8])
    requires { length from.now ≤ length to.old }
    ensures { to.new ≡ over from.now to.old }
{
    to[..from.len()].copy_from_slice(from);
}
