// Numbers in a row of bytes, low byte first.
ghost use Rattle.std.specs.Prelude.{◌≡◌, ◌+◌, ◌<◌, length};
ghost use Rattle.stream.specs.Header.{two_bytes_at, four_bytes_at, eight_bytes_at};

// The 16 bits from `at` on.
pub fn two_bytes_at(bytes: &[u8], at: usize) -> u16
    requires { at + 1 < length bytes.now }
    ensures { result ≡ two_bytes_at bytes.now at }
{
    u16::from_le_bytes([bytes[at], bytes[at + 1]])
}

// The 32 bits from `at` on.
pub fn four_bytes_at(bytes: &[u8], at: usize) -> u32
    requires { at + 3 < length bytes.now }
    ensures { result ≡ four_bytes_at bytes.now at }
{
    u32::from_le_bytes([bytes[at], bytes[at + 1], bytes[at + 2], bytes[at + 3]])
}

// The 64 bits from `at` on, read as signed.
pub fn eight_bytes_at(bytes: &[u8], at: usize) -> i64
    requires { at + 7 < length bytes.now }
    ensures { result ≡ eight_bytes_at bytes.now at }
{
    let low = four_bytes_at(bytes, at);
    let high = four_bytes_at(bytes, at + 4);
    (u64::from(low) + (u64::from(high) << 32)).cast_signed()
}
