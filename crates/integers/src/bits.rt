// The bits of a number.
ghost use Rattle.std.specs.Prelude.{◌≡◌};
ghost use Rattle.integers.specs.Bits.{low_bits};

// The low 16 bits of v.
pub fn low_word(v: i64) -> u16
    ensures { result ≡ low_bits 16 v }
{
    (v & 0xffff) as u16
}
