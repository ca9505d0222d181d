// The magnitude of a signed number.
ghost use Rattle.std.specs.Prelude.{◌≡◌};
ghost use Rattle.std.specs.Int.Signed.{mag};

// The n of a number that is n or -(n + 1).
pub fn magnitude(v: i64) -> u64
    ensures { result ≡ mag v }
{
    if v < 0 { !v as u64 } else { v as u64 }
}
