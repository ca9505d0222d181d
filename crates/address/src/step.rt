// Address sums and stepped addresses: plain, and in a circular buffer.
ghost use Rattle.std.specs.Prelude.{◌≡◌, pos, ◌+ℤ◌};
ghost use Rattle.address.specs.Step.{address_sum, stepped_of, is_within, size_of, circular_of};

use crate::word::ByteAddress;
use integers::bits::low_word;

// A circular buffer: its first and its last byte, the paper's S and E.
#[derive(Clone, Copy, Debug, PartialEq, Eq)]
pub struct Buffer {
    pub start: ByteAddress,
    pub last: ByteAddress,
}

impl Buffer {
    // Its bytes.
    fn size(self) -> i64
        ensures { result ≡ size_of self.start.0 self.last.0 }
    {
        let apart = self.last.0 as i64 - self.start.0 as i64;
        apart + 1
    }

    // Whether an address is within it.
    fn has(self, a: ByteAddress) -> bool
        ensures { result ≡ is_within self.start.0 self.last.0 a.0 }
    {
        self.start.0 <= a.0 && a.0 <= self.last.0
    }
}

// The sum of an address and a register, W9 + W12 or W11 + W13.
pub fn sum(a: ByteAddress, w: u16) -> ByteAddress
    ensures { result.0 ≡ address_sum a.0 w }
{
    ByteAddress(a.0.wrapping_add(w))
}

// An address stepped with no correction.
pub fn stepped(a: ByteAddress, step: i16) -> ByteAddress
    ensures { result.0 ≡ stepped_of a.0 step }
{
    ByteAddress(a.0.wrapping_add_signed(step))
}

// An address stepped, not reduced to 16 bits.
fn unreduced(a: ByteAddress, step: i16) -> i64
    ensures { result ≡ pos a.0 +ℤ step }
{
    a.0 as i64 + step as i64
}

// An address stepped in a circular buffer: the unreduced sum is corrected once, and only then reduced to 16 bits.
pub fn circular(buffer: Buffer, old: ByteAddress, step: i16) -> ByteAddress
    ensures { result.0 ≡ circular_of buffer old.0 step }
{
    let to = unreduced(old, step);
    if to < buffer.start.0 as i64 && buffer.has(old) {
        return ByteAddress(low_word(to + buffer.size()));
    }
    if (buffer.last.0 as i64) < to && buffer.has(old) {
        return ByteAddress(low_word(to - buffer.size()));
    }
    stepped(old, step)
}
