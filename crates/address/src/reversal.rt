// The bit-reversed step of a pointer among N words.
ghost use Rattle.std.specs.Prelude.{◌≡◌, ◌-◌, ◌*◌, ◌/◌, ◌^◌, ◌<◌, ◌≤◌, bit_and, bit_or};
ghost use Rattle.address.specs.Reversal.{rev, width_of, is_power, index_of, next_index, next_of};

use crate::word::ByteAddress;

// The width b of an index among N = 2^b words: up to ten.
#[derive(Clone, Copy)]
struct Width {
    b: u16,
    ghost bound: { b ≤ 10 },
}

// The bits of `lower` and those k places above them change places: with ones in the lower field of each pair, fields of k bits.
fn exchanged(x: u16, k: u16, lower: u16) -> u16
    requires k_bound { k ≤ 8 }
    requires lower_bound { lower < 2 ^ (16 - k) }
    ensures { result ≡ bit_or (bit_and x lower * 2 ^ k) (bit_and (x / 2 ^ k) lower) }
{
    (x & lower) << k | (x >> k) & lower
}

impl Width {
    // That of N, one of 2 .. 1,024; 0 of any other number, and no Option, as the definition width_of has it.
    #[tactic(auto, using(crate::proofs::Widths::single_width, crate::proofs::Widths::single_none))]
    fn of(n: u16) -> Width
        ensures { result.b ≡ width_of n }
    {
        if n.is_power_of_two() && (2..=1024).contains(&n) {
            Width {
                b: n.trailing_zeros() as u16,
            }
        } else {
            Width { b: 0 }
        }
    }

    // N.
    fn words(self) -> u16
        ensures { result ≡ 2 ^ self.b }
    {
        1 << self.b
    }

    // The mask that leaves an address modulo 2N: b + 1 ones.
    fn mask(self) -> u16
        ensures { result ≡ 2 * 2 ^ self.b - 1 }
    {
        2 * self.words() - 1
    }

    // The index j of an address among N words.
    fn index(self, a: ByteAddress) -> u16
        ensures { result ≡ index_of (2 ^ self.b) a.0 }
    {
        (a.0 & self.mask()) >> 1
    }

    // The b lowest bits of j in the opposite order. Bits change places with their neighbours, then pairs, fours and eights: each two, four, eight and all
    // sixteen bits are then reversed, and the b lowest stand highest. They come down in two shifts: b may be 0, and no shift is by sixteen.
    fn reversed(self, j: u16) -> u16
        ensures { result ≡ rev self.b j }
    {
        let twos = exchanged(j, 1, 0x5555);
        let fours = exchanged(twos, 2, 0x3333);
        let eights = exchanged(fours, 4, 0x0f0f);
        let sixteen = exchanged(eights, 8, 0x00ff);
        let ten = sixteen >> 6;
        ten >> (10 - self.b)
    }

    // The index k after j.
    fn next_index(self, j: u16) -> u16
        ensures { result ≡ next_index self.b j }
    {
        let up = (self.reversed(j) + 1) & (self.words() - 1);
        self.reversed(up)
    }
}

// Whether N is a power of two 2 .. 1,024.
pub fn is_power(n: u16) -> bool
    ensures { result ≡ is_power n }
{
    Width::of(n).b != 0
}

// The address after a in bit-reversed order with N = n words. Where n is no power of two 2 .. 1,024, it is a itself.
pub fn next(n: u16, a: ByteAddress) -> ByteAddress
    ensures { result.0 ≡ next_of n a.0 }
{
    let width = Width::of(n);
    let j = width.index(a);
    let k = width.next_index(j);
    let to = a.0 - 2 * j + 2 * k;
    ByteAddress(to)
}
