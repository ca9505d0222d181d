// Limits, the value kept of an exact result, and the flags.
ghost use Rattle.std.specs.Prelude.{◌≡◌};
ghost use Rattle.integers.specs.Bits.{low_bits, signed_of};
ghost use Rattle.accumulator.specs.Limit.{limit_bits, has_left, kept_of, overflows, write_of, is_accumulator};

use crate::mode::{Mode, Target};
use crate::range::Width;

// An accumulator: its value and its flags O and S.
#[derive(Clone, Copy, Debug, PartialEq, Eq)]
pub struct Accumulator {
    pub value: i64,
    pub overflow: bool,
    pub saturation: bool,
}

// The numbers within the limits.
#[tactic(auto, unfolding(crate::specs::Limit::limit_bits))]
fn limits(mode: Mode, target: Target) -> Width
    ensures { result.k ≡ limit_bits mode target }
{
    if mode.saturates(target) && !mode.accsat {
        Width { k: 31 }
    } else {
        Width { k: 39 }
    }
}

// Whether the exact result r is outside the limits.
pub fn left(mode: Mode, target: Target, r: i64) -> bool
    ensures { result ≡ has_left mode target r }
{
    limits(mode, target).outside(r)
}

// The low 40 bits of r, read as signed.
pub fn low40(r: i64) -> i64
    ensures { result ≡ signed_of 40 (low_bits 40 r) }
{
    let low = r & 0xff_ffff_ffff;
    if low < 0x80_0000_0000 {
        low
    } else {
        low - 0x100_0000_0000
    }
}

// The value kept of the exact result r: r itself, the nearer limit, or the low 40 bits.
pub fn kept(mode: Mode, target: Target, r: i64) -> i64
    ensures { result ≡ kept_of mode target r }
{
    if left(mode, target, r) {
        if mode.saturates(target) {
            limits(mode, target).nearer(r)
        } else {
            low40(r)
        }
    } else {
        r
    }
}

// The O flag of a kept value.
pub fn overflow(v: i64) -> bool
    ensures { result ≡ overflows v }
{
    Width { k: 31 }.outside(v)
}

// The accumulator after a write of the exact result r.
pub fn write(before: Accumulator, mode: Mode, target: Target, r: i64) -> Accumulator
    ensures { result ≡ write_of before mode target r }
{
    let v = kept(mode, target, r);
    Accumulator {
        value: v,
        overflow: overflow(v),
        saturation: before.saturation | left(mode, target, r),
    }
}

// Whether v has 40 bits, as a state's accumulators must.
pub fn is_accumulator(v: i64) -> bool
    ensures { result ≡ is_accumulator v }
{
    !Width { k: 39 }.outside(v)
}
