// Drawn numbers, and the check of a list of numbers.
ghost use Rattle.std.specs.Prelude.{◌<◌, ◌^◌};

use address::step::{Buffer, sum};
use address::word::{ByteAddress, MEMORY_START};
use text::check::next_check;
use text::magnitude::magnitude;

// The number drawn after x: 48,271 x modulo 2^31 - 1.
pub fn after(x: u64) -> u64 {
    x % 2147483647 * 48271 % 2147483647
}

// The check h with the number v, modulo 2^32.
pub fn checked(h: u32, v: u64) -> u32 {
    next_check(h, (v % 4294967296) as u32)
}

// The check with a signed number: whether it is below zero, then its magnitude.
pub fn checked_signed(h: u32, v: i64) -> u32 {
    checked(checked_flag(h, v < 0), magnitude(v))
}

// The check with a flag.
pub fn checked_flag(h: u32, b: bool) -> u32 {
    checked(h, b as u64)
}

// A word of a drawn number.
pub fn word(x: u64) -> u16 {
    (x / 4 % 65536) as u16
}

// A good mode word of a drawn number: US 0 or 1, and the listed bits.
pub fn mode_word(x: u64) -> u16 {
    word(x) & 0x10f3
}

// A bit of a drawn number.
pub fn bit(x: u64) -> bool {
    x / 64 % 2 == 1
}

// 2^40 and one of ±2^31, ±2^39.
fn limit_near(y: u64) -> u64
    ensures { result < 2 ^ 42 }
{
    match y % 4 {
        0 => 0x100_8000_0000,
        1 => 0xff_8000_0000,
        2 => 0x180_0000_0000,
        _ => 0x80_0000_0000,
    }
}

// An exact result of two drawn numbers: every second one is within 4 of a limit, the others are any of -2^40 .. 2^40 - 1.
pub fn result(x: u64, y: u64) -> i64 {
    if y / 4 % 2 == 0 {
        let sum = limit_near(y) + x % 8;
        sum as i64 - 0x100_0000_0004
    } else {
        let sum = x % 2147483648 * 1024 + y % 1024;
        sum as i64 - 0x100_0000_0000
    }
}

// A value to store, one of -2^32 .. 2^32 - 1, so that every second one needs limiting; every fourth has a remainder of 32,768.
pub fn stored(x: u64, y: u64) -> i64 {
    let low = if y % 4 == 0 { 32768 } else { y % 65536 };
    let sum = x % 131072 * 65536 + low % 65536;
    sum as i64 - 0x1_0000_0000
}

// A shift of -16 .. 16.
pub fn amount(x: u64) -> i64 {
    let n = x / 8 % 33;
    n as i64 - 16
}

// A step of -6 .. 6, even.
pub fn step(x: u64) -> i16 {
    2 * (x / 8 % 7) as i16 - 6
}

// N, a power of two 2 .. 1,024.
pub fn power(x: u64) -> u16 {
    2 << (x / 8 % 10)
}

// Where buffers begin: low in memory, or so that they end at FFFF hex at most.
fn base(x: u64) -> ByteAddress {
    if bit(x) {
        ByteAddress(0xffd0)
    } else {
        MEMORY_START
    }
}

// A circular buffer of 6 to 34 bytes.
pub fn buffer(x: u64, y: u64) -> Buffer {
    let first = base(x);
    let at = first.0;
    let start = at as u64 + x / 128 % 8 * 2;
    let last = start + y / 8 % 15 * 2 + 5;
    Buffer {
        start: ByteAddress((start % 65536) as u16),
        last: ByteAddress((last % 65536) as u16),
    }
}

// An address from 4 bytes below a buffer on.
pub fn beside(buffer: Buffer, y: u64) -> ByteAddress {
    let start = buffer.start;
    let offset = (y / 128 % 48 + 65532) % 65536;
    sum(start, offset as u16)
}

// An address around the first words of memory.
pub fn early(x: u64) -> ByteAddress {
    ByteAddress((x / 4 % 256 + 0x0ff0) as u16)
}
