// The store of an accumulator's value as a word.
ghost use Rattle.std.specs.Prelude.{◌≡◌};
ghost use Rattle.accumulator.specs.Store.{truncated_of, is_odd, rounds_up, rounded_of, needs_limiting, stored_word, store_of};

use crate::mode::Mode;
use crate::range::Width;
use integers::bits::low_word;

// What a store gives: the word, and whether limiting was needed.
#[derive(Clone, Copy, Debug, PartialEq, Eq)]
pub struct Stored {
    pub word: u16,
    pub limiting: bool,
}

// Whether q is odd.
fn is_odd(q: i64) -> bool
    ensures { result ≡ is_odd q }
{
    (q & 1) as u16 == 1
}

// Whether rounding adds 1 to the quotient q with remainder p.
fn rounds_up(mode: Mode, q: i64, p: u16) -> bool
    ensures { result ≡ rounds_up mode q p }
{
    (32768 < p) | ((p == 32768) & (mode.rnd | is_odd(q)))
}

// The result of a truncated store before SATDW.
pub fn truncated(v: i64) -> i64
    ensures { result ≡ truncated_of v }
{
    v >> 16
}

// The result of a rounded store before SATDW.
pub fn rounded(mode: Mode, v: i64) -> i64
    ensures { result ≡ rounded_of mode v }
{
    let q = v >> 16;
    if rounds_up(mode, q, low_word(v)) {
        q + 1
    } else {
        q
    }
}

// Whether the result q needs limiting.
pub fn needs_limiting(q: i64) -> bool
    ensures { result ≡ needs_limiting q }
{
    Width { k: 15 }.outside(q)
}

// The word stored of the result q.
pub fn word(mode: Mode, q: i64) -> u16
    ensures { result ≡ stored_word mode q }
{
    if mode.satdw {
        low_word(Width { k: 15 }.limited_to(q))
    } else {
        low_word(q)
    }
}

// The store of v, rounded or truncated.
pub fn store(mode: Mode, round: bool, v: i64) -> Stored
    ensures { result ≡ store_of mode round v }
{
    let q = if round {
        rounded(mode, v)
    } else {
        truncated(v)
    };
    Stored {
        word: word(mode, q),
        limiting: needs_limiting(q),
    }
}
