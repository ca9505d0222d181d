// What is put on a line: numbers in decimal, words in hexadecimal, flags.
ghost use Rattle.std.specs.Prelude.{◌≡◌, ◌+◌, ◌<◌, ◌≤◌, ℕ, List, ◌++◌, length};
ghost use Rattle.text.specs.Text.{number_text, signed_text, hex_digit_of, word_text, flag_text};

use crate::line::Line;
use itoa::Buffer;

// A type whose values are put on a line.
pub trait Item: Copy {
    // A value's text.
    ghost text: { Self → List ℕ };

    // The most bytes of a text.
    ghost most: { ℕ };

    fn push(self, line: &mut Line)
        requires { length line.old + most ≤ 640 }
        ensures content { line.new ≡ line.old ++ text self }
        ensures upper_bound { length line.new ≤ length line.old + most };
}

impl Item for u64 {
    ghost text = { number_text };

    ghost most = { 20 };

    fn push(self, line: &mut Line) {
        line.push_text(Buffer::new().format(self).as_bytes())
    }
}

impl Item for u32 {
    ghost text = { number_text };

    ghost most = { 20 };

    fn push(self, line: &mut Line) {
        u64::from(self).push(line)
    }
}

impl Item for usize {
    ghost text = { number_text };

    ghost most = { 20 };

    fn push(self, line: &mut Line) {
        (self as u64).push(line)
    }
}

impl Item for i64 {
    ghost text = { signed_text };

    ghost most = { 21 };

    fn push(self, line: &mut Line) {
        let mut signed = Buffer::new();
        line.push_text(signed.format(self).as_bytes())
    }
}

// A hexadecimal digit, upper-case. Not `{:04X}`: std states no output of upper-case hexadecimal.
fn hex_digit(d: u16) -> u8
    requires { d < 16 }
    ensures { result ≡ hex_digit_of d }
{
    if d < 10 {
        b'0' + d as u8
    } else {
        b'A' - 10 + d as u8
    }
}

// A word, in four hexadecimal digits.
impl Item for u16 {
    ghost text = { word_text };

    ghost most = { 4 };

    fn push(self, line: &mut Line) {
        line.push_text(&[
            hex_digit(self / 4096 % 16),
            hex_digit(self / 256 % 16),
            hex_digit(self / 16 % 16),
            hex_digit(self % 16),
        ])
    }
}

// A flag, 0 or 1.
impl Item for bool {
    ghost text = { flag_text };

    ghost most = { 1 };

    fn push(self, line: &mut Line) {
        line.push_text(if self { b"1" } else { b"0" })
    }
}
