// How a run ends.
ghost use Rattle.std.specs.Prelude.{◌≡◌, Some};
ghost use Rattle.endings.specs.Ending.{digit_of, decimal_of, filled_to, name_of, text_of, number_of, code_of};

use std::fmt;

// Done: pc is the count of operations. Spent: the budget's steps are made. Trap: its number, 1 to 7. Refused: its number, 1 to 7 of a run; names have
// room for two digits. The numbers are no enums: name_of and its worked names speak of numbers that no trap and no refusal has.
#[derive(Clone, Copy, Debug, PartialEq, Eq)]
pub enum Ending {
    Done,
    Spent,
    Trap(u8),
    Refused(u8),
}

// A number's last digit. It, `decimal` and `name` stand beside Display: the clause of `name` promises nine bytes, with zeros.
fn digit(n: u8) -> u8
    ensures { result ≡ digit_of n }
{
    b'0' + n % 10
}

// A number in decimal; a zero follows a single digit.
#[tactic(auto, unfolding(crate::specs::Ending::decimal_of))]
fn decimal(n: u8) -> [u8; 2]
    ensures { result ≡ filled_to 2 (decimal_of n) }
{
    if n < 10 {
        [digit(n), 0]
    } else {
        [digit(n / 10), digit(n)]
    }
}

impl Ending {
    // The number of a trap or a refusal, 0 for the others.
    #[tactic(auto, unfolding(crate::specs::Ending::number_of))]
    pub fn number(self) -> u8
        ensures { result ≡ number_of self }
    {
        match self {
            Ending::Done | Ending::Spent => 0,
            Ending::Trap(n) | Ending::Refused(n) => n,
        }
    }

    // One byte for an ending, two hex digits: 00 done, 10 spent, 2n trap n, 3n refusal n.
    #[tactic(auto, unfolding(crate::specs::Ending::code_of))]
    pub fn code(self) -> u8
        ensures { result ≡ code_of self }
    {
        match self {
            Ending::Done => 0x00,
            Ending::Spent => 0x10,
            Ending::Trap(n) => 0x20 + n % 16,
            Ending::Refused(n) => 0x30 + n % 16,
        }
    }

    // The name, with its number, in ASCII; zeros fill the nine bytes.
    pub fn name(self) -> [u8; 9]
        ensures { result ≡ name_of self }
    {
        match self {
            Ending::Done => *b"done\0\0\0\0\0",
            Ending::Spent => *b"spent\0\0\0\0",
            Ending::Trap(n) => {
                let [tens, ones] = decimal(n);
                [b't', b'r', b'a', b'p', tens, ones, 0, 0, 0]
            }
            Ending::Refused(n) => {
                let [tens, ones] = decimal(n);
                [b'r', b'e', b'f', b'u', b's', b'e', b'd', tens, ones]
            }
        }
    }
}

// The name, with its number in decimal.
impl fmt::Display for Ending {
    ghost output = { λ e. Some (text_of e) };

    fn fmt<W: fmt::Write>(&self, f: &mut fmt::Formatter<W>) -> fmt::Result {
        match *self {
            Ending::Done => write!(f, "done"),
            Ending::Spent => write!(f, "spent"),
            Ending::Trap(n) => write!(f, "trap{n}"),
            Ending::Refused(n) => write!(f, "refused{n}"),
        }
    }
}
