// What checks and calls answer, and the number of each refusal.
ghost use Rattle.std.specs.Prelude.{◌≡◌, Some};
ghost use Rattle.std.specs.Fmt.{decimal};
ghost use Rattle.program.specs.Answer.{refusal_number, answer_number, answer_bytes};

use std::error::Error;
use std::fmt;

// Why something is refused, in the order of the table of refusals.
#[derive(Clone, Copy, Debug, PartialEq, Eq)]
pub enum Refusal {
    // a file not of 1 to 64 whole blocks; to the writer, not 1 to 4,032 whole operations
    Size,
    // a block's sum
    Sum,
    // a block's number, count or zero bytes
    Header,
    // a kind or a field that is not listed
    Field,
    // a DO or a REPEAT where it may not stand
    Placement,
    // settings that are not good for the memory
    Settings,
    // a state that does not fit its program; of sums that are combined, a bad mode word
    State,
    // too little room for the output
    Room,
    // two programs of more than 4,032 operations together
    Together,
    // not two to eight boards
    Boards,
    // an accumulator A beyond 40 bits among the sums
    Sums,
}

impl Refusal {
    // The number in the table of refusals.
    pub fn number(self) -> u8
        ensures { result ≡ refusal_number self }
    {
        match self {
            Refusal::Size => 1,
            Refusal::Sum => 2,
            Refusal::Header => 3,
            Refusal::Field => 4,
            Refusal::Placement => 5,
            Refusal::Settings => 6,
            Refusal::State => 7,
            Refusal::Room => 8,
            Refusal::Together => 9,
            Refusal::Boards => 13,
            Refusal::Sums => 14,
        }
    }
}

// A refusal is printed as its number.
impl fmt::Display for Refusal {
    ghost output = { λ r. Some (decimal (refusal_number r)) };

    fn fmt<W: fmt::Write>(&self, f: &mut fmt::Formatter<W>) -> fmt::Result {
        let number = self.number();
        write!(f, "{number}")
    }
}

impl Error for Refusal {}

// The refusal's number, 0 where nothing is refused.
pub fn number<T>(answer: &Result<T, Refusal>) -> u8
    ensures { result ≡ answer_number answer.now }
{
    match answer {
        Ok(_) => 0,
        Err(refusal) => refusal.number(),
    }
}

// The bytes that a call wrote into a lent slice, 0 where it refused.
pub fn bytes(answer: &Result<usize, Refusal>) -> usize
    ensures { result ≡ answer_bytes answer.now }
{
    match answer {
        Ok(n) => *n,
        Err(_) => 0,
    }
}
