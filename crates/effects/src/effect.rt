// What an operation comes to before its result is limited and its store is done.
use crate::access::Place;
use accumulator::mode::Target;

// An accumulator's result: none, or an exact whole number, not yet limited. No Option: definitions alone build it, and Keep and Replace say what happens.
#[derive(Clone, Copy, Debug, PartialEq, Eq)]
pub enum Exact {
    Keep,
    Replace { target: Target, r: i64 },
}

// What is stored: a word, or an accumulator's exact scaled value, to be rounded or truncated.
#[derive(Clone, Copy, Debug, PartialEq, Eq)]
pub enum Value {
    Word(u16),
    Scaled { round: bool, v: i64 },
}

// A trap 1 to 4, 0 none; the exact result; the place and the value of the one store. Definitions alone build it: work_of has the trap's number.
#[derive(Clone, Copy, Debug, PartialEq, Eq)]
pub struct Effect {
    pub trap: u8,
    pub exact: Exact,
    pub place: Place,
    pub value: Value,
}
