// Accesses to registers and memory.
use crate::pointer::Change;
use address::word::WordIndex;

// The two data spaces.
#[derive(Clone, Copy, Debug, PartialEq, Eq)]
pub enum Space {
    X,
    Y,
}

// Where a word stands: nowhere, in a register, in memory.
#[derive(Clone, Copy, Debug, PartialEq, Eq)]
pub enum Place {
    Nowhere,
    Register(u8),
    Memory(WordIndex),
}

// An access: its trap, 1 or 2, or 0; the place; what becomes of the pointer. Definitions alone build it: access_trap is the number.
#[derive(Clone, Copy, Debug, PartialEq, Eq)]
pub struct Access {
    pub trap: u8,
    pub place: Place,
    pub change: Change,
}
