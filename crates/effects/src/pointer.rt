// Pointers and what becomes of them.
use address::word::ByteAddress;

// What an operand is accessed for.
#[derive(Clone, Copy, Debug, PartialEq, Eq)]
pub enum Purpose {
    Read,
    Store,
}

// A pointer's change: none, or a register's new address. No Option: definitions alone build it, and To says what happens.
#[derive(Clone, Copy, Debug, PartialEq, Eq)]
pub enum Change {
    None,
    To { register: u8, address: ByteAddress },
}
