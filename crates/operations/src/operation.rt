// Operations by value.
use accumulator::mode::Target;

// What kinds 1 to 7 do to the target.
#[derive(Clone, Copy, Debug, PartialEq, Eq)]
pub enum Action {
    Clr = 1,
    Mpy,
    Mac,
    Msc,
    Ed,
    Edac,
    Movsac,
}

// An X or Y read beside an operation: none, at a pointer that then steps by 2 (c - 3), or at the sum of two registers.
#[derive(Clone, Copy, Debug, PartialEq, Eq)]
pub enum Prefetch {
    None,
    Pointer { register: u8, c: u8 },
    Sum,
}

// The rounded store of the other accumulator: none, to W13, or to memory at W13, which then goes up by 2.
#[derive(Clone, Copy, Debug, PartialEq, Eq)]
pub enum WriteBack {
    None,
    Register,
    Memory,
}

// What happens to a pointer after its use: it stays, goes up by 2 or down by 2.
#[derive(Clone, Copy, Debug, PartialEq, Eq)]
pub enum PostModification {
    None = 1,
    Increment,
    Decrement,
}

// What kinds 12 to 15 read or store to: a register, or memory at a pointer with what happens to it.
#[derive(Clone, Copy, Debug, PartialEq, Eq)]
pub enum Operand {
    Register(u8),
    Memory { pointer: u8, post: PostModification },
}

// Kinds 1 to 7: factors m and n, the X and Y prefetches with their destinations, and the write-back. A register that the operation does
// not have is 0.
#[derive(Clone, Copy, Debug, PartialEq, Eq)]
pub struct MacClass {
    pub action: Action,
    pub target: Target,
    pub m: u8,
    pub n: u8,
    pub x: Prefetch,
    pub xto: u8,
    pub y: Prefetch,
    pub yto: u8,
    pub back: WriteBack,
}

// The kinds in their order. A shift is held as its byte, the shift + 8.
#[derive(Clone, Copy, Debug, PartialEq, Eq)]
pub enum Operation {
    // 1 to 7
    MacClass(MacClass),
    // 8 to 11
    AddAccumulators {
        target: Target,
    },
    Subtract {
        target: Target,
    },
    Negate {
        target: Target,
    },
    Shift {
        target: Target,
        by: u8,
    },
    // 12 to 15
    Lac {
        target: Target,
        shift: u8,
        from: Operand,
    },
    Add {
        target: Target,
        shift: u8,
        from: Operand,
    },
    Sac {
        target: Target,
        shift: u8,
        to: Operand,
    },
    SacR {
        target: Target,
        shift: u8,
        to: Operand,
    },
    // 16 to 18
    Literal {
        to: u8,
        value: u16,
    },
    Load {
        to: u8,
        pointer: u8,
        post: PostModification,
    },
    Store {
        from: u8,
        pointer: u8,
        post: PostModification,
    },
    // 19 to 22
    Repeat {
        count: u16,
    },
    RepeatRegister {
        register: u8,
    },
    Do {
        count: u16,
        last: u16,
    },
    DoRegister {
        register: u8,
        last: u16,
    },
    // 23 to 25
    EndEarly,
    SetMode {
        word: u16,
    },
    ClearSaturation,
}
