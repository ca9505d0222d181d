// The traps, in the order of their numbers.
ghost use Rattle.std.specs.Prelude.{◌≡◌};
ghost use Rattle.address.specs.Trap.{trap_number};

// What stops a run: the first four before a step, without effect; the last three after a complete one.
#[derive(Clone, Copy, Debug, PartialEq, Eq)]
pub enum Trap {
    OddAddress = 1,
    OutsideRegion = 2,
    ShiftAmount = 3,
    LoopDepth = 4,
    LimitsLeft = 5,
    OverflowA = 6,
    OverflowB = 7,
}

impl Trap {
    // The trap's number.
    pub fn number(self) -> u8
        ensures { result ≡ trap_number self }
    {
        self as u8
    }
}
