// The mode word (CORCON) and the accumulator that an operation names.
ghost use Rattle.std.specs.Prelude.{◌≡◌};
ghost use Rattle.accumulator.specs.Mode.{reset_mode, mode_of, is_good_mode, saturates};

// The accumulators.
#[derive(Clone, Copy, Debug, PartialEq, Eq)]
pub enum Target {
    A,
    B,
}

// The mode word taken apart.
#[derive(Clone, Copy, Debug, PartialEq, Eq)]
pub struct Mode {
    pub unsigned: bool,
    pub sata: bool,
    pub satb: bool,
    pub satdw: bool,
    pub accsat: bool,
    pub rnd: bool,
    pub integer: bool,
}

impl Mode {
    // The mode word after reset.
    pub const RESET: u16 = 0x0020;

    // The mode word after reset, with the contract that a constant cannot have.
    pub fn reset() -> u16
        ensures { result ≡ reset_mode }
    {
        Mode::RESET
    }

    // A mode word taken apart: US bits 13-12, SATA 7, SATB 6, SATDW 5, ACCSAT 4, RND 1, IF 0.
    pub fn of(word: u16) -> Self
        ensures { result ≡ mode_of word }
    {
        Mode {
            unsigned: (word >> 12) & 3 == 1,
            sata: (word >> 7) & 1 == 1,
            satb: (word >> 6) & 1 == 1,
            satdw: (word >> 5) & 1 == 1,
            accsat: (word >> 4) & 1 == 1,
            rnd: (word >> 1) & 1 == 1,
            integer: word & 1 == 1,
        }
    }

    // Whether a mode word is good: US is 0 or 1, and the unlisted bits are 0.
    #[tactic(auto, unfolding(crate::specs::Mode::is_good_mode))]
    pub fn is_good(word: u16) -> bool
        ensures { result ≡ is_good_mode word }
    {
        (word >> 14) & 3 == 0
            && (word >> 12) & 3 < 2
            && (word >> 8) & 15 == 0
            && (word >> 2) & 3 == 0
    }

    // Whether an accumulator's saturation is on.
    pub fn saturates(self, target: Target) -> bool
        ensures { result ≡ saturates self target }
    {
        match target {
            Target::A => self.sata,
            Target::B => self.satb,
        }
    }
}
