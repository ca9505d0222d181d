// The status word SR.
ghost use Rattle.std.specs.Prelude.{◌≡◌};
ghost use Rattle.accumulator.specs.Status.{status_of};

// What the status word shows: the flags, whether a loop is active, and whether repeat left is not 0.
#[derive(Clone, Copy, Debug, PartialEq, Eq)]
pub struct Status {
    pub oa: bool,
    pub ob: bool,
    pub sa: bool,
    pub sb: bool,
    pub looping: bool,
    pub repeating: bool,
}

impl Status {
    // Bit 15 OA, 14 OB, 13 SA, 12 SB, 11 OA or OB, 10 SA or SB, 9 a loop is active, 4 repeat left is not 0.
    pub fn word(self) -> u16
        ensures { result ≡ status_of self }
    {
        (self.oa as u16) << 15
            | ((self.ob as u16) << 14
                | ((self.sa as u16) << 13
                    | ((self.sb as u16) << 12
                        | (((self.oa | self.ob) as u16) << 11
                            | (((self.sa | self.sb) as u16) << 10
                                | ((self.looping as u16) << 9 | (self.repeating as u16) << 4))))))
    }
}
