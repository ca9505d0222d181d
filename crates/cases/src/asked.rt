// What a case asks for.

// From here on what is asked for has a header of the long form.
pub const LONG: u8 = 16;

// What a case asks for stands in byte 111 of its header.
#[derive(Clone, Copy, Debug, PartialEq, Eq)]
pub enum Asked {
    Load,
    Write,
    Run,
    LongRun,
    Join,
    Decoded,
    Combine,
    Unknown,
}

impl From<u8> for Asked {
    fn from(what: u8) -> Asked {
        match what {
            1 => Asked::Load,
            2 => Asked::Write,
            0..=15 => Asked::Run,
            16 => Asked::LongRun,
            17 => Asked::Join,
            21 => Asked::Decoded,
            22 => Asked::Combine,
            _ => Asked::Unknown,
        }
    }
}

impl Asked {
    // Whether it is a run, which finds the words of the case in memory.
    pub fn is_run(self) -> bool {
        matches!(self, Asked::Run | Asked::LongRun | Asked::Decoded)
    }
}
