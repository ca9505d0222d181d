// Where a run is.
ghost use Rattle.std.specs.Prelude.{◌≡◌};

// pc, the number of active loops, repeat left, and the mode word.
#[derive(Clone, Copy, Debug, PartialEq, Eq)]
pub struct Flow {
    pub pc: usize,
    pub depth: usize,
    pub repeat: u32,
    pub mode: u16,
}

impl Flow {
    // At operation pc, with so many active loops and so many repeats left.
    pub fn at(self, pc: usize, depth: usize, repeat: u32) -> Flow
        ensures { result ≡ record { pc = pc; depth = depth; repeat = repeat; mode = self.mode } }
    {
        Flow {
            pc,
            depth,
            repeat,
            mode: self.mode,
        }
    }

    // With another mode word.
    pub fn with_mode(self, word: u16) -> Flow
        ensures { result ≡ record { pc = self.pc; depth = self.depth; repeat = self.repeat; mode = word } }
    {
        Flow {
            pc: self.pc,
            depth: self.depth,
            repeat: self.repeat,
            mode: word,
        }
    }
}
