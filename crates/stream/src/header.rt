// A case's header of 320 bytes: sizes, settings and state. Numbers are low byte first. The short form has the first 112; zeros follow.
ghost use Rattle.std.specs.Prelude.{◌≡◌, ◌+◌, ◌*◌, ◌<◌, length};
ghost use Rattle.stream.specs.Header.{two_bytes_at, file_size, memory_words, budget_in, second_size, lent_words, output_room, what_in, circular_at, settings_in, registers_in, loops_in, flag_in, mode_word_in, state_in};

use crate::bytes::{eight_bytes_at, four_bytes_at, two_bytes_at};
use crate::memory::fill;
use address::step::Buffer;
use address::word::ByteAddress;
use state::settings::{Circular, Reversed, Settings};
use state::state::{Core, Loops, State};

// The bytes of a header.
#[derive(Clone, Copy)]
pub struct Header {
    pub bytes: [u8; 320],
    ghost whole: { length bytes ≡ 320 },
}

impl Header {
    // A header of these bytes.
    pub fn new(bytes: [u8; 320]) -> Header
        ensures { result.bytes ≡ bytes }
    {
        Header { bytes }
    }

    // Bit i of the flags.
    fn flag(&self, i: u8) -> bool
        requires { i < 8 }
        ensures { result ≡ flag_in self.now.bytes i }
    {
        (self.bytes[110] >> i) & 1 == 1
    }

    // The bytes of the program file.
    pub fn file_size(&self) -> usize
        ensures { result ≡ file_size self.now.bytes }
    {
        four_bytes_at(&self.bytes, 0) as usize
    }

    // What is asked for.
    pub fn what(&self) -> u8
        ensures { result ≡ what_in self.now.bytes }
    {
        self.bytes[111]
    }

    // The words of memory.
    pub fn memory_words(&self) -> usize
        ensures { result ≡ memory_words self.now.bytes }
    {
        four_bytes_at(&self.bytes, 4) as usize
    }

    // The budget; of a load and of a write the bytes of lent output.
    pub fn budget(&self) -> u32
        ensures { result ≡ budget_in self.now.bytes }
    {
        four_bytes_at(&self.bytes, 8)
    }

    // The mode word.
    pub fn mode_word(&self) -> u16
        ensures { result ≡ mode_word_in self.now.bytes }
    {
        two_bytes_at(&self.bytes, 108)
    }

    // The bytes of the second file.
    pub fn second_size(&self) -> usize
        ensures { result ≡ second_size self.now.bytes }
    {
        four_bytes_at(&self.bytes, 260) as usize
    }

    // The words of a lent slice for decoded operations.
    pub fn lent(&self) -> usize
        ensures { result ≡ lent_words self.now.bytes }
    {
        four_bytes_at(&self.bytes, 264) as usize
    }

    // The bytes of lent output of a case in the long form.
    pub fn output_room(&self) -> usize
        ensures { result ≡ output_room self.now.bytes }
    {
        four_bytes_at(&self.bytes, 268) as usize
    }

    // A circular register, its S and E.
    fn circular_at(&self, at: usize) -> Circular
        requires { at + 5 < 320 }
        ensures { result ≡ circular_at self.now.bytes at }
    {
        Circular {
            register: self.bytes[at],
            buffer: Buffer {
                start: ByteAddress(two_bytes_at(&self.bytes, at + 2)),
                last: ByteAddress(two_bytes_at(&self.bytes, at + 4)),
            },
        }
    }

    // The settings.
    #[tactic(auto, unfolding(crate::specs::Header::settings_in))]
    pub fn settings(&self) -> Settings
        ensures { result ≡ settings_in self.now.bytes }
    {
        Settings {
            xwords: two_bytes_at(&self.bytes, 12) as usize,
            traps: two_bytes_at(&self.bytes, 14),
            x: self.circular_at(16),
            y: self.circular_at(22),
            reversed: Reversed {
                register: self.bytes[28],
                words: two_bytes_at(&self.bytes, 30),
            },
        }
    }

    // W0..W13.
    fn registers(&self) -> [u16; 14]
        ensures { result ≡ registers_in self.now.bytes }
    {
        let mut w = [0u16; 14];
        fill(&mut w, &self.bytes[32..60]);
        w
    }

    // DO's number of slot i.
    fn start(&self, i: usize) -> usize
        requires { i < 4 }
        ensures { result ≡ two_bytes_at self.now.bytes (80 + 2 * i) }
    {
        two_bytes_at(&self.bytes, 80 + 2 * i) as usize
    }

    // The number of active loops and the four slots.
    #[tactic(auto, unfolding(crate::specs::Header::loops_in))]
    fn loops(&self) -> Loops
        ensures { result ≡ loops_in self.now.bytes }
    {
        Loops {
            starts: [self.start(0), self.start(1), self.start(2), self.start(3)],
            passes: [
                four_bytes_at(&self.bytes, 88),
                four_bytes_at(&self.bytes, 92),
                four_bytes_at(&self.bytes, 96),
                four_bytes_at(&self.bytes, 100),
            ],
            depth: self.bytes[78] as usize,
        }
    }

    // The state.
    #[tactic(auto, unfolding(crate::specs::Header::state_in))]
    pub fn state(&self) -> State
        ensures { result ≡ state_in self.now.bytes }
    {
        let core = Core {
            w: self.registers(),
            a: eight_bytes_at(&self.bytes, 60),
            b: eight_bytes_at(&self.bytes, 68),
            pc: two_bytes_at(&self.bytes, 76) as usize,
            loops: self.loops(),
            repeat: four_bytes_at(&self.bytes, 104),
            mode: self.mode_word(),
            oa: self.flag(0),
            ob: self.flag(1),
        };
        State {
            core,
            sa: self.flag(2),
            sb: self.flag(3),
        }
    }
}
