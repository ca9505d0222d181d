// Settings, and refusal 6.
ghost use Rattle.std.specs.Prelude.{◌≡◌};
ghost use Rattle.program.specs.Answer.{answer_number};
ghost use Rattle.state.specs.Settings.{traps_overflow, traps_left, no_circular, plain_settings, is_trap_word, is_parted, is_buffer_in, is_circular_in, is_x, is_y, is_reversed, are_settings, settings_refusal};

use accumulator::mode::Target;
use address::region::{Region, inside};
use address::reversal::is_power;
use address::step::Buffer;
use address::word::ByteAddress;
use program::answer::Refusal;

// The register number that is none. It stays a number: refusal 6 and its stored cases speak of settings by 15 with and without a buffer.
const NO_REGISTER: u8 = 15;

// A register with a circular buffer. Register 15 is none.
#[derive(Clone, Copy, Debug, PartialEq, Eq)]
pub struct Circular {
    pub register: u8,
    pub buffer: Buffer,
}

// The bit-reversed register and its N words. Register 15 is none.
#[derive(Clone, Copy, Debug, PartialEq, Eq)]
pub struct Reversed {
    pub register: u8,
    pub words: u16,
}

// The words of the X part, the trap word, X's and Y's circular buffers, the bit-reversed register.
#[derive(Clone, Copy, Debug, PartialEq, Eq)]
pub struct Settings {
    pub xwords: usize,
    pub traps: u16,
    pub x: Circular,
    pub y: Circular,
    pub reversed: Reversed,
}

// Whether the trap word has an accumulator's overflow trapped: bit 10 OVATE, 9 OVBTE.
#[tactic(auto, unfolding(crate::specs::Settings::traps_overflow))]
pub fn traps_overflow(word: u16, target: Target) -> bool
    ensures { result ≡ traps_overflow word target }
{
    match target {
        Target::A => (word >> 10) & 1 == 1,
        Target::B => (word >> 9) & 1 == 1,
    }
}

// Whether the trap word has a result outside the limits trapped: bit 8 COVTE.
#[tactic(auto, unfolding(crate::specs::Settings::traps_left))]
pub fn traps_left(word: u16) -> bool
    ensures { result ≡ traps_left word }
{
    (word >> 8) & 1 == 1
}

// Whether the other bits of a trap word are 0.
#[tactic(auto, unfolding(crate::specs::Settings::is_trap_word))]
fn is_trap_word(word: u16) -> bool
    ensures { result ≡ is_trap_word word }
{
    (word >> 11) & 31 == 0 && word & 255 == 0
}

// Whether a memory of so many words may be parted with x words of X.
#[tactic(auto, unfolding(crate::specs::Settings::is_parted))]
fn is_parted(x: usize, words: usize) -> bool
    ensures { result ≡ is_parted x words }
{
    (2..=30720).contains(&words) && (1..words).contains(&x)
}

// Whether a buffer is good and lies in a region.
#[tactic(auto, unfolding(crate::specs::Settings::is_buffer_in))]
fn is_buffer_in(region: Region, buffer: Buffer) -> bool
    ensures { result ≡ is_buffer_in region buffer }
{
    let s = buffer.start.0 as usize;
    let e = buffer.last.0 as usize;
    s % 2 == 0
        && e % 2 == 1
        && s + 5 <= e
        && inside(region, buffer.start)
        && inside(region, buffer.last)
}

impl Circular {
    // No circular register.
    fn none() -> Circular
        ensures { result ≡ no_circular }
    {
        let buffer = Buffer {
            start: ByteAddress(0),
            last: ByteAddress(0),
        };
        Circular {
            register: NO_REGISTER,
            buffer,
        }
    }

    // Whether the register is good with its buffer in a region: `good` says that of its number, unless it is none.
    #[tactic(auto, unfolding(crate::specs::Settings::is_circular_in))]
    fn is_in(self, region: Region, good: bool) -> bool
        ensures { result ≡ is_circular_in region good self }
    {
        if self.register == NO_REGISTER {
            self.buffer.start.0 == 0 && self.buffer.last.0 == 0
        } else {
            good && is_buffer_in(region, self.buffer)
        }
    }
}

impl Settings {
    // So many words of X, no correction, trap word 0.
    #[tactic(auto, unfolding(crate::specs::Settings::plain_settings))]
    pub fn plain(xwords: usize) -> Settings
        ensures { result ≡ plain_settings xwords }
    {
        let reversed = Reversed {
            register: NO_REGISTER,
            words: 0,
        };
        Settings {
            xwords,
            traps: 0,
            x: Circular::none(),
            y: Circular::none(),
            reversed,
        }
    }

    // Whether X's circular register is good.
    fn is_x(self, words: usize) -> bool
        ensures { result ≡ is_x self words }
    {
        self.x.is_in(Region::all(words), self.x.register < 14)
    }

    // Whether Y's circular register is good.
    fn is_y(self, words: usize) -> bool
        ensures { result ≡ is_y self words }
    {
        let good = self.y.register == 10 || self.y.register == 11;
        self.y.is_in(Region::y_part(self.xwords, words), good)
    }

    // Whether the bit-reversed register is good.
    #[tactic(auto, unfolding(crate::specs::Settings::is_reversed))]
    fn is_reversed(self) -> bool
        ensures { result ≡ is_reversed self }
    {
        let Reversed { register, words } = self.reversed;
        if register == NO_REGISTER {
            words == 0
        } else {
            register < 14 && register != self.x.register && is_power(words)
        }
    }

    // Whether the settings are good for a memory of so many words.
    #[tactic(auto, unfolding(crate::specs::Settings::are_settings))]
    fn are_good(self, words: usize) -> bool
        ensures { result ≡ are_settings self words }
    {
        is_parted(self.xwords, words)
            && is_trap_word(self.traps)
            && self.is_x(words)
            && self.is_y(words)
            && self.is_reversed()
    }

    // Refusal 6 of settings and a memory of so many words.
    #[tactic(auto, unfolding(crate::specs::Settings::settings_refusal))]
    pub fn refusal(self, words: usize) -> Result<(), Refusal>
        ensures { answer_number result ≡ settings_refusal self words }
    {
        if self.are_good(words) {
            Ok(())
        } else {
            Err(Refusal::Settings)
        }
    }
}
