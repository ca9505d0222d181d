// Byte addresses and words. An address is made a word number by `aligned_word` alone; `word` asks it of the even address.
ghost use Rattle.std.specs.Prelude.{◌≡◌, ℕ, ◌<◌};
ghost use Rattle.address.specs.Word.{address_of, word_of};

// The address of a byte of memory, as a register holds it.
#[derive(Clone, Copy, Debug, PartialEq, Eq)]
pub struct ByteAddress(pub u16);

// The number of a word of memory.
#[derive(Clone, Copy, Debug, PartialEq, Eq)]
pub struct WordIndex(pub usize);

// The address of word 0.
pub const MEMORY_START: ByteAddress = ByteAddress(0x1000);

// The words that addresses reach.
pub const MEMORY_WORDS: usize = 30720;

impl ByteAddress {
    // The word at an aligned address, an even one from word 0 on; of any other a number past all words, by the lowest bit for the highest. No Option: by_index is a clause over a number.
    pub fn aligned_word(self) -> WordIndex
        ensures self_value { result.0 < 30720 → self.0 ≡ address_of result.0 }
        ensures by_index { (i : ℕ) → self.0 ≡ address_of i → result.0 ≡ i }
    {
        let far = self.0.wrapping_sub(MEMORY_START.0);
        let half = far / 2 + far % 2 * 32768;
        WordIndex(half as usize)
    }

    // The word that an address lies in; 0 below all words.
    pub fn word(self) -> WordIndex
        ensures { result.0 ≡ word_of self.0 }
    {
        if self.0 < MEMORY_START.0 {
            return WordIndex(0);
        }
        ByteAddress(self.0 - self.0 % 2).aligned_word()
    }
}
