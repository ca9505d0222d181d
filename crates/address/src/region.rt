// Regions of memory, and the trap of an access outside its region or at an odd address.
ghost use Rattle.std.specs.Prelude.{◌≡◌, ◌<◌, ◌&&◌, ltb, if◌then◌else◌, nat_le, nat_lt, IfOk};
ghost use Rattle.address.specs.Region.{x_part, y_part, all_words, is_inside, access_trap};
ghost use Rattle.address.specs.Trap.{trap_code, failed_by};
ghost use Rattle.address.specs.Word.{word_of};

use crate::trap::Trap;
use crate::word::{ByteAddress, MEMORY_START, MEMORY_WORDS, WordIndex};

// The words first .. end - 1. `end` is the number of the word after the last, so a count of words may be one.
#[derive(Clone, Copy, Debug, PartialEq, Eq)]
pub struct Region {
    pub first: WordIndex,
    pub end: WordIndex,
}

impl Region {
    // The words of X reads: the first x.
    pub fn x_part(x: usize) -> Region
        ensures { result ≡ x_part x }
    {
        Region {
            first: WordIndex(0),
            end: WordIndex(x),
        }
    }

    // The words of Y reads: the rest.
    pub fn y_part(x: usize, words: usize) -> Region
        ensures { result ≡ y_part x words }
    {
        Region {
            first: WordIndex(x),
            end: WordIndex(words),
        }
    }

    // The words of all other accesses.
    pub fn all(words: usize) -> Region
        ensures { result ≡ all_words words }
    {
        Region {
            first: WordIndex(0),
            end: WordIndex(words),
        }
    }

    // Whether word i is one of them that an address reaches.
    pub fn has(self, i: WordIndex) -> bool
        ensures { result ≡ (nat_le self.first.0 i.0 && nat_lt i.0 (if ltb self.end.0 30720 then self.end.0 else 30720)) }
    {
        self.first.0 <= i.0 && i.0 < self.end.0.min(MEMORY_WORDS)
    }

    // The word of an access at a, or its trap.
    pub fn access(self, a: ByteAddress) -> Result<WordIndex, Trap>
        ensures trap { failed_by result ≡ access_trap self a.0 }
        ensures word { IfOk result (λ i. (i.0 ≡ word_of a.0) × (i.0 < self.end.0)) }
    {
        match trap(self, a) {
            Some(trap) => Err(trap),
            None => Ok(a.aligned_word()),
        }
    }
}

// Whether a lies in a word of the region. The word is asked for only where there is one.
#[tactic(auto, unfolding(crate::specs::Region::is_inside))]
pub fn inside(region: Region, a: ByteAddress) -> bool
    ensures { result ≡ is_inside region a.0 }
{
    if a.0 < MEMORY_START.0 {
        return false;
    }
    let i = a.word();
    region.first.0 <= i.0 && i.0 < region.end.0
}

// The trap of an access at a, if it has one: an odd address before one outside the region.
pub fn trap(region: Region, a: ByteAddress) -> Option<Trap>
    ensures { trap_code result ≡ access_trap region a.0 }
{
    if region.has(a.aligned_word()) {
        None
    } else if a.0 % 2 == 1 {
        Some(Trap::OddAddress)
    } else {
        Some(Trap::OutsideRegion)
    }
}
