// The two data spaces: what a prefetch of one has of its own.
ghost use Rattle.std.specs.Prelude.{◌≡◌};
ghost use Rattle.effects.specs.Access.{region_of, circular_for, sum_address};
ghost use Rattle.fields.specs.Space.{sum_word};

use address::region::Region;
use address::step::sum;
use address::word::ByteAddress;
use effects::access::Space;
use state::settings::{Circular, Settings};

// The words of its reads in a memory of so many.
pub fn region_of(settings: Settings, words: usize, space: Space) -> Region
    ensures { result ≡ region_of settings words space }
{
    match space {
        Space::X => Region::x_part(settings.xwords),
        Space::Y => Region::y_part(settings.xwords, words),
    }
}

// Its circular register.
pub fn circular_for(settings: Settings, space: Space) -> Circular
    ensures { result ≡ circular_for settings space }
{
    match space {
        Space::X => settings.x,
        Space::Y => settings.y,
    }
}

// The register's number that stands for the sum of its two registers.
pub fn sum_word(space: Space) -> u16
    ensures { result ≡ sum_word space }
{
    match space {
        Space::X => 12,
        Space::Y => 13,
    }
}

// That sum: W9 + W12, W11 + W13.
pub fn sum_address(space: Space, w: &[u16; 14]) -> ByteAddress
    ensures { result.0 ≡ sum_address space w.now }
{
    match space {
        Space::X => sum(ByteAddress(w[9]), w[12]),
        Space::Y => sum(ByteAddress(w[11]), w[13]),
    }
}
