// The call that combines the boards' sums, which asks nothing.
ghost use Rattle.std.specs.Prelude.{◌≡◌};
ghost use Rattle.combine.specs.Call.{Combines};

use crate::board::Board;
use crate::sum::{add_up, are_accumulators};
use accumulator::limit::Accumulator;
use accumulator::mode::Mode;
use program::answer::Refusal;

// The sum of the first `count` boards' A, two to eight, by a mode word: each is added in order, from 0, through the accumulator rules for A. SA is set
// where a sum left the limits or a board's SA is set. Boards past the count are not looked at. Refused: 13 for another count, 14 for an A beyond 40 bits, 7
// for a bad mode word.
// Where SA is clear, the sum is the exact sum of all products that the boards made, if each began with A = 0, SA clear and this mode word, US 0; wrote A by
// MAC (kind 3) alone, not even by CLR; set no other mode word; and never cleared SA. (`restarted()` keeps A and SA.) What a board did not come to, because
// its call was refused, spent or trapped, is not in the sum: look at each one's ending. The boards have their count
// beside them: the form of a public call stays, and Combines speaks of both.
pub fn combine(boards: [Board; 8], count: usize, mode: u16) -> Result<Accumulator, Refusal>
    ensures { Combines boards count mode result }
{
    if (count < 2) | (8 < count) {
        return Err(Refusal::Boards);
    }
    let first = &boards[..count];
    if !are_accumulators(first) {
        return Err(Refusal::Sums);
    }
    if !Mode::is_good(mode) {
        return Err(Refusal::State);
    }
    Ok(add_up(first, Mode::of(mode)))
}
