// The boards' A, added up.
ghost use Rattle.std.specs.Prelude.{true, ◌≡◌, length};
ghost use Rattle.accumulator.specs.Limit.{is_accumulator};
ghost use Rattle.combine.specs.Boards.{are_accumulators, any_set, added, combined_of};

use crate::board::Board;
use accumulator::limit::{Accumulator, is_accumulator, write};
use accumulator::mode::{Mode, Target};

// Whether each board has an A of 40 bits.
pub fn are_accumulators(boards: &[Board]) -> bool
    ensures { result ≡ are_accumulators boards.now (length boards.now) }
{
    boards.iter().all(|board| is_accumulator(board.a))
}

// Whether any board has its SA set.
fn any_set(boards: &[Board]) -> bool
    ensures { result ≡ any_set boards.now (length boards.now) }
{
    boards.iter().any(|board| board.sa)
}

// One board's A is added, through the accumulator rules for A.
fn add(before: Accumulator, mode: Mode, a: i64) -> Accumulator
    requires value_value { is_accumulator before.value ≡ true }
    requires a_value { is_accumulator a ≡ true }
    ensures { result ≡ added before mode a }
{
    write(before, mode, Target::A, before.value + a)
}

// The boards' A in order, from 0; SA starts set if any board's was.
#[tactic(auto, using(crate::proofs::Boards::added_accumulator), unfolding(crate::specs::Boards::added_up, crate::specs::Boards::combined_of))]
pub fn add_up(boards: &[Board], mode: Mode) -> Accumulator
    requires { are_accumulators boards.now (length boards.now) ≡ true }
    ensures { result ≡ combined_of mode boards.now (length boards.now) }
{
    let mut sum = Accumulator {
        value: 0,
        overflow: false,
        saturation: any_set(boards),
    };
    for board in boards {
        sum = add(sum, mode, board.a);
    }
    sum
}
