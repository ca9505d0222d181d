// Refusal 7: a state that does not fit its program.
ghost use Rattle.std.specs.Prelude.{◌≡◌, ◌≤◌, ◌<◌, get_or};
ghost use Rattle.program.specs.Answer.{answer_number};
ghost use Rattle.program.specs.File.{file_refusal, operation_count, program_of};
ghost use Rattle.state.specs.Accept.{is_around, around_in, stand_in, is_slot, are_loops, is_repeat_left, is_state, state_refusal};

use crate::state::{Loops, State};
use accumulator::limit::is_accumulator;
use accumulator::mode::Mode;
use loader::file::{last_at, operation_count, repeats_at};
use program::answer::Refusal;

// Passes left up to this many are accepted.
const MOST_PASSES: u32 = 65536;

// Repeats left up to this many are accepted.
const MOST_REPEATS: u32 = 65536;

impl Loops {
    // Whether slot i is right: passes left in a slot in use, zero in another.
    fn is_slot(self, i: usize) -> bool
        requires { i < 4 }
        ensures { result ≡ is_slot self i }
    {
        let start = self.starts[i];
        let left = self.passes[i];
        if i < self.depth {
            (1..=MOST_PASSES).contains(&left)
        } else {
            start == 0 && left == 0
        }
    }
}

// A place in an accepted program: a pc that is at most the count of its operations.
#[derive(Clone, Copy)]
struct Place<'a> {
    file: &'a [u8],
    pc: usize,
    ghost accepted: { file_refusal file.now ≡ 0 },
    ghost pc_bound: { pc ≤ operation_count file.now },
}

impl<'a> Place<'a> {
    // Whether operation d opens a loop around the place.
    fn is_around(self, d: usize) -> bool
        requires { d < operation_count self.file.now }
        ensures { result ≡ is_around (program_of self.entry.file.now) self.entry.pc d }
    {
        d < self.pc && self.pc <= last_at(self.file, d)
    }

    // How many loops are around the place.
    #[tactic(auto, using(crate::proofs::Around::around_more, crate::proofs::Around::around_same))]
    fn around(self) -> usize
        ensures { result ≡ around_in (program_of self.entry.file.now) self.entry.pc self.entry.pc }
    {
        let mut count = 0;
        for d in 0..self.pc {
            if self.is_around(d) {
                count += 1;
            }
        }
        count
    }

    // Whether the loops around the place stand in the slots, outermost first.
    #[tactic(auto, using(crate::proofs::Around::around_more, crate::proofs::Around::around_same, crate::proofs::Around::stand_more, crate::proofs::Around::stand_same))]
    fn stand(self, starts: [usize; 4]) -> bool
        ensures { result ≡ stand_in (program_of self.entry.file.now) self.entry.pc starts self.entry.pc }
    {
        let mut good = true;
        let mut count = 0;
        for d in 0..self.pc {
            if self.is_around(d) {
                good &= starts.get(count).copied().unwrap_or(0) == d;
                count += 1;
            }
        }
        good
    }

    // Whether the active loops are exactly the loops around the place.
    #[tactic(auto, unfolding(crate::specs::Accept::are_loops))]
    fn are_loops(self, loops: Loops) -> bool
        ensures { result ≡ are_loops (program_of self.entry.file.now) self.entry.pc loops }
    {
        let slots = (0..4).all(|i| loops.is_slot(i));
        (loops.depth <= 4) & (loops.depth == self.around()) & self.stand(loops.starts) & slots
    }

    // Whether repeat left fits the operation before the place.
    #[tactic(auto, unfolding(crate::specs::Accept::is_repeat_left))]
    fn is_repeat_left(self, left: u32) -> bool
        ensures { result ≡ is_repeat_left (program_of self.entry.file.now) self.entry.pc left }
    {
        if 0 < self.pc && repeats_at(self.file, self.pc - 1) {
            (1..=MOST_REPEATS).contains(&left)
        } else {
            left == 0
        }
    }
}

// Whether a state fits an accepted program.
#[tactic(auto, unfolding(crate::specs::Accept::is_state))]
fn is_state(file: &[u8], state: State) -> bool
    requires { file_refusal file.now ≡ 0 }
    ensures { result ≡ is_state (program_of file.now) state }
{
    let core = state.core;
    if operation_count(file) < core.pc {
        return false;
    }
    let place = Place { file, pc: core.pc };
    let numbers = is_accumulator(core.a) & is_accumulator(core.b) & Mode::is_good(core.mode);
    numbers & place.are_loops(core.loops) & place.is_repeat_left(core.repeat)
}

impl State {
    // Refusal 7 of a state at an accepted program.
    #[tactic(auto, unfolding(crate::specs::Accept::state_refusal))]
    pub fn refusal(self, file: &[u8]) -> Result<(), Refusal>
        requires { file_refusal file.now ≡ 0 }
        ensures { answer_number result ≡ state_refusal (program_of file.now) self }
    {
        if is_state(file, self) {
            Ok(())
        } else {
            Err(Refusal::State)
        }
    }
}
