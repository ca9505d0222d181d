// The active loops.
ghost use Rattle.std.specs.Prelude.{◌≡◌, ℕ, ◌<◌, get_or};

// Outermost first, in four slots: DO's number and passes left. Beside them the last operation of the innermost of 0, 1, .., 4 loops, 65,536 of none:
// a number and no Option, as the definition last_in has it. Starts and passes stay two lists, as a state's Loops has them.
#[derive(Clone, Copy, Debug, PartialEq, Eq)]
pub struct ActiveLoops {
    pub starts: [usize; 4],
    pub passes: [u32; 4],
    pub lasts: [usize; 5],
    pub ghost known: { (i : ℕ) → i < 4 → get_or starts i 0 < 4032 },
    pub ghost outer: { get_or lasts 0 0 ≡ 65536 },
}
