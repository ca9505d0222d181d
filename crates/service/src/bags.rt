// Bags as a controller lends them.
ghost use Rattle.std.specs.Prelude.{false, cond, ◌&&◌, ◌≡◌, ◌+◌, ◌*◌, ◌≤◌, ltb, leb, length, get_or};
ghost use Rattle.state.specs.State.{restarted_state};

use crate::bag::begun;
use address::word::WordIndex;
use state::state::State;

// Words of memory that the controller fills: `size` of them from word `first` on.
#[derive(Clone, Copy, Debug, PartialEq, Eq)]
pub struct Window {
    pub first: WordIndex,
    pub size: usize,
}

impl Window {
    // Whether it lies in a memory of so many words.
    fn is_inside(self, words: usize) -> bool
        ensures { result ≡ leb (self.first.0 + self.size) words }
    {
        self.first
            .0
            .checked_add(self.size)
            .is_some_and(|end| end <= words)
    }

    // Whether there are `size` words for each of n bags.
    fn is_filled(self, n: usize, words: usize) -> bool
        ensures { result ≡ leb (n * self.size) words }
    {
        n.checked_mul(self.size).is_some_and(|need| need <= words)
    }
}

// For each bag its budget, whether it starts the program again, and the words that go into the window.
#[derive(Clone, Copy)]
pub struct Bags<'a> {
    pub window: Window,
    pub budgets: &'a [u32],
    pub restarts: &'a [bool],
    pub words: &'a [u16],
}

impl<'a> Bags<'a> {
    ghost use Rattle.service.specs.Bags.{schedule_in, words_of};
    ghost use Rattle.service.specs.Call.{is_enough};

    // Whether the lent slices are long enough for the bags, with a memory of so many words and room for so many endings and counts of steps.
    #[tactic(auto, unfolding(crate::specs::Call::is_enough))]
    pub fn is_enough(self, memory: usize, endings: usize, steps: usize) -> bool
        ensures { result ≡ is_enough (schedule_in self.entry) memory endings steps }
    {
        let n = self.budgets.len();
        let inside = self.window.is_inside(memory);
        let enough = self.window.is_filled(n, self.words.len());
        inside && n <= self.restarts.len() && enough && n <= endings && n <= steps
    }

    // The words of bag i.
    pub fn words_of(self, i: usize) -> &'a [u16]
        requires { i * self.window.size + self.window.size ≤ length self.words.now }
        ensures { result.now ≡ words_of (schedule_in self.entry) i }
    {
        let from = i * self.window.size;
        &self.words[from..from + self.window.size]
    }

    // The state that the first call for a run is made with; without a bag, or a restart for it, the state as it came.
    pub fn first_state(self, state: State) -> State
        ensures { result ≡ cond (ltb 0 (length self.entry.budgets.now) && get_or self.entry.restarts.now 0 false) (restarted_state state) state }
    {
        let restarts = self.restarts.first().copied().unwrap_or(false);
        begun(state, !self.budgets.is_empty() && restarts)
    }
}
