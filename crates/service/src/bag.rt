// One bag.
ghost use Rattle.std.specs.Prelude.{cond, ◌≡◌, ◌+◌, ◌≤◌, length};
ghost use Rattle.state.specs.State.{restarted_state};
ghost use Rattle.engine.specs.Call.{result_of, run_of};
ghost use Rattle.service.specs.Bags.{filled};

use address::word::WordIndex;
use engine::call::run;
use engine::outcome::Outcome;
use state::settings::Settings;
use state::state::State;

// The words in memory from word `first` on; what lies before and past them stays.
fn fill(words: &[u16], first: WordIndex, memory: &mut [u16])
    requires { first.0 + length words.now ≤ length memory.old }
    ensures { memory.new ≡ filled first.0 words.now memory.old }
{
    memory[first.0..first.0 + words.len()].copy_from_slice(words);
}

// The state that a bag's run begins with: back at the program's start, or as the last bag left it.
pub fn begun(state: State, restarts: bool) -> State
    ensures { result ≡ cond restarts (restarted_state state) state }
{
    if restarts { state.restarted() } else { state }
}

// A bag is served: its words are put into memory, then its run.
pub fn serve_bag(
    file: &[u8],
    settings: Settings,
    state: State,
    memory: &mut [u16],
    first: WordIndex,
    words: &[u16],
    restarts: bool,
    budget: u32,
) -> Outcome
    requires { first.0 + length words.now ≤ length memory.old }
    ensures { result_of result memory.new ≡ run_of file.now settings (cond restarts (restarted_state state) state) (filled first.0 words.now memory.old) budget }
{
    fill(words, first, memory);
    let start = begun(state, restarts);
    run(file, settings, start, memory, budget)
}
