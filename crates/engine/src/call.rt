// The call for a run, which asks nothing.
ghost use Rattle.engine.specs.Call.{Runs};

use crate::outcome::{Outcome, refused};
use crate::run::{Span, run_accepted};
use machine::single::refusal;
use state::settings::Settings;
use state::state::State;

// A run of a program file from a state, with a memory that is written in place, of at most `budget` steps. A refusal leaves state and memory as they
// came. What an accepted call returns is accepted again, whatever the ending: a spent run goes on from the state it returned, and the next bag starts
// the program again from that state's `restarted()`. Handed back as it is after `done`, the state answers `done` with 0 steps for ever.
pub fn run(
    file: &[u8],
    settings: Settings,
    state: State,
    memory: &mut [u16],
    budget: u32,
) -> Outcome
    ensures { Runs file.now settings state memory.old budget result memory.new }
{
    if let Err(why) = refusal(file, settings, state, memory.len()) {
        return refused(why.number(), state);
    }
    let mut words = [0u16; 16];
    let none = Span { first: 0, count: 0 };
    run_accepted(file, none, &mut words, settings, state, memory, budget)
}
