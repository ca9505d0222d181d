// The call for a run over decoded operations, which asks nothing.
ghost use Rattle.engine.specs.Decoded.{RunsDecoded};

use crate::outcome::{Outcome, refused};
use crate::run::{Span, run_accepted};
use form::decode::decode_program;
use loader::file::operation_count;
use machine::single::refusal;
use state::settings::Settings;
use state::state::State;

// A run of a program file as `call::run` makes it, over its operations decoded once, before the first step, into the lent slice, 16 words for each. A
// refusal leaves state, memory and slice as they came; otherwise words past the last operation stay.
pub fn run_decoded(
    file: &[u8],
    settings: Settings,
    state: State,
    memory: &mut [u16],
    budget: u32,
    words: &mut [u16],
) -> Outcome
    ensures { RunsDecoded file.now settings state memory.old budget words.old result memory.new words.new }
{
    if let Err(why) = refusal(file, settings, state, memory.len()) {
        return refused(why.number(), state);
    }
    let count = operation_count(file);
    if words.len() < 16 * count {
        return refused(8, state);
    }
    decode_program(file, words);
    let all = Span { first: 0, count };
    run_accepted(file, all, words, settings, state, memory, budget)
}
