// One step as a call that asks nothing: a run of at most one step.
ghost use Rattle.machine.specs.Single.{Steps};

use crate::call::run;
use endings::ending::Ending;
use machine::single::SingleStep;
use state::settings::Settings;
use state::state::State;

// One step of a program file from a state, with a memory that is written in place. A refusal leaves state and memory as they came.
pub fn single_step(file: &[u8], settings: Settings, state: State, memory: &mut [u16]) -> SingleStep
    ensures { Steps file.now settings state memory.old result memory.new }
{
    let outcome = run(file, settings, state, memory, 1);
    let (refusal, trap) = match outcome.ending {
        Ending::Refused(n) => (n, 0),
        Ending::Trap(n) => (0, n),
        Ending::Done | Ending::Spent => (0, 0),
    };
    SingleStep {
        refusal,
        trap,
        counted: outcome.steps == 1,
        state: outcome.state,
    }
}
