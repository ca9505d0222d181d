// What a run comes to.
ghost use Rattle.std.specs.Prelude.{◌≡◌};
ghost use Rattle.endings.specs.declared.ending.Ending.TheVariants.{Refused};

use endings::ending::Ending;
use state::state::State;

// How a run ended, the state at its end, and the steps made.
#[derive(Clone, Copy)]
pub struct Outcome {
    pub ending: Ending,
    pub state: State,
    pub steps: u32,
}

// A refusal: the state as it came, and no step.
pub fn refused(number: u8, state: State) -> Outcome
    ensures { result ≡ record { ending = Refused number; state = state; steps = 0 } }
{
    Outcome {
        ending: Ending::Refused(number),
        state,
        steps: 0,
    }
}
