// The answer of a call for one step, and the refusal of a call.
ghost use Rattle.std.specs.Prelude.{◌≡◌};
ghost use Rattle.program.specs.Answer.{answer_number};
ghost use Rattle.machine.specs.Single.{call_refusal};

use loader::file::check_file;
use program::answer::Refusal;
use state::settings::Settings;
use state::state::State;

// The refusal, 0 none; the trap, 0 none; whether a step was made; the state afterwards. Neither refused, trapped nor counted is done: pc is the
// count of operations. They stay numbers: the clauses refusal and left of Steps speak of them.
#[derive(Clone, Copy, Debug, PartialEq, Eq)]
pub struct SingleStep {
    pub refusal: u8,
    pub trap: u8,
    pub counted: bool,
    pub state: State,
}

// Refusals 1 to 7 of a call: of the file, then of the settings, then of the state.
#[tactic(auto, unfolding(crate::specs::Single::call_refusal))]
pub fn refusal(file: &[u8], settings: Settings, state: State, words: usize) -> Result<(), Refusal>
    ensures { answer_number result ≡ call_refusal file.now settings state words }
{
    check_file(file)?;
    settings.refusal(words)?;
    state.refusal(file)
}
