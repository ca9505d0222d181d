// The call that serves a list of bags, which asks nothing.
ghost use Rattle.std.specs.Prelude.{true, ◌≡◌, length};
ghost use Rattle.program.specs.Answer.{answer_number};
ghost use Rattle.service.specs.Service.{engine_of};
ghost use Rattle.service.specs.Bags.{schedule_of, schedule_in};
ghost use Rattle.service.specs.Call.{is_enough, state_left, ServedUpTo, ServesBags};

use crate::bag::serve_bag;
use crate::bags::Bags;
pub use crate::bags::Window;
use machine::single::refusal;
use program::answer::Refusal;
use state::settings::Settings;
use state::state::State;

// The bags in their order, each from what the one before it left. Bag i has budget i, starts the program again where `restarts` says so, and has the i-th
// `size` of the words.
fn serve_bags(
    file: &[u8],
    settings: Settings,
    state: State,
    memory: &mut [u16],
    bags: Bags,
    endings: &mut [u8],
    steps: &mut [u32],
) -> State
    requires { is_enough (schedule_in bags) (length memory.old) (length endings.old) (length steps.old) ≡ true }
    ensures { ServedUpTo file.now settings (engine_of state memory.old) (schedule_in bags.entry) endings.old steps.old (length bags.entry.budgets.now) (engine_of result memory.new) endings.new steps.new }
{
    let mut current = state;
    for (i, budget) in bags.budgets.iter().enumerate() {
        let outcome = serve_bag(
            file,
            settings,
            current,
            memory,
            bags.window.first,
            bags.words_of(i),
            bags.restarts[i],
            *budget,
        );
        endings[i] = outcome.ending.code();
        steps[i] = outcome.steps;
        current = outcome.state;
    }
    current
}

// Every bag is served, from a state, in a memory that is written in place: a bag's words go into the window, the program starts again or goes on, and runs
// with the bag's budget. A bag that goes on has its words put in too. How bag i ended, by its code, and its steps stand in `endings` and `steps`; a trap
// does not stop the list. The answer is the state after the last bag. Refused where the first bag's call for a run would be (1 to 7), or where a lent slice
// is too short (8), memory and slices are as they came, and the caller's state stands. No later bag is refused, nor a call with what the last one left. In a program that clears no saturation flag,
// begun with both clear, SA and SB are clear after the last bag exactly when no sum of any bag has left its limits.
// Ten parameters and lists apart: the form of a public call stays, and refusal 8 and its cases speak of lists of different lengths.
pub fn serve(
    file: &[u8],
    settings: Settings,
    state: State,
    memory: &mut [u16],
    window: Window,
    budgets: &[u32],
    restarts: &[bool],
    words: &[u16],
    endings: &mut [u8],
    steps: &mut [u32],
) -> Result<State, Refusal>
    ensures { ServesBags file.now settings (engine_of state memory.old) (schedule_of window budgets.now restarts.now words.now) endings.old steps.old (answer_number result) (engine_of (state_left state result) memory.new) endings.new steps.new }
{
    let bags = Bags {
        window,
        budgets,
        restarts,
        words,
    };
    refusal(file, settings, bags.first_state(state), memory.len())?;
    if !bags.is_enough(memory.len(), endings.len(), steps.len()) {
        return Err(Refusal::Room);
    }
    Ok(serve_bags(file, settings, state, memory, bags, endings, steps))
}
