// The run of an accepted program over decoded words: those of all its operations, or of the operation at pc alone.
ghost use Rattle.std.specs.Prelude.{◌≡◌, ℕ, ◌≤◌, ◌<◌, length, get_or};
ghost use Rattle.program.specs.File.{file_refusal, operation_count, program_of};
ghost use Rattle.state.specs.Accept.{state_refusal};
ghost use Rattle.sequencer.specs.Standing.{Lasts};
ghost use Rattle.stepping.specs.Turned.{held};
ghost use Rattle.runs.specs.Engine.{engine_from, engine_run};
ghost use Rattle.legs.specs.Leg.{engine_in, Stood, ending_of};
ghost use Rattle.engine.specs.Call.{result_of};
ghost use Rattle.engine.specs.Span.{Covers, whole_of, Has, end_in};

use crate::outcome::Outcome;
use endings::ending::Ending;
use form::decode::decode_operation;
use legs::leg::{Leg, Pause, run_on};
use legs::window::Window;
use loader::file::{last_at, operation_count};
use sequencer::flow::Flow;
use sequencer::loops::ActiveLoops;
use sequencer::sums::Sums;
use state::settings::Settings;
use state::state::{Loops, State};
use stepping::registers::Registers;

// So many operations from the first one on.
#[derive(Clone, Copy)]
pub struct Span {
    pub first: usize,
    pub count: usize,
}

// The loops of an accepted state, with the last operation of each.
fn active_loops(file: &[u8], loops: Loops) -> ActiveLoops
    requires file_value { file_refusal file.now ≡ 0 }
    requires few { loops.depth ≤ 4 }
    requires begun { (j : ℕ) → j < loops.depth → get_or loops.starts j 0 < operation_count file.now }
    requires unused { (j : ℕ) → loops.depth ≤ j → j < 4 → get_or loops.starts j 0 ≡ 0 }
    ensures lasts { Lasts (program_of file.now) result loops.depth }
    ensures starts { result.starts ≡ loops.starts }
    ensures passes { result.passes ≡ loops.passes }
{
    let mut lasts = [65536; 5];
    for i in 0..loops.depth {
        lasts[i + 1] = last_at(file, loops.starts[i]);
    }
    let starts = loops.starts;
    let passes = loops.passes;
    ActiveLoops {
        starts,
        passes,
        lasts,
    }
}

// The ending of a run by its last leg.
fn ending_of(pause: Pause) -> Ending
    ensures { result ≡ ending_of pause }
{
    match pause {
        Pause::Elsewhere => Ending::Done,
        Pause::OutOfSteps => Ending::Spent,
        Pause::Trapped(trap) => Ending::Trap(trap.number()),
        Pause::Onward => Ending::Done,
    }
}

// The words of the operation at pc are at hand: those given, or its own alone.
fn cover(file: &[u8], pc: usize, at: Span, words: &mut [u16]) -> Span
    requires file_value { file_refusal file.now ≡ 0 }
    requires pc_bound { pc < operation_count file.now }
    requires covers { Covers file.now words.old at }
    requires in_bounds { 16 ≤ length words.old }
    ensures { Has file.now pc at words.old result words.new }
{
    if (at.first <= pc) & (pc < at.first + at.count) {
        return at;
    }
    decode_operation(file, pc, words);
    Span {
        first: pc,
        count: 1,
    }
}

// The run of an accepted file from where it stands. Before each operation done, else a run over the words at hand.
fn run_windows(
    file: &[u8],
    given: Span,
    words: &mut [u16],
    settings: Settings,
    flow: Flow,
    budget: u32,
    registers: &mut Registers,
    memory: &mut [u16],
) -> Leg
    requires file_value { file_refusal file.now ≡ 0 }
    requires stood { Stood (program_of file.now) settings (held registers.old memory.old) flow }
    requires covers { Covers file.now words.old given }
    requires in_bounds { 16 ≤ length words.old }
    ensures result_after { end_in (held registers.new memory.new) result ≡ engine_from (program_of file.now) settings budget 0 (engine_in (held registers.old memory.old) flow) }
    ensures words_unchanged { given ≡ whole_of file.now → words.new ≡ words.old }
{
    let count = operation_count(file);
    let mut f = flow;
    let mut at = given;
    let mut steps: u32 = 0;
    loop {
        if f.pc == count {
            return Leg {
                flow: f,
                steps,
                pause: Pause::Elsewhere,
            };
        }
        at = cover(file, f.pc, at, words);
        let window = Window {
            code: words,
            first: at.first,
            count: at.count,
        };
        let leg = run_on(window, settings, f, steps, budget, registers, memory);
        if !matches!(leg.pause, Pause::Elsewhere) {
            return leg;
        }
        f = leg.flow;
        steps = leg.steps;
    }
}

// A run from an accepted state: the state taken apart, run, and put together again.
pub fn run_accepted(
    file: &[u8],
    given: Span,
    words: &mut [u16],
    settings: Settings,
    state: State,
    memory: &mut [u16],
    budget: u32,
) -> Outcome
    requires file_value { file_refusal file.now ≡ 0 }
    requires state_value { state_refusal (program_of file.now) state ≡ 0 }
    requires xwords_in_bounds { settings.xwords ≤ length memory.old }
    requires covers { Covers file.now words.old given }
    requires in_bounds { 16 ≤ length words.old }
    ensures memory_after { result_of result memory.new ≡ engine_run (program_of file.now) settings budget state memory.old }
    ensures words_unchanged { given ≡ whole_of file.now → words.new ≡ words.old }
{
    let core = state.core;
    let w = core.w;
    let values = [core.a, core.b];
    let overflow = [core.oa, core.ob];
    let saturation = [state.sa, state.sb];
    let sums = Sums {
        values,
        overflow,
        saturation,
    };
    let loops = active_loops(file, core.loops);
    let mut registers = Registers { w, sums, loops };
    let flow = Flow {
        pc: core.pc,
        depth: core.loops.depth,
        repeat: core.repeat,
        mode: core.mode,
    };
    let leg = run_windows(
        file,
        given,
        words,
        settings,
        flow,
        budget,
        &mut registers,
        memory,
    );
    Outcome {
        ending: ending_of(leg.pause),
        state: registers.state(leg.flow),
        steps: leg.steps,
    }
}
