// Legs of a run over a window of decoded words.
ghost use Rattle.std.specs.Prelude.{true, false, List, ◌≡◌, ◌≤◌, ◌<◌};
ghost use Rattle.operations.specs.declared.operation.Operation.{Operation};
ghost use Rattle.products.specs.Fetched.{is_pair};
ghost use Rattle.stepping.specs.Turned.{held};
ghost use Rattle.legs.specs.Leg.{Shows, Finds, Stood, Known, Goes, is_onward};

use crate::window::Window;
use address::trap::Trap;
use fields::words::Coded;
use products::mac::is_pair;
use sequencer::flow::Flow;
use state::settings::Settings;
use stepping::pair::step_pair;
use stepping::registers::Registers;
use stepping::step::step;

// Why a leg ends: the operation at pc is outside the window; the budget's steps are made; a trap; or the run goes on with another leg, after
// REPEAT, after a new mode word, after the repetitions of a pair.
#[derive(Clone, Copy)]
pub enum Pause {
    Elsewhere,
    OutOfSteps,
    Trapped(Trap),
    Onward,
}

// Where a leg leaves the run, the steps made, and why it ends.
#[derive(Clone, Copy)]
pub struct Leg {
    pub flow: Flow,
    pub steps: u32,
    pub pause: Pause,
}

// A leg by single steps. Before each operation: outside the window, else out of steps, else execute.
fn step_on(
    window: Window,
    settings: Settings,
    flow: Flow,
    steps: u32,
    budget: u32,
    registers: &mut Registers,
    memory: &mut [u16],
) -> Leg
    requires known { Known window settings (held registers.old memory.old) flow }
    requires steps_le_budget { steps ≤ budget }
    ensures { (p : List Operation) → Shows p window.entry → Stood p settings (held registers.old memory.old) flow → Goes p settings window.entry budget (held registers.old memory.old) flow steps (held registers.new memory.new) result }
{
    let mut f = flow;
    let mut made = steps;
    let pause = loop {
        let Some(coded) = window.operation(f.pc) else {
            break Pause::Elsewhere;
        };
        if made == budget {
            break Pause::OutOfSteps;
        }
        let turn = match step(coded, settings, f, registers, memory) {
            Ok(turn) => turn,
            Err(trap) => break Pause::Trapped(trap),
        };
        f = turn.flow;
        made += 1;
        if let Some(trap) = turn.trap {
            break Pause::Trapped(trap);
        }
        if turn.ends {
            break Pause::Onward;
        }
    };
    Leg {
        flow: f,
        steps: made,
        pause,
    }
}

// A leg over a pair at pc that is repeated: its repetitions but the last one, as far as the budget goes.
fn repeat_on(
    window: Window,
    coded: Coded,
    settings: Settings,
    flow: Flow,
    steps: u32,
    budget: u32,
    registers: &mut Registers,
    memory: &[u16],
) -> Leg
    requires known { Known window settings (held registers.old memory.now) flow }
    requires steps_lt_budget { steps < budget }
    requires lt_repeat { 1 < flow.repeat }
    requires found { Finds window flow.pc coded.code.now coded.at }
    requires pair { is_pair coded.code.now coded.at ≡ true }
    ensures { (p : List Operation) → Shows p window.entry → Stood p settings (held registers.old memory.now) flow → Goes p settings window.entry budget (held registers.old memory.now) flow steps (held registers.new memory.now) result }
{
    let mut f = flow;
    let mut total = steps;
    let pause = loop {
        let pair = match step_pair(
            coded,
            settings,
            f,
            &mut registers.w,
            &mut registers.sums,
            memory,
        ) {
            Ok(pair) => pair,
            Err(trap) => break Pause::Trapped(trap),
        };
        f = pair.flow;
        total += 1;
        if let Some(trap) = pair.trap {
            break Pause::Trapped(trap);
        }
        if (f.repeat < 2) | (total == budget) {
            break Pause::Onward;
        }
    };
    Leg {
        flow: f,
        steps: total,
        pause,
    }
}

// A leg: of a pair that is repeated, or by single steps.
fn leg_on(
    window: Window,
    settings: Settings,
    flow: Flow,
    steps: u32,
    budget: u32,
    registers: &mut Registers,
    memory: &mut [u16],
) -> Leg
    requires known { Known window settings (held registers.old memory.old) flow }
    requires steps_le_budget { steps ≤ budget }
    ensures { (p : List Operation) → Shows p window.entry → Stood p settings (held registers.old memory.old) flow → Goes p settings window.entry budget (held registers.old memory.old) flow steps (held registers.new memory.new) result }
{
    if (1 < flow.repeat) & (steps < budget) {
        if let Some(coded) = window.operation(flow.pc) {
            if is_pair(coded) {
                return repeat_on(
                    window, coded, settings, flow, steps, budget, registers, memory,
                );
            }
        }
    }
    step_on(window, settings, flow, steps, budget, registers, memory)
}

// Legs one after the other, up to a trap, the budget's end or an operation outside the window.
pub fn run_on(
    window: Window,
    settings: Settings,
    flow: Flow,
    steps: u32,
    budget: u32,
    registers: &mut Registers,
    memory: &mut [u16],
) -> Leg
    requires known { Known window settings (held registers.old memory.old) flow }
    requires steps_le_budget { steps ≤ budget }
    ensures goes { (p : List Operation) → Shows p window.entry → Stood p settings (held registers.old memory.old) flow → Goes p settings window.entry budget (held registers.old memory.old) flow steps (held registers.new memory.new) result }
    ensures pause_value { is_onward result.pause ≡ false }
{
    let mut f = flow;
    let mut made = steps;
    loop {
        let leg = leg_on(window, settings, f, made, budget, registers, memory);
        if !matches!(leg.pause, Pause::Onward) {
            return leg;
        }
        f = leg.flow;
        made = leg.steps;
    }
}
