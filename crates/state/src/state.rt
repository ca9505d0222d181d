// The state of the machine.
ghost use Rattle.std.specs.Prelude.{◌≡◌};
ghost use Rattle.state.specs.State.{reset_state, state_status};
ghost use Rattle.state.specs.Accept.{Restarts};

use accumulator::mode::Mode;
use accumulator::status::Status;

// Active loops, outermost first, in four slots: DO's number and passes left. A slot that is not in use is zero. The arrays stay apart: is_slot,
// stand_in, the stored states and refusal 7 speak of each slot's two numbers, and of states that a tighter type would exclude.
#[derive(Clone, Copy, Debug, PartialEq, Eq)]
pub struct Loops {
    pub starts: [usize; 4],
    pub passes: [u32; 4],
    pub depth: usize,
}

// All of a state but the saturation flags: W0..W13, A and B, pc, active loops, repeat left, the mode word, OA and OB.
#[derive(Clone, Copy, Debug, PartialEq, Eq)]
pub struct Core {
    pub w: [u16; 14],
    pub a: i64,
    pub b: i64,
    pub pc: usize,
    pub loops: Loops,
    pub repeat: u32,
    pub mode: u16,
    pub oa: bool,
    pub ob: bool,
}

// A state: the core, SA and SB.
#[derive(Clone, Copy, Debug, PartialEq, Eq)]
pub struct State {
    pub core: Core,
    pub sa: bool,
    pub sb: bool,
}

impl Loops {
    // No loop is active.
    const NONE: Loops = Loops {
        starts: [0; 4],
        passes: [0; 4],
        depth: 0,
    };
}

impl State {
    // The state after reset: all is zero except the mode word.
    #[tactic(auto, unfolding(crate::specs::State::reset_state))]
    pub fn reset() -> State
        ensures { result ≡ reset_state }
    {
        let core = Core {
            w: [0; 14],
            a: 0,
            b: 0,
            pc: 0,
            loops: Loops::NONE,
            repeat: 0,
            mode: Mode::RESET,
            oa: false,
            ob: false,
        };
        State {
            core,
            sa: false,
            sb: false,
        }
    }

    // The state back at the program's start: pc 0, no loop, repeat left 0; everything else stays. So a bag follows a bag: after `done` pc stands past the
    // last operation, and a run from there is done at once. An accepted state's restart is accepted for every program.
    pub fn restarted(self) -> State
        ensures { Restarts self result }
    {
        let core = Core {
            pc: 0,
            loops: Loops::NONE,
            repeat: 0,
            ..self.core
        };
        State { core, ..self }
    }

    // The status word SR.
    #[tactic(auto, unfolding(crate::specs::State::state_status))]
    pub fn status(self) -> u16
        ensures { result ≡ state_status self }
    {
        let status = Status {
            oa: self.core.oa,
            ob: self.core.ob,
            sa: self.sa,
            sb: self.sb,
            looping: 0 < self.core.loops.depth,
            repeating: self.core.repeat != 0,
        };
        status.word()
    }
}
