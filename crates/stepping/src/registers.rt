// What a step changes in place, memory aside.
ghost use Rattle.std.specs.Prelude.{◌≡◌};
ghost use Rattle.stepping.specs.Turned.{state_held};

use sequencer::flow::Flow;
use sequencer::loops::ActiveLoops;
use sequencer::sums::Sums;
use state::state::{Core, Loops, State};

// W0..W13, the accumulators, and the active loops.
#[derive(Clone, Copy)]
pub struct Registers {
    pub w: [u16; 14],
    pub sums: Sums,
    pub loops: ActiveLoops,
}

impl Registers {
    // The state with these registers, where the run is.
    pub fn state(&self, f: Flow) -> State
        ensures { result ≡ state_held self.now f }
    {
        let [a, b] = self.sums.values;
        let [oa, ob] = self.sums.overflow;
        let [sa, sb] = self.sums.saturation;
        let loops = Loops {
            starts: self.loops.starts,
            passes: self.loops.passes,
            depth: f.depth,
        };
        let core = Core {
            w: self.w,
            a,
            b,
            pc: f.pc,
            loops,
            repeat: f.repeat,
            mode: f.mode,
            oa,
            ob,
        };
        State { core, sa, sb }
    }
}
