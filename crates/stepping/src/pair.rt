// One repetition of a pair, kinds 2 to 4 with two reads at pointers and no write-back, that is not the last one.
ghost use Rattle.std.specs.Prelude.{true, false, List, ◌≡◌, ℕ, ◌≤◌, ◌<◌, length};
ghost use Rattle.operations.specs.declared.operation.Operation.{Operation};
ghost use Rattle.machine.specs.Step.{operation_at, stepped};
ghost use Rattle.form.specs.Words.{coded_at};
ghost use Rattle.fields.specs.Carried.{Accumulators};
ghost use Rattle.products.specs.Fetched.{is_pair};
ghost use Rattle.sequencer.specs.Lent.{lent_state};
ghost use Rattle.sequencer.specs.Standing.{Follows};
ghost use Rattle.sequencer.specs.declared.loops.ActiveLoops.{ActiveLoops};
ghost use Rattle.stepping.specs.Turned.{held, flow_after, ends_leg, step_in, Turns};

use crate::step::Turn;
use address::trap::Trap;
use fields::words::Coded;
use products::mac::pair;
use sequencer::flow::Flow;
use sequencer::sums::Sums;
use state::settings::Settings;

// The pair at pc is executed in place, and another repetition is due.
pub fn step_pair(
    coded: Coded,
    settings: Settings,
    f: Flow,
    w: &mut [u16; 14],
    sums: &mut Sums,
    memory: &[u16],
) -> Result<Turn, Trap>
    requires at_value { is_pair coded.code.now coded.at ≡ true }
    requires xwords_in_bounds { settings.xwords ≤ length memory.now }
    requires accumulators { Accumulators sums.old.values }
    requires lt_repeat { 1 < f.repeat }
    ensures turns { (p : List Operation) (loops : ActiveLoops) → Follows p coded.entry.code.now coded.entry.at f loops → Turns p settings f (held (record { w = w.old; sums = sums.old; loops = loops }) memory.now) (held (record { w = w.new; sums = sums.new; loops = loops }) memory.now) result }
    ensures any_loops { (p : List Operation) (starts passes : List ℕ) → operation_at p f.pc ≡ coded_at coded.entry.code.now coded.entry.at → step_in w.new sums.new starts passes memory.now f result ≡ stepped p settings (lent_state w.old sums.old.values sums.old.overflow sums.old.saturation starts passes f) memory.now }
    ensures pc_value { (flow_after f result).pc ≡ f.pc }
    ensures depth_value { (flow_after f result).depth ≡ f.depth }
    ensures mode_value { (flow_after f result).mode ≡ f.mode }
    ensures ends_value { ends_leg result ≡ false }
{
    let r = pair(coded, settings, f.mode, &sums.values, w, memory)?;
    let trap = sums.settle(settings.traps, f.mode, coded.target(), r);
    let flow = f.at(f.pc, f.depth, f.repeat - 1);
    Ok(Turn {
        flow,
        trap,
        ends: false,
    })
}
