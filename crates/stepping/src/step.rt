// One step over an operation's words.
ghost use Rattle.std.specs.Prelude.{Some, List, ◌≡◌, ℤ, ℕ, ◌≤◌, ◌<◌, length};
ghost use Rattle.operations.specs.declared.operation.Operation.{Operation};
ghost use Rattle.state.specs.declared.settings.Settings.{Settings};
ghost use Rattle.form.specs.Words.{field, kind_in};
ghost use Rattle.fields.specs.Carried.{Accumulators};
ghost use Rattle.sequencer.specs.Settled.{WritesResult};
ghost use Rattle.sequencer.specs.Standing.{Standing, Follows};
ghost use Rattle.stepping.specs.Turned.{held, Turns};

use crate::registers::Registers;
use crate::work::work;
use address::trap::Trap;
use fields::words::Coded;
use sequencer::flow::Flow;
use sequencer::sums::Sums;
use state::settings::Settings;

// A step made: where the run is, its trap 5 to 7, and whether it ends a leg: after REPEAT and after a new mode word.
#[derive(Clone, Copy)]
pub struct Turn {
    pub flow: Flow,
    pub trap: Option<Trap>,
    pub ends: bool,
}

// The result of an operation, if it has one, is written, by the trap word and a mode word; its trap.
fn write(coded: Coded, traps: u16, mode: u16, r: Option<i64>, sums: &mut Sums) -> Option<Trap>
    requires { (x : ℤ) → r ≡ Some x → kind_in coded.code.now coded.at ≤ 15 }
    ensures { WritesResult traps mode (field coded.entry.code.now coded.entry.at 1) r sums.old sums.new result }
{
    let Some(x) = r else {
        return None;
    };
    sums.settle(traps, mode, coded.target(), x)
}

// Kinds 1 to 18.
fn step_work(
    coded: Coded,
    settings: Settings,
    f: Flow,
    registers: &mut Registers,
    memory: &mut [u16],
) -> Result<Turn, Trap>
    requires at_bound { kind_in coded.code.now coded.at ≤ 18 }
    requires xwords_in_bounds { settings.xwords ≤ length memory.old }
    requires accumulators { Accumulators registers.old.sums.values }
    requires standing { Standing f }
    ensures { (p : List Operation) → Follows p coded.entry.code.now coded.entry.at f registers.old.loops → Turns p settings f (held registers.old memory.old) (held registers.new memory.new) result }
{
    let sums = &registers.sums;
    let r = work(
        coded,
        settings,
        f.mode,
        &sums.values,
        &mut registers.w,
        memory,
    )?;
    let trap = write(coded, settings.traps, f.mode, r, &mut registers.sums);
    let flow = registers.loops.advance(f);
    Ok(Turn {
        flow,
        trap,
        ends: false,
    })
}

// Kinds 19 to 22; trap 4 for a fifth loop.
fn step_begin(coded: Coded, f: Flow, registers: &mut Registers) -> Result<Turn, Trap>
    requires bound { 18 < kind_in coded.code.now coded.at }
    requires at_bound { kind_in coded.code.now coded.at ≤ 22 }
    requires standing { Standing f }
    ensures { (p : List Operation) (settings : Settings) (memory : List ℕ) → Follows p coded.entry.code.now coded.entry.at f registers.old.loops → Turns p settings f (held registers.old memory) (held registers.new memory) result }
{
    let which = coded.kind();
    if (20 < which) & (f.depth == 4) {
        return Err(Trap::LoopDepth);
    }
    let flow = registers.loops.begin(coded, f, &registers.w);
    Ok(Turn {
        flow,
        trap: None,
        ends: which < 21,
    })
}

// Kinds 23 end early, 24 mode word, 25 clears SA and SB.
fn step_control(coded: Coded, f: Flow, registers: &mut Registers) -> Turn
    requires bound { 22 < kind_in coded.code.now coded.at }
    requires standing { Standing f }
    ensures { (p : List Operation) (settings : Settings) (memory : List ℕ) → Follows p coded.entry.code.now coded.entry.at f registers.old.loops → Turns p settings f (held registers.old memory) (held registers.new memory) (Ok result) }
{
    let which = coded.kind();
    if which == 24 {
        let flow = registers.loops.advance(f.with_mode(coded.word(11)));
        return Turn {
            flow,
            trap: None,
            ends: true,
        };
    }
    if which == 23 {
        registers.loops.end_early(f);
    } else {
        registers.sums.saturation = [false; 2];
    }
    let flow = registers.loops.advance(f);
    Turn {
        flow,
        trap: None,
        ends: false,
    }
}

// The operation at pc is executed in place. With a trap 1 to 4, in `Err`, nothing changes and no step is made.
pub fn step(
    coded: Coded,
    settings: Settings,
    f: Flow,
    registers: &mut Registers,
    memory: &mut [u16],
) -> Result<Turn, Trap>
    requires xwords_in_bounds { settings.xwords ≤ length memory.old }
    requires accumulators { Accumulators registers.old.sums.values }
    requires standing { Standing f }
    ensures { (p : List Operation) → Follows p coded.entry.code.now coded.entry.at f registers.old.loops → Turns p settings f (held registers.old memory.old) (held registers.new memory.new) result }
{
    match coded.kind() {
        0..=18 => step_work(coded, settings, f, registers, memory),
        19..=22 => step_begin(coded, f, registers),
        _ => Ok(step_control(coded, f, registers)),
    }
}
