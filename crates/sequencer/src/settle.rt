// The write of an exact result: limits, flags, traps 5 to 7.
ghost use Rattle.std.specs.Prelude.{true, cond, ◌≡◌, ◌<◌};
ghost use Rattle.accumulator.specs.Limit.{overflows};
ghost use Rattle.address.specs.Trap.{trap_code};
ghost use Rattle.operations.specs.Decode.{target_of};
ghost use Rattle.state.specs.Settings.{traps_overflow};
ghost use Rattle.machine.specs.Write.{overflow_trap, trap_after};
ghost use Rattle.sequencer.specs.Settled.{Settles};

use crate::sums::Sums;
use accumulator::limit::{Accumulator, kept, left, overflow, write};
use accumulator::mode::{Mode, Target};
use address::trap::Trap;
use state::settings::{traps_left, traps_overflow};

// The accumulator of a target's number.
fn target_of(t: usize) -> Target
    ensures { result ≡ target_of t }
{
    if t == 0 { Target::A } else { Target::B }
}

// The trap of an accumulator's overflow, with OVATE or OVBTE.
fn overflow_trap(traps: u16, target: Target) -> Option<Trap>
    ensures { trap_code result ≡ cond (traps_overflow traps target) (overflow_trap target) 0 }
{
    if !traps_overflow(traps, target) {
        return None;
    }
    match target {
        Target::A => Some(Trap::OverflowA),
        Target::B => Some(Trap::OverflowB),
    }
}

// The first trap of a result r: outside the limits, with saturation off and COVTE; then the overflow of what is kept.
fn trap_after(traps: u16, mode: Mode, target: Target, r: i64) -> Option<Trap>
    ensures { trap_code result ≡ trap_after traps mode target r }
{
    if left(mode, target, r) & (!mode.saturates(target) & traps_left(traps)) {
        return Some(Trap::LimitsLeft);
    }
    if overflow(kept(mode, target, r)) {
        return overflow_trap(traps, target);
    }
    None
}

impl Sums {
    // The result r is limited and written to accumulator t, by the trap word and the mode word; its trap.
    fn limit(&mut self, traps: u16, word: u16, t: usize, r: i64) -> Option<Trap>
        requires { t < 2 }
        ensures { Settles traps word t r self.old self.new result }
    {
        let mode = Mode::of(word);
        let target = target_of(t);
        let before = Accumulator {
            value: self.values[t],
            overflow: self.overflow[t],
            saturation: self.saturation[t],
        };
        let after = write(before, mode, target, r);
        self.values[t] = after.value;
        self.overflow[t] = after.overflow;
        self.saturation[t] = after.saturation;
        trap_after(traps, mode, target, r)
    }

    // The same of a result beyond 32 bits. Within the limits it is kept as it is, which is worth a way of its own: sums of a loop are often there.
    fn exceed_in(&mut self, traps: u16, word: u16, t: usize, r: i64) -> Option<Trap>
        requires t_bound { t < 2 }
        requires r_value { overflows r ≡ true }
        ensures { Settles traps word t r self.old self.new result }
    {
        let target = target_of(t);
        if left(Mode::of(word), target, r) {
            return self.limit(traps, word, t, r);
        }
        self.values[t] = r;
        self.overflow[t] = true;
        overflow_trap(traps, target)
    }

    // The same, for A and B by a call each: a test of a word is then one of a bit that is known.
    fn exceed(&mut self, traps: u16, word: u16, t: usize, r: i64) -> Option<Trap>
        requires t_bound { t < 2 }
        requires r_value { overflows r ≡ true }
        ensures { Settles traps word t r self.old self.new result }
    {
        if t == 0 {
            self.exceed_in(traps, word, 0, r)
        } else {
            self.exceed_in(traps, word, 1, r)
        }
    }

    // The same of any result. Within 32 bits nothing is limited and there is no trap.
    pub fn settle(&mut self, traps: u16, word: u16, t: usize, r: i64) -> Option<Trap>
        requires { t < 2 }
        ensures { Settles traps word t r self.old self.new result }
    {
        if overflow(r) {
            return self.exceed(traps, word, t, r);
        }
        self.values[t] = r;
        self.overflow[t] = false;
        None
    }
}
