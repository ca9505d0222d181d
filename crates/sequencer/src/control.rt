// Repeat left, loops and pc after an operation, and what kinds 19 to 23 do to them.
ghost use Rattle.std.specs.Prelude.{Bool, List, ◌≡◌, ℕ, ◌≤◌, ◌<◌, ℤ};
ghost use Rattle.operations.specs.declared.operation.Operation.{Operation};
ghost use Rattle.machine.specs.Control.{fallen, advanced, control_of, controlled};
ghost use Rattle.form.specs.Words.{kind_in, coded_at};
ghost use Rattle.sequencer.specs.Lent.{lent_core};
ghost use Rattle.sequencer.specs.Standing.{Lasts, Standing, Moves, count_in, Enters, EndsEarly, Follows};

use crate::flow::Flow;
use crate::loops::ActiveLoops;
use fields::registers::register;
use fields::words::Coded;

// The count of kinds 20 REPEAT and 22 DO by a register, all of it, and of 19 REPEAT and 21 DO, word 11.
fn count_of(coded: Coded, w: &[u16; 14]) -> u16
    ensures { result ≡ count_in coded.entry.code.now coded.entry.at w.now }
{
    match coded.kind() {
        20 | 22 => register(w, coded.word(1)),
        _ => coded.word(11),
    }
}

impl ActiveLoops {
    // The loop's last operation is done: another pass, or the loop ends.
    fn fall(&mut self, f: Flow) -> Flow
        requires standing { Standing f }
        requires depth_nonzero { 0 < f.depth }
        ensures moves { (p : List Operation) → Lasts p self.old f.depth → Moves p fallen f self.old self.new result }
        ensures mode_value { result.mode ≡ f.mode }
        ensures lasts_unchanged { self.new.lasts ≡ self.old.lasts }
    {
        let depth = f.depth;
        let inner = depth - 1;
        let start = self.starts[inner];
        let more = self.passes[inner];
        if 1 < more {
            self.passes[inner] = more - 1;
            return f.at(start + 1, depth, 0);
        }
        self.passes[inner] = 0;
        self.starts[inner] = 0;
        f.at(f.pc + 1, inner, 0)
    }

    // The operation at pc is executed: another repeat is due, or the next operation.
    pub fn advance(&mut self, f: Flow) -> Flow
        requires { Standing f }
        ensures moves { (p : List Operation) → Lasts p self.old f.depth → Moves p (advanced p) f self.old self.new result }
        ensures mode_value { result.mode ≡ f.mode }
        ensures lasts_unchanged { self.new.lasts ≡ self.old.lasts }
    {
        let pc = f.pc;
        let depth = f.depth;
        let left = f.repeat;
        if 1 < left {
            return f.at(pc, depth, left - 1);
        }
        if pc != self.lasts[depth] {
            return f.at(pc + 1, depth, 0);
        }
        self.fall(f)
    }

    // DO: a loop of n + 1 passes begins in the next slot.
    fn enter(&mut self, f: Flow, n: u16, last: u16) -> Flow
        requires standing { Standing f }
        requires depth_bound { f.depth < 4 }
        ensures { Enters f n last self.old self.new result }
    {
        let pc = f.pc;
        let depth = f.depth;
        let deeper = depth + 1;
        self.starts[depth] = pc;
        self.passes[depth] = n as u32 + 1;
        self.lasts[deeper] = last as usize;
        f.at(pc + 1, deeper, 0)
    }

    // Kinds 19 to 22: the following operation is repeated, or a loop begins.
    pub fn begin(&mut self, coded: Coded, f: Flow, w: &[u16; 14]) -> Flow
        requires bound { 18 < kind_in coded.code.now coded.at }
        requires at_bound { kind_in coded.code.now coded.at ≤ 22 }
        requires standing { Standing f }
        requires depth_bound { 20 < kind_in coded.code.now coded.at → f.depth < 4 }
        ensures lasts { (p : List Operation) → Follows p coded.entry.code.now coded.entry.at f self.old → Lasts p self.new result.depth }
        ensures result_after { (p : List Operation) (acc : List ℤ) (oflags : List Bool) → lent_core w.now acc oflags self.new.starts self.new.passes result ≡ controlled p (control_of (coded_at coded.entry.code.now coded.entry.at)) (lent_core w.now acc oflags self.old.starts self.old.passes f) }
        ensures mode_value { result.mode ≡ f.mode }
    {
        let n = count_of(coded, w);
        if coded.kind() < 21 {
            return f.at(f.pc + 1, f.depth, n as u32 + 1);
        }
        self.enter(f, n, coded.word(12))
    }

    // Kind 23: the innermost loop's passes left become the smaller of themselves and 1, or 2 near the loop's last place.
    pub fn end_early(&mut self, f: Flow)
        requires { Standing f }
        ensures passes { EndsEarly f self.old self.new }
        ensures starts_unchanged { self.new.starts ≡ self.old.starts }
        ensures lasts_unchanged { self.new.lasts ≡ self.old.lasts }
    {
        if f.depth == 0 {
            return;
        }
        let last = self.lasts[f.depth];
        let inner = f.depth - 1;
        let most = if (f.pc == last) | (f.pc + 1 == last) {
            2
        } else {
            1
        };
        self.passes[inner] = self.passes[inner].min(most);
    }
}
