// The words of some operations of a program.
ghost use Rattle.std.specs.Prelude.{◌≡◌, ℕ, ◌+◌, ◌*◌, ◌≤◌, ◌<◌, MatchOption};
ghost use Rattle.form.specs.Form.{Encoded};

use fields::words::Coded;

// 16 words for each of `count` operations, from operation `first` on.
#[derive(Clone, Copy)]
pub struct Window<'a> {
    pub code: &'a [u16],
    pub first: usize,
    pub count: usize,
    pub ghost within: { first + count ≤ 4032 },
    pub ghost encoded: { (i : ℕ) → i < count → Encoded code.now (16 * i) },
}

impl<'a> Window<'a> {
    ghost use Rattle.legs.specs.Leg.{IsIn, Finds};

    // The words of operation pc, if it is in the window.
    pub fn operation(self, pc: usize) -> Option<Coded<'a>>
        ensures { MatchOption result (IsIn self.entry pc → ⊥) (λ coded. Finds self.entry pc coded.code.now coded.at) }
    {
        if (pc < self.first) | (self.first + self.count <= pc) {
            return None;
        }
        Some(Coded {
            code: self.code,
            at: 16 * (pc - self.first),
        })
    }
}
