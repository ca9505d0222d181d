// Refusal 5: where DO and REPEAT may stand.
ghost use Rattle.std.specs.Prelude.{◌≡◌, ◌≤◌, ◌<◌};
ghost use Rattle.program.specs.Layout.{operations_in};
ghost use Rattle.program.specs.Placement.{role_at, is_nested, is_repeat_placed, is_loop_placed, is_placed_as};

use crate::layout::Operations;
use crate::role::{ends_below, is_plain, is_repeat, role_in};
use program::placement::Role;

impl Operations<'_> {
    // The role of operation i.
    fn role(&self, i: usize) -> Role
        requires { i < self.now.count }
        ensures { result ≡ role_at (operations_in self.now.layout self.now.bytes.now self.now.count) i }
    {
        role_in(self.bytes, self.layout, i)
    }

    // Whether the loops inside a DO at d end below its last, e.
    fn is_nested(&self, d: usize, e: usize) -> bool
        requires d_le_e { d ≤ e }
        requires e_inside { e < self.now.count }
        ensures { result ≡ is_nested (operations_in self.now.layout self.now.bytes.now self.now.count) d e }
    {
        for j in 0..e - d {
            if !ends_below(e, self.role(d + 1 + j)) {
                return false;
            }
        }
        true
    }

    // Whether a REPEAT may be operation i.
    #[tactic(auto, using(program::proofs::Places::operations_length))]
    fn is_repeat_placed(&self, i: usize) -> bool
        requires { i < self.now.count }
        ensures { result ≡ is_repeat_placed (operations_in self.now.layout self.now.bytes.now self.now.count) i }
    {
        i + 1 < self.count && is_plain(self.role(i + 1))
    }

    // Whether a DO with last e may be operation d.
    #[tactic(auto, using(program::proofs::Places::operations_length))]
    fn is_loop_placed(&self, d: usize, e: usize) -> bool
        requires { d < self.now.count }
        ensures { result ≡ is_loop_placed (operations_in self.now.layout self.now.bytes.now self.now.count) d e }
    {
        d + 2 <= e && e < self.count && !is_repeat(self.role(e)) && self.is_nested(d, e)
    }

    // Whether an operation in this role may be operation i.
    pub fn is_placed_as(&self, i: usize, role: Role) -> bool
        requires { i < self.now.count }
        ensures { result ≡ is_placed_as (operations_in self.now.layout self.now.bytes.now self.now.count) i role }
    {
        match role {
            Role::Plain => true,
            Role::Repeats => self.is_repeat_placed(i),
            Role::Loops(last) => self.is_loop_placed(i, usize::from(last)),
        }
    }
}
