// What an operation is to those around it, and which of its bytes say so.
ghost use Rattle.std.specs.Prelude.{◌≡◌, ℕ, ◌+◌, ◌≤◌, ◌<◌, length};
ghost use Rattle.program.specs.Layout.{place_of, operations_in};
ghost use Rattle.program.specs.Placement.{role_of, role_by_kind, role_at, is_plain, is_repeat, last_of, ends_below};

use crate::bytes::word_at_byte;
use crate::layout::place;
use operations::operation::Operation;
use program::layout::Layout;
use program::placement::Role;

// The role of an operation.
pub fn role_of(operation: Operation) -> Role
    ensures { result ≡ role_of operation }
{
    match operation {
        Operation::Repeat { .. } | Operation::RepeatRegister { .. } => Role::Repeats,
        Operation::Do { last, .. } | Operation::DoRegister { last, .. } => Role::Loops(last),
        _ => Role::Plain,
    }
}

// The role of an operation by its kind; `last` is its word b4-5.
fn role_by_kind(kind: u8, last: u16) -> Role
    ensures { result ≡ role_by_kind kind last }
{
    match kind {
        19 | 20 => Role::Repeats,
        21 | 22 => Role::Loops(last),
        _ => Role::Plain,
    }
}

// Whether this is the role of an operation that is neither REPEAT nor DO.
pub fn is_plain(role: Role) -> bool
    ensures { result ≡ is_plain role }
{
    role == Role::Plain
}

// Whether this is the role of a REPEAT.
pub fn is_repeat(role: Role) -> bool
    ensures { result ≡ is_repeat role }
{
    role == Role::Repeats
}

// The last operation of a DO in this role; 0 of any other, and no Option, as the definition last_of has it.
pub fn last_of(role: Role) -> usize
    ensures { result ≡ last_of role }
{
    match role {
        Role::Loops(last) => usize::from(last),
        _ => 0,
    }
}

// Whether a DO in this role has its last below e.
pub fn ends_below(e: usize, role: Role) -> bool
    ensures { result ≡ ends_below e role }
{
    match role {
        Role::Loops(last) => usize::from(last) < e,
        _ => true,
    }
}

// The role of operation i, in a program of any n that holds it.
pub fn role_in(s: &[u8], layout: Layout, i: usize) -> Role
    requires i_bound { i < 65536 }
    requires i_in_bounds { place_of layout i + 8 ≤ length s.now }
    ensures { (n : ℕ) → i < n → result ≡ role_at (operations_in layout s.now n) i }
{
    let at = place(layout, i);
    role_by_kind(s[at], word_at_byte(s, at + 4))
}
