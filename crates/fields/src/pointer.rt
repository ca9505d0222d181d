// Pointers stepped in place.
ghost use Rattle.std.specs.Prelude.{List, ◌≡◌, ℕ, ◌<◌, set};
ghost use Rattle.operations.specs.Decode.{write_back_of};
ghost use Rattle.state.specs.State.{register};
ghost use Rattle.effects.specs.Access.{prefetch_access, back_access, changed};
ghost use Rattle.effects.specs.Pointer.{moved_of, step_of};
ghost use Rattle.form.specs.Words.{prefetch_in};
ghost use Rattle.fields.specs.Space.{sum_word};

use crate::registers::set_register;
use crate::space::{circular_for, sum_word};
use address::step::{circular, stepped};
use address::word::ByteAddress;
use effects::access::Space;
use state::settings::{Circular, Settings};

// The address a of register r, stepped: corrected in the circular register alone.
pub fn moved(circle: Circular, r: u16, a: ByteAddress, step: i16) -> ByteAddress
    ensures { result.0 ≡ moved_of circle r a.0 step }
{
    if r == circle.register as u16 {
        circular(circle.buffer, a, step)
    } else {
        stepped(a, step)
    }
}

// A prefetch's step.
fn step_of(c: u16) -> i16
    requires { c < 16 }
    ensures { result ≡ step_of c }
{
    2 * (c as i16 - 3)
}

// The pointer r of a prefetch steps by its c; a is what it held.
pub fn step_pointer(circle: Circular, r: u16, a: ByteAddress, c: u16, w: &mut [u16; 14])
    requires r_bound { r < 14 }
    requires c_bound { c < 16 }
    ensures { w.new ≡ set w.old r (moved_of circle r a.0 (step_of c)) }
{
    let to = moved(circle, r, a, step_of(c));
    set_register(w, r, to.0);
}

// The pointer of a prefetch, word 4 or 6, steps by word 5 or 7, where there is one; a is what it held.
pub fn step_prefetch(
    space: Space,
    settings: Settings,
    r: u16,
    a: ByteAddress,
    c: u16,
    w: &mut [u16; 14],
)
    requires r_bound { r < 14 }
    requires c_bound { c < 16 }
    ensures { (old : List ℕ) (words : ℕ) → register old r ≡ a.0 → w.new ≡ changed (prefetch_access settings space (prefetch_in r c (sum_word space)) old words).change w.old }
{
    if (r != 0) & (r != sum_word(space)) {
        step_pointer(circular_for(settings, space), r, a, c, w);
    }
}

// W13 after a write-back to memory; a is what it held.
pub fn step_back(settings: Settings, back: u16, a: ByteAddress, w: &mut [u16; 14])
    ensures { (old : List ℕ) (words : ℕ) → register old 13 ≡ a.0 → w.new ≡ changed (back_access settings (write_back_of back) old words).change w.old }
{
    if 1 < back {
        let to = moved(settings.x, 13, a, 2);
        w[13] = to.0;
    }
}
