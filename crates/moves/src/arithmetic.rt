// Kinds 8 to 11.
ghost use Rattle.std.specs.Prelude.{true, cond, List, ◌≡◌, ℕ, ◌≤◌, ◌<◌};
ghost use Rattle.integers.specs.Bits.{signed_of};
ghost use Rattle.accumulator.specs.Limit.{is_accumulator};
ghost use Rattle.accumulator.specs.Shift.{shift_of, shift_allowed};
ghost use Rattle.address.specs.declared.trap.Trap.TheVariants.{ShiftAmount};
ghost use Rattle.state.specs.declared.settings.Settings.{Settings};
ghost use Rattle.form.specs.Words.{kind_in};
ghost use Rattle.fields.specs.Carried.{Carries, Accumulators, always};

use accumulator::product::signed;
use accumulator::shift::{is_allowed, shift};
use address::trap::Trap;
use fields::registers::register;
use fields::words::Coded;

// An accumulator shifted by the signed value of a word.
fn shift_by(v: i64, x: u16) -> Result<i64, Trap>
    requires { is_accumulator v ≡ true }
    ensures { result ≡ cond (shift_allowed (signed_of 16 x)) (Ok (shift_of v (signed_of 16 x))) (Err ShiftAmount) }
{
    let n = signed(x);
    if !is_allowed(n) {
        return Err(Trap::ShiftAmount);
    }
    Ok(shift(v, n))
}

// 8 A + B, 9 target minus other, 10 negate, 11 shift.
pub fn arithmetic(coded: Coded, acc: &[i64; 2], w: &[u16; 14]) -> Result<i64, Trap>
    requires bound { 7 < kind_in coded.code.now coded.at }
    requires at_bound { kind_in coded.code.now coded.at ≤ 11 }
    requires accumulators { Accumulators acc.now }
    ensures { (settings : Settings) (mode : ℕ) (memory : List ℕ) → Carries settings mode coded.entry.code.now coded.entry.at acc.now w.now memory w.now memory (always result) }
{
    let t = coded.target();
    let v = acc[t];
    match coded.kind() {
        8 => Ok(acc[0] + acc[1]),
        9 => Ok(v - acc[1 - t]),
        10 => Ok(-v),
        _ => shift_by(v, register(w, coded.word(4))),
    }
}
