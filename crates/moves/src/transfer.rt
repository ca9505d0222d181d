// Kinds 12 to 18: accumulators and registers loaded from and stored to an operand, word 4 with the form in word 6.
ghost use Rattle.std.specs.Prelude.{true, ◌≡◌, ℕ, ◌≤◌, ◌<◌};
ghost use Rattle.accumulator.specs.Limit.{is_accumulator};
ghost use Rattle.accumulator.specs.Mode.{mode_of};
ghost use Rattle.accumulator.specs.Shift.{shift_of};
ghost use Rattle.effects.specs.Operations.{byte_shift, loaded_value};
ghost use Rattle.effects.specs.declared.effect.Value.TheVariants.{Scaled};
ghost use Rattle.machine.specs.Write.{value_word};
ghost use Rattle.form.specs.Words.{field, kind_in};
ghost use Rattle.fields.specs.Carried.{Carries, Accumulators};
ghost use Rattle.moves.specs.Transfer.{is_load, is_store, LoadsOperand, stored_by};

use accumulator::mode::Mode;
use accumulator::product::signed;
use accumulator::shift::shift;
use accumulator::store::store;
use address::trap::Trap;
use address::word::ByteAddress;
use effects::pointer::Purpose;
use fields::operand::{put_operand, reach_operand, read_operand, step_operand};
use fields::registers::{register, set_register};
use fields::words::Coded;
use state::settings::Settings;

// The shift of word 2, which is shift + 8.
fn shift_of(b2: u16) -> i64
    ensures { result ≡ byte_shift b2 }
{
    b2 as i64 - 8
}

// A word, signed, times 65,536, shifted.
fn loaded_value(x: u16, b2: u16) -> i64
    requires { b2 < 16 }
    ensures { result ≡ loaded_value x b2 }
{
    shift(signed(x) * 65536, shift_of(b2))
}

// An accumulator shifted, rounded or truncated.
fn stored_word(mode: u16, round: bool, v: i64, b2: u16) -> u16
    requires v_value { is_accumulator v ≡ true }
    requires b2_bound { b2 < 16 }
    ensures { result ≡ value_word (mode_of mode) (Scaled round (shift_of v (byte_shift b2))) }
{
    let stored = store(Mode::of(mode), round, shift(v, shift_of(b2)));
    stored.word
}

// The operand is read and its pointer changed; with a trap nothing is.
fn load(coded: Coded, settings: Settings, w: &mut [u16; 14], memory: &[u16]) -> Result<u16, Trap>
    requires at_bound { field coded.code.now coded.at 4 < 14 }
    requires at_bound_2 { field coded.code.now coded.at 6 ≤ 3 }
    ensures { LoadsOperand settings coded.entry.code.now coded.entry.at w.old memory.now w.new result }
{
    let r = coded.word(4);
    let form = coded.word(6);
    let a = ByteAddress(register(w, r));
    let x = read_operand(form, a, memory)?;
    step_operand(settings, Purpose::Read, form, r, a, w);
    Ok(x)
}

// 12 LAC, 13 ADD, 17 load to a register.
fn load_from(
    coded: Coded,
    settings: Settings,
    acc: &[i64; 2],
    w: &mut [u16; 14],
    memory: &[u16],
) -> Result<Option<i64>, Trap>
    requires at_value { is_load (kind_in coded.code.now coded.at) ≡ true }
    requires accumulators { Accumulators acc.now }
    ensures { (mode : ℕ) → Carries settings mode coded.entry.code.now coded.entry.at acc.now w.old memory.now w.new memory.now result }
{
    let x = load(coded, settings, w, memory)?;
    let which = coded.kind();
    if which == 17 {
        set_register(w, coded.word(1), x);
        return Ok(None);
    }
    let value = loaded_value(x, coded.word(2));
    if which == 12 {
        return Ok(Some(value));
    }
    let t = coded.target();
    Ok(Some(acc[t] + value))
}

// The word of kinds 14 SAC, 15 SAC.R and 18 store from a register.
fn word_of(coded: Coded, mode: u16, acc: &[i64; 2], w: &[u16; 14]) -> u16
    requires at_value { is_store (kind_in coded.code.now coded.at) ≡ true }
    requires accumulators { Accumulators acc.now }
    ensures { result ≡ value_word (mode_of mode) (stored_by coded.entry.code.now coded.entry.at acc.now w.now) }
{
    let which = coded.kind();
    if which == 18 {
        return register(w, coded.word(1));
    }
    let t = coded.target();
    stored_word(mode, which == 15, acc[t], coded.word(2))
}

// 14 SAC, 15 SAC.R, 18 store from a register.
fn store_to(
    coded: Coded,
    settings: Settings,
    mode: u16,
    acc: &[i64; 2],
    w: &mut [u16; 14],
    memory: &mut [u16],
) -> Result<Option<i64>, Trap>
    requires at_value { is_store (kind_in coded.code.now coded.at) ≡ true }
    requires accumulators { Accumulators acc.now }
    ensures { Carries settings mode coded.entry.code.now coded.entry.at acc.now w.old memory.old w.new memory.new result }
{
    let r = coded.word(4);
    let form = coded.word(6);
    let a = ByteAddress(register(w, r));
    reach_operand(form, a, memory.len())?;
    let x = word_of(coded, mode, acc, w);
    step_operand(settings, Purpose::Store, form, r, a, w);
    put_operand(form, r, a, x, w, memory);
    Ok(None)
}

// Kinds 12 to 18.
pub fn transfer(
    coded: Coded,
    settings: Settings,
    mode: u16,
    acc: &[i64; 2],
    w: &mut [u16; 14],
    memory: &mut [u16],
) -> Result<Option<i64>, Trap>
    requires bound { 11 < kind_in coded.code.now coded.at }
    requires at_bound { kind_in coded.code.now coded.at ≤ 18 }
    requires accumulators { Accumulators acc.now }
    ensures { Carries settings mode coded.entry.code.now coded.entry.at acc.now w.old memory.old w.new memory.new result }
{
    let which = coded.kind();
    if which == 16 {
        set_register(w, coded.word(1), coded.word(11));
        return Ok(None);
    }
    if (which == 12) | (which == 13) | (which == 17) {
        return load_from(coded, settings, acc, w, memory);
    }
    store_to(coded, settings, mode, acc, w, memory)
}
