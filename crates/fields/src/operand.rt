// The operand of kinds 12 to 15, 17 and 18, by its form, word 6: 0 a register, 1 memory at a pointer, 2 memory then + 2, 3 memory then - 2.
ghost use Rattle.std.specs.Prelude.{List, ◌≡◌, ℕ, ◌≤◌, ◌<◌, length};
ghost use Rattle.address.specs.Region.{all_words, access_trap};
ghost use Rattle.address.specs.Trap.{failed_by};
ghost use Rattle.operations.specs.Decode.{operand_of};
ghost use Rattle.state.specs.State.{register};
ghost use Rattle.effects.specs.Access.{operand_access, changed};
ghost use Rattle.effects.specs.Pointer.{raised_of};
ghost use Rattle.effects.specs.declared.pointer.Purpose.{Purpose};
ghost use Rattle.machine.specs.Write.{put_register, put_memory};
ghost use Rattle.fields.specs.Carried.{Reads};

use crate::pointer::moved;
use crate::read::read_at;
use crate::registers::set_register;
use address::region::Region;
use address::reversal::next;
use address::trap::Trap;
use address::word::ByteAddress;
use effects::pointer::Purpose;
use state::settings::Settings;

// An operand whose register holds a may be stored to in a memory of so many words.
pub fn reach_operand(form: u16, a: ByteAddress, words: usize) -> Result<(), Trap>
    ensures { (settings : Settings) (purpose : Purpose) (r : ℕ) (w : List ℕ) → register w r ≡ a.0 → failed_by result ≡ (operand_access settings purpose (operand_of r form) w words).trap }
{
    if form == 0 {
        return Ok(());
    }
    let _ = Region::all(words).access(a)?;
    Ok(())
}

// The word of an operand whose register holds a.
pub fn read_operand(form: u16, a: ByteAddress, memory: &[u16]) -> Result<u16, Trap>
    ensures { (settings : Settings) (purpose : Purpose) (r : ℕ) (w : List ℕ) → register w r ≡ a.0 → Reads result (operand_access settings purpose (operand_of r form) w (length memory.now)) w memory.now }
{
    if form == 0 {
        return Ok(a.0);
    }
    read_at(Region::all(memory.len()), a, memory)
}

// The address a of register r, two bytes on or, in a store by the bit-reversed register, at the next index.
fn raised(settings: Settings, purpose: Purpose, r: u16, a: ByteAddress) -> ByteAddress
    ensures { result.0 ≡ raised_of settings purpose r a.0 }
{
    let reversed = settings.reversed;
    match purpose {
        Purpose::Store if r == reversed.register as u16 => next(reversed.words, a),
        _ => moved(settings.x, r, a, 2),
    }
}

// The operand's pointer changes; a is what it held.
pub fn step_operand(
    settings: Settings,
    purpose: Purpose,
    form: u16,
    r: u16,
    a: ByteAddress,
    w: &mut [u16; 14],
)
    requires r_bound { r < 14 }
    requires form_bound { form ≤ 3 }
    ensures { (old : List ℕ) (words : ℕ) → register old r ≡ a.0 → w.new ≡ changed (operand_access settings purpose (operand_of r form) old words).change w.old }
{
    if form == 2 {
        let to = raised(settings, purpose, r, a);
        set_register(w, r, to.0);
    } else if form == 3 {
        let to = moved(settings.x, r, a, -2);
        set_register(w, r, to.0);
    }
}

// The word x to an operand without a trap; a is what its register held.
pub fn put_operand(form: u16, r: u16, a: ByteAddress, x: u16, w: &mut [u16; 14], memory: &mut [u16])
    requires r_bound { r < 14 }
    requires a_value { 0 < form → access_trap (all_words (length memory.old)) a.0 ≡ 0 }
    ensures w_after { (settings : Settings) (purpose : Purpose) (old : List ℕ) → register old r ≡ a.0 → w.new ≡ put_register (operand_access settings purpose (operand_of r form) old (length memory.old)).place x w.old }
    ensures memory_after { (settings : Settings) (purpose : Purpose) (old : List ℕ) → register old r ≡ a.0 → memory.new ≡ put_memory (operand_access settings purpose (operand_of r form) old (length memory.old)).place x memory.old }
{
    if form == 0 {
        set_register(w, r, x);
    } else {
        let i = a.word();
        let at = i.0;
        memory[at] = x;
    }
}
