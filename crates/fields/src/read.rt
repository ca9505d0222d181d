// Reads beside an operation: the word, or the trap.
ghost use Rattle.std.specs.Prelude.{cond, List, ◌≡◌, ℕ, ◌≤◌, ◌<◌, eqb, length, get_or};
ghost use Rattle.address.specs.Trap.{failed_by};
ghost use Rattle.address.specs.Word.{word_of};
ghost use Rattle.operations.specs.Decode.{write_back_of};
ghost use Rattle.state.specs.State.{register};
ghost use Rattle.effects.specs.Access.{access_at, region_of, sum_address, prefetch_access, back_access};
ghost use Rattle.effects.specs.declared.pointer.Change.{Change};
ghost use Rattle.form.specs.Words.{prefetch_in};
ghost use Rattle.fields.specs.Space.{sum_word};
ghost use Rattle.fields.specs.Carried.{Reads};

use crate::space::{region_of, sum_address, sum_word};
use address::region::Region;
use address::trap::Trap;
use address::word::ByteAddress;
use effects::access::Space;
use state::settings::Settings;

// The word at address a.
pub fn word_at(a: ByteAddress, memory: &[u16]) -> u16
    requires { word_of a.0 < length memory.now }
    ensures { result ≡ get_or memory.now (word_of a.0) 0 }
{
    memory[a.word().0]
}

// A read at address a in a region.
pub fn read_at(region: Region, a: ByteAddress, memory: &[u16]) -> Result<u16, Trap>
    requires { region.end.0 ≤ length memory.now }
    ensures { (w : List ℕ) (change : Change) → Reads result (access_at region a.0 change) w memory.now }
{
    let i = region.access(a)?;
    Ok(memory[i.0])
}

// The address of a prefetch: the sum of the space's registers, or the pointer's, a.
fn address_of(space: Space, r: u16, a: ByteAddress, w: &[u16; 14]) -> ByteAddress
    ensures { result.0 ≡ cond (eqb r (sum_word space)) (sum_address space w.now) a.0 }
{
    if r == sum_word(space) {
        sum_address(space, w)
    } else {
        a
    }
}

// A prefetch by the register r of word 4 or 6; a is what it holds.
pub fn prefetch(
    space: Space,
    settings: Settings,
    r: u16,
    a: ByteAddress,
    w: &[u16; 14],
    memory: &[u16],
) -> Result<u16, Trap>
    requires a_value { a.0 ≡ register w.now r }
    requires region_in_bounds { (region_of settings (length memory.now) space).end.0 ≤ length memory.now }
    ensures { (c : ℕ) → Reads result (prefetch_access settings space (prefetch_in r c (sum_word space)) w.now (length memory.now)) w.now memory.now }
{
    if r == 0 {
        return Ok(0);
    }
    let region = region_of(settings, memory.len(), space);
    read_at(region, address_of(space, r, a, w), memory)
}

// A write-back, word 10, may be done at address a, what W13 holds, in a memory of so many words.
pub fn reach_back(back: u16, a: ByteAddress, words: usize) -> Result<(), Trap>
    ensures { (settings : Settings) (w : List ℕ) → register w 13 ≡ a.0 → failed_by result ≡ (back_access settings (write_back_of back) w words).trap }
{
    if back < 2 {
        return Ok(());
    }
    let _ = Region::all(words).access(a)?;
    Ok(())
}
