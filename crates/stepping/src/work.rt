// The work of kinds 1 to 18.
ghost use Rattle.std.specs.Prelude.{◌≤◌, length};
ghost use Rattle.form.specs.Words.{kind_in};
ghost use Rattle.fields.specs.Carried.{Carries, Accumulators};

use address::trap::Trap;
use fields::words::Coded;
use moves::arithmetic::arithmetic;
use moves::transfer::transfer;
use products::mac::mac;
use state::settings::Settings;

// The work of an operation, by a mode word; its exact result, if it has one. Registers and memory are written in place; with a trap nothing is.
pub fn work(
    coded: Coded,
    settings: Settings,
    mode: u16,
    acc: &[i64; 2],
    w: &mut [u16; 14],
    memory: &mut [u16],
) -> Result<Option<i64>, Trap>
    requires at_bound { kind_in coded.code.now coded.at ≤ 18 }
    requires xwords_in_bounds { settings.xwords ≤ length memory.old }
    requires accumulators { Accumulators acc.now }
    ensures { Carries settings mode coded.entry.code.now coded.entry.at acc.now w.old memory.old w.new memory.new result }
{
    match coded.kind() {
        0..=7 => mac(coded, settings, mode, acc, w, memory),
        8..=11 => Ok(Some(arithmetic(coded, acc, w)?)),
        _ => transfer(coded, settings, mode, acc, w, memory),
    }
}
