// A program file from standard input is run, and a line says how it ended: document 01's `tally`.
#![tactic(auto)]

ghost use Rattle.tally.specs.Tally.{Tallies};

use engine::call::run;
use input::read_full;
use lines::line::tally_line;
use state::settings::Settings;
use state::state::State;
use std::io;
use text::line::Line;

// The bytes that are read: one more than the 64 blocks of the largest file, so that a longer input is refused with 1.
const INPUT: usize = 32769;

// The line of a file's run: 1,024 words of X and 1,024 of Y, zeros, reset state, no correction, trap word 0, budget 100,000.
fn tally(file: &[u8]) -> Line
    ensures { Tallies file.now result }
{
    let mut memory = [0u16; 2048];
    let settings = Settings::plain(1024);
    let state = State::reset();
    let outcome = run(file, settings, state, &mut memory, 100000);
    tally_line(outcome)
}

fn main(rt: HostRuntime) -> io::Result<()> {
    let mut file = [0u8; INPUT];
    let size = read_full(&mut rt.stdin(), &mut file)?;
    rt.stdout().write_all(tally(&file[..size]).as_bytes())
}
