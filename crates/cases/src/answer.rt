// The answer to a case. A slice that a call fills is counted up before.
ghost use Rattle.engine.specs.Decoded.{RunsDecoded};
ghost use Rattle.combine.specs.Call.{Combines};
ghost use Rattle.join.specs.Call.{Joins};

use crate::asked::Asked;
use accumulator::limit::Accumulator;
use combine::board::Board;
use combine::call::combine;
use engine::call::run;
use engine::decoded::run_decoded;
use engine::outcome::Outcome;
use join::call::join;
use lines::line;
use loader::file::load;
use loader::write::write;
use program::answer::Refusal;
use report::notice::Notice;
use report::verb::Verb;
use state::settings::Settings;
use state::state::State;
use stream::boards::boards;
use stream::count::count_up;
use stream::header::Header;
use text::line::Line;

// A call that fills a lent slice, and its line.
fn filled<F: FnOnce(&mut [u8]) -> Result<usize, Refusal>>(
    verb: Verb,
    out: &mut [u8],
    call: F,
) -> Line
    requires { F.IsAlwaysCallable call }
{
    count_up(out);
    let answer = call(out);
    line::filled_line(verb, answer, out)
}

// A join, by the promise of the call.
fn joined(first: &[u8], second: &[u8], out: &mut [u8]) -> Result<usize, Refusal>
    ensures { Joins first.now second.now out.old result out.new }
{
    join(first, second, out)
}

// A run.
fn ran(header: &Header, file: &[u8], memory: &mut [u16]) -> Outcome {
    run(
        file,
        header.settings(),
        header.state(),
        memory,
        header.budget(),
    )
}

// A run over decoded operations, by the promise of the call.
fn ran_decoded(
    file: &[u8],
    settings: Settings,
    state: State,
    memory: &mut [u16],
    budget: u32,
    slice: &mut [u16],
) -> Outcome
    ensures { RunsDecoded file.now settings state memory.old budget slice.old result memory.new slice.new }
{
    run_decoded(file, settings, state, memory, budget, slice)
}

// A run over decoded operations, and its line.
fn answer_decoded(header: &Header, file: &[u8], memory: &mut [u16], slice: &mut [u16]) -> Line {
    count_up(slice);
    let settings = header.settings();
    let outcome = ran_decoded(
        file,
        settings,
        header.state(),
        memory,
        header.budget(),
        slice,
    );
    line::decoded_run_line(outcome, memory, slice)
}

// Boards combined, by the promise of the call.
fn combined(boards: [Board; 8], count: usize, mode: u16) -> Result<Accumulator, Refusal>
    ensures { Combines boards count mode result }
{
    combine(boards, count, mode)
}

// Boards combined, and their line. The budget is their number, and the file has 9 bytes of each; where it has another length the line is `short`, and
// the stream goes on.
fn answer_combine(header: &Header, file: &[u8]) -> Line {
    let count = header.budget() as usize;
    if file.len() != 9 * count {
        return line::notice_line(Notice::Short);
    }
    line::combined_line(combined(boards(file, count), count, header.mode_word()))
}

// The line of a case.
pub fn answer(
    header: &Header,
    first: &[u8],
    second: &[u8],
    memory: &mut [u16],
    out: &mut [u8],
    slice: &mut [u16],
) -> Line {
    match Asked::from(header.what()) {
        Asked::Load => filled(Verb::Loaded, out, |out| load(first, out)),
        Asked::Write => filled(Verb::Wrote, out, |out| write(first, out)),
        Asked::Run => line::run_line(ran(header, first, memory), memory),
        Asked::LongRun => line::long_run_line(ran(header, first, memory), memory),
        Asked::Join => filled(Verb::Joined, out, |out| joined(first, second, out)),
        Asked::Decoded => answer_decoded(header, first, memory, slice),
        Asked::Combine => answer_combine(header, first),
        Asked::Unknown => line::notice_line(Notice::Unknown),
    }
}
