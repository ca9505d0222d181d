// The fields of a run and of its ending, put on a line.
ghost use Rattle.std.specs.Prelude.{◌≡◌, ◌+◌, ◌≤◌, ◌++◌, take, length};
ghost use Rattle.text.specs.Text.{before_zero, check_of};
ghost use Rattle.report.specs.Line.{line_end, ending_text, run_fields, all_registers, long_run_line, unended, tally_sums, of_no_refusal};

use crate::state_fields::{push_state, push_sums};
use endings::ending::Ending;
use engine::outcome::Outcome;
use text::check::check;
use text::line::Line;

// The length of a name that zeros fill up.
fn name_length(name: [u8; 9]) -> usize
    ensures name_value { take result name ≡ before_zero name }
    ensures upper_bound { result ≤ 9 }
{
    for (n, byte) in name.iter().enumerate() {
        if *byte == 0 {
            return n;
        }
    }
    name.len()
}

// An ending's name.
pub fn push_ending(line: &mut Line, ending: Ending)
    requires { length line.old + 9 ≤ 640 }
    ensures content { line.new ≡ line.old ++ ending_text ending }
    ensures upper_bound { length line.new ≤ length line.old + 9 }
{
    let name = ending.name();
    line.push_text(&name[..name_length(name)])
}

// The end of the line.
pub fn push_end(line: &mut Line)
    requires { length line.old + 1 ≤ 640 }
    ensures { line.new ≡ line.old ++ line_end }
{
    line.push_text(b"\n")
}

// The fields of a run: its ending, steps, the state, the memory's check.
#[tactic(auto, unfolding(report::specs::Line::run_fields))]
pub fn run_fields(outcome: Outcome, memory: &[u16]) -> Line
    ensures content { result ≡ run_fields outcome memory.now }
    ensures upper_bound { length result ≤ 406 }
{
    let mut line = Line::new();
    push_ending(&mut line, outcome.ending);
    line.push_field(outcome.steps);
    push_state(&mut line, outcome.state, memory);
    line
}

// The check of all 70 registers, set 0 first; sets 1 to 4 are zeros.
fn check_registers(w: [u16; 14]) -> u32
    ensures { result ≡ check_of (all_registers w) }
{
    check(check(0, &w), &[0u16; 56])
}

// The line of a run in the long form, but its end: the fields of a run, the set in use, the check of all registers, the task counts. Every step is of an
// operation in no task.
pub fn unended_long_run(outcome: Outcome, memory: &[u16]) -> Line
    ensures content { result ≡ unended (long_run_line outcome memory.now) }
    ensures upper_bound { length result ≤ 618 }
{
    let steps = outcome.steps;
    let mut line = run_fields(outcome, memory);
    line.push_text(b" 0");
    line.push_field(check_registers(outcome.state.core.w));
    line.push_fields(&[0, 0, 0, 0, 0, 0, 0, 0, steps]);
    line
}

// Steps, A, B and SR, unless the ending is a refusal.
#[tactic(auto, unfolding(report::specs::Line::tally_sums))]
pub fn push_tally(line: &mut Line, outcome: Outcome)
    requires { length line.old + 70 ≤ 640 }
    ensures content { line.new ≡ line.old ++ of_no_refusal outcome.ending (tally_sums outcome) }
    ensures upper_bound { length line.new ≤ length line.old + 70 }
{
    if let Ending::Refused(_) = outcome.ending {
        return;
    }
    line.push_field(outcome.steps);
    push_sums(line, outcome.state.core, outcome.state.status())
}
