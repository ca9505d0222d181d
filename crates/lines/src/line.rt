// The line of a case.
ghost use Rattle.std.specs.Prelude.{◌≡◌, ◌+◌, ◌≤◌, ◌++◌, length};
ghost use Rattle.report.specs.Line.{run_line, long_run_line, decoded_run_line, tally_line, step_text, step_line, verb_text, unless_refused, unless_numbered, filled_line, combined_fields, combined_line, combined_line_of, notice_text, notice_line};
ghost use Rattle.report.specs.Line.{service_text, service_text_of, bag_fields};

use crate::run_fields::{push_end, push_ending, push_tally, run_fields, unended_long_run};
use crate::state_fields::push_state;
use accumulator::limit::Accumulator;
use endings::ending::Ending;
use engine::outcome::Outcome;
use machine::single::SingleStep;
use program::answer::{Refusal, bytes, number};
use report::notice::Notice;
use report::verb::Verb;
use state::state::State;
use text::check::check;
use text::line::Line;

// The line of a run.
#[tactic(auto, unfolding(report::specs::Line::run_line))]
pub fn run_line(outcome: Outcome, memory: &[u16]) -> Line
    ensures { result ≡ run_line outcome memory.now }
{
    let mut line = run_fields(outcome, memory);
    push_end(&mut line);
    line
}

// The line of a run in the long form.
pub fn long_run_line(outcome: Outcome, memory: &[u16]) -> Line
    ensures { result ≡ long_run_line outcome memory.now }
{
    let mut line = unended_long_run(outcome, memory);
    push_end(&mut line);
    line
}

// The line of a run over decoded operations: that of a run in the long form, then the check of the lent slice's words.
#[tactic(auto, unfolding(report::specs::Line::decoded_run_line))]
pub fn decoded_run_line(outcome: Outcome, memory: &[u16], words: &[u16]) -> Line
    ensures { result ≡ decoded_run_line outcome memory.now words.now }
{
    let mut line = unended_long_run(outcome, memory);
    line.push_field(check(0, words));
    push_end(&mut line);
    line
}

// The line of `tally`: the ending, alone where it is a refusal.
#[tactic(auto, unfolding(report::specs::Line::tally_line))]
pub fn tally_line(outcome: Outcome) -> Line
    ensures { result ≡ tally_line outcome }
{
    let mut line = Line::new();
    push_ending(&mut line, outcome.ending);
    push_tally(&mut line, outcome);
    push_end(&mut line);
    line
}

// How a step ended: refused, done, trapped or made.
#[tactic(auto, unfolding(report::specs::Line::step_text))]
fn step_text(made: SingleStep) -> Line
    ensures content { result ≡ step_text made }
    ensures upper_bound { length result ≤ 9 }
{
    let mut line = Line::new();
    if made.refusal != 0 {
        push_ending(&mut line, Ending::Refused(made.refusal));
    } else if made.trap != 0 {
        push_ending(&mut line, Ending::Trap(made.trap));
    } else if made.counted {
        line.push_text(b"step");
    } else {
        push_ending(&mut line, Ending::Done);
    }
    line
}

// The line of a single step.
#[tactic(auto, unfolding(report::specs::Line::step_line))]
pub fn step_line(made: SingleStep, memory: &[u16]) -> Line
    ensures { result ≡ step_line made memory.now }
{
    let mut line = step_text(made);
    line.push_field(made.counted);
    push_state(&mut line, made.state, memory);
    push_end(&mut line);
    line
}

// The verb.
fn verb_text(verb: Verb) -> &'static [u8]
    ensures content { result.now ≡ verb_text verb }
    ensures upper_bound { length result.now ≤ 9 }
{
    match verb {
        Verb::Loaded => b"loaded",
        Verb::Wrote => b"written",
        Verb::Joined => b"joined",
    }
}

// A text, or the refusal in its place, where its number is not 0.
fn numbered_text(refusal: u8, text: &[u8]) -> Line
    requires { length text.now ≤ 9 }
    ensures content { result ≡ unless_numbered refusal text.now }
    ensures upper_bound { length result ≤ 9 }
{
    let mut line = Line::new();
    if refusal == 0 {
        line.push_text(text);
    } else {
        push_ending(&mut line, Ending::Refused(refusal));
    }
    line
}

// A text, or the refusal in its place.
#[tactic(auto, using(crate::proofs::Refusals::numbered_refused))]
fn answer_text<T>(answer: &Result<T, Refusal>, text: &[u8]) -> Line
    requires { length text.now ≤ 9 }
    ensures content { result ≡ unless_refused answer.now text.now }
    ensures upper_bound { length result ≤ 9 }
{
    numbered_text(number(answer), text)
}

// The line of a load, a write or a join: the verb or the refusal, the bytes written, the check of the lent slice.
#[tactic(auto, unfolding(report::specs::Line::filled_line))]
pub fn filled_line(verb: Verb, answer: Result<usize, Refusal>, slice: &[u8]) -> Line
    ensures { result ≡ filled_line verb answer slice.now }
{
    let mut line = answer_text(&answer, verb_text(verb));
    line.push_field(bytes(&answer));
    line.push_field(check(0, slice));
    push_end(&mut line);
    line
}

// A combined sum: A, OA, SA.
#[tactic(auto, unfolding(report::specs::Line::combined_fields))]
fn push_combined(line: &mut Line, sum: Accumulator)
    requires { length line.old + 34 ≤ 640 }
    ensures content { line.new ≡ line.old ++ combined_fields sum }
    ensures upper_bound { length line.new ≤ length line.old + 34 }
{
    line.push_text(b"combined");
    line.push_field(sum.value);
    line.push_field(sum.overflow);
    line.push_field(sum.saturation)
}

// The line of combined boards: the sum or the refusal of this number.
#[tactic(auto, unfolding(report::specs::Line::combined_line_of))]
pub fn combined_line_of(answer: Result<Accumulator, u8>) -> Line
    ensures { result ≡ combined_line_of answer }
{
    let mut line = Line::new();
    match answer {
        Ok(sum) => push_combined(&mut line, sum),
        Err(refusal) => push_ending(&mut line, Ending::Refused(refusal)),
    }
    push_end(&mut line);
    line
}

// The line of combined boards: the sum or the refusal.
#[tactic(auto, unfolding(report::specs::Line::combined_line, report::specs::Line::combined_line_of))]
pub fn combined_line(answer: Result<Accumulator, Refusal>) -> Line
    ensures { result ≡ combined_line answer }
{
    match answer {
        Ok(sum) => combined_line_of(Ok(sum)),
        Err(refusal) => combined_line_of(Err(refusal.number())),
    }
}

// The line of a case that has no answer.
#[tactic(auto, unfolding(report::specs::Line::notice_line))]
pub fn notice_line(notice: Notice) -> Line
    ensures { result ≡ notice_line notice }
{
    let mut line = Line::new();
    match notice {
        Notice::Short => line.push_text(b"short"),
        Notice::TooLarge => line.push_text(b"toolarge"),
        Notice::Unknown => line.push_text(b"unknown"),
    }
    push_end(&mut line);
    line
}

// The line of a service up to its bags: whether it was served or, by its number, refused, the state, the checks of memory, ending codes and steps.
#[tactic(auto, unfolding(report::specs::Line::service_text_of))]
pub fn service_text_of(
    refusal: u8,
    state: State,
    memory: &[u16],
    endings: &[u8],
    steps: &[u32],
) -> Line
    ensures { result ≡ service_text_of refusal state memory.now endings.now steps.now }
{
    let mut line = numbered_text(refusal, b"served");
    push_state(&mut line, state, memory);
    line.push_field(check(0, endings));
    line.push_field(check(0, steps));
    line
}

// The same by the service's answer.
#[tactic(auto, using(crate::proofs::Refusals::numbered_refused), unfolding(report::specs::Line::service_text, report::specs::Line::service_text_of))]
pub fn service_text<T>(
    answer: &Result<T, Refusal>,
    state: State,
    memory: &[u16],
    endings: &[u8],
    steps: &[u32],
) -> Line
    ensures { result ≡ service_text answer.now state memory.now endings.now steps.now }
{
    service_text_of(number(answer), state, memory, endings, steps)
}

// The fields of a bag: its ending's code and its steps.
#[tactic(auto, unfolding(report::specs::Line::bag_fields))]
pub fn bag_text(ending: u8, steps: u32) -> Line
    ensures { result ≡ bag_fields ending steps }
{
    let mut line = Line::new();
    line.push_field(u16::from(ending));
    line.push_field(steps);
    line
}
