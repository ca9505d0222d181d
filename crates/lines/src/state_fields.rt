// The fields of a state and of memory, put on a line.
ghost use Rattle.std.specs.Prelude.{◌≡◌, ◌+◌, ◌≤◌, ◌++◌, length};
ghost use Rattle.report.specs.Line.{slot_field, slot_fields, sum_fields, control_fields, state_fields};

use state::state::{Core, Loops, State};
use text::check::check;
use text::item::Item;
use text::line::Line;

// A slot: DO's number and passes left.
fn push_slot(line: &mut Line, start: usize, left: u32)
    requires { length line.old + 42 ≤ 640 }
    ensures content { line.new ≡ line.old ++ slot_field start left }
    ensures upper_bound { length line.new ≤ length line.old + 42 }
{
    line.push_field(start);
    line.push_text(b":");
    left.push(line)
}

// The four slots, written out as `slot_fields` writes them: a loop over a zip is no shorter, and owes an invariant that builds the same four.
#[tactic(auto, unfolding(report::specs::Line::slot_fields))]
fn push_slots(line: &mut Line, loops: Loops)
    requires { length line.old + 168 ≤ 640 }
    ensures content { line.new ≡ line.old ++ slot_fields loops.starts loops.passes }
    ensures upper_bound { length line.new ≤ length line.old + 168 }
{
    push_slot(line, loops.starts[0], loops.passes[0]);
    push_slot(line, loops.starts[1], loops.passes[1]);
    push_slot(line, loops.starts[2], loops.passes[2]);
    push_slot(line, loops.starts[3], loops.passes[3])
}

// A, B, SR.
#[tactic(auto, unfolding(report::specs::Line::sum_fields))]
pub fn push_sums(line: &mut Line, core: Core, status: u16)
    requires { length line.old + 49 ≤ 640 }
    ensures content { line.new ≡ line.old ++ sum_fields core status }
    ensures upper_bound { length line.new ≤ length line.old + 49 }
{
    line.push_field(core.a);
    line.push_field(core.b);
    line.push_field(status)
}

// pc, repeat left, mode word, number of active loops, the four slots.
#[tactic(auto, unfolding(report::specs::Line::control_fields))]
fn push_control(line: &mut Line, core: Core)
    requires { length line.old + 236 ≤ 640 }
    ensures content { line.new ≡ line.old ++ control_fields core }
    ensures upper_bound { length line.new ≤ length line.old + 236 }
{
    line.push_field(core.pc);
    line.push_field(core.repeat);
    line.push_field(core.mode);
    line.push_field(core.loops.depth);
    push_slots(line, core.loops)
}

// The state, and the memory's check.
#[tactic(auto, unfolding(report::specs::Line::state_fields))]
pub fn push_state(line: &mut Line, state: State, memory: &[u16])
    requires { length line.old + 376 ≤ 640 }
    ensures content { line.new ≡ line.old ++ state_fields state memory.now }
    ensures upper_bound { length line.new ≤ length line.old + 376 }
{
    let core = state.core;
    push_sums(line, core, state.status());
    push_control(line, core);
    line.push_fields(&core.w);
    line.push_field(check(0, memory))
}
