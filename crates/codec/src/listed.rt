// Which operations are listed: the range of every field.
ghost use Rattle.std.specs.Prelude.{◌≡◌, ◌<◌};
ghost use Rattle.operations.specs.Encode.{action_byte};
ghost use Rattle.operations.specs.Listed.{is_register, is_factor, are_factors, is_prefetch, reads, is_destination, are_destinations, is_write_back, is_listed_mac};
ghost use Rattle.operations.specs.Listed.{is_listed_operand, is_count, is_listed};

use accumulator::mode::Mode;
use operations::operation::{Action, MacClass, Operand, Operation, Prefetch, WriteBack};

fn is_register(r: u8) -> bool
    ensures { result ≡ is_register r }
{
    r < 14
}

fn is_factor(r: u8) -> bool
    ensures { result ≡ is_factor r }
{
    (4..=7).contains(&r)
}

// The factors of kinds 1 to 7.
fn are_factors(action: Action, m: u8, n: u8) -> bool
    ensures { result ≡ are_factors (action_byte action) m n }
{
    match action {
        Action::Clr | Action::Movsac => m == 0 && n == 0,
        Action::Ed | Action::Edac => is_factor(m) && m == n,
        _ => is_factor(m) && is_factor(n),
    }
}

// A prefetch at one of two pointers, `first` and the next.
fn is_prefetch(first: u8, prefetch: Prefetch) -> bool
    requires { first < 14 }
    ensures { result ≡ is_prefetch first prefetch }
{
    match prefetch {
        Prefetch::None | Prefetch::Sum => true,
        Prefetch::Pointer { register, c } => {
            (register == first || register == first + 1) && c <= 6
        }
    }
}

// Whether there is a read.
pub fn reads(prefetch: Prefetch) -> bool
    ensures { result ≡ reads prefetch }
{
    !matches!(prefetch, Prefetch::None)
}

// A destination where there is a read, and none without it.
fn is_destination(prefetch: Prefetch, to: u8) -> bool
    ensures { result ≡ is_destination prefetch to }
{
    if reads(prefetch) {
        is_factor(to)
    } else {
        to == 0
    }
}

// The destinations of kinds 1 to 7.
fn are_destinations(action: Action, x: Prefetch, y: Prefetch, xto: u8, yto: u8) -> bool
    ensures { result ≡ are_destinations (action_byte action) x y xto yto }
{
    let both = reads(x) && reads(y);
    match action {
        Action::Ed | Action::Edac => both && is_factor(xto) && yto == 0,
        _ => is_destination(x, xto) && is_destination(y, yto) && !(both && xto == yto),
    }
}

// A write-back with a kind that may have one.
fn is_write_back(action: Action, back: WriteBack) -> bool
    ensures { result ≡ is_write_back (action_byte action) back }
{
    matches!(back, WriteBack::None)
        || matches!(
            action,
            Action::Clr | Action::Mac | Action::Msc | Action::Movsac
        )
}

// Kinds 1 to 7.
#[tactic(auto, unfolding(operations::specs::Listed::is_listed_mac))]
fn is_listed_mac(mac: MacClass) -> bool
    ensures { result ≡ is_listed_mac mac }
{
    are_factors(mac.action, mac.m, mac.n)
        && is_prefetch(8, mac.x)
        && is_prefetch(10, mac.y)
        && are_destinations(mac.action, mac.x, mac.y, mac.xto, mac.yto)
        && is_write_back(mac.action, mac.back)
}

// Kinds 12 to 15.
fn is_listed_operand(shift: u8, operand: Operand) -> bool
    ensures { result ≡ is_listed_operand shift operand }
{
    match operand {
        Operand::Register(register)
        | Operand::Memory {
            pointer: register,
            ..
        } => shift < 16 && is_register(register),
    }
}

// A count of REPEAT or DO.
fn is_count(n: u16) -> bool
    ensures { result ≡ is_count n }
{
    n < 32768
}

// Whether every field of an operation is in its range; that of a word of 16 bits its type gives.
#[tactic(auto, unfolding(operations::specs::Listed::is_listed))]
pub fn is_listed(operation: Operation) -> bool
    ensures { result ≡ is_listed operation }
{
    match operation {
        Operation::MacClass(mac) => is_listed_mac(mac),
        Operation::Shift { by, .. } => is_register(by),
        Operation::Lac { shift, from, .. } | Operation::Add { shift, from, .. } => {
            is_listed_operand(shift, from)
        }
        Operation::Sac { shift, to, .. } | Operation::SacR { shift, to, .. } => {
            is_listed_operand(shift, to)
        }
        Operation::Literal { to, .. } => is_register(to),
        Operation::Load { to, pointer, .. } => is_register(to) && is_register(pointer),
        Operation::Store { from, pointer, .. } => is_register(from) && is_register(pointer),
        Operation::Repeat { count } | Operation::Do { count, .. } => is_count(count),
        Operation::RepeatRegister { register } | Operation::DoRegister { register, .. } => {
            is_register(register)
        }
        Operation::SetMode { word } => Mode::is_good(word),
        Operation::AddAccumulators { .. }
        | Operation::Subtract { .. }
        | Operation::Negate { .. }
        | Operation::EndEarly
        | Operation::ClearSaturation => true,
    }
}
