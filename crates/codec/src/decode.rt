// The operation that 8 bytes are.
ghost use Rattle.std.specs.Prelude.{◌≡◌};
ghost use Rattle.operations.specs.Decode.{target_of, action_of, prefetch_of, write_back_of, mac_of, arithmetic_of, post_of, operand_of, transfer_of, move_of};
ghost use Rattle.operations.specs.Decode.{control_operation_of, operation_of, decode_of};

use crate::encode::encode;
use crate::listed::is_listed;
use accumulator::mode::Target;
use operations::operation::{
    Action, MacClass, Operand, Operation, PostModification, Prefetch, WriteBack,
};

// A byte read as a target; `action_of`, `write_back_of` and `post_of` read theirs so. They read every byte, as the definitions of these names do, of types of
// another crate: a TryFrom would refuse what the definition does not.
fn target_of(b1: u8) -> Target
    ensures { result ≡ target_of b1 }
{
    if b1 == 0 { Target::A } else { Target::B }
}

fn action_of(kind: u8) -> Action
    ensures { result ≡ action_of kind }
{
    match kind {
        1 => Action::Clr,
        2 => Action::Mpy,
        3 => Action::Mac,
        4 => Action::Msc,
        5 => Action::Ed,
        6 => Action::Edac,
        _ => Action::Movsac,
    }
}

// The prefetch of b3, with 12 for the sum of two registers, or b4, with 13.
fn prefetch_of(b: u8, sum: u8) -> Prefetch
    ensures { result ≡ prefetch_of b sum }
{
    if b == 0 {
        return Prefetch::None;
    }
    if b == sum {
        return Prefetch::Sum;
    }
    Prefetch::Pointer {
        register: b % 16,
        c: b / 16,
    }
}

fn write_back_of(b6: u8) -> WriteBack
    ensures { result ≡ write_back_of b6 }
{
    match b6 {
        0 => WriteBack::None,
        1 => WriteBack::Register,
        _ => WriteBack::Memory,
    }
}

// Kinds 1 to 7.
fn mac_of(b: [u8; 8]) -> Operation
    ensures { result ≡ mac_of b }
{
    Operation::MacClass(MacClass {
        action: action_of(b[0]),
        target: target_of(b[1]),
        m: b[2] % 16,
        n: b[2] / 16,
        x: prefetch_of(b[3], 12),
        xto: b[5] % 16,
        y: prefetch_of(b[4], 13),
        yto: b[5] / 16,
        back: write_back_of(b[6]),
    })
}

// Kinds 8 to 11.
fn arithmetic_of(b: [u8; 8]) -> Operation
    ensures { result ≡ arithmetic_of b }
{
    let target = target_of(b[1]);
    match b[0] {
        8 => Operation::AddAccumulators { target },
        9 => Operation::Subtract { target },
        10 => Operation::Negate { target },
        _ => Operation::Shift { target, by: b[3] },
    }
}

// The form of a pointer: 1 memory, 2 memory then + 2, 3 memory then - 2.
fn post_of(form: u8) -> PostModification
    ensures { result ≡ post_of form }
{
    match form {
        1 => PostModification::None,
        2 => PostModification::Increment,
        _ => PostModification::Decrement,
    }
}

// The form of an operand: 0 direct, else its pointer's.
fn operand_of(register: u8, form: u8) -> Operand
    ensures { result ≡ operand_of register form }
{
    if form == 0 {
        Operand::Register(register)
    } else {
        Operand::Memory {
            pointer: register,
            post: post_of(form),
        }
    }
}

// Kinds 12 to 15.
fn transfer_of(b: [u8; 8]) -> Operation
    ensures { result ≡ transfer_of b }
{
    let target = target_of(b[1]);
    let shift = b[2];
    let operand = operand_of(b[3], b[4]);
    match b[0] {
        12 => Operation::Lac {
            target,
            shift,
            from: operand,
        },
        13 => Operation::Add {
            target,
            shift,
            from: operand,
        },
        14 => Operation::Sac {
            target,
            shift,
            to: operand,
        },
        _ => Operation::SacR {
            target,
            shift,
            to: operand,
        },
    }
}

// Kinds 16 to 18.
fn move_of(b: [u8; 8]) -> Operation
    ensures { result ≡ move_of b }
{
    let register = b[1];
    let value = u16::from_le_bytes([b[2], b[3]]);
    let pointer = b[3];
    let post = post_of(b[4]);
    match b[0] {
        16 => Operation::Literal {
            to: register,
            value,
        },
        17 => Operation::Load {
            to: register,
            pointer,
            post,
        },
        _ => Operation::Store {
            from: register,
            pointer,
            post,
        },
    }
}

// Kinds 19 to 25.
fn control_operation_of(b: [u8; 8]) -> Operation
    ensures { result ≡ control_operation_of b }
{
    let register = b[1];
    let first = u16::from_le_bytes([b[2], b[3]]);
    let last = u16::from_le_bytes([b[4], b[5]]);
    match b[0] {
        19 => Operation::Repeat { count: first },
        20 => Operation::RepeatRegister { register },
        21 => Operation::Do { count: first, last },
        22 => Operation::DoRegister { register, last },
        23 => Operation::EndEarly,
        24 => Operation::SetMode { word: first },
        _ => Operation::ClearSaturation,
    }
}

// The operation that 8 bytes are, if they are one.
#[tactic(auto, unfolding(operations::specs::Decode::operation_of))]
pub fn operation_of(b: [u8; 8]) -> Operation
    ensures { result ≡ operation_of b }
{
    match b[0] {
        0..=7 => mac_of(b),
        8..=11 => arithmetic_of(b),
        12..=15 => transfer_of(b),
        16..=18 => move_of(b),
        _ => control_operation_of(b),
    }
}

// 8 bytes taken as an operation: every field is in its range, and every byte that the operation does not use is 0.
#[tactic(auto, using(operations::proofs::Same::same_bytes), unfolding(operations::specs::Decode::decode_of))]
pub fn decode(b: [u8; 8]) -> Option<Operation>
    ensures { result ≡ decode_of b }
{
    let operation = operation_of(b);
    (is_listed(operation) && encode(operation) == b).then_some(operation)
}
