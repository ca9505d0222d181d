// The 8 bytes of an operation.
ghost use Rattle.std.specs.Prelude.{◌≡◌};
ghost use Rattle.operations.specs.Encode.{nibbles, prefetch_byte, mac_bytes, pointer_byte, form_byte};
ghost use Rattle.operations.specs.Encode.{operand_bytes, pointer_bytes, word_bytes, encode_of};

use accumulator::mode::Target;
use operations::operation::{MacClass, Operand, Operation, PostModification, Prefetch};

// Two nibbles in a byte.
fn nibble_byte(low: u8, high: u8) -> u8
    ensures { result ≡ nibbles low high }
{
    low % 16 + 16 * (high % 16)
}

// A prefetch; at the sum of two registers it is that sum's own byte.
fn prefetch_byte(prefetch: Prefetch, sum: u8) -> u8
    ensures { result ≡ prefetch_byte prefetch sum }
{
    match prefetch {
        Prefetch::None => 0,
        Prefetch::Pointer { register, c } => nibble_byte(register, c),
        Prefetch::Sum => sum,
    }
}

// Kinds 1 to 7.
fn mac_bytes(mac: MacClass) -> [u8; 8]
    ensures { result ≡ mac_bytes mac }
{
    let b2 = nibble_byte(mac.m, mac.n);
    let b3 = prefetch_byte(mac.x, 12);
    let b4 = prefetch_byte(mac.y, 13);
    let b5 = nibble_byte(mac.xto, mac.yto);
    [
        mac.action as u8,
        mac.target as u8,
        b2,
        b3,
        b4,
        b5,
        mac.back as u8,
        0,
    ]
}

// The register of an operand.
fn pointer_byte(operand: Operand) -> u8
    ensures { result ≡ pointer_byte operand }
{
    match operand {
        Operand::Register(register) => register,
        Operand::Memory { pointer, .. } => pointer,
    }
}

// The form of an operand: 0 direct, else its pointer's.
fn form_byte(operand: Operand) -> u8
    ensures { result ≡ form_byte operand }
{
    match operand {
        Operand::Register(_) => 0,
        Operand::Memory { post, .. } => post as u8,
    }
}

// Kinds 12 to 15.
fn operand_bytes(kind: u8, target: Target, shift: u8, operand: Operand) -> [u8; 8]
    ensures { result ≡ operand_bytes kind target shift operand }
{
    let b3 = pointer_byte(operand);
    let b4 = form_byte(operand);
    [kind, target as u8, shift, b3, b4, 0, 0, 0]
}

// Kinds 17 and 18.
fn pointer_bytes(kind: u8, register: u8, pointer: u8, post: PostModification) -> [u8; 8]
    ensures { result ≡ pointer_bytes kind register pointer post }
{
    [kind, register, 0, pointer, post as u8, 0, 0, 0]
}

// A kind with b1, a word in b2-3 and one in b4-5.
fn word_bytes(kind: u8, b1: u8, first: u16, second: u16) -> [u8; 8]
    ensures { result ≡ word_bytes kind b1 first second }
{
    let [b2, b3] = first.to_le_bytes();
    let [b4, b5] = second.to_le_bytes();
    [kind, b1, b2, b3, b4, b5, 0, 0]
}

// The 8 bytes of an operation.
#[tactic(auto, unfolding(operations::specs::Encode::encode_of))]
pub fn encode(operation: Operation) -> [u8; 8]
    ensures { result ≡ encode_of operation }
{
    match operation {
        Operation::MacClass(mac) => mac_bytes(mac),
        Operation::AddAccumulators { target } => word_bytes(8, target as u8, 0, 0),
        Operation::Subtract { target } => word_bytes(9, target as u8, 0, 0),
        Operation::Negate { target } => word_bytes(10, target as u8, 0, 0),
        Operation::Shift { target, by } => [11, target as u8, 0, by, 0, 0, 0, 0],
        Operation::Lac {
            target,
            shift,
            from,
        } => operand_bytes(12, target, shift, from),
        Operation::Add {
            target,
            shift,
            from,
        } => operand_bytes(13, target, shift, from),
        Operation::Sac { target, shift, to } => operand_bytes(14, target, shift, to),
        Operation::SacR { target, shift, to } => operand_bytes(15, target, shift, to),
        Operation::Literal { to, value } => word_bytes(16, to, value, 0),
        Operation::Load { to, pointer, post } => pointer_bytes(17, to, pointer, post),
        Operation::Store {
            from,
            pointer,
            post,
        } => pointer_bytes(18, from, pointer, post),
        Operation::Repeat { count } => word_bytes(19, 0, count, 0),
        Operation::RepeatRegister { register } => word_bytes(20, register, 0, 0),
        Operation::Do { count, last } => word_bytes(21, 0, count, last),
        Operation::DoRegister { register, last } => word_bytes(22, register, 0, last),
        Operation::EndEarly => word_bytes(23, 0, 0, 0),
        Operation::SetMode { word } => word_bytes(24, 0, word, 0),
        Operation::ClearSaturation => word_bytes(25, 0, 0, 0),
    }
}
