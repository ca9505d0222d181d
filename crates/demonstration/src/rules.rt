// One drawn case of each rule: its results go into the check h.
use crate::draw;
use accumulator::limit::Accumulator;
use accumulator::mode::{Mode, Target};
use accumulator::product::Factor;
use accumulator::status::Status;
use accumulator::{limit, product, shift, store};
use address::region::{Region, trap};
use address::word::ByteAddress;
use address::{reversal, step};

pub fn product_case(h: u32, x: u64, y: u64) -> u32 {
    let mode = Mode::of(draw::mode_word(x));
    let m = Factor {
        word: draw::word(x),
        unsigned: mode.unsigned,
    };
    let n = Factor {
        word: draw::word(y),
        unsigned: mode.unsigned,
    };
    let g = draw::checked_signed(h, product::product(mode.integer, m, n));
    draw::checked_signed(g, product::square(mode.integer, n))
}

pub fn write_case(h: u32, x: u64, y: u64) -> u32 {
    let mode = Mode::of(draw::mode_word(y));
    let before = Accumulator {
        value: 0,
        overflow: false,
        saturation: draw::bit(x),
    };
    let r = draw::result(x, y);
    let target = if draw::bit(y) { Target::B } else { Target::A };
    let after = limit::write(before, mode, target, r);
    let left = limit::left(mode, target, r);
    let g = draw::checked_signed(h, after.value);
    let f = draw::checked_flag(draw::checked_flag(g, after.overflow), after.saturation);
    draw::checked_flag(f, left)
}

pub fn store_case(h: u32, x: u64, y: u64) -> u32 {
    let mode = Mode::of(draw::mode_word(x));
    let v = draw::stored(x, y);
    let rounded = store::store(mode, true, v);
    let truncated = store::store(mode, false, v);
    let g = draw::checked_flag(draw::checked(h, rounded.word as u64), rounded.limiting);
    draw::checked_flag(draw::checked(g, truncated.word as u64), truncated.limiting)
}

pub fn shift_case(h: u32, x: u64, y: u64) -> u32 {
    let v = draw::result(x, y);
    let n = draw::amount(x);
    if !limit::is_accumulator(v) || !shift::is_allowed(n) {
        return h;
    }
    draw::checked_signed(h, shift::shift(v, n))
}

pub fn status_case(h: u32, x: u64, y: u64) -> u32 {
    let status = Status {
        oa: x % 2 == 1,
        ob: x / 2 % 2 == 1,
        sa: x / 4 % 2 == 1,
        sb: x / 8 % 2 == 1,
        looping: y % 2 == 1,
        repeating: y / 2 % 2 == 1,
    };
    draw::checked(h, status.word() as u64)
}

pub fn mode_case(h: u32, x: u64) -> u32 {
    draw::checked_flag(h, Mode::is_good(draw::word(x)))
}

// The trap of an access, 0 none.
fn trap_number(region: Region, a: ByteAddress) -> u64 {
    match trap(region, a) {
        Some(t) => t.number() as u64,
        None => 0,
    }
}

pub fn trap_case(h: u32, x: u64, y: u64) -> u32 {
    let a = draw::early(x);
    let part = (y % 30) as usize;
    let words = part + (y / 32 % 30) as usize;
    let g = draw::checked(h, trap_number(Region::x_part(part), a));
    let f = draw::checked(g, trap_number(Region::y_part(part, words), a));
    draw::checked(f, trap_number(Region::all(words), a))
}

pub fn step_case(h: u32, x: u64, y: u64) -> u32 {
    let buffer = draw::buffer(x, y);
    let old = draw::beside(buffer, y);
    let by = draw::step(x);
    let plain = step::stepped(old, by);
    let circular = step::circular(buffer, old, by);
    draw::checked(draw::checked(h, plain.0 as u64), circular.0 as u64)
}

pub fn reversal_case(h: u32, x: u64, y: u64) -> u32 {
    let next = reversal::next(draw::power(x), ByteAddress(draw::word(y)));
    draw::checked(h, next.0 as u64)
}
