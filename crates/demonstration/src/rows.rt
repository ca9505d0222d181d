// The rows of document 01's table that the accumulator rules and the addresses hold.
use accumulator::limit::Accumulator;
use accumulator::mode::{Mode, Target};
use accumulator::product::Factor;
use accumulator::{limit, product, shift, store};
use address::step::Buffer;
use address::word::ByteAddress;
use address::{reversal, step};
use std::io;
use std::io::Stdout;

// A line's end, and the name of the next row.
fn start_row(stdout: Stdout, name: &str) -> io::Result<()> {
    print!(stdout;
        "
{name}"
    )
}

// The product of two words by a mode word.
fn print_product(stdout: Stdout, mode: u16, m: u16, n: u16) -> io::Result<()> {
    let by = Mode::of(mode);
    let first = Factor {
        word: m,
        unsigned: by.unsigned,
    };
    let second = Factor {
        word: n,
        unsigned: by.unsigned,
    };
    print!(stdout; " {}", product::product(by.integer, first, second))
}

fn print_products(stdout: Stdout) -> io::Result<()> {
    print!(stdout; "A")?;
    print_product(stdout, Mode::reset(), 3, 0xfffe)?;
    start_row(stdout, "B")?;
    print_product(stdout, 0x0000, 0x8000, 0x8000)?;
    print_written(stdout, 0x0080, 0x8000_0000)?;
    print_written(stdout, 0x0000, 0x8000_0000)?;
    start_row(stdout, "C")?;
    print_product(stdout, 0x1001, 0xffff, 0xffff)
}

// A after r is written by a mode word, both its flags clear before.
fn print_written(stdout: Stdout, mode: u16, r: i64) -> io::Result<()> {
    let before = Accumulator {
        value: 0,
        overflow: false,
        saturation: false,
    };
    let after = limit::write(before, Mode::of(mode), Target::A, r);
    let overflow = if after.overflow { " O" } else { "" };
    let saturation = if after.saturation { " S" } else { "" };
    print!(stdout; " {}{overflow}{saturation}", after.value)
}

// The rounded store of v by a mode word.
fn print_rounded(stdout: Stdout, mode: u16, v: i64) -> io::Result<()> {
    let stored = store::store(Mode::of(mode), true, v);
    print!(stdout; " {:04x}", stored.word)
}

fn print_stores(stdout: Stdout) -> io::Result<()> {
    start_row(stdout, "D")?;
    print_rounded(stdout, 0x0020, 98304)?;
    print_rounded(stdout, 0x0020, 32768)?;
    print_rounded(stdout, 0x0020, -32768)?;
    print_rounded(stdout, 0x0022, 32768)?;
    start_row(stdout, "E")?;
    print_rounded(stdout, 0x0020, 2147450880)?;
    print_rounded(stdout, 0x0000, 2147450880)?;
    start_row(stdout, "F")?;
    print_written(stdout, 0x0090, 0x80_0000_0000)?;
    print_written(stdout, 0x0000, 0x80_0000_0000)
}

// v shifted by n, or trap 3.
fn print_shift(stdout: Stdout, v: i64, n: i64) -> io::Result<()> {
    if !limit::is_accumulator(v) {
        return Ok(());
    }
    if !shift::is_allowed(n) {
        return print!(stdout; " trap3");
    }
    print!(stdout; " {}", shift::shift(v, n))
}

fn print_address(stdout: Stdout, a: ByteAddress) -> io::Result<()> {
    print!(stdout; " {:04x}", a.0)
}

fn print_addresses(stdout: Stdout) -> io::Result<()> {
    let buffer = Buffer {
        start: ByteAddress(0x1100),
        last: ByteAddress(0x1107),
    };
    start_row(stdout, "G")?;
    print_address(stdout, step::circular(buffer, ByteAddress(0x1106), 4))?;
    start_row(stdout, "H")?;
    let second = reversal::next(8, ByteAddress(0x1200));
    print_address(stdout, second)?;
    print_address(stdout, reversal::next(8, second))
}

pub fn print_rows(stdout: Stdout) -> io::Result<()> {
    print_products(stdout)?;
    print_stores(stdout)?;
    print_addresses(stdout)?;
    start_row(stdout, "L")?;
    print_shift(stdout, -1, 16)?;
    print_shift(stdout, -1, 17)?;
    println!(stdout; "")
}
