// For each rule a check over many drawn cases.
use crate::{draw, rules};
use std::io;
use std::io::Stdout;

// The check over 20,000 cases of a rule, with numbers drawn from 1 on. A rule takes the check so far and two drawn numbers.
fn check_of<F: Fn(u32, u64, u64) -> u32>(rule: F) -> u32
    requires { F.IsAlwaysCallable rule }
{
    let mut h: u32 = 0;
    let mut x: u64 = 1;
    for _ in 0..20000 {
        let y = draw::after(x);
        x = draw::after(y);
        h = rule(h, y, x);
    }
    h
}

// The line of a rule's check.
fn print_check(stdout: Stdout, name: &str, check: u32) -> io::Result<()> {
    println!(stdout; "{name} 20000 {check}")
}

// The rules of accumulators.
fn print_accumulator_checks(stdout: Stdout) -> io::Result<()> {
    print_check(
        stdout,
        "product",
        check_of(|h, x, y| rules::product_case(h, x, y)),
    )?;
    print_check(
        stdout,
        "write",
        check_of(|h, x, y| rules::write_case(h, x, y)),
    )?;
    print_check(
        stdout,
        "store",
        check_of(|h, x, y| rules::store_case(h, x, y)),
    )?;
    print_check(
        stdout,
        "shift",
        check_of(|h, x, y| rules::shift_case(h, x, y)),
    )?;
    print_check(
        stdout,
        "status",
        check_of(|h, x, y| rules::status_case(h, x, y)),
    )?;
    print_check(stdout, "mode", check_of(|h, x, _| rules::mode_case(h, x)))
}

// The rules of addresses.
fn print_address_checks(stdout: Stdout) -> io::Result<()> {
    print_check(
        stdout,
        "trap",
        check_of(|h, x, y| rules::trap_case(h, x, y)),
    )?;
    print_check(
        stdout,
        "step",
        check_of(|h, x, y| rules::step_case(h, x, y)),
    )?;
    print_check(
        stdout,
        "reversal",
        check_of(|h, x, y| rules::reversal_case(h, x, y)),
    )
}

pub fn print_checks(stdout: Stdout) -> io::Result<()> {
    print_accumulator_checks(stdout)?;
    print_address_checks(stdout)
}
