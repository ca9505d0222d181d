// Load and write requests from standard input, each answered by a line on standard output: the refusal's number or 0, the bytes written,
// and a check number over the whole lent slice after the call.
#![tactic(auto)]

use input::read_full;
use loader::file::load;
use loader::write::write;
use program::answer::{bytes, number};
use std::io;
use std::io::{Stdin, Stdout};

// What a request has room for.
#[derive(Drop)]
struct Buffers {
    input: [u8; 33792],
    out: [u8; 33792],
}

// The check number of all bytes: for each byte b in order c becomes 31 c + b modulo 65,536.
fn check(bytes: &[u8]) -> u16 {
    bytes.iter().fold(
        0,
        |c: u16, b| c.wrapping_mul(31).wrapping_add(u16::from(*b)),
    )
}

// What is asked for.
#[derive(Clone, Copy, Debug, PartialEq, Eq)]
enum Asked {
    Load,
    Write,
}

impl From<u8> for Asked {
    fn from(call: u8) -> Asked {
        match call {
            0 => Asked::Load,
            _ => Asked::Write,
        }
    }
}

// A load or a write of the input, and its line.
fn answer(stdout: Stdout, asked: Asked, input: &[u8], out: &mut [u8]) -> io::Result<()> {
    let answer = match asked {
        Asked::Load => load(input, out),
        Asked::Write => write(input, out),
    };
    let check = check(out);
    println!(stdout; "{} {} {check}", number(&answer), bytes(&answer))
}

// One request: call, room, length of the input, input. The simulator makes none that is longer than the buffers; it would have no answer, and what
// follows it would be out of step.
fn request(mut stdin: Stdin, stdout: Stdout, buffers: &mut Buffers) -> io::Result<()> {
    let mut head = [0u8; 5];
    read_full(&mut stdin, &mut head)?;
    let [call, r0, r1, s0, s1] = head;
    let Some(input) = buffers
        .input
        .get_mut(..u16::from_le_bytes([s0, s1]) as usize)
    else {
        return Ok(());
    };
    let Some(out) = buffers.out.get_mut(..u16::from_le_bytes([r0, r1]) as usize) else {
        return Ok(());
    };
    read_full(&mut stdin, input)?;
    out.fill(165);
    answer(stdout, Asked::from(call), input, out)
}

fn main(rt: HostRuntime) -> io::Result<()> {
    let mut stdin = rt.stdin();
    let mut count = [0u8; 2];
    read_full(&mut stdin, &mut count)?;
    let mut buffers = Buffers {
        input: [0; 33792],
        out: [0; 33792],
    };
    for _ in 0..u16::from_le_bytes(count) {
        request(stdin, rt.stdout(), &mut buffers)?;
    }
    Ok(())
}
